//! Logs as their manifest has them.

ghost use Rattle.std.specs.Prelude.{◌≡◌, List, IsTrue, IsErrOf, IfOk, OnOk};
ghost use Rattle.std.specs.FinMap as map;
ghost use Rattle.bk_manifest_disk.specs.Opening.{hidden_from, adopted_length, reported, HasFound, AreLimited, Lacks};
ghost use Rattle.bk_manifest.specs.Fact.{Fact};
ghost use Rattle.bk_manifest.specs.State.{IsStateOf};
ghost use Rattle.bk_manifest_disk.specs.declared.lack.Lack.{Lack};

use crate::{Cause, Fault, Finding, LimitedDisk, Report, find_lack, finding_of};
use bk_disk::{CutDisk, LogDisk};
use bk_manifest::State;
use std::alloc::{AllocError, Global};
use std::collections::BTreeMap;

/// Logs of which the bytes that their manifest does not believe are hidden.
#[derive(Drop)]
pub struct Limited<D: CutDisk> {
    pub disk: LimitedDisk<D>,
    /// What is hidden, in order of the logs.
    pub reports: Vec<Report>,
    /// Logs that the manifest does not know, or has as removed, with the number of their bytes that
    /// are shown.
    pub adopted: Vec<(u32, u64)>,
}

/// What was found of the logs so far.
#[derive(Drop)]
pub(crate) struct Found {
    pub(crate) lengths: BTreeMap<u32, u64>,
    pub(crate) limits: BTreeMap<u32, u64>,
    pub(crate) reports: Vec<Report>,
    pub(crate) adopted: Vec<(u32, u64)>,
}

/// Returns the position from which on a log is hidden.
fn hidden_from(finding: Finding) -> Option<u64>
    ensures { result ≡ hidden_from finding }
{
    match finding {
        Finding::Longer { durable, .. } => Some(durable),
        Finding::Unpublished { .. } => Some(0),
        Finding::Back { durable, length } => Some(durable.min(length)),
        _ => None,
    }
}

/// Returns the durable length that an opening records of a log.
fn adopted_length(finding: Finding) -> Option<u64>
    ensures { result ≡ adopted_length finding }
{
    match finding {
        Finding::Unknown { length } => Some(length),
        Finding::Back { .. } => hidden_from(finding),
        _ => None,
    }
}

/// Returns what an opening reports of a log.
pub fn report_of(log: u32, finding: Finding) -> Option<Report>
    ensures { result ≡ reported log finding }
{
    let (from, length, cause) = match finding {
        Finding::Longer { durable, length } => (durable, length, Cause::NotDurable),
        Finding::Unpublished { length } => (0, length, Cause::NeverDurable),
        Finding::Back { durable, length } => (durable.min(length), length, Cause::Back),
        _ => return None,
    };
    Some(Report {
        log,
        from,
        bytes: length.saturating_sub(from),
        cause,
    })
}

impl Found {
    ghost use Rattle.bk_manifest_disk.specs.Opening.{known, finding_at};
    ghost use Rattle.bk_manifest_disk.specs.Adding.{Adds, IsNew};

    fn new(alloc: Global) -> Found
        ensures { IsNew result }
    {
        Found {
            lengths: BTreeMap::new(alloc),
            limits: BTreeMap::new(alloc),
            reports: Vec::new(alloc),
            adopted: Vec::new(alloc),
        }
    }

    /// Adds a log of this length, by what its manifest says.
    fn add(&mut self, state: &State, log: u32, length: u64) -> Result<(), AllocError>
        ensures { OnOk result (Adds self.old log length (finding_at (known state.now log) length) self.new) }
    {
        let finding = finding_of(state.log(log), Some(length));
        self.lengths.insert(log, length)?;
        if let Some(from) = hidden_from(finding) {
            self.limits.insert(log, from)?;
        }
        if let Some(report) = report_of(log, finding) {
            self.reports.push(report)?;
        }
        if let Some(durable) = adopted_length(finding) {
            self.adopted.push((log, durable))?;
        }
        Ok(())
    }
}

/// Finds the logs of a disk, with their lengths. No file changes.
fn find_logs<D: LogDisk>(alloc: Global, disk: &mut D, state: &State) -> Result<Found, Fault>
    ensures honest { D.honest disk.new ≡ D.honest disk.old }
    ensures same { IsTrue (D.honest disk.old) → OnOk result (D.files disk.new ≡ D.files disk.old) }
    ensures gone { IsTrue (D.honest disk.old) → OnOk result (D.gone disk.new ≡ map.empty) }
    ensures found { IsTrue (D.honest disk.old) → IfOk result (λ found. HasFound state.now (D.files disk.old) (map.keys (D.files disk.old)) found) }
    ensures no_lack { (lack : Lack) → IsErrOf result (Fault.Lack lack) → ⊥ }
{
    let logs = disk.list(alloc)?;
    let mut found = Found::new(alloc);
    for log in &logs {
        let length = disk.length(alloc, *log)?;
        found.add(state, *log, length)?;
    }
    Ok(found)
}

/// Hides of each log the bytes that its manifest does not believe. No file changes.
///
/// # Errors
///
/// - `Lack` if durable bytes of a log are missing.
/// - `Disk` if a call on the logs fails, or an allocation is refused.
pub fn limit_logs<D: CutDisk>(alloc: Global, inner: D, state: &State) -> Result<Limited<D>, Fault>
    ensures honest { IfOk result (λ logs. logs.disk.honest ≡ D.honest inner) }
    ensures files { IsTrue (D.honest inner) → IfOk result (λ logs. logs.disk.files ≡ D.files inner) }
    ensures gone { IsTrue (D.honest inner) → IfOk result (λ logs. logs.disk.gone ≡ map.empty) }
    ensures limited { IsTrue (D.honest inner)
        → IfOk result (λ logs. AreLimited state.now (D.files inner) logs.disk.limits logs.reports.items logs.adopted.items) }
    ensures lack { IsTrue (D.honest inner) → (lack : Lack) → IsErrOf result (Fault.Lack lack)
        → (records : List Fact) → IsStateOf records state.now → Lacks state.now (D.files inner) lack }
{
    let mut inner = inner;
    let Found {
        lengths,
        limits,
        reports,
        adopted,
    } = find_logs(alloc, &mut inner, state)?;
    if let Some(lack) = find_lack(alloc, state, &lengths)? {
        return Err(Fault::Lack(lack));
    }
    Ok(Limited {
        disk: LimitedDisk::new(inner, limits),
        reports,
        adopted,
    })
}
