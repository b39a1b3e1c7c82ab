//! The deleted ledgers of a call: those that it names, and those that the directory's manifest
//! records.

ghost use Rattle.std.specs.Prelude.{◌≡◌, ℕ, ◌<◌, ◌↔◌, ◌⊎◌, ◌++◌, false, length, vec_len, IsTrue, IfOk, IfSome, OnOk, MatchBool};
ghost use Rattle.std.specs.Ordering.{nat_cmp};
ghost use Rattle.std.specs.BTreeSet.{contains, btree_set_len};
ghost use Rattle.bk_inspect.specs.declared.ends.Ends.TheVariants as ends;
ghost use Rattle.bk_deleted.specs.Deleting.{Extends, is_among, not_live};
ghost use Rattle.bk_deleted.specs.Present.{HasLedgers};

use crate::lines::{Lines, read_file};
use bk_cli::FolderCall;
use bk_cli::words::{DEAD, DEAD_FILE, LIVE_FILE, LIVE_NONE, NO_MANIFEST};
use bk_inspect::{Ends, Form, LogEnd, LogFault, TakesEntries, TakesLogs, visit_folder};
use bk_ledgers::{Listed, ledgers_of, read_ledgers};
use bk_log::Found;
use bk_messages::DeadFault;
use std::alloc::{AllocError, Global};
use std::collections::BTreeSet;
use std::io;
use std::io::Write;

/// What a call says of deleted ledgers.
#[derive(Debug, PartialEq, Eq, Drop)]
pub struct DeletedAsk<'a> {
    /// The ledgers that it names, each 0 to 9223372036854775807.
    pub dead: Vec<u64>,
    /// The paths of files of deleted ledgers, one per line.
    pub dead_files: Vec<&'a str>,
    /// The paths of files of live ledgers: each other ledger of the logs is deleted.
    pub live_files: Vec<&'a str>,
    /// Whether no ledger may be live.
    pub live_none: bool,
    /// Whether the manifests of the directory are neither read nor written.
    pub no_manifest: bool,
}

impl<'a> DeletedAsk<'a> {
    /// Returns what a call says.
    pub fn of(alloc: Global, call: &FolderCall<'a>) -> Result<DeletedAsk<'a>, AllocError> {
        Ok(DeletedAsk {
            dead: call.numbers(alloc, &DEAD)?,
            dead_files: call.texts(alloc, &DEAD_FILE)?,
            live_files: call.texts(alloc, &LIVE_FILE)?,
            live_none: call.has(&LIVE_NONE),
            no_manifest: call.has(&NO_MANIFEST),
        })
    }

    /// Returns up to where the logs are read.
    pub fn ends(&self) -> Ends
        ensures { MatchBool self.now.no_manifest (result ≡ ends.Files) (result ≡ ends.Durable) }
    {
        if self.no_manifest {
            Ends::Files
        } else {
            Ends::Durable
        }
    }

    /// Returns whether the call says which ledgers are live.
    fn has_live(&self) -> bool
        ensures { IsTrue result ↔ (IsTrue self.now.live_none ⊎ (0 < vec_len self.now.live_files)) }
    {
        self.live_none || !self.live_files.is_empty()
    }
}

/// The deleted ledgers of a call on a directory. A ledger may be listed twice.
#[derive(Debug, Drop)]
pub struct Deleted {
    /// Those that the call names, or does not name as live.
    pub named: Vec<u64>,
    /// All of them: also those that the manifest records.
    pub all: Vec<u64>,
}

/// Returns the deleted ledgers of a call on the directory at a path. Reads all logs if the call says
/// which ledgers are live; what is wrong with them is reported.
///
/// # Errors
///
/// See `DeadFault`.
pub fn deleted_in<E: Write>(
    rt: &HostRuntime,
    form: Form,
    path: &str,
    ask: &DeletedAsk<'_>,
    errors: &mut E,
) -> Result<Deleted, DeadFault>
    // What the call names is deleted.
    ensures named { IfOk result (λ deleted. Extends ask.now.dead.items deleted.named.items) }
    ensures all { IfOk result (λ deleted. Extends deleted.named.items deleted.all.items) }
    // Nothing else is, without files, live ledgers and manifests.
    ensures alone { vec_len ask.now.dead_files ≡ 0 → vec_len ask.now.live_files ≡ 0 → ask.now.live_none ≡ false
        → IfOk result (λ deleted. deleted.named.items ≡ ask.now.dead.items) }
    ensures unread { IsTrue ask.now.no_manifest → IfOk result (λ deleted. deleted.all.items ≡ deleted.named.items) }
{
    let alloc = rt.alloc();
    let mut named = Vec::from_slice(alloc, &ask.dead)?;
    for file in &ask.dead_files {
        read_file(rt, file, Lines::Plain, &mut named)?;
    }
    if ask.has_live() {
        let live = live_ledgers(rt, ask)?;
        add_others(rt, form, path, ask.ends(), &live, &mut named, errors)?;
    }
    let mut all = Vec::from_slice(alloc, &named)?;
    if !ask.no_manifest {
        let recorded = recorded_in(rt, path)?;
        all.extend_from_slice(&recorded.deleted)?;
    }
    Ok(Deleted { named, all })
}

/// Returns the ledgers that the manifest of the directory at a path records.
pub(crate) fn recorded_in(rt: &HostRuntime, path: &str) -> Result<Listed, DeadFault> {
    let records = read_ledgers(rt, path)?;
    Ok(ledgers_of(rt.alloc(), &records)?)
}

/// Returns the live ledgers of the files. Fails with `NoneLive` if there is none and the call does
/// not say so.
fn live_ledgers(rt: &HostRuntime, ask: &DeletedAsk<'_>) -> Result<BTreeSet<u64>, DeadFault>
    ensures { IfOk result (λ live. IsTrue ask.now.live_none ⊎ (0 < btree_set_len live)) }
{
    let mut listed = Vec::new(rt.alloc());
    for file in &ask.live_files {
        read_file(rt, file, Lines::Listed, &mut listed)?;
    }
    if listed.is_empty() && !ask.live_none {
        return Err(DeadFault::NoneLive);
    }
    set_of(rt.alloc(), &listed)
}

/// Returns the set of these ledgers.
fn set_of(alloc: Global, ledgers: &[u64]) -> Result<BTreeSet<u64>, DeadFault>
    ensures exact { IfOk result (λ set. (ledger : ℕ) → contains nat_cmp set ledger ≡ is_among ledgers.now ledger) }
    ensures some { IfOk result (λ set. 0 < length ledgers.now → 0 < btree_set_len set) }
{
    let mut set = BTreeSet::new(alloc);
    for ledger in ledgers {
        let _ = set.insert(*ledger)?;
    }
    Ok(set)
}

/// Adds each ledger of the logs that is not live.
fn add_others<E: Write>(
    rt: &HostRuntime,
    form: Form,
    path: &str,
    ends: Ends,
    live: &BTreeSet<u64>,
    named: &mut Vec<u64>,
    errors: &mut E,
) -> Result<(), DeadFault>
    ensures { OnOk result (Extends named.old.items named.new.items) }
{
    let mut present = Present {
        ledgers: BTreeSet::new(rt.alloc()),
        last: None,
    };
    if visit_folder(rt, form, path, ends, &mut present, errors).is_none() {
        return Err(DeadFault::Logs);
    }
    add_dead(&present.ledgers, live, named)
}

/// Adds the ledgers that are not live.
fn add_dead(
    ledgers: &BTreeSet<u64>,
    live: &BTreeSet<u64>,
    named: &mut Vec<u64>,
) -> Result<(), DeadFault>
    ensures { OnOk result (named.new.items ≡ named.old.items ++ not_live live.now ledgers.now.keys) }
{
    for ledger in ledgers.iter() {
        if !live.contains(ledger) {
            named.push(*ledger)?;
        }
    }
    Ok(())
}

/// The ledgers of which the logs have an entry.
#[derive(Drop)]
struct Present {
    ledgers: BTreeSet<u64>,
    /// The ledger of the last entry, which is mostly that of the next one.
    last: Option<u64>,
}

impl TakesEntries for Present {
    ghost has = { λ _ now taken. HasLedgers now taken };

    fn take_in(&mut self, _log: u32, found: Found) -> Result<(), AllocError> {
        let ledger = found.key.ledger();
        if self.last != Some(ledger) {
            let _ = self.ledgers.insert(ledger)?;
            self.last = Some(ledger);
        }
        Ok(())
    }
}

impl TakesLogs for Present {
    fn begin(&mut self, _log: u32, _length: u64, _is_sealed: bool) {}

    fn end(&mut self, _end: LogEnd, _fault: Option<LogFault>) -> Result<(), AllocError> {
        Ok(())
    }

    fn miss(&mut self, _log: u32, _reason: &io::Error) -> Result<(), AllocError> {
        Ok(())
    }
}
