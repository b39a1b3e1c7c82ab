//! `check` with a digest: each entry that does not fit, then the row of the log.

ghost use Rattle.std.specs.Prelude.{◌≤◌, IfOk};
ghost use Rattle.bk_inspect.specs.Reading.{OnlyReads};

use crate::calls::view_of;
use crate::check::{Detail, health_of, write_health};
use crate::digest::{Digest, DigestChoice};
use crate::fitting::fits;
use crate::form::write_row;
use crate::header::HEADER;
use crate::turns::Turns;
use crate::{DirFault, Form};
use bk_disk::{LogDisk, LogView};
use bk_log::{Found, Scanner};
use serde::Serialize;
use std::alloc::Global;
use std::collections::BTreeMap;
use std::fmt;
use std::fmt::{Display, Formatter};
use std::io::Write;

/// The digest of each ledger found, as its first entry has it; `None` if that fits none.
#[derive(Debug, Drop)]
struct Ledgers {
    choice: DigestChoice,
    met: BTreeMap<u64, Option<Digest>>,
}

impl Ledgers {
    /// Returns whether an entry of a view does not fit the digest of its ledger.
    fn is_broken<V: LogView>(
        &mut self,
        alloc: Global,
        view: &V,
        found: &Found,
    ) -> Result<bool, DirFault> {
        let digest = match self.choice {
            DigestChoice::One(digest) => Some(digest),
            DigestChoice::Auto => self.of_ledger(alloc, view, found)?,
        };
        match digest {
            Some(digest) => Ok(!fits(alloc, view, found, digest)?),
            None => Ok(false),
        }
    }

    /// Returns the digest of an entry's ledger, by this entry if it is the first.
    fn of_ledger<V: LogView>(
        &mut self,
        alloc: Global,
        view: &V,
        found: &Found,
    ) -> Result<Option<Digest>, DirFault> {
        let ledger = found.key.ledger();
        if let Some(digest) = self.met.get(&ledger) {
            return Ok(*digest);
        }
        let digest = first_fitting(alloc, view, found)?;
        match self.met.insert(ledger, digest) {
            Ok(_) => Ok(digest),
            Err(_) => Err(DirFault::Memory),
        }
    }

    /// Returns the number of ledgers whose first entry fits no digest.
    fn unknown(&self) -> u64 {
        self.met.values().filter(|digest| digest.is_none()).count() as u64
    }
}

/// Returns the digest that an entry fits, CRC-32C tried first.
fn first_fitting<V: LogView>(
    alloc: Global,
    view: &V,
    found: &Found,
) -> Result<Option<Digest>, DirFault> {
    if fits(alloc, view, found, Digest::Crc32c)? {
        return Ok(Some(Digest::Crc32c));
    }
    if fits(alloc, view, found, Digest::Crc32)? {
        return Ok(Some(Digest::Crc32));
    }
    Ok(None)
}

/// Writes for each log, by rising id, a row `digest AT LEDGER ENTRY` for each entry that does not
/// fit, then the row of `check`, over the same logs as `check`; at the end, if digests are looked for, `unknown N`. Returns the
/// status: 1 if an entry does not fit, or something is wrong with a log.
pub(crate) fn show_digests<D: LogDisk, W: Write>(
    alloc: Global,
    disk: &mut D,
    choice: DigestChoice,
    detail: Detail,
    form: Form,
    writer: &mut W,
) -> Result<u8, DirFault>
    ensures status { IfOk result (λ status. status ≤ 1) }
    ensures reads { OnlyReads (D.honest disk.old) (D.files disk.old) (D.honest disk.new) (D.files disk.new) }
{
    let mut turns = Turns::new(alloc, disk)?;
    let mut ledgers = Ledgers {
        choice,
        met: BTreeMap::new(alloc),
    };
    let mut status = 0;
    while let Some(log) = turns.next(alloc, disk)? {
        let fitting = show_broken(alloc, disk, log, &mut ledgers, form, writer)?;
        if !fitting {
            status = 1;
        }
        match health_of(alloc, disk, log)? {
            Some(health) => {
                write_health(alloc, log, health, detail, form, writer)?;
                if health.is_bad() {
                    status = 1;
                }
            }
            None => turns.miss(),
        }
    }
    if choice == DigestChoice::Auto {
        let row = UnknownRow {
            unknown: ledgers.unknown(),
        };
        write_row(alloc, form, &row, writer)?;
    }
    Ok(status)
}

/// Writes the entries of a log that do not fit, up to a bad length. Returns whether there is none
/// of either; also true if the log is removed meanwhile.
fn show_broken<D: LogDisk, W: Write>(
    alloc: Global,
    disk: &mut D,
    log: u32,
    ledgers: &mut Ledgers,
    form: Form,
    writer: &mut W,
) -> Result<bool, DirFault>
    ensures reads { OnlyReads (D.honest disk.old) (D.files disk.old) (D.honest disk.new) (D.files disk.new) }
{
    let view = match view_of(alloc, disk, log) {
        Ok(view) => view,
        Err(DirFault::NoLog) => return Ok(true),
        Err(fault) => return Err(fault),
    };
    match show_broken_in(alloc, log, &view, ledgers, form, writer) {
        Err(DirFault::Log(_)) => Ok(false),
        outcome => outcome,
    }
}

/// Writes the entries of a view that do not fit. Returns whether there is none.
fn show_broken_in<V: LogView, W: Write>(
    alloc: Global,
    log: u32,
    view: &V,
    ledgers: &mut Ledgers,
    form: Form,
    writer: &mut W,
) -> Result<bool, DirFault> {
    let end = view.end().max(HEADER);
    let mut scanner = Scanner::new(view, alloc, HEADER, end);
    let mut fitting = true;
    while let Some(found) = scanner.next()? {
        if ledgers.is_broken(alloc, view, &found)? {
            write_row(alloc, form, &BrokenRow::of(log, found), writer)?;
            fitting = false;
        }
    }
    Ok(fitting)
}

/// The row of an entry that does not fit.
#[derive(Clone, Copy, Serialize)]
struct BrokenRow {
    log: u32,
    digest: &'static str,
    at: u64,
    ledger: u64,
    entry: u64,
}

impl BrokenRow {
    /// Returns the row of an entry.
    fn of(log: u32, found: Found) -> BrokenRow {
        BrokenRow {
            log,
            digest: "differs",
            at: found.at,
            ledger: found.key.ledger(),
            entry: found.key.entry(),
        }
    }
}

impl Display for BrokenRow {
    fn fmt<W: fmt::Write>(&self, f: &mut Formatter<W>) -> fmt::Result {
        write!(f, "digest {} {} {}", self.at, self.ledger, self.entry)
    }
}

/// The row of the number of ledgers without a known digest.
#[derive(Clone, Copy, Serialize)]
struct UnknownRow {
    unknown: u64,
}

impl Display for UnknownRow {
    fn fmt<W: fmt::Write>(&self, f: &mut Formatter<W>) -> fmt::Result {
        write!(f, "unknown {}", self.unknown)
    }
}
