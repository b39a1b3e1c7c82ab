//! The parameters and the report of a load.

ghost use Rattle.std.specs.Prelude.{◌↔◌, IsTrue};
ghost use Rattle.bk_load.specs.Verdict.{IsGood};

use crate::Latencies;
use bk_bookie::{CallFault, FinishFault, WorkReport, WorkersFault};
use bk_store::{AddFault, OpenFault};
use std::fmt;
use std::fmt::{Display, Formatter, Write};
use thiserror::Error;

/// When a load ends.
#[derive(Clone, Copy, Debug, PartialEq, Eq)]
pub enum Until {
    /// After N seconds.
    Seconds(u64),
    /// After N adds of all callers together.
    Adds(u64),
}

/// A load: the number of concurrent callers, and when it ends.
#[derive(Clone, Copy, Debug, PartialEq, Eq)]
pub struct Load {
    pub callers: u32,
    pub until: Until,
}

/// What happened to the logs.
#[derive(Clone, Copy, Debug, PartialEq, Eq)]
pub struct Logs {
    pub made: u64,
    pub compacted: u64,
    pub removed: u64,
}

/// Result of the final check.
#[derive(Clone, Copy, Debug, PartialEq, Eq)]
pub struct Checked {
    /// Accepted entries that have the bytes that were added.
    pub found: u64,
    /// Accepted entries of deleted ledgers.
    pub deleted: u64,
    /// Accepted entries that are missing or have other bytes.
    pub lost: u64,
    /// Entries of live ledgers of the load that have no receipt.
    pub unknown: u64,
    /// Entries of earlier ledgers.
    pub kept: u64,
}

/// The report of a load.
#[derive(Clone, Copy, Debug, PartialEq, Eq)]
pub struct Report {
    /// Number of adds that the passes count, and number of receipts, each of which is in the trail.
    pub adds: u64,
    pub receipts: u64,
    /// Total bytes of their payloads.
    pub bytes: u64,
    /// Adds that found their entry already there, and adds to a deleted ledger.
    pub held: u64,
    pub refused: u64,
    /// Entries taken, and those of them that differ from what was added.
    pub takes: u64,
    pub wrong: u64,
    /// Number of ledgers deleted.
    pub deletes: u64,
    /// Steps of the workers. The faults are theirs and the keeper's.
    pub works: WorkReport,
    pub logs: Logs,
    /// How long the callers ran.
    pub milliseconds: u64,
    /// Latencies of all accepted adds.
    pub latencies: Latencies,
    /// Number of entries that the files had before.
    pub earlier: u64,
    pub checked: Checked,
}

impl Report {
    /// Returns whether the load succeeded (`IsGood`).
    pub fn is_good(&self) -> bool
        ensures { IsTrue result ↔ IsGood self.now }
    {
        self.adds > 0
            && self.adds == self.receipts
            && self.held == 0
            && self.wrong == 0
            && self.works.faults == 0
            && self.checked.lost == 0
            && self.checked.unknown == 0
            && self.checked.kept == self.earlier
    }
}

impl Display for Report {
    fn fmt<W: Write>(&self, f: &mut Formatter<W>) -> fmt::Result {
        writeln!(
            f,
            "adds {} bytes {} held {} refused {} milliseconds {}",
            self.adds, self.bytes, self.held, self.refused, self.milliseconds
        )?;
        writeln!(
            f,
            "takes {} wrong {} ledgers deleted {}",
            self.takes, self.wrong, self.deletes
        )?;
        writeln!(
            f,
            "{}\nworks {} faults {}",
            self.logs, self.works.answered, self.works.faults
        )?;
        writeln!(f, "{}\nreceipts {}", self.latencies, self.receipts)?;
        write!(f, "{} of {}", self.checked, self.earlier)
    }
}

impl Display for Logs {
    fn fmt<W: Write>(&self, f: &mut Formatter<W>) -> fmt::Result {
        write!(
            f,
            "logs made {} compacted {} removed {}",
            self.made, self.compacted, self.removed
        )
    }
}

impl Display for Latencies {
    fn fmt<W: Write>(&self, f: &mut Formatter<W>) -> fmt::Result {
        write!(
            f,
            "latency 50% {} 99% {} 99.9% {} nanoseconds",
            self.at_500, self.at_990, self.at_999
        )
    }
}

impl Display for Checked {
    fn fmt<W: Write>(&self, f: &mut Formatter<W>) -> fmt::Result {
        write!(
            f,
            "files found {} deleted {} lost {} unknown {} earlier {}",
            self.found, self.deleted, self.lost, self.unknown, self.kept
        )
    }
}

/// Why there is no report.
#[derive(Clone, Copy, Debug, PartialEq, Eq, Error)]
pub enum LoadFault {
    /// The store was not opened, at the start or for the check.
    #[error("{0}")]
    Open(OpenFault),
    /// The workers did not run.
    #[error("{0}")]
    Workers(WorkersFault),
    /// The bookie was not ended: a pass was not handed in, or a receipt is not in the trail.
    #[error("{0}")]
    Finish(FinishFault),
    /// The disk has an entry of a ledger that too few ledgers follow.
    #[error("no ledger")]
    NoLedger,
    /// All passes have been created.
    #[error("no pass")]
    NoPass,
    /// An add failed with another fault than `Deleted` or `Full`.
    #[error("add {0:?}")]
    Add(CallFault<AddFault>),
    /// The deletion of a ledger could not be recorded. The ledger is not deleted.
    #[error("unrecorded")]
    Unrecorded,
    /// The cache was full for a minute.
    #[error("stuck")]
    Stuck,
    /// Out of memory.
    #[error("memory")]
    Memory,
    /// The clock could not be read.
    #[error("clock")]
    Clock,
    /// A lease was not released at the end.
    #[error("leased")]
    Leased,
    /// The disk failed when its logs were listed.
    #[error("disk")]
    Disk,
}
