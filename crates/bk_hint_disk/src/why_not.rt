//! Why a hint is not used.

use bk_disk::DiskFault;
use bk_hint::HintFault;
use thiserror::Error;

/// Why a hint that is there is not used. The log is read instead.
#[derive(Clone, Copy, Debug, PartialEq, Eq, Error)]
pub enum WhyNot {
    /// The bytes are no hint.
    #[error("{0}")]
    Damaged(HintFault),
    /// The hint is that of this log.
    #[error("hint of log {0}")]
    OtherLog(u32),
    /// The hint is of a log of this length in bytes.
    #[error("hint of a log of {0} bytes")]
    OtherLength(u64),
    /// Header and ledgers map of the log have another checksum.
    #[error("hint of another header or ledgers map")]
    OtherChecksum,
    /// The log has no header with the position of a ledgers map.
    #[error("log not sealed")]
    NotSealed,
    /// The hint lists entries behind the position of the log's ledgers map.
    #[error("hint past the ledgers map")]
    PastMap,
    /// The log's ledgers map cannot be read, or has other ledgers or sizes than the entries.
    #[error("hint of another ledgers map")]
    OtherMap,
    /// A record of the log, of those that are compared, has another size, ledger or entry id than
    /// the entry of the hint at its position.
    #[error("hint of other records")]
    OtherRecords,
    /// A link, a directory or something else that is no plain file has the name of the hint.
    #[error("hint is no plain file")]
    NotPlain,
    /// An allocation was refused.
    #[error("memory")]
    Memory,
    /// The log or the hint could not be read.
    #[error("disk")]
    Disk,
}

impl WhyNot {
    /// Returns why a hint is not used if its log could not be read.
    pub(crate) fn unread(fault: DiskFault) -> WhyNot {
        match fault {
            DiskFault::Memory => WhyNot::Memory,
            _ => WhyNot::Disk,
        }
    }
}

/// A hint that is there and not used. Its text is `hint of log LOG not used: REASON`.
#[derive(Clone, Copy, Debug, PartialEq, Eq, Error)]
#[error("hint of log {log} not used: {why}")]
pub struct Unused {
    /// The log whose hint it is.
    pub log: u32,
    pub why: WhyNot,
}
