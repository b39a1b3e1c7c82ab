//! Errors of a bookie.

use bk_store::{Mark, TakeFault};
use std::fmt::Debug;
use thiserror::Error;

/// Why a call by a pass was refused. The store is unchanged.
#[derive(Clone, Copy, Debug, PartialEq, Eq)]
pub enum CallFault<F> {
    /// The trail has `front` marks, and the pass has observed `seen`, which is more. Does not occur
    /// for a pass of this bookie, since its trail only grows.
    Backwards { seen: u64, front: u64 },
    /// A fault of the store.
    Of(F),
}

/// Why a receipt was not read back. The store is unchanged.
#[derive(Clone, Copy, Debug, PartialEq, Eq, Error)]
pub enum ReadBackFault {
    /// The trail has `front` marks, and the pass has observed `seen`, which is more.
    #[error("backwards {seen} {front}")]
    Backwards { seen: u64, front: u64 },
    /// The trail has this many marks, so it ends before the receipt's number.
    #[error("missing {0}")]
    Missing(u64),
    /// The trail has this mark at the receipt's number, and it is not the receipt's.
    #[error("differs")]
    Differs(Mark),
    /// A fault of the take.
    #[error("{0}")]
    Of(TakeFault),
}

/// All passes of the bookie have been created.
#[derive(Clone, Copy, Debug, PartialEq, Eq, Error)]
#[error("no pass")]
pub struct NoPass;

/// Why a bookie was not ended.
#[derive(Clone, Copy, Debug, PartialEq, Eq, Error)]
pub enum FinishFault {
    /// N passes that were created were not handed in. A pass that was dropped is one of them.
    #[error("passes out {0}")]
    PassesOut(u32),
    /// The trail ends before this number, which is that of a receipt.
    #[error("missing {0}")]
    Missing(u64),
    /// The trail has another mark at this number, which is that of a receipt.
    #[error("differs {0}")]
    Differs(u64),
}

/// Why not all workers ran.
#[derive(Clone, Copy, Debug, PartialEq, Eq, Error)]
pub enum WorkersFault {
    /// A thread could not be started. Those started before it ran until the channel was closed.
    #[error("no thread")]
    NoThread,
    /// Out of memory, before any thread was started.
    #[error("memory")]
    Memory,
}
