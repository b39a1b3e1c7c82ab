//! Progress of a sweep, its observer, and its errors.

use bk_collect::CollectFault;
use bk_store::{OpenFault, StepFault};
use thiserror::Error;

/// Progress of a sweep.
#[derive(Clone, Copy, Debug, PartialEq, Eq)]
pub struct Swept {
    /// Number of logs to compact or remove when the sweep began.
    pub planned: u64,
    /// Number of logs compacted.
    pub compacted: u64,
    /// Number of logs removed, including the compacted ones.
    pub removed: u64,
    /// Number of entries copied from compacted logs.
    pub moved: u64,
    /// Number of bytes read from compacted logs, with their headers.
    pub read: u64,
    /// Number of logs that no index entry points into and that are kept for their leases. Counted at
    /// the end of a sweep.
    pub kept: u64,
}

impl Swept {
    /// Progress at the begin of a sweep without work.
    pub const NOTHING: Swept = Swept {
        planned: 0,
        compacted: 0,
        removed: 0,
        moved: 0,
        read: 0,
        kept: 0,
    };
}

/// Observer of a sweep.
pub trait Watch {
    /// Called after each step, with the progress so far.
    fn see(&mut self, swept: &Swept);
}

/// Why a sweep stopped early. Completed steps are not undone, and no entry is lost.
#[derive(Clone, Copy, Debug, PartialEq, Eq, Error)]
pub enum SweepFault {
    /// The store could not be opened.
    #[error("{0}")]
    Open(OpenFault),
    /// A step of a compaction failed.
    #[error("{0}")]
    Step(StepFault),
    /// A step of a removal failed.
    #[error("{0}")]
    Collect(CollectFault),
    /// A compaction is already running.
    #[error("job running")]
    JobRunning,
    /// Out of memory.
    #[error("memory")]
    Memory,
    /// A log could not be read.
    #[error("disk")]
    Disk,
    /// The disk returned what no honest disk can.
    #[error("odd disk")]
    Odd,
}

impl From<OpenFault> for SweepFault {
    ghost use Rattle.std.specs.Prelude.{◌≡◌};
    ghost use Rattle.bk_offline_gc.specs.declared.answer.SweepFault.TheVariants as sweeps;

    ghost from_gives = { λ fault e. e ≡ sweeps.Open fault };

    fn from(fault: OpenFault) -> SweepFault {
        SweepFault::Open(fault)
    }
}

impl From<StepFault> for SweepFault {
    ghost use Rattle.std.specs.Prelude.{◌≡◌};
    ghost use Rattle.bk_offline_gc.specs.declared.answer.SweepFault.TheVariants as sweeps;

    ghost from_gives = { λ fault e. e ≡ sweeps.Step fault };

    fn from(fault: StepFault) -> SweepFault {
        SweepFault::Step(fault)
    }
}

impl From<CollectFault> for SweepFault {
    ghost use Rattle.std.specs.Prelude.{◌≡◌};
    ghost use Rattle.bk_offline_gc.specs.declared.answer.SweepFault.TheVariants as sweeps;

    ghost from_gives = { λ fault e. e ≡ sweeps.Collect fault };

    fn from(fault: CollectFault) -> SweepFault {
        SweepFault::Collect(fault)
    }
}
