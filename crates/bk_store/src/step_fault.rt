//! Why a step of a flush or of a compaction fails.

use crate::MakeFault;
use bk_log::LogFault;
use thiserror::Error;

/// Why a step of a flush or of a compaction failed.
#[derive(Clone, Copy, Debug, PartialEq, Eq, Error)]
pub enum StepFault {
    /// The device failed.
    #[error("disk")]
    Disk,
    /// Out of memory. The step did `done` entries before.
    #[error("memory after {done}")]
    Memory { done: u64 },
    /// The step needs a new log, and every slot is taken.
    #[error("logs full")]
    LogsFull,
    /// The step needs a new log, and the next id is past 2^31 - 1.
    #[error("no more ids")]
    NoMoreIds,
    /// The disk returned what no honest disk can.
    #[error("odd disk")]
    Odd,
}

impl From<LogFault> for StepFault {
    ghost use Rattle.std.specs.Prelude.{◌≡◌};
    ghost use Rattle.bk_store.specs.Faults.{step_fault_of};

    ghost from_gives = { λ fault e. e ≡ step_fault_of fault };

    fn from(fault: LogFault) -> StepFault {
        match fault {
            LogFault::Memory => StepFault::Memory { done: 0 },
            LogFault::Disk => StepFault::Disk,
            LogFault::Failed | LogFault::Odd => StepFault::Odd,
        }
    }
}

impl From<MakeFault> for StepFault {
    ghost use Rattle.std.specs.Prelude.{◌≡◌};
    ghost use Rattle.bk_store.specs.Faults.{step_fault_of_make};

    ghost from_gives = { λ fault e. e ≡ step_fault_of_make fault };

    fn from(fault: MakeFault) -> StepFault {
        match fault {
            MakeFault::LogsFull => StepFault::LogsFull,
            MakeFault::NoMoreIds => StepFault::NoMoreIds,
            MakeFault::Memory => StepFault::Memory { done: 0 },
            MakeFault::Disk => StepFault::Disk,
            MakeFault::Odd => StepFault::Odd,
        }
    }
}
