//! Why a test of a crash stopped.

use bk_drive::OpenFault;
use std::alloc::AllocError;

/// Why a test stopped: the reason, with ledger and entry, or with a number of entries.
#[derive(Clone, Copy)]
pub(super) struct Stop {
    pub what: &'static str,
    pub ledger: u64,
    pub number: u64,
}

impl Stop {
    pub(super) fn new(what: &'static str, ledger: u64, number: u64) -> Stop {
        Stop {
            what,
            ledger,
            number,
        }
    }
}

impl From<AllocError> for Stop {
    fn from(_: AllocError) -> Stop {
        Stop::new("no memory", 0, 0)
    }
}

/// A store did not open after a crash.
pub(super) fn not_opened(fault: OpenFault) -> Stop {
    let what = match fault {
        OpenFault::Disk => "not opened: disk",
        OpenFault::Memory => "not opened: memory",
        OpenFault::Odd => "not opened: odd disk",
        OpenFault::Settings => "not opened: settings",
        _ => "not opened: a log",
    };
    Stop::new(what, 0, 0)
}
