//! Faults of an opening, from those of the disk, of memory and of a scan.

ghost use Rattle.std.specs.Prelude.{◌≡◌};
ghost use Rattle.bk_store.specs.Found.{open_fault_of_scan};

use crate::{LogCause, OpenFault};
use bk_disk::DiskFault;
use bk_log::ScanFault;
use std::alloc::AllocError;

impl From<DiskFault> for OpenFault {
    ghost use Rattle.std.specs.Prelude.{◌≡◌};
    ghost use Rattle.bk_store.specs.Found.{open_fault_of};

    ghost from_gives = { λ fault e. e ≡ open_fault_of fault };

    fn from(fault: DiskFault) -> OpenFault {
        match fault {
            DiskFault::Disk => OpenFault::Disk,
            DiskFault::Memory => OpenFault::Memory,
            DiskFault::Exists | DiskFault::NoLog | DiskFault::PastEnd | DiskFault::TooLong => {
                OpenFault::Odd
            }
        }
    }
}

impl From<AllocError> for OpenFault {
    ghost use Rattle.std.specs.Prelude.{◌≡◌};
    ghost use Rattle.bk_store.specs.declared.answer.OpenFault.TheVariants.{Memory};

    ghost from_gives = { λ _ e. e ≡ Memory };

    fn from(_error: AllocError) -> OpenFault {
        OpenFault::Memory
    }
}

/// Returns the fault of an opening for a fault of the scan of log `id`.
pub(super) fn scan_fault(id: u32, fault: ScanFault) -> OpenFault
    ensures { result ≡ open_fault_of_scan id fault }
{
    match fault {
        ScanFault::BadLength { at, length } => OpenFault::Log {
            id,
            cause: LogCause::BadLength { at, length },
        },
        ScanFault::Disk => OpenFault::Disk,
        ScanFault::Memory => OpenFault::Memory,
        ScanFault::Odd => OpenFault::Odd,
    }
}
