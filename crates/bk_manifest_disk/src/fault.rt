//! Why an opening fails.

ghost use Rattle.std.specs.Prelude.{◌≡◌};
ghost use Rattle.bk_disk.specs.declared.fault.DiskFault.TheVariants as disk;
ghost use Rattle.bk_manifest.specs.Keeping.{of_file};

use crate::Lack;
use bk_disk::DiskFault;
use bk_manifest::{FileFault, ManifestError};
use std::alloc::{AllocError, AllocFailed};
use thiserror::Error;

/// Why logs were not opened by their manifest.
#[derive(Clone, Copy, Debug, PartialEq, Eq, Error)]
pub enum Fault {
    /// Durable bytes of a log are missing. Nothing was changed.
    #[error("{0}")]
    Lack(Lack),
    /// The manifest is damaged, or a call on its file failed.
    #[error("manifest: {0}")]
    Manifest(ManifestError),
    /// A call on the logs failed, or an allocation was refused.
    #[error("{0}")]
    Disk(DiskFault),
}

impl From<AllocError> for Fault {
    ghost use Rattle.bk_manifest_disk.specs.declared.fault.Fault.TheVariants as fault;

    ghost from_gives = { λ _ e. e ≡ fault.Disk disk.Memory };

    fn from(_e: AllocError) -> Fault {
        Fault::Disk(DiskFault::Memory)
    }
}

impl<T: Drop> From<AllocFailed<T>> for Fault {
    ghost use Rattle.bk_manifest_disk.specs.declared.fault.Fault.TheVariants as fault;

    ghost from_gives = { λ _ e. e ≡ fault.Disk disk.Memory };

    fn from(_e: AllocFailed<T>) -> Fault {
        Fault::Disk(DiskFault::Memory)
    }
}

impl From<DiskFault> for Fault {
    ghost use Rattle.bk_manifest_disk.specs.declared.fault.Fault.TheVariants as fault;

    ghost from_gives = { λ it e. e ≡ fault.Disk it };

    fn from(fault: DiskFault) -> Fault {
        Fault::Disk(fault)
    }
}

impl From<ManifestError> for Fault {
    ghost use Rattle.bk_manifest_disk.specs.declared.fault.Fault.TheVariants as fault;

    ghost from_gives = { λ it e. e ≡ fault.Manifest it };

    fn from(error: ManifestError) -> Fault {
        Fault::Manifest(error)
    }
}

impl From<FileFault> for Fault {
    ghost use Rattle.bk_manifest_disk.specs.declared.fault.Fault.TheVariants as fault;

    ghost from_gives = { λ it e. e ≡ fault.Manifest (of_file it) };

    fn from(fault: FileFault) -> Fault {
        Fault::Manifest(ManifestError::from(fault))
    }
}
