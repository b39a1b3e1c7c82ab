//! Why the manifest of the ledgers of a directory cannot be opened or written.

ghost use Rattle.std.specs.Prelude.{◌≡◌};
ghost use Rattle.bk_manifest.specs.declared.fault.ManifestError.TheVariants as manifest;

use bk_ledgers::LEDGERS;
use bk_manifest::ManifestError;
use std::alloc::AllocError;
use std::fmt;
use std::fmt::{Display, Formatter};

/// Why the manifest of a directory cannot be opened or written. Its text begins with the file's name.
#[derive(Clone, Copy, Debug, PartialEq, Eq)]
pub struct BookFault {
    /// The reason. If it is `Disk`, the disk's watch has the call of the system.
    pub error: ManifestError,
}

impl Display for BookFault {
    fn fmt<W: fmt::Write>(&self, f: &mut Formatter<W>) -> fmt::Result {
        write!(f, "{LEDGERS}: {}", self.error)
    }
}

impl From<ManifestError> for BookFault {
    ghost from_gives = { λ error e. e.error ≡ error };

    fn from(error: ManifestError) -> BookFault {
        BookFault { error }
    }
}

impl From<AllocError> for BookFault {
    ghost from_gives = { λ _ e. e.error ≡ manifest.Memory };

    fn from(_error: AllocError) -> BookFault {
        BookFault {
            error: ManifestError::Memory,
        }
    }
}
