//! Why the logs of a directory cannot be opened by their manifest.

ghost use Rattle.std.specs.Prelude.{◌≡◌};
ghost use Rattle.bk_messages.specs.Disks.{are_failed_logs};

use bk_disk::DiskFault;
use bk_manifest::ManifestError;
use bk_manifest_disk::{Fault, LOGS};
use std::fmt;
use std::fmt::{Display, Formatter};

/// Why the logs of a directory cannot be opened by their manifest. Its text names the log, or the
/// manifest.
#[derive(Clone, Copy, Debug, PartialEq, Eq)]
pub struct LogsFault {
    /// The reason. If it is of the disk, the disk's watch has the call of the system.
    pub fault: Fault,
}

impl LogsFault {
    /// Returns whether a call of the system is the reason.
    pub fn is_of_disk(self) -> bool
        ensures { result ≡ are_failed_logs self.fault }
    {
        matches!(
            self.fault,
            Fault::Disk(DiskFault::Disk) | Fault::Manifest(ManifestError::Disk)
        )
    }
}

impl Display for LogsFault {
    fn fmt<W: fmt::Write>(&self, f: &mut Formatter<W>) -> fmt::Result {
        match self.fault {
            Fault::Lack(lack) => write!(f, "{lack}"),
            Fault::Manifest(error) => write!(f, "{LOGS}: {error}"),
            Fault::Disk(fault) => write!(f, "{fault}"),
        }
    }
}

impl From<Fault> for LogsFault {
    ghost from_gives = { λ fault e. e.fault ≡ fault };

    fn from(fault: Fault) -> LogsFault {
        LogsFault { fault }
    }
}
