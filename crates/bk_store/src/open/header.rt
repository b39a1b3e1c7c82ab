//! Checking the header of a log at opening.

ghost use Rattle.std.specs.Prelude.{◌≡◌, ◌<◌, ◌≤◌, ◌^◌, ℕ, List, IsTrue, IsErrOf, IfErr, OnOk, length};
ghost use Rattle.bk_record.specs.Files.{header_length};
ghost use Rattle.bk_disk.specs.Disk.{FailsExactlyIf, IsFile};
ghost use Rattle.bk_disk.specs.Durable.{DurableGrows};
ghost use Rattle.bk_store.specs.Opening.{IsHeaded, FileFails};

use crate::{LogCause, OpenFault};
use bk_disk::LogDisk;
use bk_head::read_header;
use bk_record::HEADER_LENGTH;
use std::alloc::Global;

/// Reads the header of a log that has one, and checks magic and version only (this project's rule).
#[tactic(auto, using(bk_disk::proofs::DurableGrows::kept_rules))]
pub(super) fn check_header<D: LogDisk>(
    disk: &mut D,
    alloc: Global,
    id: u32,
) -> Result<(), OpenFault>
    ensures honest { D.honest disk.new ≡ D.honest disk.old }
    ensures durable { IsTrue (D.honest disk.old) → DurableGrows (D.synced disk.old) (D.gone disk.old) (D.synced disk.new) (D.gone disk.new) }
    ensures cause { FailsExactlyIf (D.failures disk.old) (D.failures disk.new) (IsErrOf result OpenFault.Disk) }
    ensures never { ¬ (IsErrOf result OpenFault.Settings) }
    ensures files { IsTrue (D.honest disk.old) → D.files disk.new ≡ D.files disk.old }
    ensures ok { (file : List ℕ) → IsTrue (D.honest disk.old) → IsFile (D.files disk.old) id file → OnOk result (IsHeaded file) }
    ensures err { (file : List ℕ) → IsTrue (D.honest disk.old) → IsFile (D.files disk.old) id file
        → header_length ≤ length file → length file < 2 ^ 32 → IfErr result (FileFails id file) }
{
    let bytes = disk.read_at(alloc, id, 0, HEADER_LENGTH as u64)?;
    if bytes.len() != HEADER_LENGTH {
        return Err(OpenFault::Odd);
    }
    let mut header = [0; HEADER_LENGTH];
    header.copy_from_slice(&bytes);
    match read_header(&header) {
        Ok(_) => Ok(()),
        Err(fault) => Err(OpenFault::Log {
            id,
            cause: LogCause::Header(fault),
        }),
    }
}
