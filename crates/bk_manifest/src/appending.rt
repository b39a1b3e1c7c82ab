//! One batch more at the end of a manifest's file.

ghost use Rattle.std.specs.Prelude.{◌≡◌, ◌+◌, ◌≤◌, ◌^◌, length, IfOk, IsErrOf, IsTrue};
ghost use Rattle.bk_manifest.specs.declared.fault.Fault.{Fault};
ghost use Rattle.bk_manifest.specs.Fact.{facts, AreFacts};
ghost use Rattle.bk_manifest.specs.Keeping.{FailsExactlyIf, HasBatchAt, KeepsFront};

use crate::{ManifestError, ManifestFile, Record, write_batch};
use std::alloc::Global;

/// Cuts a file at position `end`, writes a batch of these records there, and syncs it. Returns the
/// new length of the file. An error leaves the bytes before that position, and any bytes after it.
///
/// # Errors
///
/// - `TooLong` if the bytes of an attribute, or of all records together, are 2^32 or more, or the
///   file would be too long.
/// - `Memory` if an allocation is refused.
/// - `Disk` if the device fails.
pub(crate) fn appended<F: ManifestFile>(
    alloc: Global,
    file: &mut F,
    generation: u64,
    end: usize,
    records: &[Record],
) -> Result<usize, ManifestError>
    ensures honest { F.honest file.new ≡ F.honest file.old }
    ensures cause { FailsExactlyIf (F.failures file.old) (F.failures file.new) (IsErrOf result ManifestError.Disk) }
    ensures front { IsTrue (F.honest file.old) → end ≤ length (F.bytes file.old)
        → KeepsFront end (F.bytes file.old) (F.synced file.old) (F.bytes file.new) (F.synced file.new) }
    ensures ok { IsTrue (F.honest file.old) → end ≤ length (F.bytes file.old)
        → IfOk result (λ stop. HasBatchAt generation end stop (facts records.now) (F.bytes file.old) (F.bytes file.new) (F.synced file.new)) }
    ensures longer { IfOk result (λ stop. end ≤ stop) }
    ensures no_fault { (fault : Fault) → IsErrOf result (ManifestError.Fault fault) → ⊥ }
    ensures too_long { IsErrOf result ManifestError.TooLong → AreFacts (facts records.now) → 2 ^ 63 ≤ end }
{
    let batch = write_batch(alloc, generation, end as u64, records)?;
    let Some(stop) = end.checked_add(batch.len()) else {
        return Err(ManifestError::TooLong);
    };
    file.write_at(end, &batch)?;
    file.sync()?;
    Ok(stop)
}
