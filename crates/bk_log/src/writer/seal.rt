//! Sealing: first the ledgers map after the records, then its position in the header. A log counts
//! as sealed only after both, so a partly written map is ignored.

ghost use Rattle.std.specs.Prelude.{◌≡◌, ◌↔◌, false, true, IsTrue, IsErrOf, IfOk, OnOk};
ghost use Rattle.bk_record.specs.Files.{file_of};
ghost use Rattle.bk_disk.specs.Disk.{FailsExactlyIf};
ghost use Rattle.bk_disk.specs.Durable.{DurableGrows};
ghost use Rattle.std.specs.FinMap as map;
ghost use Rattle.bk_head.specs.Header.{patch_of};
ghost use Rattle.bk_head.specs.Ledgers.{map_of};
ghost use Rattle.bk_head.specs.Written.{IsWritable, written_map};

use crate::calls::{append_any, patch};
use crate::{LogFault, LogWriter};
use bk_disk::LogDisk;
use bk_head::{HeadFault, patch_bytes, write_map};
use std::alloc::Global;
use std::collections::BTreeMap;

impl LogWriter {
    ghost use Rattle.bk_log.specs.Writing.{Writes};
    ghost use Rattle.bk_log.specs.Growing.{SealGains};
    ghost use Rattle.bk_log.specs.Sealing.{WriterSealTransition, KeepsEntries, HasMap, map_fits};

    /// Seals the log: appends the ledgers map of its records, which has no bytes if there is none,
    /// and patches the header with the map's position and number of ledgers.
    ///
    /// If the map would end after byte 2^32 - 1, does neither, and the log stays unsealed (project
    /// rule). The writer is consumed with any result.
    ///
    /// # Errors
    ///
    /// - `Failed` exactly if an earlier write failed; the disk is not called.
    /// - `Memory`; the files are unchanged, or the map is written and the header is not patched.
    /// - `Disk`; a prefix of the map may be written, or the map and any twelve bytes where the
    ///   header is patched.
    /// - `Odd`, not on an honest disk.
    #[tactic(auto, using(bk_disk::proofs::DurableGrows::kept_rules))]
    pub fn seal<D: LogDisk>(self, disk: &mut D, alloc: Global) -> Result<(), LogFault>
        requires { IsTrue (D.honest disk.old) → self.failed ≡ false → Writes (D.files disk.old) self }
        ensures honest { D.honest disk.new ≡ D.honest disk.old }
        ensures durable { IsTrue (D.honest disk.old) → DurableGrows (D.synced disk.old) (D.gone disk.old) (D.synced disk.new) (D.gone disk.new) }
        ensures cause { FailsExactlyIf (D.failures disk.old) (D.failures disk.new) (IsErrOf result LogFault.Disk) }
        ensures failed { IsErrOf result LogFault.Failed ↔ (self.failed ≡ true) }
        ensures untouched { IsErrOf result LogFault.Failed → disk.new ≡ disk.old }
        ensures transition { IsTrue (D.honest disk.old) → WriterSealTransition (D.files disk.old) self result (D.files disk.new) }

        // Consequences for the log: its entries are unchanged, no record is removed, and a sealed
        // log has its map.
        ensures entries { IsTrue (D.honest disk.old) → KeepsEntries (D.files disk.old) (D.files disk.new) }
        ensures gains { IsTrue (D.honest disk.old) → SealGains (D.files disk.old) self (D.files disk.new) }
        ensures map { IsTrue (D.honest disk.old) → map_fits self ≡ true
            → OnOk result (HasMap (file_of (D.files disk.new) self.log)) }
    {
        if self.failed {
            return Err(LogFault::Failed);
        }
        let end = self.length();
        let Ok(sizes) = self.sizes.into_map() else {
            return Err(LogFault::Memory);
        };
        let Ok(map) = map_bytes(alloc, &sizes) else {
            return Err(LogFault::Memory);
        };
        if end + map.len() as u64 > u64::from(u32::MAX) {
            return Ok(());
        }
        if let Err(fault) = append_any(disk, alloc, self.log, &map) {
            return Err(fault);
        }
        let header = header_patch(end, &sizes);
        patch(disk, alloc, self.log, &header)
    }
}

/// Returns the ledgers map of these sizes as bytes.
fn map_bytes(alloc: Global, sizes: &BTreeMap<u64, u64>) -> Result<Vec<u8>, HeadFault>
    requires { IsWritable (map_of sizes.now) }
    ensures { IfOk result (λ v. v.items ≡ written_map (map_of sizes.now)) }
{
    let mut bytes = Vec::new(alloc);
    write_map(sizes, &mut bytes)?;
    Ok(bytes)
}

/// Returns bytes 8 to 20 of a sealed log's header: position of its map, and its number of ledgers.
fn header_patch(offset: u64, sizes: &BTreeMap<u64, u64>) -> [u8; 12]
    requires { IsWritable (map_of sizes.now) }
    ensures { result ≡ patch_of offset (map.len (map_of sizes.now)) }
{
    patch_bytes(offset, sizes.len() as u32)
}
