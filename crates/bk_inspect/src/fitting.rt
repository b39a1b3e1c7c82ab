//! Whether an entry fits a digest. The entry is read in pieces, so that one of any length takes
//! little memory.

ghost use Rattle.std.specs.Prelude.{◌≡◌, ℕ, ◌+◌, ◌<◌, ◌^◌, ◌↔◌, IsTrue, IfOk, OnOk, List, ◌++◌, length, take, drop};
ghost use Rattle.bk_crc.specs.Holds.{Holds};
ghost use Rattle.bk_crc.specs.declared.polynomial.Polynomial.{Polynomial};
ghost use Rattle.bk_inspect.specs.Digests.{FitsDigest};
ghost use Rattle.bk_log.specs.Places.{HasRecordAt};

use crate::DirFault;
use crate::calls::read_view;
use crate::digest::{DIGEST_AT, Digest};
use bk_crc::Checksum;
use bk_disk::LogView;
use bk_log::Found;
use bk_record::LENGTH_FIELD;
use std::alloc::Global;

/// The number of bytes read at once.
const WINDOW: u64 = 65_536;

/// Returns whether an entry of a view fits a digest. One that is too short does not.
pub(crate) fn fits<V: LogView>(
    alloc: Global,
    view: &V,
    found: &Found,
    digest: Digest,
) -> Result<bool, DirFault>
    ensures { IsTrue (V.honest view.now) → IfOk result (λ fits. (payload : List ℕ)
        → HasRecordAt (V.bytes view.now) found.now.at payload → found.now.size ≡ 4 + length payload
        → IsTrue fits ↔ FitsDigest digest payload) }
{
    let size = u64::from(found.size).saturating_sub(LENGTH_FIELD as u64);
    let data = DIGEST_AT + digest.width();
    if size < data {
        return Ok(false);
    }
    if found.at > u64::MAX - size {
        return Err(DirFault::Odd);
    }
    let head = read_view(alloc, view, found.at, DIGEST_AT)?;
    let written = read_view(alloc, view, found.at + DIGEST_AT, digest.width())?;
    let mut checksum = Checksum::new(digest.polynomial());
    checksum.update(&head);
    add_part(alloc, view, found.at + data, size - data, &mut checksum)?;
    Ok(u64::from(checksum.finish()) == digest.read(&written))
}

/// Adds `n` bytes of a view, from a position on, to a checksum.
fn add_part<V: LogView>(
    alloc: Global,
    view: &V,
    from: u64,
    size: u64,
    checksum: &mut Checksum,
) -> Result<(), DirFault>
    requires { from + size < 2 ^ 64 }
    ensures { IsTrue (V.honest view.now) → OnOk result ((polynomial : Polynomial) (message : List ℕ)
        → Holds polynomial checksum.old message
        → Holds polynomial checksum.new (message ++ take size (drop from (V.bytes view.now)))) }
{
    let mut done = 0;
    while done < size {
        let some = (size - done).min(WINDOW);
        let bytes = read_view(alloc, view, from + done, some)?;
        checksum.update(&bytes);
        done += some;
    }
    Ok(())
}
