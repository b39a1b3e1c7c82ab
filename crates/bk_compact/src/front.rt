//! What stands at a position of the source log, by the first 20 bytes there. Needs no memory.

ghost use Rattle.std.specs.Prelude.{◌≡◌, ◌↔◌, ◌≤◌, ◌<◌, ◌^◌, ℕ, List, length, take, drop, min, false, IsTrue, IsErrOf, IfOk};
ghost use Rattle.std.specs.Int.{w32, to_be_bytes};
ghost use Rattle.bk_record.specs.Record.{length_field, is_foreign as has_no_key};
ghost use Rattle.bk_disk.specs.Disk.{IsInView};
ghost use Rattle.bk_compact.specs.Fronts.{ShowsFront, FitsIn, ReadsHead};

use crate::scanning::Unread;
use bk_disk::{DiskFault, LogView};
use bk_record::{RECORD_HEAD, key_of};

/// Greatest number of bytes that are read.
const HEAD: u64 = RECORD_HEAD as u64;

/// What stands at a position.
#[derive(Clone, Copy)]
pub(crate) enum Front {
    /// An entry.
    Entry,
    /// A foreign record of this size in bytes, with its length field.
    Foreign(u32),
    /// Fewer bytes than a record needs, or none.
    Rest,
}

/// Returns what stands at a position of a view. `left` bytes of the view are from there on.
pub(crate) fn read_front<V: LogView>(view: &V, at: u64, left: u64) -> Result<Front, Unread>
    requires { IsTrue (V.honest view.now) → IsInView (V.bytes view.now) at left }
    ensures cause { IsErrOf result Unread.Disk → V.sound view.now ≡ false }
    ensures fits { IfOk result (FitsIn left) }
    ensures transition { IsTrue (V.honest view.now) → ShowsFront (take left (drop at (V.bytes view.now))) result }
{
    let wanted = left.min(HEAD) as usize;
    let mut bytes = [0u8; RECORD_HEAD];
    let head = &mut bytes[..wanted];
    read_head(view, at, head)?;
    front_of(head, left)
}

/// Reads bytes of a view into `out`. Fails with `Odd` if they are not in the view.
fn read_head<V: LogView>(view: &V, at: u64, out: &mut [u8]) -> Result<(), Unread>
    requires { IsTrue (V.honest view.now) → IsInView (V.bytes view.now) at (length out.old) }
    ensures cause { IsErrOf result Unread.Disk → V.sound view.now ≡ false }
    ensures transition { IsTrue (V.honest view.now) → ReadsHead (V.bytes view.now) at (length out.old) result out.new }
{
    match view.read_into(at, out) {
        Ok(()) => Ok(()),
        Err(DiskFault::Disk) => Err(Unread::Disk),
        Err(_) => Err(Unread::Odd),
    }
}

/// Parses the start of `left` bytes. `head` are the first 20 of these, or all if fewer. A bad
/// length is `Odd`: the source of a compaction has none on an honest disk.
fn front_of(head: &[u8], left: u64) -> Result<Front, Unread>
    requires { length head.now ≡ min HEAD left }
    ensures fits { IfOk result (FitsIn left) }
    ensures cause { ¬ (IsErrOf result Unread.Disk) }
    ensures front { (bytes : List ℕ) → left ≡ length bytes → head.now ≡ take HEAD bytes → ShowsFront bytes result }
{
    if left < 4 {
        return Ok(Front::Rest);
    }
    let length = length_in(head);
    if !is_payload_length(length) {
        return Err(Unread::Odd);
    }
    let size = 4 + length;
    if left < u64::from(size) {
        return Ok(Front::Rest);
    }
    if is_foreign(&head[4..20]) {
        Ok(Front::Foreign(size))
    } else {
        Ok(Front::Entry)
    }
}

/// Returns the number in the first four bytes.
fn length_in(bytes: &[u8]) -> u32
    requires { 4 ≤ length bytes.now }
    ensures value { result ≡ length_field bytes.now }
    ensures written { to_be_bytes w32 result ≡ take 4 bytes.now }
{
    u32::from_be_bytes([bytes[0], bytes[1], bytes[2], bytes[3]])
}

/// Returns whether a record can have a payload of this length: 16 to 2^31 - 1 bytes.
fn is_payload_length(length: u32) -> bool
    ensures { IsTrue result ↔ ((16 ≤ length) × (length < 2 ^ 31)) }
{
    16 <= length && length <= i32::MAX as u32
}

/// Returns whether one of a record's ids is negative.
fn is_foreign(ids: &[u8]) -> bool
    requires { 16 ≤ length ids.now }
    ensures { result ≡ has_no_key ids.now }
{
    match key_of(ids) {
        Ok(_) => false,
        Err(_) => true,
    }
}
