//! Reading one entry by its place: first the start of its record and its key, then the rest of its
//! payload.

ghost use Rattle.std.specs.Prelude.{◌≡◌, ◌≤◌, ◌↔◌, false, IsTrue, IsErrOf, length};
ghost use Rattle.bk_record.specs.Record.{key_of as payload_key};
ghost use Rattle.bk_log.specs.Places.{Fetches, fetch_fault_of_read};

use crate::FetchFault;
use crate::length::{is_payload_length, length_in};
use crate::reading::{ReadFault, read, read_front};
use bk_disk::LogView;
use bk_record::{Key, LENGTH_FIELD, Location, RECORD_HEAD, key_of};
use std::alloc::Global;

/// Length of a record's length field in bytes.
const FIELD: u64 = LENGTH_FIELD as u64;

/// Number of bytes of the first read, so that a short record needs only one.
const FRAME: usize = 256;

/// Returns the payload of the whole record of this key whose payload begins at the location's
/// position in the view.
///
/// The location's log is not used: the caller passes that log's view.
///
/// # Errors
///
/// - `Disk` if the view is not sound.
/// - `NotThere` exactly if no whole record of the key has its payload at the position.
/// - `Memory`, only if such a record is there.
/// - `Odd`, not on an honest view.
pub fn fetch<V: LogView>(
    view: &V,
    alloc: Global,
    location: Location,
    key: Key,
) -> Result<Vec<u8>, FetchFault>
    ensures cause { IsErrOf result FetchFault.Disk → V.sound view.now ≡ false }
    ensures transition { IsTrue (V.honest view.now)
        → Fetches (λ v. v.items) (V.bytes view.now) location.at key result }
{
    let at = u64::from(location.at());
    let mut frame = [0u8; FRAME];
    let front = match read_front(view, at - FIELD, &mut frame) {
        Ok(front) => front,
        Err(fault) => return Err(fetch_fault(fault)),
    };
    let length = length_in(&frame[..RECORD_HEAD]);
    if !is_payload_length(length) || !is_of_key(&frame[LENGTH_FIELD..RECORD_HEAD], key) {
        return Err(FetchFault::NotThere);
    }
    if length as usize <= front - LENGTH_FIELD {
        let payload = &frame[LENGTH_FIELD..LENGTH_FIELD + length as usize];
        return match Vec::from_slice(alloc, payload) {
            Ok(payload) => Ok(payload),
            Err(_) => Err(FetchFault::Memory),
        };
    }
    match read(view, alloc, at, u64::from(length)) {
        Ok(payload) => Ok(payload),
        Err(fault) => Err(fetch_fault(fault)),
    }
}

/// Whether the payload has this key.
fn is_of_key(payload: &[u8], key: Key) -> bool
    requires { 16 ≤ length payload.now }
    ensures { IsTrue result ↔ (payload_key payload.now ≡ Some key) }
{
    match key_of(payload) {
        Ok(found) => found == key,
        Err(_) => false,
    }
}

/// Converts an error of a read: if bytes of a record would be outside the view, there is no such
/// record.
fn fetch_fault(fault: ReadFault) -> FetchFault
    ensures { result ≡ fetch_fault_of_read fault }
{
    match fault {
        ReadFault::Disk => FetchFault::Disk,
        ReadFault::PastEnd => FetchFault::NotThere,
        ReadFault::Memory => FetchFault::Memory,
        ReadFault::Odd => FetchFault::Odd,
    }
}
