//! Payloads and their records: a length in four bytes, big-endian, then the payload.

ghost use Rattle.std.specs.Prelude.{◌≡◌, ◌++◌, OnOk, OnErr, IsOkUnless, length, Result};
ghost use Rattle.bk_record.specs.Record.{record_of, IsPayload, read_key, read_added};
ghost use Rattle.bk_record.specs.declared.fault.RecordFault.TheVariants.{Memory};

use crate::{IDS_LENGTH, Key, LENGTH_FIELD, MAX_ADDED, RecordFault};
use byteorder::{BigEndian, ByteOrder};

/// Returns the key of a payload: the ledger id in its first eight bytes, the entry id in the next
/// eight, both big-endian (BookKeeper entry log format).
///
/// # Errors
///
/// In this order (project rules):
///
/// - `Short` with the length in bytes, if the payload has fewer than 16 bytes.
/// - `Negative` if an id is negative as a signed number.
#[tactic(auto, unfolding(crate::specs::Record::read_key, crate::specs::Record::key_of, crate::specs::Record::ledger_field, crate::specs::Record::entry_field))]
pub fn key_of(payload: &[u8]) -> Result<Key, RecordFault>
    ensures { result ≡ read_key payload.now }
{
    if payload.len() < IDS_LENGTH {
        return Err(RecordFault::Short(payload.len() as u64));
    }
    let ledger = BigEndian::read_u64(payload);
    let entry = BigEndian::read_u64(&payload[8..]);
    match Key::new(ledger, entry) {
        Some(key) => Ok(key),
        None => Err(RecordFault::Negative),
    }
}

/// Returns the key of a payload to be added.
///
/// # Errors
///
/// In this order (project rules):
///
/// - those of `key_of`;
/// - `TooLong` with the length in bytes, if the payload has more than 5,000,000 bytes.
#[tactic(auto, unfolding(crate::specs::Record::read_added))]
pub fn check_add(payload: &[u8]) -> Result<Key, RecordFault>
    ensures { result ≡ read_added payload.now }
{
    match key_of(payload) {
        Ok(_) if payload.len() > MAX_ADDED => Err(RecordFault::TooLong(payload.len() as u64)),
        outcome => outcome,
    }
}

/// Appends the record of a payload to `out`: its length in four bytes, big-endian, then its bytes
/// (BookKeeper entry log format). Requires a payload of 16 to 2^31 - 1 bytes.
///
/// # Errors
///
/// - `Memory` if `out` cannot grow; `out` is unchanged.
#[tactic(auto, unfolding(crate::specs::Record::record_of))]
pub fn write_record(payload: &[u8], out: &mut Vec<u8>) -> Result<(), RecordFault>
    requires { IsPayload payload.now }
    ensures ok { OnOk result (out.new.items ≡ out.old.items ++ record_of payload.now) }
    ensures only { IsOkUnless result Memory }
    ensures err { OnErr result (out.new.items ≡ out.old.items) }
{
    if out.reserve(LENGTH_FIELD + payload.len()).is_err() {
        return Err(RecordFault::Memory);
    }
    let mut length = [0; LENGTH_FIELD];
    BigEndian::write_u32(&mut length, payload.len() as u32);
    out.extend_from_slice(&length).unwrap();
    out.extend_from_slice(payload).unwrap();
    Ok(())
}
