//! The entries of the calls.

ghost use Rattle.std.specs.Prelude.{◌≡◌, ◌/◌, ◌%◌};

use bk_record::Key;
use std::alloc::{AllocError, Global};

/// Number of ledgers of the counted calls.
const LEDGERS: u64 = 100;

/// Returns ledger and entry id of the counted entry with this number: one of each ledger after
/// another.
fn ids(number: u64) -> (u64, u64)
    ensures { result ≡ (number % 100, number / 100) }
{
    (number % LEDGERS, number / LEDGERS)
}

/// Returns a payload of 100 bytes: ledger and entry id, then zeros.
pub(crate) fn payload(ledger: u64, entry: u64) -> [u8; 100] {
    let mut payload = [0; 100];
    payload[..8].copy_from_slice(&ledger.to_be_bytes());
    payload[8..16].copy_from_slice(&entry.to_be_bytes());
    payload
}

/// Returns the payloads of N counted entries.
pub(crate) fn payloads(alloc: Global, count: u64) -> Result<Vec<[u8; 100]>, AllocError> {
    let mut payloads = Vec::new(alloc);
    for number in 0..count {
        let (ledger, entry) = ids(number);
        payloads.push(payload(ledger, entry))?;
    }
    Ok(payloads)
}

/// Returns the keys of N counted entries.
pub(crate) fn keys(alloc: Global, count: u64) -> Result<Vec<Key>, AllocError> {
    let mut keys = Vec::new(alloc);
    for number in 0..count {
        let (ledger, entry) = ids(number);
        if let Some(key) = Key::new(ledger, entry) {
            keys.push(key)?;
        }
    }
    Ok(keys)
}
