//! The entries that the stages use.

ghost use Rattle.std.specs.Prelude.{◌≡◌, ◌+◌, ◌≤◌, ◌/◌, ◌%◌, IfOk, length};

use bk_record::Key;
use std::alloc::{AllocError, Global};

/// Number of ledgers.
pub(crate) const LEDGERS: u64 = 100;

/// The data after the ids of a payload, which then has 100 bytes.
const DATA: [u8; 84] = [0; 84];

/// The order of the entries.
#[derive(Clone, Copy)]
pub(crate) enum Order {
    /// One entry of each ledger after another; the entry ids of a ledger rise.
    Turn,
    /// All entries of the first ledger, then those of the next.
    Rising,
}

/// The number of entries, and their order.
#[derive(Clone, Copy)]
pub(crate) struct Amount {
    pub count: u64,
    pub order: Order,
}

impl Amount {
    /// Returns ledger and entry id of the entry with this number, counted from 0.
    pub(crate) fn ids(self, number: u64) -> (u64, u64)
        ensures transition { self.order ≡ Order.Turn → result ≡ (number % 100, number / 100) }
        ensures rising { self.order ≡ Order.Rising → 100 ≤ self.count
            → result ≡ (number / (self.count / 100), number % (self.count / 100)) }
    {
        match self.order {
            Order::Turn => (number % LEDGERS, number / LEDGERS),
            Order::Rising => {
                let each = (self.count / LEDGERS).max(1);
                (number / each, number % each)
            }
        }
    }

    /// Returns the keys in order. Fails only if out of memory.
    pub(crate) fn keys(self, alloc: Global) -> Result<Vec<Key>, AllocError> {
        let mut keys = Vec::new(alloc);
        for number in 0..self.count {
            let (ledger, entry) = self.ids(number);
            if let Some(key) = Key::new(ledger, entry) {
                keys.push(key)?;
            }
        }
        Ok(keys)
    }

    /// Returns the payloads in the order of their keys.
    pub(crate) fn payloads(self, alloc: Global) -> Result<Vec<Vec<u8>>, AllocError> {
        let mut payloads = Vec::new(alloc);
        for number in 0..self.count {
            payloads.push(payload(alloc, self.ids(number))?)?;
        }
        Ok(payloads)
    }
}

/// Returns a payload of 100 bytes: ledger and entry id, then zeros.
pub(crate) fn payload(alloc: Global, ids: (u64, u64)) -> Result<Vec<u8>, AllocError>
    ensures { IfOk result (λ payload. length payload.items ≡ 100) }
{
    payload_of(alloc, ids, &DATA)
}

/// Returns a payload: ledger and entry id, then these bytes.
pub(crate) fn payload_of(alloc: Global, ids: (u64, u64), data: &[u8]) -> Result<Vec<u8>, AllocError>
    ensures { IfOk result (λ payload. length payload.items ≡ 16 + length data.now) }
{
    let mut payload = short_payload(alloc, ids)?;
    payload.extend_from_slice(data)?;
    Ok(payload)
}

/// Returns a payload of only the two ids, 16 bytes.
pub(crate) fn short_payload(alloc: Global, ids: (u64, u64)) -> Result<Vec<u8>, AllocError>
    ensures { IfOk result (λ payload. length payload.items ≡ 16) }
{
    let mut payload = Vec::with_capacity(alloc, 16)?;
    payload.extend_from_slice(&ids.0.to_be_bytes())?;
    payload.extend_from_slice(&ids.1.to_be_bytes())?;
    Ok(payload)
}
