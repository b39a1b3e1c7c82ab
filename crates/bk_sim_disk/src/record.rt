//! Records of the simulation: the bytes of an entry follow from its key and size.

ghost use Rattle.std.specs.Prelude.{◌≡◌, ◌≤◌, ◌^◌, ◌<◌, IfOk, length, max};

use bk_record::{Key, RECORD_HEAD, key_of};
use std::alloc::{AllocError, Global};

/// Bytes of the ids of a payload.
const IDS: u32 = 16;

/// A record: the key of its entry, where it begins in its file, and its size with the length field.
#[derive(Clone, Copy, Debug, PartialEq, Eq)]
pub(crate) struct Record {
    pub ledger: u64,
    pub entry: u64,
    pub at: u32,
    pub size: u32,
}

/// Returns the byte that fills the data of an entry.
pub fn filler_of(ledger: u64, entry: u64) -> u8 {
    ((ledger ^ entry.rotate_left(3)) & 0xff) as u8
}

/// Returns a payload of `size` bytes, at least 16: the ids of ledger and entry, then the filler.
///
/// # Errors
///
/// - `AllocError` if memory is refused.
pub fn payload_of(
    alloc: Global,
    ledger: u64,
    entry: u64,
    size: u32,
) -> Result<Vec<u8>, AllocError> {
    let data = size.saturating_sub(IDS) as usize;
    let mut payload = vec![in alloc; filler_of(ledger, entry); IDS as usize + data]?;
    payload[..8].copy_from_slice(&ledger.to_be_bytes());
    payload[8..16].copy_from_slice(&entry.to_be_bytes());
    Ok(payload)
}

impl Record {
    /// Returns the record that these bytes are, if the record begins at `at`; `None` if they are
    /// not one whole record of an entry whose data is its filler.
    pub(crate) fn of(bytes: &[u8], at: u32) -> Option<Record> {
        if bytes.len() < RECORD_HEAD || bytes.len() > i32::MAX as usize {
            return None;
        }
        let size = bytes.len() as u32;
        if u32::from_be_bytes([bytes[0], bytes[1], bytes[2], bytes[3]]) != size - 4 {
            return None;
        }
        let key = key_of(&bytes[4..]).ok()?;
        let filler = filler_of(key.ledger(), key.entry());
        if !is_filled(&bytes[RECORD_HEAD..], filler) {
            return None;
        }
        Some(Record {
            ledger: key.ledger(),
            entry: key.entry(),
            at,
            size,
        })
    }

    /// Returns the position behind the record.
    pub(crate) fn end(&self) -> u64 {
        u64::from(self.at) + u64::from(self.size)
    }

    /// Writes bytes of the record to the start of `out`, from its byte `from` on, until one of both
    /// ends. Returns the number of bytes written.
    pub(crate) fn write(&self, from: usize, out: &mut [u8]) -> usize {
        let wanted = (self.size as usize).saturating_sub(from).min(out.len());
        let head = self.head();
        let heads = head.len().saturating_sub(from).min(wanted);
        if heads > 0 {
            out[..heads].copy_from_slice(&head[from..from + heads]);
        }
        out[heads..wanted].fill(filler_of(self.ledger, self.entry));
        wanted
    }

    /// Returns the length field and the ids.
    fn head(&self) -> [u8; RECORD_HEAD] {
        let mut head = [0u8; RECORD_HEAD];
        head[..4].copy_from_slice(&self.size.saturating_sub(4).to_be_bytes());
        head[4..12].copy_from_slice(&self.ledger.to_be_bytes());
        head[12..].copy_from_slice(&self.entry.to_be_bytes());
        head
    }
}

/// Returns whether each byte is this one.
fn is_filled(bytes: &[u8], filler: u8) -> bool {
    for byte in bytes {
        if *byte != filler {
            return false;
        }
    }
    true
}

/// Returns whether these bytes are one record of an entry, of any data.
pub(crate) fn is_entry(bytes: &[u8]) -> bool {
    if bytes.len() < RECORD_HEAD {
        return false;
    }
    let length = u32::from_be_bytes([bytes[0], bytes[1], bytes[2], bytes[3]]);
    bytes.len() as u64 == u64::from(length) + 4 && key_of(&bytes[4..]).is_ok()
}
