//! Reads records one after another, as logs have them.

ghost use Rattle.std.specs.Prelude.{◌≡◌, ◌<◌, ◌≤◌, length, option_map, IfOk, IfSome, IfNone, IsErrOf};
ghost use Rattle.std.specs.Int.{w32, to_be_bytes, from_be_bytes};
ghost use Rattle.std.specs.Io.KnownBytes.{Consumes, IsAtEnd};
ghost use Rattle.bk_import.specs.Records.{BeginsNoRecord, ReadsRecord, IsAddedLength};

use bk_record::{IDS_LENGTH, LENGTH_FIELD, MAX_ADDED};
use std::alloc::{AllocError, Global};
use std::io;
use std::io::Read;

/// Why no record is read.
#[derive(Debug, Drop)]
pub(crate) enum RecordsFault {
    /// A read fails.
    Read(io::Error),
    /// What follows is no record, or its payload has more than 5,000,000 bytes.
    Bad,
    /// Out of memory.
    Memory,
}

impl From<io::Error> for RecordsFault {
    ghost use Rattle.bk_import.specs.declared.records.RecordsFault.TheVariants.{Read};

    ghost from_gives = { λ error fault. fault ≡ Read error };

    fn from(error: io::Error) -> RecordsFault {
        RecordsFault::Read(error)
    }
}

impl From<AllocError> for RecordsFault {
    ghost use Rattle.bk_import.specs.declared.records.RecordsFault.TheVariants.{Memory};

    ghost from_gives = { λ _ fault. fault ≡ Memory };

    fn from(_: AllocError) -> RecordsFault {
        RecordsFault::Memory
    }
}

/// Returns the payload of the next record of a reader; `None` at the end of the input.
pub(crate) fn next_record<R: Read>(
    alloc: Global,
    reader: &mut R,
) -> Result<Option<Vec<u8>>, RecordsFault>
    ensures read { IfOk result (λ found. ReadsRecord (option_map (λ payload. payload.items) found) (R.remaining reader.old) (R.remaining reader.new)) }
    ensures bad { IsErrOf result RecordsFault.Bad → IfSome (R.remaining reader.old) BeginsNoRecord }
{
    let field = read_up_to(alloc, reader, LENGTH_FIELD)?;
    if field.is_empty() {
        return Ok(None);
    }
    let Some(length) = length_in(&field) else {
        return Err(RecordsFault::Bad);
    };
    let payload = read_up_to(alloc, reader, length)?;
    if payload.len() < length {
        return Err(RecordsFault::Bad);
    }
    Ok(Some(payload))
}

/// Reads `n` bytes, fewer at the end of the input.
fn read_up_to<R: Read>(alloc: Global, reader: &mut R, n: usize) -> Result<Vec<u8>, RecordsFault>
    ensures within { IfOk result (λ bytes. length bytes.items ≤ n) }
    ensures bytes { IfOk result (λ bytes. Consumes (R.remaining reader.old) (R.remaining reader.new) bytes.items) }
    ensures end { IfOk result (λ bytes. length bytes.items < n → IsAtEnd (R.remaining reader.new)) }
    ensures never_bad { ¬ (IsErrOf result RecordsFault.Bad) }
{
    let mut bytes = Vec::new(alloc);
    let mut chunk = [0; 8192];
    while bytes.len() < n {
        let most = chunk.len().min(n - bytes.len());
        let count = reader.read(&mut chunk[..most])?;
        if count == 0 {
            return Ok(bytes);
        }
        bytes.extend_from_slice(&chunk[..count])?;
    }
    Ok(bytes)
}

/// Returns the length that a length field has; `None` if it is cut off, or no payload to be added
/// has this length.
fn length_in(field: &[u8]) -> Option<usize>
    requires { length field.now ≤ 4 }
    ensures some { IfSome result (λ n. (field.now ≡ to_be_bytes w32 n) × IsAddedLength n) }
    ensures none { IfNone result (length field.now ≡ 4 → IsAddedLength (from_be_bytes w32 field.now) → ⊥) }
{
    let bytes = field.first_chunk()?;
    let length = u32::from_be_bytes(*bytes) as usize;
    if IDS_LENGTH <= length && length <= MAX_ADDED {
        Some(length)
    } else {
        None
    }
}
