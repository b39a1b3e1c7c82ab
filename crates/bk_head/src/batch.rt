//! A batch of the ledgers map: its head and its pairs, as bytes.

ghost use Rattle.std.specs.Prelude.{◌≡◌, ◌+◌, ◌≤◌};
ghost use Rattle.bk_head.specs.Ledgers as map;
ghost use Rattle.bk_head.specs.Parts as parts;

use bk_record::{IDS_LENGTH, LENGTH_FIELD, RECORD_HEAD};
use byteorder::{BigEndian, ByteOrder};

/// Length in bytes of a batch's ids and its number of pairs, which begin its payload.
pub const IDS_AND_COUNT: usize = IDS_LENGTH + 4;

/// Length in bytes of a batch before its pairs, with its length field.
pub const BATCH_HEAD: usize = LENGTH_FIELD + IDS_AND_COUNT;

/// Length of a pair in bytes.
pub const PAIR: usize = 16;

/// Greatest number of pairs of a written batch (project rule).
pub const BATCH_PAIRS: usize = 10_000;

/// Ledger id of a batch's record (BookKeeper entry log format).
const LEDGER: i64 = -1;

/// Entry id of a batch's record (BookKeeper entry log format).
const ENTRY: i64 = -2;

/// Returns the two ids that begin the payload of a batch.
pub fn batch_ids() -> [u8; IDS_LENGTH]
    ensures { result ≡ map.batch_ids }
{
    let mut ids = [0; IDS_LENGTH];
    BigEndian::write_i64(&mut ids, LEDGER);
    BigEndian::write_i64(&mut ids[8..], ENTRY);
    ids
}

/// Returns the bytes of a batch before its pairs: length field, ids and number of pairs. The length
/// field does not count its own four bytes (project rule).
pub fn batch_head(pairs: usize) -> [u8; BATCH_HEAD]
    requires { pairs ≤ 10000 }
    ensures { result ≡ parts.batch_head pairs }
{
    let mut head = [0; BATCH_HEAD];
    BigEndian::write_u32(&mut head, (IDS_AND_COUNT + PAIR * pairs) as u32);
    head[LENGTH_FIELD..RECORD_HEAD].copy_from_slice(&batch_ids());
    BigEndian::write_u32(&mut head[RECORD_HEAD..], pairs as u32);
    head
}

/// Returns the bytes of a pair: ledger id and size, eight bytes each, big-endian.
pub fn pair_bytes(ledger: u64, size: u64) -> [u8; PAIR]
    ensures { result ≡ map.pair_bytes (ledger, size) }
{
    let mut pair = [0; PAIR];
    BigEndian::write_u64(&mut pair, ledger);
    BigEndian::write_u64(&mut pair[8..], size);
    pair
}
