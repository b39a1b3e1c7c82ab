//! Parsing of records: the piece at a position of an entry log's bytes, for any bytes.

ghost use Rattle.std.specs.Prelude.{◌≤◌, length};
ghost use Rattle.bk_record.specs.Piece.{IsPieceAt};

use crate::record::key_of;
use crate::{IDS_LENGTH, LENGTH_FIELD, MAX_PAYLOAD};
use byteorder::{BigEndian, ByteOrder};

/// The piece at a position of an entry log's bytes. Positions count bytes from the start of the
/// slice that was read.
#[derive(Clone, Copy, Debug, PartialEq, Eq)]
pub enum Piece {
    /// A whole record with a key. Its payload is the bytes from `from` up to, not including, `to`.
    Whole { from: usize, to: usize },
    /// A whole record without a key, such as a batch of a ledgers map. It ends before `to`. It is
    /// not an entry (project rule).
    Foreign { to: usize },
    /// Fewer bytes are left than the length field or its record needs; `rest` is their number. This
    /// is no error (project rule).
    Torn { rest: usize },
    /// The four bytes at position `at` are a length below 16, as a signed number (project rule).
    Bad { at: usize, length: i32 },
    /// No byte is left.
    End,
}

/// Returns the piece at position `pos`, which is at most the length of `bytes`.
///
/// There is one piece at each position. To read all records, continue at `to` until the piece is
/// `Torn`, `Bad` or `End`.
pub fn read_record(bytes: &[u8], pos: usize) -> Piece
    requires { pos ≤ length bytes.now }
    ensures { IsPieceAt bytes.now pos result }
{
    let left = &bytes[pos..];
    if left.is_empty() {
        return Piece::End;
    }
    if left.len() < LENGTH_FIELD {
        return Piece::Torn { rest: left.len() };
    }
    let field = BigEndian::read_u32(left);
    let size = field as usize;
    if size < IDS_LENGTH || size > MAX_PAYLOAD {
        return Piece::Bad {
            at: pos,
            length: field.cast_signed(),
        };
    }
    if left.len() - LENGTH_FIELD < size {
        return Piece::Torn { rest: left.len() };
    }
    let from = pos + LENGTH_FIELD;
    match key_of(&left[LENGTH_FIELD..LENGTH_FIELD + size]) {
        Ok(_) => Piece::Whole {
            from,
            to: from + size,
        },
        Err(_) => Piece::Foreign { to: from + size },
    }
}
