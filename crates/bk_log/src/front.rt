//! The start of a log's remaining bytes, parsed from the first 20: the length field and the two
//! ids.

ghost use Rattle.std.specs.Prelude.{◌≡◌, ℕ, List, length, take, min};
ghost use Rattle.bk_log.specs.Fronts.{IsFront, FitsIn};

use crate::length::{is_payload_length, length_in};
use bk_record::{Key, RECORD_HEAD, key_of};

/// Greatest number of bytes that are parsed.
pub(crate) const HEAD: u64 = RECORD_HEAD as u64;

/// The start of bytes.
#[derive(Clone, Copy)]
pub(crate) enum Front {
    /// A whole record of this size in bytes, with its length field; its key, if it has one.
    Record { size: u32, key: Option<Key> },
    /// Fewer bytes than the length field or the record needs, or none.
    Rest,
    /// A length below 16, as a signed number.
    Bad(i32),
}

/// Parses the start of `left` bytes. `head` are the first 20 of these, or all if fewer.
pub(crate) fn front_of(head: &[u8], left: u64) -> Front
    requires { length head.now ≡ min HEAD left }
    ensures fits { FitsIn left result }
    ensures front { (bytes : List ℕ) → left ≡ length bytes → head.now ≡ take HEAD bytes → IsFront bytes result }
{
    if left < 4 {
        return Front::Rest;
    }
    let length = length_in(head);
    if !is_payload_length(length) {
        return Front::Bad(length.cast_signed());
    }
    let size = 4 + length;
    if left < u64::from(size) {
        return Front::Rest;
    }
    let key = match key_of(&head[4..20]) {
        Ok(key) => Some(key),
        Err(_) => None,
    };
    Front::Record { size, key }
}
