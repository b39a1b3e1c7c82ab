//! Bytes in a scenario: words of hexadecimal digits.

ghost use Rattle.std.specs.Prelude.{◌≡◌, ◌∷◌, [], ℕ, ◌≤◌, IfOk, IfSome, Ok, replicate};
ghost use Rattle.std.specs.Fmt.{decimal};
ghost use Rattle.hex.specs.Hex.{decode_of};

use bk_decimal::number;
use hex::{FromHexError, decode};
use std::alloc::{AllocError, Global};

/// Largest number of bytes of one word.
const MOST: u64 = 16_777_216;

/// Parses a word to bytes: pairs of hexadecimal digits, or one pair and `*N` for N equal bytes.
/// Returns `None` if the word is neither.
pub(crate) fn word_bytes(alloc: Global, word: &str) -> Result<Option<Vec<u8>>, AllocError> {
    let Some((pair, count)) = word.split_once('*') else {
        return digits(alloc, word);
    };
    repeated(alloc, pair, count)
}

/// Returns one byte N times.
fn repeated(alloc: Global, pair: &str, count: &str) -> Result<Option<Vec<u8>>, AllocError>
    ensures { IfOk result (λ found. IfSome found (λ bytes. (n : ℕ) × (byte : ℕ) × (count.now ≡ decimal n)
        × (decode_of pair.now ≡ Ok (byte ∷ [])) × (bytes.items ≡ replicate n byte))) }
{
    let (Some(bytes), Some(count)) = (digits(alloc, pair)?, number(count, MOST)) else {
        return Ok(None);
    };
    match bytes.as_slice() {
        [byte] => Ok(Some(vec![in alloc; *byte; count as usize]?)),
        _ => Ok(None),
    }
}

/// Parses pairs of hexadecimal digits.
fn digits(alloc: Global, word: &str) -> Result<Option<Vec<u8>>, AllocError>
    ensures { IfOk result (λ found. IfSome found (λ bytes. decode_of word.now ≡ Ok bytes.items)) }
{
    match decode(alloc, word) {
        Ok(bytes) => Ok(Some(bytes)),
        Err(FromHexError::OutOfMemory) => Err(AllocError),
        Err(_) => Ok(None),
    }
}

/// Parses the words of a text to bytes, one after another.
pub(crate) fn text_bytes(alloc: Global, text: &str) -> Result<Option<Vec<u8>>, AllocError> {
    let mut all = Vec::new(alloc);
    for word in text.split(' ') {
        let Some(bytes) = word_bytes(alloc, word)? else {
            return Ok(None);
        };
        all.extend_from_slice(&bytes)?;
    }
    Ok(Some(all))
}
