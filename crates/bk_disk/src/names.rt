//! File names of logs.

ghost use Rattle.std.specs.Prelude.{◌≡◌, ℕ, ◌<◌, ◌^◌, Some, false, IfOk, IfSome, string_bytes};
ghost use Rattle.std.specs.Fmt.{digit_glyph};
ghost use Rattle.bk_disk.specs.Names.{id_text, name_text, un_text, unsynced_text, again_text};

use std::alloc::{AllocError, Global};

/// Returns the file name of a log: its id in lower-case hexadecimal without leading zeros, then
/// `.log`. Fails only if memory is refused.
pub fn name_of(alloc: Global, log: u32) -> Result<String, AllocError>
    ensures { IfOk result (λ name. string_bytes name ≡ name_text log) }
{
    format!(in alloc; "{log:x}.log")
}

/// Returns the log that has this file name, `None` if no log has it. Its id is at most 2^31 - 1.
pub fn log_of(name: &str) -> Option<u32>
    ensures named { IfSome result (λ log. (log < 2 ^ 31) × (name.now ≡ name_text log)) }
    ensures found { (log : ℕ) → log < 2 ^ 31 → name.now ≡ name_text log → result ≡ Some log }
{
    log_in(name.as_bytes())
}

// Returns the log whose file name these bytes are.
fn log_in(name: &[u8]) -> Option<u32>
    ensures named { IfSome result (λ log. (log < 2 ^ 31) × (name.now ≡ name_text log)) }
    ensures found { (log : ℕ) → log < 2 ^ 31 → name.now ≡ name_text log → result ≡ Some log }
{
    let [text @ .., b'.', b'l', b'o', b'g'] = name else {
        return None;
    };
    id_of(text)
}

/// Returns the name of the file that sets a log aside. Fails only if memory is refused.
pub(crate) fn unsynced_name_of(alloc: Global, log: u32) -> Result<String, AllocError>
    ensures { IfOk result (λ name. string_bytes name ≡ unsynced_text log) }
{
    format!(in alloc; "{log:x}.unsynced")
}

/// Returns the log that the file of this name sets aside, `None` if it sets none aside.
pub(crate) fn unsynced_log_of(name: &str) -> Option<u32>
    ensures named { IfSome result (λ log. (log < 2 ^ 31) × (name.now ≡ unsynced_text log)) }
    ensures found { (log : ℕ) → log < 2 ^ 31 → name.now ≡ unsynced_text log → result ≡ Some log }
{
    let [text @ .., b's', b'y', b'n', b'c', b'e', b'd'] = name.as_bytes() else {
        return None;
    };
    un_log_in(text)
}

// Returns the log whose id these bytes are, and `.un`.
fn un_log_in(name: &[u8]) -> Option<u32>
    ensures named { IfSome result (λ log. (log < 2 ^ 31) × (name.now ≡ un_text log)) }
    ensures found { (log : ℕ) → log < 2 ^ 31 → name.now ≡ un_text log → result ≡ Some log }
{
    let [text @ .., b'.', b'u', b'n'] = name else {
        return None;
    };
    id_of(text)
}

/// Returns the name of the copy of a log that is written again. Fails only if memory is refused.
pub(crate) fn again_name_of(alloc: Global, log: u32) -> Result<String, AllocError>
    ensures { IfOk result (λ name. string_bytes name ≡ again_text log) }
{
    format!(in alloc; "{log:x}.log.again")
}

/// Returns the log whose copy has this name, `None` if it is no such name.
pub(crate) fn again_log_of(name: &str) -> Option<u32>
    ensures named { IfSome result (λ log. (log < 2 ^ 31) × (name.now ≡ again_text log)) }
    ensures found { (log : ℕ) → log < 2 ^ 31 → name.now ≡ again_text log → result ≡ Some log }
{
    let [text @ .., b'.', b'a', b'g', b'a', b'i', b'n'] = name.as_bytes() else {
        return None;
    };
    log_in(text)
}

// Returns the id in lower-case hexadecimal without leading zeros, `None` of any other text.
fn id_of(text: &[u8]) -> Option<u32>
    ensures named { IfSome result (λ log. (log < 2 ^ 31) × (text.now ≡ id_text log)) }
    ensures found { (log : ℕ) → log < 2 ^ 31 → text.now ≡ id_text log → result ≡ Some log }
{
    let [front @ .., last] = text else {
        return None;
    };
    let low = digit_of(*last)?;
    if front.is_empty() {
        return Some(low);
    }
    let high = id_of(front)?;
    if high == 0 || high >= 1 << 27 {
        return None;
    }
    Some(high * 16 + low)
}

// Returns the value of a lower-case hexadecimal digit.
fn digit_of(byte: u8) -> Option<u32>
    ensures named { IfSome result (λ value. (value < 16) × (byte ≡ digit_glyph false value)) }
    ensures found { (value : ℕ) → value < 16 → byte ≡ digit_glyph false value → result ≡ Some value }
{
    match byte {
        b'0'..=b'9' => Some(u32::from(byte - b'0')),
        b'a'..=b'f' => Some(u32::from(byte - b'a') + 10),
        _ => None,
    }
}
