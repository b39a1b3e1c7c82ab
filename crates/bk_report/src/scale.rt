//! Parts of a whole, as lengths of a picture.

ghost use Rattle.std.specs.Prelude.{◌≡◌, ◌≤◌, ◌<◌, ◌*◌, ◌/◌};

use std::io;
use std::io::Write;

/// Returns the length that a part has if the whole has `length`, rounded down; the whole length for
/// a larger part, and 0 of an empty whole.
pub(crate) fn scaled(part: u64, whole: u64, length: u64) -> u64
    ensures within { result ≤ length }
    ensures exact { part ≤ whole → 0 < whole → result ≡ part * length / whole }
    ensures full { whole < part → 0 < whole → result ≡ length }
    ensures empty { whole ≡ 0 → result ≡ 0 }
{
    if whole == 0 {
        return 0;
    }
    if part > whole {
        return length;
    }
    (u128::from(part) * u128::from(length) / u128::from(whole)) as u64
}

/// Writes a part of a whole in hundredths, as `12.3 %`, rounded down; a dash of an empty whole.
pub(crate) fn write_share<W: Write>(out: &mut W, part: u64, whole: u64) -> io::Result<()> {
    if whole == 0 {
        return write!(out, "–");
    }
    let thousandths = scaled(part, whole, 1000);
    write!(out, "{}.{} %", thousandths / 10, thousandths % 10)
}
