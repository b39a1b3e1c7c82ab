//! Numbers, for people.

ghost use Rattle.std.specs.Prelude.{◌≡◌, ◌+◌, ◌<◌, ◌∷◌, OnOk};
ghost use Rattle.std.specs.Io.KnownBytes.{Appends};
ghost use Rattle.bk_report.specs.Numbers.{WritesNumber, three_digits};

use std::io;
use std::io::Write;

/// Writes a number with a comma before each third digit from the right.
pub fn write_number<W: Write>(out: &mut W, number: u64) -> io::Result<()>
    ensures { OnOk result (WritesNumber (W.contents out.old) (W.contents out.new) number) }
{
    if number < 1000 {
        return write!(out, "{number}");
    }
    write_number(out, number / 1000)?;
    write_group(out, number % 1000)
}

/// Writes a comma and three digits.
fn write_group<W: Write>(out: &mut W, group: u64) -> io::Result<()>
    requires { group < 1000 }
    ensures { OnOk result (Appends (W.contents out.old) (W.contents out.new) (44 ∷ three_digits group)) }
{
    let digits = [
        b',',
        digit(group / 100),
        digit(group / 10 % 10),
        digit(group % 10),
    ];
    out.write_all(&digits)
}

/// Returns the byte of a digit.
fn digit(value: u64) -> u8
    requires { value < 10 }
    ensures { result ≡ 48 + value }
{
    b'0' + value as u8
}
