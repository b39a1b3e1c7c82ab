//! Sizes in bytes, for people.

ghost use Rattle.std.specs.Prelude.{◌≡◌, ◌<◌, ◌≤◌, ◌*◌, ◌^◌};
ghost use Rattle.bk_report.specs.Numbers.{IsSizeOf, bytes_in};

use crate::number::write_number;
use std::io;
use std::io::Write;

/// A unit of bytes.
#[derive(Clone, Copy)]
pub(crate) enum Unit {
    B,
    Ki,
    Mi,
    Gi,
    Ti,
}

/// A size: so many whole units, and tenths of one.
#[derive(Clone, Copy)]
pub(crate) struct Size {
    pub(crate) whole: u64,
    pub(crate) tenth: u64,
    pub(crate) unit: Unit,
}

/// Returns so many bytes in the largest unit that is not above them, rounded down to tenths.
pub(crate) fn size_of(bytes: u64) -> Size
    ensures { IsSizeOf bytes result }
{
    let unit = unit_of(bytes);
    let one = bytes_of_unit(unit);
    Size {
        whole: bytes / one,
        tenth: bytes % one * 10 / one,
        unit,
    }
}

/// Returns the largest unit that is not above so many bytes.
fn unit_of(bytes: u64) -> Unit
    ensures least { 0 < bytes → bytes_in result ≤ bytes }
    ensures most { bytes < 2 ^ 50 → bytes < 1024 * bytes_in result }
{
    if bytes < 1 << 10 {
        Unit::B
    } else if bytes < 1 << 20 {
        Unit::Ki
    } else if bytes < 1 << 30 {
        Unit::Mi
    } else if bytes < 1 << 40 {
        Unit::Gi
    } else {
        Unit::Ti
    }
}

/// Returns the bytes of a unit.
fn bytes_of_unit(unit: Unit) -> u64
    ensures { result ≡ bytes_in unit }
{
    match unit {
        Unit::B => 1,
        Unit::Ki => 1 << 10,
        Unit::Mi => 1 << 20,
        Unit::Gi => 1 << 30,
        Unit::Ti => 1 << 40,
    }
}

/// Writes a size, as `1.5 KiB`, without its exact number.
pub(crate) fn write_size<W: Write>(out: &mut W, bytes: u64) -> io::Result<()> {
    let Size { whole, tenth, unit } = size_of(bytes);
    write_number(out, whole)?;
    match unit {
        Unit::B => out.write_all(b" B"),
        Unit::Ki => write!(out, ".{tenth} KiB"),
        Unit::Mi => write!(out, ".{tenth} MiB"),
        Unit::Gi => write!(out, ".{tenth} GiB"),
        Unit::Ti => write!(out, ".{tenth} TiB"),
    }
}

/// Writes a size with its exact number in the title.
pub(crate) fn write_titled_size<W: Write>(out: &mut W, bytes: u64) -> io::Result<()> {
    out.write_all(b"<span title=\"")?;
    write_number(out, bytes)?;
    out.write_all(b" bytes\">")?;
    write_size(out, bytes)?;
    out.write_all(b"</span>")
}
