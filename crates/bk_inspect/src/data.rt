//! The data of an entry in hexadecimal, read and written in pieces, so that an entry of any length
//! takes little memory.

ghost use Rattle.std.specs.Prelude.{◌≤◌, OnOk, length};
ghost use Rattle.std.specs.Io.KnownBytes.{Appends};
ghost use Rattle.hex.specs.Hex.{encode_lower};

use crate::DirFault;
use crate::calls::read_view;
use bk_disk::LogView;
use bk_log::Found;
use bk_record::{IDS_LENGTH, RECORD_HEAD};
use std::alloc::Global;
use std::io::Write;

/// The number of bytes read at once.
const WINDOW: u64 = 65_536;

/// The number of bytes whose digits are written at once.
const BLOCK: usize = 512;

/// Writes the data of an entry of a view, which follows its two ids; `-` if there is none.
pub(crate) fn show_data<V: LogView, W: Write>(
    alloc: Global,
    view: &V,
    found: Found,
    writer: &mut W,
) -> Result<(), DirFault> {
    if found.size as usize <= RECORD_HEAD {
        return Ok(write!(writer, "-")?);
    }
    show_digits(alloc, view, found, writer)
}

/// Returns the data of an entry of a view as one text, for a row of JSON; empty if there is none.
pub(crate) fn data_text<V: LogView>(
    alloc: Global,
    view: &V,
    found: Found,
) -> Result<String, DirFault> {
    let mut digits = Vec::new(alloc);
    match show_digits(alloc, view, found, &mut digits) {
        Ok(()) => {}
        Err(DirFault::Output) => return Err(DirFault::Memory),
        Err(fault) => return Err(fault),
    }
    String::from_utf8(digits).map_err(|_| DirFault::Memory)
}

/// Writes the digits of an entry's data.
fn show_digits<V: LogView, W: Write>(
    alloc: Global,
    view: &V,
    found: Found,
    writer: &mut W,
) -> Result<(), DirFault> {
    let size = u64::from(found.size);
    let mut left = size.saturating_sub(RECORD_HEAD as u64);
    let mut at = found.at.saturating_add(IDS_LENGTH as u64);
    while left > 0 {
        let n = left.min(WINDOW);
        let bytes = read_view(alloc, view, at, n)?;
        show_bytes(&bytes, writer)?;
        at = at.saturating_add(n);
        left -= n;
    }
    Ok(())
}

/// Writes bytes as two digits each.
fn show_bytes<W: Write>(bytes: &[u8], writer: &mut W) -> Result<(), DirFault> {
    for block in bytes.chunks(BLOCK) {
        show_block(block, writer)?;
    }
    Ok(())
}

/// Writes at most `BLOCK` bytes as two digits each.
fn show_block<W: Write>(block: &[u8], writer: &mut W) -> Result<(), DirFault>
    requires { length block.now ≤ BLOCK }
    ensures { OnOk result (Appends (W.contents writer.old) (W.contents writer.new) (encode_lower block.now)) }
{
    let mut buffer = [0; 2 * BLOCK];
    let digits = &mut buffer[..2 * block.len()];
    match hex::encode_to_slice(block, &mut *digits) {
        Ok(()) => Ok(writer.write_all(digits)?),
        Err(_) => Err(DirFault::Memory),
    }
}
