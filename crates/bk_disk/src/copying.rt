//! Copies of bytes of a file, in pieces.

ghost use Rattle.std.specs.Prelude.{◌-◌, ◌/◌, ◌≤◌};

use std::fs::File;
use std::io::{self, Write};
use std::os::unix::fs::FileExt;

/// The number of bytes that are copied at a time.
const PIECE: u64 = 32_768;

/// Which call of a copy failed.
#[derive(Clone, Copy, Debug)]
pub(crate) enum CopyFailed {
    Read(io::Error),
    Write(io::Error),
}

/// Writes the bytes of a file from position `from` up to position `to` to another file, from where
/// it is on.
pub(crate) fn copy_bytes(file: &File, from: u64, to: u64, copy: &mut File) -> Result<(), CopyFailed>
    requires { from ≤ to }
{
    for number in 0..(to - from) / PIECE + 1 {
        let mut piece = [0; PIECE as usize];
        let bytes = read_piece(file, number, from, to, &mut piece).map_err(CopyFailed::Read)?;
        copy.write_all(bytes).map_err(CopyFailed::Write)?;
    }
    Ok(())
}

/// Reads the bytes of a file up to position `to`, and drops them.
pub(crate) fn read_bytes(file: &File, to: u64) -> io::Result<()> {
    for number in 0..to / PIECE + 1 {
        let mut piece = [0; PIECE as usize];
        read_piece(file, number, 0, to, &mut piece)?;
    }
    Ok(())
}

// Reads the piece of this number of the bytes at `from..to`.
fn read_piece<'a>(
    file: &File,
    number: u64,
    from: u64,
    to: u64,
    piece: &'a mut [u8; PIECE as usize],
) -> io::Result<&'a [u8]>
    requires order { from ≤ to }
    requires within { number ≤ (to - from) / 32768 }
{
    let at = from + number * PIECE;
    let n = (to - at).min(PIECE) as usize;
    file.read_exact_at(&mut piece[..n], at)?;
    Ok(&piece[..n])
}
