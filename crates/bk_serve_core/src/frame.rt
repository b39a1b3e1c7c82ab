//! Frames read from a reader and written to a writer.

ghost use Rattle.std.specs.Prelude.{◌≡◌, ◌++◌, ◌<◌, ◌≤◌, true, length, take, IfOk, OnOk};
ghost use Rattle.std.specs.Int.{w32, w64, to_be_bytes};
ghost use Rattle.std.specs.Io.KnownBytes as known;
ghost use Rattle.std.specs.Io.KnownBytes.{Consumes, IsAtEnd};
ghost use Rattle.bk_serve_core.specs.Reading.{ReadsFrame, ReadsLength};

use crate::FrameFault;
use byteorder::{BigEndian, ByteOrder};
use std::io::{ErrorKind, Read, Write};

/// The first number of a hello: the eight bytes `BKSERVE` and a line feed.
pub const MAGIC: u64 = 0x424b_5345_5256_450a;

/// Version of the protocol.
pub const VERSION: u64 = 1;

/// Least length of a frame: an id and a kind.
pub const SHORTEST_FRAME: u32 = 9;

/// Greatest length of a frame.
pub const LONGEST_FRAME: u32 = 5_000_064;

/// Reads until the buffer is full or the input ends. Returns the number of bytes read.
fn fill<R: Read>(reader: &mut R, buffer: &mut [u8]) -> Result<usize, FrameFault>
    ensures inside { IfOk result (λ n. n ≤ length buffer.new) }
    ensures len { length buffer.new ≡ length buffer.old }
    ensures bytes { IfOk result (λ n. Consumes (R.remaining reader.old) (R.remaining reader.new) (take n buffer.new)) }
    ensures end { IfOk result (λ n. n < length buffer.new → IsAtEnd (R.remaining reader.new)) }
{
    let mut at = 0;
    'filling: for _ in 0..u64::MAX {
        if at >= buffer.len() {
            return Ok(at);
        }
        match reader.read(&mut buffer[at..]) {
            Ok(0) => return Ok(at),
            Ok(n) => at += n,
            Err(e) => {
                if e.kind() != ErrorKind::Interrupted {
                    return Err(FrameFault::Device);
                }
            }
        }
    }
    Err(FrameFault::Device)
}

/// Reads a length field, or nothing at the end of the input.
fn read_length<R: Read>(reader: &mut R) -> Result<Option<u32>, FrameFault>
    ensures { IfOk result (λ found. ReadsLength found (R.remaining reader.old) (R.remaining reader.new)) }
{
    let mut field = [0; 4];
    let got = fill(reader, &mut field)?;
    if got == 0 {
        return Ok(None);
    }
    if got < 4 {
        return Err(FrameFault::Cut {
            length: 4,
            read: got as u64,
        });
    }
    let length = u32::from_be_bytes(field);
    if length < SHORTEST_FRAME {
        return Err(FrameFault::Short(length));
    }
    if length > LONGEST_FRAME {
        return Err(FrameFault::Oversized(length));
    }
    Ok(Some(length))
}

/// Reads a frame of this length.
fn read_rest<R: Read>(reader: &mut R, frame: &mut Vec<u8>, size: u32) -> Result<(), FrameFault>
    ensures len { OnOk result (length frame.new.items ≡ size) }
    ensures bytes { OnOk result (Consumes (R.remaining reader.old) (R.remaining reader.new) frame.new.items) }
{
    frame.clear();
    frame.resize(size as usize, 0)?;
    let got = fill(reader, frame.as_mut_slice())?;
    if got < size as usize {
        return Err(FrameFault::Cut {
            length: u64::from(size),
            read: got as u64,
        });
    }
    Ok(())
}

/// Reads the next frame into `frame`: its id and its other bytes, without the length field. Returns
/// false if the input ends before a frame.
///
/// The length field bounds what is read: a frame is read to its end and no further, and one that is
/// too short or too long is not read.
///
/// # Errors
///
/// - `Short`, `Oversized` with the length, if it is not 9 to 5,000,064.
/// - `Cut` if the input ends within the frame or its length field.
/// - `Memory` if `frame` cannot grow.
/// - `Device` if the reader fails.
pub fn read_frame<R: Read>(reader: &mut R, frame: &mut Vec<u8>) -> Result<bool, FrameFault>
    ensures { IfOk result (λ is. ReadsFrame is (R.remaining reader.old) (R.remaining reader.new) frame.new.items) }
{
    let Some(size) = read_length(reader)? else {
        return Ok(false);
    };
    read_rest(reader, frame, size)?;
    Ok(true)
}

/// Returns the id of a frame without its length field, and the bytes after it.
pub fn split_id(frame: &[u8]) -> (u64, &[u8])
    requires { 8 ≤ length frame.now }
    ensures { frame.now ≡ to_be_bytes w64 result.0 ++ result.1.now }
{
    (BigEndian::read_u64(frame), &frame[8..])
}

/// Writes frames, and flushes the writer.
///
/// # Errors
///
/// - `Device` if the writer fails. It may have a part of the frames.
pub fn write_frames<W: Write>(writer: &mut W, frames: &[u8]) -> Result<(), FrameFault>
    ensures { OnOk result (known.Appends (W.contents writer.old) (W.contents writer.new) frames.now) }
{
    if writer.write_all(frames).is_err() || writer.flush().is_err() {
        return Err(FrameFault::Device);
    }
    Ok(())
}
