//! The header of an entry log: magic, version, and the place of the ledgers map.

ghost use Rattle.std.specs.Prelude.{◌≡◌, ◌↔◌, pos, IsOk, IfOk, IfErr};
ghost use Rattle.bk_head.specs.Header.{IsHeader, HasHeader, HeaderFault, empty_header, patch_of};

use crate::HeadFault;
use bk_record::HEADER_LENGTH;
use byteorder::{BigEndian, ByteOrder};

/// First four bytes of every entry log.
const MAGIC: [u8; 4] = *b"BKLO";

/// Version without a ledgers map.
const WITHOUT_MAP: u32 = 0;

/// Version with a ledgers map: that of new logs.
const VERSION: u32 = 1;

/// The header of an entry log.
#[derive(Clone, Copy, Debug, PartialEq, Eq)]
pub struct Header {
    /// Version of the format, 0 or 1.
    pub version: u32,
    /// Position in bytes of the ledgers map in the log's file; 0 if the log is not sealed or has
    /// version 0. The format has a signed number there, so a bad file can make it negative.
    pub map_offset: i64,
    /// Number of ledgers in the map; 0 if the log is not sealed or has version 0. Signed as well.
    pub count: i32,
}

/// Parses the first 1024 bytes of a log (BookKeeper entry log format).
///
/// Does not check offset and count, and ignores the bytes from position 20. In a header of version
/// 0, which has no map, both are 0, whatever their bytes are.
///
/// # Errors
///
/// In this order:
///
/// - `BadMagic` if the first four bytes are not `BKLO`.
/// - `Version` with the version, if it is not 0 or 1 (project rule).
pub fn read_header(bytes: &[u8; HEADER_LENGTH]) -> Result<Header, HeadFault>
    ensures ok { IsOk result ↔ HasHeader bytes.now }
    ensures value { IfOk result (λ header. IsHeader bytes.now header) }
    ensures err { IfErr result (λ fault. HeaderFault bytes.now fault) }
{
    if !bytes.starts_with(&MAGIC) {
        return Err(HeadFault::BadMagic);
    }
    let version = BigEndian::read_u32(&bytes[4..]);
    if version == WITHOUT_MAP {
        return Ok(Header {
            version,
            map_offset: 0,
            count: 0,
        });
    }
    if version != VERSION {
        return Err(HeadFault::Version(version));
    }
    Ok(Header {
        version,
        map_offset: BigEndian::read_i64(&bytes[8..]),
        count: BigEndian::read_i32(&bytes[16..]),
    })
}

/// Returns the header of a log that is not sealed: magic, version 1, and zeros.
pub fn new_header() -> [u8; HEADER_LENGTH]
    ensures value { result ≡ empty_header }
    ensures header { IsHeader result (record { version = 1; map_offset = pos 0; count = pos 0 }) }
{
    let mut header = [0; HEADER_LENGTH];
    header[..4].copy_from_slice(&MAGIC);
    BigEndian::write_u32(&mut header[4..], VERSION);
    header
}

/// Returns the bytes at positions 8 to 20 of a header whose map has this offset and this number of
/// ledgers, both big-endian (BookKeeper entry log format). A reader takes them as signed: an offset
/// above 2^63 - 1 or a count above 2^31 - 1 reads as negative.
#[tactic(auto, unfolding(crate::specs::Header::patch_of))]
pub fn patch_bytes(offset: u64, count: u32) -> [u8; 12]
    ensures { result ≡ patch_of offset count }
{
    let mut bytes = [0; 12];
    BigEndian::write_u64(&mut bytes, offset);
    BigEndian::write_u32(&mut bytes[8..], count);
    bytes
}
