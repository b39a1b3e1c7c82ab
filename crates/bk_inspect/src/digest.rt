//! The digests that BookKeeper's clients put into payloads.

use bk_crc::Polynomial;
use byteorder::{BigEndian, ByteOrder};

/// The bytes of a payload before its digest: ledger, entry, last add confirmed and length, eight each.
pub(crate) const DIGEST_AT: u64 = 32;

/// A digest in the payloads of a ledger: after the first 32 bytes, the checksum of these bytes and
/// of the data.
#[derive(Clone, Copy, Debug, PartialEq, Eq)]
pub enum Digest {
    /// CRC-32C, in four bytes.
    Crc32c,
    /// CRC-32, in eight bytes.
    Crc32,
}

/// The digest that the entries of a ledger are to have.
#[derive(Clone, Copy, Debug, PartialEq, Eq)]
pub enum DigestChoice {
    /// This one, in every ledger.
    One(Digest),
    /// For each ledger the one that its first entry fits.
    Auto,
}

impl Digest {
    ghost use Rattle.std.specs.Prelude.{◌≡◌, ◌≤◌, length};
    ghost use Rattle.bk_inspect.specs.Digests.{polynomial_of, width_of, written_as};

    /// The polynomial of the checksum.
    pub(crate) fn polynomial(self) -> Polynomial
        ensures { result ≡ polynomial_of self }
    {
        match self {
            Digest::Crc32c => Polynomial::Castagnoli,
            Digest::Crc32 => Polynomial::Ieee,
        }
    }

    /// Returns its length in bytes.
    pub(crate) fn width(self) -> u64
        ensures { result ≡ width_of self }
    {
        match self {
            Digest::Crc32c => 4,
            Digest::Crc32 => 8,
        }
    }

    /// Returns the number that its bytes are, big-endian.
    pub(crate) fn read(self, bytes: &[u8]) -> u64
        requires { width_of self ≤ length bytes.now }
        ensures { result ≡ written_as self bytes.now }
    {
        match self {
            Digest::Crc32c => u64::from(BigEndian::read_u32(bytes)),
            Digest::Crc32 => BigEndian::read_u64(bytes),
        }
    }
}
