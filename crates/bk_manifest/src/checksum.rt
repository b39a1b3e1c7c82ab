//! The checksum of a batch.

ghost use Rattle.std.specs.Prelude.{◌≡◌};
ghost use Rattle.bk_manifest.specs.Checksum.{checksum_of_batch, crc32c};

use bk_crc::{Checksum, Polynomial, checksum_of};

/// Returns the checksum of a batch at a place of a manifest of this generation: of its size alone if
/// `bytes` are none, of all of it if they are its body.
pub(crate) fn batch_checksum(generation: u64, place: u64, size: u32, bytes: &[u8]) -> u32
    ensures { result ≡ checksum_of_batch generation place size bytes.now }
{
    let mut checksum = Checksum::new(Polynomial::Castagnoli);
    checksum.update(&generation.to_be_bytes());
    checksum.update(&place.to_be_bytes());
    checksum.update(&size.to_be_bytes());
    checksum.update(bytes);
    checksum.finish()
}

/// Returns the CRC-32C of bytes.
pub(crate) fn checksum(bytes: &[u8]) -> u32
    ensures { result ≡ crc32c bytes.now }
{
    checksum_of(Polynomial::Castagnoli, bytes)
}
