//! Numbers of eight bytes, big-endian.

ghost use Rattle.std.specs.Prelude.{◌≡◌, ◌+◌, ◌*◌, ◌≤◌, length};
ghost use Rattle.bk_serve_core.specs.Fields.{word};

use byteorder::{BigEndian, ByteOrder};

/// Returns the number in the field of this index.
pub(crate) fn word(body: &[u8], i: usize) -> u64
    requires { 8 * i + 8 ≤ length body.now }
    ensures { result ≡ word i body.now }
{
    BigEndian::read_u64(&body[8 * i..])
}

/// Returns 32 bytes as a digest.
pub(crate) fn digest_in(bytes: &[u8]) -> [u8; 32]
    requires { length bytes.now ≡ 32 }
    ensures { result ≡ bytes.now }
{
    let mut digest = [0; 32];
    digest.copy_from_slice(bytes);
    digest
}
