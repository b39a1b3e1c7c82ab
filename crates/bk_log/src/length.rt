//! The length field of a record: four bytes, big-endian (BookKeeper entry log format).

ghost use Rattle.std.specs.Prelude.{◌≡◌, ◌≤◌, ◌<◌, ◌^◌, ◌↔◌, IsTrue, length, take};
ghost use Rattle.std.specs.Int.{w32, to_be_bytes};
ghost use Rattle.bk_record.specs.Record.{length_field};

/// Returns the number in the first four bytes.
pub(crate) fn length_in(bytes: &[u8]) -> u32
    requires { 4 ≤ length bytes.now }
    ensures value { result ≡ length_field bytes.now }
    ensures written { to_be_bytes w32 result ≡ take 4 bytes.now }
{
    u32::from_be_bytes([bytes[0], bytes[1], bytes[2], bytes[3]])
}

/// Returns whether a record can have a payload of this length: 16 to 2^31 - 1 bytes.
pub(crate) fn is_payload_length(length: u32) -> bool
    ensures { IsTrue result ↔ ((16 ≤ length) × (length < 2 ^ 31)) }
{
    16 <= length && length <= i32::MAX as u32
}
