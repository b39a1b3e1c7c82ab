//! Theorems about checksums: uniqueness, and the published check values. Each is a function that
//! does nothing.
ghost use Rattle.bk_crc.specs.Checksum.{HasOneChecksum};
ghost use Rattle.bk_crc.specs.Values.{HasCheckValues};

/// A message has at most one checksum.
pub fn one_checksum()
    ensures { HasOneChecksum }
{}

/// For the text 123456789, CRC-32C is 0xe3069283 and CRC-32 is 0xcbf43926; for no bytes both are 0.
pub fn check_values()
    ensures { HasCheckValues }
{}
