//! The two polynomials.

/// The polynomial of degree 32 that a checksum divides by.
#[derive(Clone, Copy, Debug, PartialEq, Eq)]
pub enum Polynomial {
    /// CRC-32C: Castagnoli, 0x1edc6f41.
    Castagnoli,
    /// CRC-32 as in zip and Ethernet: IEEE 802.3, 0x04c11db7.
    Ieee,
}
