//! CRC-32C and CRC-32 of bytes: the complement of the remainder of a polynomial division over
//! GF(2), computed one byte per step from a table.
#![tactic(auto)]

mod checksum;
mod laws;
mod polynomial;
mod table;

pub use checksum::{Checksum, checksum_of};
pub use laws::{check_values, one_checksum};
pub use polynomial::Polynomial;
