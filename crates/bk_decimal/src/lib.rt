//! Decimal numbers of scripts and command lines: no sign, no leading zero.
#![tactic(auto)]

mod digits;

pub use digits::number;
