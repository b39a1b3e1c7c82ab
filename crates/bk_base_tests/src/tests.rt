//! A module for each crate. They stand apart so that no crate is proved twice.
//!
//! Tables are statics, and a function without the test's other values walks each: a constant stands
//! anew in the proof of each function that uses it.

use std::process::Abort;

mod accounts;
mod cache;
mod crc;
mod head;
mod index;
mod lease;
mod log;
mod record;

/// Fails the test if a row of its table went wrong: this one, counted from 1.
fn pass(rt: &impl Abort, table: &str, wrong: Option<usize>) {
    if let Some(row) = wrong {
        panic!(rt; "{table}: row {row}");
    }
}
