//! Tests over public calls.

mod disks;
mod pages;
mod runs;
