//! Tests of logs of the greatest sizes, on a disk that a scenario cannot describe.

mod large;
mod lengths;
