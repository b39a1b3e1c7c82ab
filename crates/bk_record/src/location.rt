//! The location of an entry: a log and a position in its file.

ghost use Rattle.std.specs.Prelude.{◌≡◌, ◌<◌, ◌≤◌, ◌^◌};

use crate::{HEADER_LENGTH, LENGTH_FIELD};
use std::marker::Model;

/// Location of a payload: the log's id, from 0 to 2^31 - 1, and the position in bytes of the
/// payload's first byte in the log's file, from 1028. The length field is before that position
/// (BookKeeper entry log format).
#[derive(Clone, Copy, Debug, PartialEq, Eq)]
pub struct Location {
    log: u32,
    at: u32,
}

impl Model for Location {
    ghost use Rattle.std.specs.Prelude.{◌<◌, ◌≤◌, ◌^◌};
    ghost use Rattle.bk_record.specs.Location.{Place};

    ghost Value = { Place };

    ghost view = { λ location. record { log = location.log; at = location.at } };

    ghost invariant = { λ location. (location.log < 2 ^ 31) × (1028 ≤ location.at) };

    ghost inverse = { λ place. record { log = place.log; at = place.at } };
}

impl Location {
    ghost use Rattle.std.specs.Option.{SomeIff};
    ghost use Rattle.bk_record.specs.Location.{packed};

    /// Least position of a payload in bytes: a header and a length field are before it.
    pub const FIRST: u32 = (HEADER_LENGTH + LENGTH_FIELD) as u32;

    /// Returns the location of the payload at position `at` of log `log`, or `None` if `log`
    /// exceeds 2^31 - 1 or `at` is below 1028.
    pub fn pack(log: u32, at: u32) -> Option<Location>
        ensures { SomeIff result ((log < 2 ^ 31) × (1028 ≤ at)) (record { log = log; at = at }) }
    {
        if log >> 31 == 0 && at >= Location::FIRST {
            Some(Location { log, at })
        } else {
            None
        }
    }

    /// Returns the log's id.
    pub fn log(&self) -> u32
        ensures value { result ≡ self.now.log }
        ensures bound { result < 2 ^ 31 }
    {
        self.log
    }

    /// Returns the position of the payload's first byte in the log's file.
    pub fn at(&self) -> u32
        ensures value { result ≡ self.now.at }
        ensures bound { 1028 ≤ result }
    {
        self.at
    }

    /// Returns the location as one number: the log's id in the upper 32 bits, the position in the
    /// lower 32 (BookKeeper entry log format).
    pub fn value(&self) -> u64
        ensures { result ≡ packed self.now }
    {
        (u64::from(self.log) << 32) + u64::from(self.at)
    }
}
