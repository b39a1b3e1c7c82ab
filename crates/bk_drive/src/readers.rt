//! The readers of a machine. Each holds one lease or none.

ghost use Rattle.std.specs.Prelude.{◌≡◌, ◌<◌, ◌≤◌, Some, None, IfSome, IfNone, length, slice_set, replicate};
ghost use Rattle.std.specs.Bool.{OnTrue, OnFalse};
ghost use Rattle.bk_drive.specs.Abstract.{IsIdleReader, IsBusy, HasAt};
ghost use Rattle.bk_drive.specs.Headline.{reader_count};
ghost use Rattle.bk_drive.specs.Held.{reader_lease_of};
ghost use Rattle.bk_drive.specs.Machine.{HasNoReader};

use bk_disk::LogView;
use bk_lease::Lease;
use bk_record::{Key, Location};
use std::marker::Model;

/// What a reader holds: a lease on a log, and the location and key of an entry in that log.
#[derive(Drop)]
pub struct Reading<V: LogView> {
    pub lease: Lease<V>,
    pub location: Location,
    pub key: Key,
}

/// Four readers, numbered from 0.
#[derive(Drop)]
pub struct Readers<V: LogView> {
    holds: [Option<Reading<V>>; 4],
}

impl<V: LogView> Model for Readers<V> {
    ghost use Rattle.std.specs.Prelude.{◌≡◌, List, Option, length, map, option_map};
    ghost use Rattle.bk_drive.specs.Machine.{ReaderLease};
    ghost use Rattle.bk_drive.specs.Headline.{reader_count};
    ghost use Rattle.bk_drive.specs.Held.{holds_code, reader_lease_of};

    ghost Value = { List (Option ReaderLease) };

    ghost coded = { holds_code };

    ghost view = { λ readers. map (option_map (reader_lease_of V.bytes V.honest V.sound)) readers.holds };

    ghost invariant = { λ readers. length readers.holds ≡ reader_count };
}

impl<V: LogView> Readers<V> {
    /// Returns readers that hold no lease.
    pub fn new() -> Readers<V>
        ensures { result ≡ replicate reader_count None }
    {
        Readers {
            holds: [None, None, None, None],
        }
    }

    /// Returns whether there is a reader with this number.
    pub fn has(&self, reader: u32) -> bool
        ensures there { OnTrue result (reader < length self.now) }
        ensures none { OnFalse result (length self.now ≤ reader) }
    {
        self.holds.get(reader as usize).is_some()
    }

    /// Returns whether the reader with this number holds a lease.
    pub fn is_busy(&self, reader: u32) -> bool
        requires { reader < length self.now }
        ensures busy { OnTrue result (IsBusy self.now reader) }
        ensures free { OnFalse result (IsIdleReader self.now reader) }
    {
        self.holds[reader as usize].is_some()
    }

    /// Returns what the reader with this number holds, or `None` if it holds no lease.
    pub fn reading(&self, reader: u32) -> Option<&Reading<V>>
        requires { reader < length self.now }
        ensures held { IfSome result (λ reading. HasAt self.now reader (reader_lease_of V.bytes V.honest V.sound reading.now)) }
        ensures free { IfNone result (IsIdleReader self.now reader) }
    {
        self.holds[reader as usize].as_ref()
    }

    /// Returns the first reader that holds a lease on this log, or `None` if no reader does.
    pub fn reader_of(&self, log: u32) -> Option<u32>
        ensures some { IfSome result (λ reader. (hold : _) × HasAt self.now reader hold × (hold.ticket.log ≡ log)) }
        ensures none { IfNone result (HasNoReader self.now log) }
    {
        for (reader, hold) in self.holds.iter().enumerate() {
            match hold {
                None => {}
                Some(reading) => {
                    if reading.lease.log() == log {
                        return Some(reader as u32);
                    }
                }
            }
        }
        None
    }

    /// Removes and returns what the reader with this number holds. It holds no lease afterwards.
    pub fn let_go(&mut self, reader: u32) -> Option<Reading<V>>
        requires { reader < length self.old }
        ensures left { self.new ≡ slice_set self.old reader None }
        ensures held { IfSome result (λ reading. HasAt self.old reader (reader_lease_of V.bytes V.honest V.sound reading)) }
        ensures free { IfNone result (IsIdleReader self.old reader) }
    {
        self.holds[reader as usize].take()
    }

    /// Gives the reader with this number a lease to hold.
    pub fn hold(&mut self, reader: u32, reading: Reading<V>)
        requires { reader < length self.old }
        ensures { self.new ≡ slice_set self.old reader (Some (reader_lease_of V.bytes V.honest V.sound reading)) }
    {
        self.holds[reader as usize] = Some(reading);
    }
}
