//! An entry of a log, as a hint lists it.

ghost use Rattle.std.specs.Prelude.{◌≡◌, ◌+◌, ◌*◌, ◌<◌, ◌≤◌, ◌^◌, ◌↔◌, IsTrue};
ghost use Rattle.bk_hint.specs.Checking.{repeated_by};
ghost use Rattle.bk_hint.specs.Entries.{next_of, origin, past};

use bk_record::{Key, LAST_ID, LENGTH_FIELD, Location, MAX_LOG_LENGTH, MAX_PAYLOAD, RECORD_HEAD};

/// An entry of a log: its key, the position of its payload in bytes, and the size of its record in
/// bytes, with its length field.
#[derive(Clone, Copy, Debug, PartialEq, Eq)]
pub struct Listed {
    pub key: Key,
    pub at: u64,
    pub size: u32,
}

impl Listed {
    /// Least size of a record: a length field and two ids.
    pub(crate) const LEAST: u32 = RECORD_HEAD as u32;

    /// Greatest size of a record: a length field, and a payload whose length is signed.
    pub(crate) const MOST: u32 = (LENGTH_FIELD + MAX_PAYLOAD) as u32;

    /// Greatest position of a payload plus the size of its record: the record ends with the longest
    /// log.
    pub(crate) const END: u64 = MAX_LOG_LENGTH + LENGTH_FIELD as u64;

    /// Returns what stands for the entry before the first one.
    pub(crate) fn origin() -> Listed
        ensures { result ≡ origin }
    {
        Listed {
            key: Key::new(0, LAST_ID).unwrap(),
            at: u64::from(Location::FIRST),
            size: 0,
        }
    }

    /// Returns a copy.
    pub(crate) fn same(&self) -> Listed
        ensures { result ≡ self.now }
    {
        Listed {
            key: self.key,
            at: self.at,
            size: self.size,
        }
    }

    /// Returns the least position of a payload in a record behind this one.
    pub(crate) fn past(&self) -> u64
        requires { past self.now < 2 ^ 64 }
        ensures { result ≡ past self.now }
    {
        self.at + u64::from(self.size)
    }

    /// Returns the entry whose record of this size stands directly behind, with the next entry id.
    pub(crate) fn next(&self, size: u32) -> Listed
        requires id { self.now.key.entry + 1 < 2 ^ 63 }
        requires room { past self.now < 2 ^ 64 }
        ensures { result ≡ next_of self.now size }
    {
        Listed {
            key: Key::new(self.key.ledger(), self.key.entry() + 1).unwrap(),
            at: self.past(),
            size,
        }
    }

    /// Returns the entry directly behind, of the same size.
    pub(crate) fn repeated(&self) -> Listed
        requires id { self.now.key.entry + 1 < 2 ^ 63 }
        requires room { past self.now < 2 ^ 64 }
        ensures { result ≡ next_of self.now self.now.size }
    {
        self.next(self.size)
    }

    /// Returns the sum of the sizes of so many records of this size.
    #[tactic(auto, using(crate::proofs::Runwise::bytes_fit_in))]
    pub(crate) fn times(&self, count: u64) -> u64
        requires { count ≤ 2 ^ 32 }
        ensures { result ≡ count * self.now.size }
    {
        count * u64::from(self.size)
    }

    /// Returns the last of so many entries directly behind, each of the same size.
    pub(crate) fn behind(&self, count: u32) -> Listed
        requires id { self.now.key.entry + count < 2 ^ 63 }
        requires room { self.now.at + count * self.now.size < 2 ^ 64 }
        ensures { result ≡ repeated_by count self.now }
    {
        Listed {
            key: Key::new(self.key.ledger(), self.key.entry() + u64::from(count)).unwrap(),
            at: self.at + self.times(u64::from(count)),
            size: self.size,
        }
    }

    /// Returns whether the record stands directly behind that of `last`, with the next entry id of
    /// its ledger.
    pub(crate) fn follows(&self, last: &Listed) -> bool
        requires { past last.now < 2 ^ 64 }
        ensures { IsTrue result ↔ (self.now ≡ next_of last.now self.now.size) }
    {
        self.key.ledger() == last.key.ledger()
            && self.key.entry() == last.key.entry() + 1
            && self.at == last.past()
    }
}
