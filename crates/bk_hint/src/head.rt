//! The head of a run: its first entry.

ghost use Rattle.std.specs.Prelude.{◌≡◌, ◌<◌, ◌^◌};
ghost use Rattle.bk_hint.specs.Entries.{first_of};

use crate::Listed;
use bk_record::Key;

/// The first entry of a run: its ledger id, its entry id, the position of its payload, and the size
/// of its record.
#[derive(Clone, Copy, Debug, PartialEq, Eq)]
pub struct Head {
    pub ledger: u64,
    pub entry: u64,
    pub at: u32,
    pub size: u32,
}

impl Head {
    /// Returns the head of a run that begins with this entry.
    pub(crate) fn of(listed: &Listed) -> Head
        requires { listed.now.at < 2 ^ 32 }
        ensures { first_of result ≡ listed.now }
    {
        Head {
            ledger: listed.key.ledger(),
            entry: listed.key.entry(),
            at: listed.at as u32,
            size: listed.size,
        }
    }

    /// Returns the entry of a head.
    pub(crate) fn first(&self) -> Listed
        requires ledger { self.now.ledger < 2 ^ 63 }
        requires entry { self.now.entry < 2 ^ 63 }
        ensures { result ≡ first_of self.now }
    {
        Listed {
            key: Key::new(self.ledger, self.entry).unwrap(),
            at: u64::from(self.at),
            size: self.size,
        }
    }
}
