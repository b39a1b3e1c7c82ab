//! Logs of a directory on which a call of the system failed.
//!
//! The system reports a failed write or sync once, and forgets what it could not write. So the disk
//! remembers the failure until the log is removed or made again.

ghost use Rattle.std.specs.Prelude.{◌≡◌};
ghost use Rattle.bk_disk.specs.Doubts.{Notes, no_doubts, forgotten, trouble_of};

use crate::file_fault::{Failed, Operation};
use crate::reason::{Finding, Reason};
use std::alloc::Global;
use std::collections::BTreeMap;
use std::marker::Model;

/// What a failed call leaves of a log.
#[derive(Clone, Copy, Debug, PartialEq, Eq)]
pub(crate) enum State {
    /// A write or a sync failed, or somebody else changed the file: its contents are unknown.
    Lost,
    /// Another file has the log's name.
    Replaced,
    /// The file was removed or could not be; the directory has to be synced.
    Gone,
}

/// A log on which a call failed, and that call.
#[derive(Clone, Copy, Debug, PartialEq, Eq)]
pub(crate) struct Trouble {
    pub(crate) state: State,
    pub(crate) failed: Failed,
    /// Why the log was not set aside for the next disk, if it was to be.
    pub(crate) unmarked: Option<Failed>,
}

impl Trouble {
    /// A failed call that could not be noted.
    const UNNOTED: Failed = Failed {
        operation: Operation::Sync,
        reason: Reason::Found(Finding::Unnoted),
    };

    /// A log that counts as lost since a failed call could not be noted.
    const LOST: Trouble = Trouble {
        state: State::Lost,
        failed: Trouble::UNNOTED,
        unmarked: Some(Trouble::UNNOTED),
    };
}

/// The logs on which a call failed. If one could not be noted, every log counts as lost.
#[derive(Drop)]
pub(crate) struct Troubles {
    logs: BTreeMap<u32, Trouble>,
    is_full: bool,
}

impl Model for Troubles {
    ghost use Rattle.std.specs.FinMap as map;
    ghost use Rattle.bk_disk.specs.contracts.trouble.Trouble as trouble;
    ghost use Rattle.bk_disk.specs.Doubts.{Doubts, doubts_code};

    ghost Value = { Doubts };

    ghost coded = { doubts_code trouble.the_row.coded };

    ghost view = { λ troubles. record {
      logs = map.from_entries troubles.logs.entries;
      all = troubles.is_full;
    } };
}

impl Troubles {
    /// Returns that no call has failed.
    pub(crate) fn new(alloc: Global) -> Troubles
        ensures { result ≡ no_doubts }
    {
        Troubles {
            logs: BTreeMap::new(alloc),
            is_full: false,
        }
    }

    /// Notes what a failed call left of a log. If memory for it is refused, every log that is not
    /// noted counts as lost from now on.
    pub(crate) fn note(&mut self, log: u32, trouble: Trouble)
        ensures { Notes self.old log trouble self.new }
    {
        match self.logs.insert(log, trouble) {
            Ok(_) => {}
            Err(_) => self.is_full = true,
        }
    }

    /// Returns what a failed call left of a log, `None` if none failed.
    pub(crate) fn find(&self, log: u32) -> Option<Trouble>
        ensures { result ≡ trouble_of self.now log }
    {
        match self.logs.get(&log).copied() {
            Some(trouble) => Some(trouble),
            None if self.is_full => Some(Trouble::LOST),
            None => None,
        }
    }

    /// Forgets a log that is removed or made again. If every log counts as lost, this one still
    /// does.
    pub(crate) fn forget(&mut self, log: u32)
        ensures { self.new ≡ forgotten self.old log }
    {
        let _ = self.logs.remove(&log);
    }
}
