//! The entries of a log, kept small.

ghost use Rattle.std.specs.Prelude.{◌≡◌, ◌+◌, ◌++◌, ◌∷◌, [], ◌↔◌, IsTrue, OnOk, OnErr, IsNone, IfSome, length, slice_get};
ghost use Rattle.bk_hint.specs.Entries.{bytes_of, entries_of, last_of, origin, past, AreFrom, IsSound};
ghost use Rattle.bk_hint.specs.Pushing.{CanStand};
ghost use Rattle.bk_hint.specs.Runs.{entries_of_runs};

use crate::checking::last_in;
use crate::head::Head;
use crate::noting::note;
use crate::{Entries, EntryCursor, Listed, ListedRuns};
use bk_record::Key;
use std::alloc::{AllocError, Global};
use std::marker::Model;

/// The entries of a log in file order. Contracts see their list.
///
/// A run takes 24 bytes: records of one ledger that stand directly one behind another, with
/// consecutive entry ids. Within a run, an entry takes 4 bytes, and entries of one size, one after
/// another, take 4 bytes together.
#[derive(Drop)]
pub struct Contents {
    heads: Vec<Head>,
    steps: Vec<u32>,
    last: Listed,
}

impl Model for Contents {
    ghost use Rattle.std.specs.Prelude.{List};
    ghost use Rattle.bk_hint.specs.declared.listed.Listed.{Listed};
    ghost use Rattle.bk_hint.specs.Entries.{entries_of, origin, IsKept};

    ghost Value = { List Listed };

    ghost view = { λ c. entries_of origin c.heads.items c.steps.items };

    ghost invariant = { λ c. IsKept c.heads.items c.steps.items c.last };
}

impl Contents {
    /// Returns contents without an entry. Does not allocate.
    pub fn new(alloc: Global) -> Contents
        ensures { result ≡ [] }
    {
        Contents {
            heads: Vec::new(alloc),
            steps: Vec::new(alloc),
            last: Listed::origin(),
        }
    }

    /// Returns the contents of heads and steps, or `None` if these do not list legal entries in order.
    pub(crate) fn of(heads: Vec<Head>, steps: Vec<u32>) -> Option<Contents>
        ensures none { IsNone result → ¬ (IsSound heads.items steps.items) }
        ensures some { IfSome result (λ contents. IsSound heads.items steps.items × (contents ≡ entries_of origin heads.items steps.items)) }
    {
        match last_in(&heads, &steps) {
            Some(last) => Some(Contents { heads, steps, last }),
            None => None,
        }
    }

    /// Returns whether an entry whose payload is at this position, with a record of this size, can
    /// be pushed: the payload has 16 to 2^31 - 1 bytes, and the record stands behind the last one
    /// and ends at byte 2^32 - 1 of the log at the latest.
    #[tactic(auto, using(crate::proofs::Steps::kept_below))]
    pub fn can_push(&self, at: u64, size: u32) -> bool
        ensures { IsTrue result ↔ CanStand self.now at size }
    {
        let sized = size >= Listed::LEAST && size <= Listed::MOST;
        sized && at >= self.last.past() && at <= Listed::END - u64::from(size)
    }

    /// Appends an entry. Requires that its record can stand behind the last one (`can_push`).
    ///
    /// # Errors
    ///
    /// - `AllocError` if an allocation fails; the contents are unchanged.
    pub fn push(&mut self, key: Key, at: u64, size: u32) -> Result<(), AllocError>
        requires { CanStand self.old at size }
        ensures ok { OnOk result (self.new ≡ self.old ++ (record { key = key; at = at; size = size }) ∷ []) }
        ensures err { OnErr result (self.new ≡ self.old) }
    {
        let next = Listed { key, at, size };
        note(&mut self.heads, &mut self.steps, &self.last, &next)?;
        self.last = next;
        Ok(())
    }

    /// Returns an iterator over the entries, in file order.
    pub fn iter(&self) -> Entries<'_>
        ensures list { result ≡ self.now }
        ensures in_order { AreFrom (past origin) self.now }
    {
        Entries::over(&self.heads, &self.steps)
    }

    /// Returns an iterator over the runs of the entries, in file order. The entries of its runs,
    /// one after another, are the entries. A call of its `next` takes no time for each entry.
    pub fn runs(&self) -> ListedRuns<'_>
        ensures list { entries_of_runs result ≡ self.now }
        ensures in_order { AreFrom (past origin) self.now }
    {
        ListedRuns::over(&self.heads, &self.steps)
    }

    /// Returns a cursor that finds entries by their places in the file order, those of rising places
    /// in one pass.
    pub fn cursor(&self) -> EntryCursor<'_>
        ensures { result ≡ self.now }
    {
        EntryCursor::over(self)
    }

    /// Returns the entry at this place of the file order, `None` if there are not so many. Place 0
    /// is that of the first entry. Takes steps in the number of runs.
    pub fn nth(&self, place: u64) -> Option<Listed>
        ensures { result ≡ slice_get self.now place }
    {
        let mut left = place;
        for run in self.runs() {
            if left <= u64::from(run.again) {
                return Some(run.at(left as u32));
            }
            left -= u64::from(run.again) + 1;
        }
        None
    }

    /// Returns the number of entries. Takes steps in the number of runs.
    pub fn len(&self) -> u64
        ensures { result ≡ length self.now }
    {
        let mut count = 0;
        for run in self.runs() {
            count += run.count();
        }
        count
    }

    /// Returns whether there is no entry.
    pub fn is_empty(&self) -> bool
        ensures { IsTrue result ↔ (self.now ≡ []) }
    {
        self.iter().next().is_none()
    }

    /// Returns the sum of the sizes of the records. Takes steps in the number of runs.
    pub fn record_bytes(&self) -> u64
        ensures { result ≡ bytes_of self.now }
    {
        let mut bytes = 0;
        for run in self.runs() {
            bytes += run.bytes();
        }
        bytes
    }

    /// Returns heads and steps.
    pub(crate) fn parts(&self) -> (&[Head], &[u32])
        ensures sound { IsSound result.0.now result.1.now }
        ensures list { entries_of origin result.0.now result.1.now ≡ self.now }
    {
        (&self.heads, &self.steps)
    }

    /// Returns the position after the last record, 1024 if there is none.
    #[tactic(auto, using(crate::proofs::Steps::kept_below, crate::proofs::Steps::kept_above))]
    pub fn end(&self) -> u64
        ensures { result + 4 ≡ past (last_of origin self.now) }
    {
        self.last.past() - 4
    }
}
