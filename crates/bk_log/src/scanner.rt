//! Scan of a part of a log, entry by entry or by runs of entries. Each record before the position
//! was returned or passed as foreign; an error and the end are final.

ghost use Rattle.std.specs.Prelude.{◌≡◌, ◌+◌, ◌≤◌, ℕ, List, length, false, IsTrue, IsErrOf, IfSome, IfNone};
ghost use Rattle.bk_disk.specs.Disk.{view_end};
ghost use Rattle.bk_record.specs.Files.{header_length};
ghost use Rattle.bk_log.specs.Places.{HasEntryAt};
ghost use Rattle.bk_log.specs.FoundRuns.{founds_of, AreEntriesOf, RunMoves};

mod step;

use crate::runs::size_of_run;
use crate::window::Window;
use crate::{Found, FoundRun, ScanFault};
use bk_disk::LogView;
use std::alloc::Global;
use std::marker::Model;

/// Scans the bytes of a log's view from one position to another. Contracts see the part and the
/// progress of the scan (`specs/Scanning.antt`).
#[derive(Drop)]
pub struct Scanner<'a, V: LogView> {
    window: Window<'a, V>,
    from: u64,
    end: u64,
    given: u64,
    foreign: u64,
    torn: u64,
    ended: bool,
    fault: Option<ScanFault>,
}

impl<'a, V: LogView> Model for Scanner<'a, V> {
    ghost use Rattle.bk_log.specs.Scanning.{Scan};

    ghost Value = { Scan };

    ghost use Rattle.bk_log.specs.Scanned.{window_scan, KeepsScan};

    ghost view = { λ s. window_scan s.window s.from s.end s.given s.foreign s.torn s.ended s.fault };

    ghost invariant = { λ s. KeepsScan s.window s.from s.end s.given s.foreign s.torn s.ended s.fault };
}

impl<'a, V: LogView> Scanner<'a, V> {
    ghost use Rattle.bk_log.specs.Scanning.{is_going, NextMoves, ScanNextTransition};
    ghost use Rattle.bk_log.specs.Scanned.{new_scan};

    /// Returns a scan of the view's bytes from position `from` up to `end`. Does not allocate.
    ///
    /// Requires that `from` is at least 1024 and `end` at least `from`; on an honest view `end` is
    /// at most the view's end. `from` should be the position of a record.
    pub fn new(view: &'a V, alloc: Global, from: u64, end: u64) -> Scanner<'a, V>
        requires headed { header_length ≤ from }
        requires ordered { from ≤ end }
        requires in_view { IsTrue (V.honest view.now) → end ≤ view_end (V.bytes view.now) }
        ensures { result ≡ new_scan (V.bytes view.now) (V.honest view.now) (V.sound view.now) from end }
    {
        Scanner {
            window: Window::new(view, alloc, from),
            from,
            end,
            given: 0,
            foreign: 0,
            torn: 0,
            ended: false,
            fault: None,
        }
    }

    /// Returns the next entry in the order of the file, or `None` at the end.
    ///
    /// Records with a negative ledger or entry id, such as the batches of a ledgers map, are passed
    /// and counted as foreign. At the end, fewer bytes are left than a record needs; they are
    /// counted as torn (project rules).
    ///
    /// # Errors
    ///
    /// Final: every further call returns the same error.
    ///
    /// - `BadLength` if the length after the last entry is below 16, as a signed number.
    /// - `Disk` if the view is not sound.
    /// - `Memory`, only at the part's first record.
    /// - `Odd`, not on an honest view.
    pub fn next(&mut self) -> Result<Option<Found>, ScanFault>
        ensures moves { NextMoves self.old result self.new }
        ensures again { ¬ (IsTrue (is_going self.old)) → self.new ≡ self.old }
        ensures cause { IsErrOf result ScanFault.Disk → self.old.sound ≡ false }
        ensures transition { IsTrue self.old.honest → ScanNextTransition self.old result self.new }
    {
        while self.is_going() {
            if let Some(found) = self.step() {
                return Ok(Some(found));
            }
        }
        match self.fault {
            Some(fault) => Err(fault),
            None => Ok(None),
        }
    }

    /// Returns the next entries and passes them, if the view knows their heads without reading them.
    /// `None` changes nothing, and says nothing of what comes next: `next` tells that.
    ///
    /// Reads nothing, and takes no time for each entry. The first record of the part is left to
    /// `next`. A run that the view tells of is ignored if it has no record, a size below 20 or above
    /// 2^31 + 3 bytes, an entry id above 2^63 - 1, or more bytes than are left of the part.
    pub fn next_run(&mut self) -> Option<FoundRun>
        ensures none { IfNone result (self.new ≡ self.old) }
        ensures moves { IfSome result (λ run. RunMoves self.old run self.new) }
        ensures transition { IsTrue self.old.honest → IfSome result (λ run. AreEntriesOf self.old self.old.given (founds_of run)) }
    {
        if !self.is_going() || !self.window.has_room() {
            return None;
        }
        let at = self.window.at();
        let left = self.end - at;
        let run = self.window.run(left)?;
        let size = size_of_run(&run, left)?;
        self.window.skip(size);
        self.given += u64::from(run.count);
        let first = Found {
            key: run.first,
            at: at + 4,
            size: run.size,
        };
        Some(FoundRun {
            first,
            count: run.count,
        })
    }

    /// Returns the payload of an entry that this scan found, if its window has it; else `None`, and
    /// `fetch` reads it.
    ///
    /// The window has the entry that `next` found last, unless it is longer than a window, cut by
    /// the window's end, or its head was known to the view. It has an entry that `next_run` passed
    /// only if it was read for an entry before. Reads nothing.
    pub fn payload(&self, found: &Found) -> Option<&[u8]>
        requires { 4 ≤ found.now.size }
        ensures long { IfSome result (λ payload. length payload.now + 4 ≡ found.now.size) }
        ensures entry { IsTrue self.now.honest → (payload : List ℕ) → HasEntryAt self.now.file found.now.at found.now.key payload
            → found.now.size ≡ 4 + length payload → IfSome result (λ lent. lent.now ≡ payload) }
    {
        self.window.lend(found.at, found.size as usize - 4)
    }

    /// Returns the number of foreign records passed.
    pub fn foreign(&self) -> u64
        ensures { result ≡ self.now.foreign }
    {
        self.foreign
    }

    /// Returns the number of torn bytes at the end, 0 before it is reached.
    pub fn torn(&self) -> u64
        ensures { result ≡ self.now.torn }
    {
        self.torn
    }

    fn is_going(&self) -> bool
        ensures { result ≡ is_going self.now }
    {
        !self.ended && self.fault.is_none()
    }
}
