//! Adjacent pairs of a page, in either form.

ghost use Rattle.std.specs.Prelude.{◌≡◌, ◌<◌, ◌≤◌, ◌+◌, ◌^◌, [], length, take, drop, slice_get, IsNone, IfSome};
ghost use Rattle.std.specs.List.{AllByRecursion};
ghost use Rattle.bk_index.specs.Packed.{cell_pairs, AreInLog};
ghost use Rattle.bk_index.specs.Passing.{PassesLog};

use super::logs::UNKNOWN;
use super::offset::key_at;
use bk_record::{Key, LAST_LOG, Location};
use std::marker::Model;

/// Pairs that are still to be visited: those of cells, then others.
#[derive(Debug, Drop)]
pub(crate) struct Part<'a> {
    ledger: u64,
    base: u64,
    /// The log of all locations of the cells if it is known, else `UNKNOWN`.
    log: u32,
    cells: &'a [(u32, Location)],
    pairs: &'a [(Key, Location)],
}

impl<'a> Model for Part<'a> {
    ghost use Rattle.std.specs.Prelude.{◌<◌, ◌≤◌, ◌+◌, ◌^◌, ◌++◌, List};
    ghost use Rattle.bk_record.specs.Key.{EntryKey};
    ghost use Rattle.bk_record.specs.Location.{Place};
    ghost use Rattle.bk_index.specs.Packed.{cell_pairs, AreInLog};

    ghost Value = { List (EntryKey × Place) };

    ghost view = { λ part. cell_pairs part.ledger part.base part.cells.now ++ part.pairs.now };

    ghost invariant = { λ part. (part.ledger < 2 ^ 63) × (part.base + 2 ^ 32 ≤ 2 ^ 63) × AreInLog part.log part.cells.now };
}

impl<'a> Part<'a> {
    /// Returns a part without a pair.
    pub(crate) fn empty() -> Part<'a>
        ensures { result ≡ [] }
    {
        Part::of_pairs(&[])
    }

    /// Returns the part of these pairs.
    pub(crate) fn of_pairs(pairs: &'a [(Key, Location)]) -> Part<'a>
        ensures { result ≡ pairs.now }
    {
        Part {
            ledger: 0,
            base: 0,
            log: UNKNOWN,
            cells: &[],
            pairs,
        }
    }

    /// Returns the part of the pairs of these cells, whose locations are all in the log, unless it is
    /// `UNKNOWN`.
    pub(crate) fn of_cells(
        ledger: u64,
        base: u64,
        log: u32,
        cells: &'a [(u32, Location)],
    ) -> Part<'a>
        requires ledger_bound { ledger < 2 ^ 63 }
        requires base_bound { base + 2 ^ 32 ≤ 2 ^ 63 }
        requires logged { AreInLog log cells.now }
        ensures { result ≡ cell_pairs ledger base cells.now }
    {
        Part {
            ledger,
            base,
            log,
            cells,
            pairs: &[],
        }
    }

    /// Returns the first pair, which the part then no longer has.
    #[inline(always)]
    pub(crate) fn next(&mut self) -> Option<(Key, Location)>
        ensures first { result ≡ slice_get self.old 0 }
        ensures rest { self.new ≡ drop 1 self.old }
    {
        if let Some((&(offset, location), rest)) = self.cells.split_first() {
            self.cells = rest;
            return Some((key_at(self.ledger, self.base, offset), location));
        }
        let (first, rest) = self.pairs.split_first()?;
        self.pairs = rest;
        Some(*first)
    }

    /// Passes the first pairs, all those whose locations are in the log of the first one, and
    /// returns the log and their number. `None` if there is no pair.
    pub(crate) fn pass_log(&mut self) -> Option<(u32, u64)>
        ensures none { IsNone result → (self.old ≡ []) × (self.new ≡ []) }
        ensures some { IfSome result (λ passed. PassesLog self.old passed.0 passed.1 self.new) }
    {
        if let Some((log, count)) = leading_cells(self.log, self.cells) {
            self.cells = self.cells.split_at(count).1;
            return Some((log, count as u64));
        }
        let (log, count) = leading(self.pairs)?;
        self.pairs = self.pairs.split_at(count).1;
        Some((log, count as u64))
    }
}

// Same as `leading`, for cells whose log may be known: then no cell is looked at.
fn leading_cells(log: u32, cells: &[(u32, Location)]) -> Option<(u32, usize)>
    requires { AreInLog log cells.now }
    ensures none { IsNone result → cells.now ≡ [] }
    ensures some { IfSome result (λ found. 0 < found.1) }
    ensures within { IfSome result (λ found. found.1 ≤ length cells.now) }
    ensures same { IfSome result (λ found. AllByRecursion (λ cell. cell.1.log ≡ found.0) (take found.1 cells.now)) }
{
    if log <= LAST_LOG && !cells.is_empty() {
        return Some((log, cells.len()));
    }
    leading(cells)
}

// Returns the log of the first location, and how many from the first on are in it.
fn leading<K>(items: &[(K, Location)]) -> Option<(u32, usize)>
    ensures none { IsNone result → items.now ≡ [] }
    ensures some { IfSome result (λ found. 0 < found.1) }
    ensures within { IfSome result (λ found. found.1 ≤ length items.now) }
    ensures same { IfSome result (λ found. AllByRecursion (λ item. item.1.log ≡ found.0) (take found.1 items.now)) }
{
    let (first, _) = items.split_first()?;
    let log = first.1.log();
    let mut count = 1;
    while count < items.len() && items[count].1.log() == log {
        count += 1;
    }
    Some((log, count))
}
