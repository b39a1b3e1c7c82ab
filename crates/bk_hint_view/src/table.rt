//! The records of a log, in memory.

ghost use Rattle.std.specs.Prelude.{◌≡◌, [], ◌∷◌, ◌++◌, IsTrue, IfOk, IfSome, OnOk, length};
ghost use Rattle.bk_hint.specs.Runs.{entries_of_runs};
ghost use Rattle.bk_hint_view.specs.Rows.{IsNextRun, IsRestIn, IsRestOf};

use bk_disk::RecordRun;
use bk_hint::{Contents, ListedRun};
use bk_record::{Key, LENGTH_FIELD};
use std::alloc::{AllocError, Global};
use std::marker::Model;

/// The records of a log, as runs of entries in file order. Contracts see the list of runs.
#[derive(Debug, Drop)]
pub struct Table {
    rows: Vec<ListedRun>,
}

impl Model for Table {
    ghost use Rattle.std.specs.Prelude.{List};
    ghost use Rattle.bk_hint.specs.declared.runs.ListedRun.{ListedRun};

    ghost Value = { List ListedRun };

    ghost view = { λ table. table.rows.items };
}

impl Table {
    /// Returns the table of the entries of a log. Allocates some 40 bytes for each run of entries.
    /// Runs of one size, one directly behind the other, are joined.
    ///
    /// # Errors
    ///
    /// - `AllocError` if an allocation is refused.
    pub fn of(alloc: Global, contents: &Contents) -> Result<Table, AllocError>
        ensures { IfOk result (λ table. entries_of_runs table ≡ contents.now) }
    {
        let mut rows = Vec::new(alloc);
        for run in contents.runs() {
            add(&mut rows, run)?;
        }
        Ok(Table { rows })
    }

    /// Returns the number of runs.
    pub fn len(&self) -> usize
        ensures { result ≡ length self.now }
    {
        self.rows.len()
    }

    /// Returns the records at this position and behind it that are in one run of the table. `None` if
    /// no record of the table begins there.
    ///
    /// The number of steps is logarithmic in that of the runs.
    pub fn run_at(&self, at: u64) -> Option<RecordRun>
        ensures { IfSome result (IsRestIn self.now at) }
    {
        let payload = at.checked_add(LENGTH_FIELD as u64)?;
        let behind = self.rows.partition_point(|row| row.first.at <= payload);
        let row = self.rows.get(behind.checked_sub(1)?)?;
        rest_of(row, payload)
    }
}

/// Adds a run: to the last one, if it goes on directly behind it.
fn add(rows: &mut Vec<ListedRun>, run: ListedRun) -> Result<(), AllocError>
    ensures { OnOk result (entries_of_runs rows.new.items ≡ entries_of_runs (rows.old.items ++ run ∷ [])) }
{
    let count = rows.len();
    if count > 0 && goes_on(&rows[count - 1], &run) {
        rows[count - 1].again += run.again + 1;
        return Ok(());
    }
    rows.push(run)?;
    Ok(())
}

/// Returns whether a run goes on directly behind another, with records of its size, and both fit in
/// one.
#[tactic(auto, using(bk_hint::proofs::Checks::product_below))]
fn goes_on(last: &ListedRun, run: &ListedRun) -> bool
    ensures { IsTrue result → IsNextRun last.now run.now }
{
    let (first, next) = (last.first.key, run.first.key);
    if next.ledger() != first.ledger() || run.first.size != last.first.size {
        return false;
    }
    let Some(bytes) = run.first.at.checked_sub(last.first.at) else {
        return false;
    };
    let size = u64::from(last.first.size);
    let Some(count) = bytes.checked_div(size) else {
        return false;
    };
    if count != u64::from(last.again) + 1 || count * size != bytes {
        return false;
    }
    if next.entry() != first.entry() + count {
        return false;
    }
    u64::from(run.again) + count <= u64::from(u32::MAX)
}

/// Returns the records of a run from the one whose payload is at this position on.
#[tactic(auto, using(bk_hint::proofs::Checks::product_below))]
fn rest_of(row: &ListedRun, payload: u64) -> Option<RecordRun>
    ensures { IfSome result (IsRestOf row.now payload) }
{
    let before = payload.checked_sub(row.first.at)?;
    let size = u64::from(row.first.size);
    let place = before.checked_div(size)?;
    if place > u64::from(row.again) || place * size != before {
        return None;
    }
    let first = Key::new(row.first.key.ledger(), row.first.key.entry() + place)?;
    Some(RecordRun {
        first,
        count: (row.again - place as u32).saturating_add(1),
        size: row.first.size,
    })
}
