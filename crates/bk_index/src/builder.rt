//! An index that is being filled: runs of keys are gathered, then inserted in the order of their
//! keys, so that its pages are filled one after another.

ghost use Rattle.std.specs.Prelude.{◌≡◌, ◌+◌, ◌*◌, ◌<◌, ◌≤◌, ◌^◌, [], ◌∷◌, ◌++◌, length, All, IsTrue, IfSome, IfOk, OnOk};
ghost use Rattle.std.specs.FinMap as map;
ghost use Rattle.std.specs.List.{AllAdjacentBelow};
ghost use Rattle.bk_index.specs.Keyed.{Places};
ghost use Rattle.bk_index.specs.Runs.{with_run};
ghost use Rattle.bk_index.specs.Building.{with_runs, IsPlacedRun, RunEndsBefore, RunGoesOn};

use crate::Index;
use bk_record::{Key, Location};
use std::alloc::{AllocError, Global};
use std::marker::Model;

// Greatest number of runs that are gathered.
const MOST_RUNS: usize = 65_536;

// Keys of consecutive entry ids of one ledger, with places at an even distance in one log.
#[derive(Clone, Copy, Debug)]
struct PlacedRun {
    first: Key,
    place: Location,
    size: u32,
    count: u32,
}

/// Index that is being filled. Runs of keys are gathered, and inserted in the order of their keys.
/// A key that is added twice has the later location.
#[derive(Debug, Drop)]
pub struct IndexBuilder {
    index: Index,
    /// Runs that are not in the index yet, in the order in which they were added.
    runs: Vec<PlacedRun>,
}

impl Model for IndexBuilder {
    ghost use Rattle.std.specs.Prelude.{All};
    ghost use Rattle.bk_index.specs.Keyed.{Places, places_code};

    ghost Value = { Places };

    ghost coded = { places_code };

    ghost use Rattle.bk_index.specs.Building.{with_runs, IsPlacedRun};

    ghost view = { λ builder. with_runs builder.index builder.runs.items };

    ghost invariant = { λ builder. All IsPlacedRun builder.runs.items };
}

impl IndexBuilder {
    /// Returns an empty index to be filled. Does not allocate.
    pub fn new(alloc: Global) -> IndexBuilder
        ensures { result ≡ map.empty }
    {
        IndexBuilder {
            index: Index::new(alloc),
            runs: Vec::new(alloc),
        }
    }

    /// Sets the location of a key. `size` is the distance in bytes to the location of the next key,
    /// if that is directly behind.
    ///
    /// # Errors
    ///
    /// - `AllocError` if an allocation fails.
    pub fn insert(&mut self, key: Key, place: Location, size: u32) -> Result<(), AllocError>
        ensures { OnOk result (self.new ≡ map.insert self.old key place) }
    {
        let (_entry, _at) = (key.entry(), place.at());
        self.insert_run(key, place, size, 1)
    }

    /// Sets the locations of the keys of a run, as `Index::insert_run` does.
    ///
    /// Requires entry ids below 2^63 and positions below 2^32.
    ///
    /// # Errors
    ///
    /// - `AllocError` if an allocation fails.
    pub fn insert_run(
        &mut self,
        first: Key,
        place: Location,
        size: u32,
        count: u32,
    ) -> Result<(), AllocError>
        requires ids { first.entry + count ≤ 2 ^ 63 }
        requires places { place.at + count * size < 2 ^ 32 + size }
        ensures { OnOk result (self.new ≡ with_run self.old first place size count) }
    {
        if self.runs.len() >= MOST_RUNS {
            put(&mut self.index, *self.runs.allocator(), &self.runs)?;
            self.runs.clear();
        }
        let run = PlacedRun {
            first,
            place,
            size,
            count,
        };
        add(&mut self.runs, run)
    }

    /// Returns the index.
    ///
    /// # Errors
    ///
    /// - `AllocError` if an allocation fails.
    pub fn finish(self) -> Result<Index, AllocError>
        ensures { IfOk result (λ index. index ≡ self) }
    {
        let IndexBuilder { mut index, runs } = self;
        put(&mut index, *runs.allocator(), &runs)?;
        Ok(index)
    }
}

// Adds a run: to the last one, if it goes on directly behind it.
fn add(runs: &mut Vec<PlacedRun>, run: PlacedRun) -> Result<(), AllocError>
    requires held { All IsPlacedRun runs.old.items }
    requires placed { IsPlacedRun run }
    ensures held { All IsPlacedRun runs.new.items }
    ensures ok { OnOk result ((index : Places) → with_runs index runs.new.items ≡ with_run (with_runs index runs.old.items) run.first run.place run.size run.count) }
{
    let count = runs.len();
    if count > 0 && goes_on(&runs[count - 1], &run) {
        runs[count - 1].count += run.count;
        return Ok(());
    }
    runs.push(run)?;
    Ok(())
}

// Whether a run goes on directly behind another, and both fit in one.
fn goes_on(last: &PlacedRun, run: &PlacedRun) -> bool
    ensures { IsTrue result → RunGoesOn last.now run.now }
{
    let entry = last.first.entry() + u64::from(last.count);
    let at = u64::from(last.place.at()) + u64::from(last.count) * u64::from(last.size);
    last.first.ledger() == run.first.ledger()
        && entry == run.first.entry()
        && last.place.log() == run.place.log()
        && at == u64::from(run.place.at())
        && last.size == run.size
        && run.count <= u32::MAX - last.count
}

// Puts runs into an index: in the order of their keys if no key is twice and memory for a copy is
// not refused, else in theirs.
fn put(index: &mut Index, alloc: Global, runs: &[PlacedRun]) -> Result<(), AllocError>
    requires { All IsPlacedRun runs.now }
    ensures { OnOk result (index.new ≡ with_runs index.old runs.now) }
{
    match in_order(alloc, runs) {
        Some(sorted) => put_each(index, &sorted),
        None => put_each(index, runs),
    }
}

// Puts runs into an index, in this order.
fn put_each(index: &mut Index, runs: &[PlacedRun]) -> Result<(), AllocError>
    requires { All IsPlacedRun runs.now }
    ensures { OnOk result (index.new ≡ with_runs index.old runs.now) }
{
    for run in runs {
        index.insert_run(run.first, run.place, run.size, run.count)?;
    }
    Ok(())
}

// Returns the runs in the order of their keys; `None` if two of them have a common key, or if
// memory is refused.
fn in_order(alloc: Global, runs: &[PlacedRun]) -> Option<Vec<PlacedRun>>
    requires { All IsPlacedRun runs.now }
    ensures held { IfSome result (λ sorted. All IsPlacedRun sorted.items) }
    ensures same { IfSome result (λ sorted. (index : Places) → with_runs index sorted.items ≡ with_runs index runs.now) }
{
    let mut sorted = Vec::new(alloc);
    if sorted.extend_from_slice(runs).is_err() {
        return None;
    }
    sorted.sort_unstable_by_key(|run| run.first);
    if are_apart(&sorted) {
        Some(sorted)
    } else {
        None
    }
}

// Whether each run ends before the next one begins.
fn are_apart(runs: &[PlacedRun]) -> bool
    ensures { IsTrue result → AllAdjacentBelow RunEndsBefore runs.now (length runs.now) }
{
    for i in 1..runs.len() {
        if !ends_before(&runs[i - 1], &runs[i]) {
            return false;
        }
    }
    true
}

// Whether the keys of a run are all before those of another.
fn ends_before(run: &PlacedRun, next: &PlacedRun) -> bool
    ensures { IsTrue result → RunEndsBefore run.now next.now }
{
    let (ledger, behind) = (run.first.ledger(), next.first.ledger());
    let end = run.first.entry() + u64::from(run.count);
    ledger < behind || (ledger == behind && end <= next.first.entry())
}
