//! Runs of keys as a packed page, or at the end of one.

ghost use Rattle.std.specs.Prelude.{◌≡◌, ◌+◌, ◌*◌, ◌<◌, ◌≤◌, ◌^◌, ◌++◌, length, IfOk, OnOk, OnErr};
ghost use Rattle.std.specs.List.{AllByRecursion};
ghost use Rattle.std.specs.declared.cmp.Ordering.TheVariants.{Less};
ghost use Rattle.bk_record.specs.Key.{key_cmp};
ghost use Rattle.bk_index.specs.Pages.{first_key};
ghost use Rattle.bk_index.specs.Runs.{pairs_of_run, cells_of_run};

use super::Packed;
use crate::page::halves::MOST;
use crate::page::logs::joint;
use crate::page::offset::{SPAN, base_of, offset_in};
use bk_record::{Key, Location};
use std::alloc::{AllocError, Global};

impl Packed {
    /// Returns a page of the first keys of a run, at least one, with room for 256, and their number:
    /// as many as fit.
    pub(crate) fn of_run(
        alloc: Global,
        key: &Key,
        place: Location,
        size: u32,
        count: u32,
    ) -> Result<(Packed, u32), AllocError>
        requires some { 0 < count }
        requires places { place.at + count * size < 2 ^ 32 + size }
        ensures pairs { IfOk result (λ made. made.0 ≡ pairs_of_run key.now place size made.1) }
        ensures some { IfOk result (λ made. 0 < made.1) }
        ensures bound { IfOk result (λ made. made.1 ≤ count) }
        ensures room { IfOk result (λ made. made.1 ≤ 256) }
    {
        let (ledger, base) = (key.ledger(), base_of(key.entry()));
        let offset = (key.entry() - base) as u32;
        let number = fitting(0, offset, count);
        let mut cells = Vec::with_capacity(alloc, MOST)?;
        append(&mut cells, offset, place, size, number)?;
        let packed = Packed {
            ledger,
            base,
            log: place.log(),
            cells,
        };
        Ok((packed, number))
    }

    /// Adds the first keys of a run after all others, as many as fit, and returns their number. It
    /// is 0 if the page is full, or the key is not after all others or has no offset. If an
    /// allocation fails, the page is unchanged.
    pub(crate) fn push_run(
        &mut self,
        key: &Key,
        place: Location,
        size: u32,
        count: u32,
    ) -> Result<u32, AllocError>
        requires { place.at + count * size < 2 ^ 32 + size }
        ensures pushed { IfOk result (λ n. self.new ≡ self.old ++ pairs_of_run key.now place size n) }
        ensures behind { IfOk result (λ n. 0 < n → AllByRecursion (λ pair. key_cmp pair.0 key.now ≡ Less) self.old) }
        ensures bound { IfOk result (λ n. n ≤ count) }
        ensures room { IfOk result (λ n. length self.old ≤ 256 → length self.new ≤ 256) }
        ensures first { IfOk result (λ n. first_key self.new ≡ first_key self.old) }
        ensures err { OnErr result (self.new ≡ self.old) }
    {
        let Some(offset) = offset_in(self.ledger, self.base, key) else {
            return Ok(0);
        };
        let len = self.cells.len();
        if len == 0 || len >= MOST || self.cells[len - 1].0 >= offset {
            return Ok(0);
        }
        let number = fitting(len, offset, count);
        append(&mut self.cells, offset, place, size, number)?;
        self.log = joint(self.log, &place);
        Ok(number)
    }

    /// Whether the page has 256 keys, or the key has no offset in it.
    pub(crate) fn is_full_for(&self, key: &Key) -> bool {
        self.cells.len() >= MOST || offset_in(self.ledger, self.base, key).is_none()
    }
}

// Returns how many cells of a run fit after those of a page, from an offset on: at most `count`.
fn fitting(len: usize, offset: u32, count: u32) -> u32
    requires { len < 256 }
    ensures bound { result ≤ count }
    ensures room { len + result ≤ 256 }
    ensures offsets { offset + result ≤ 2 ^ 32 }
    ensures some { 0 < count → 0 < result }
{
    let room = (MOST - len) as u64;
    let offsets = SPAN - u64::from(offset);
    u64::from(count).min(room).min(offsets) as u32
}

// Appends the cells of a run. If an allocation fails, the cells are unchanged.
fn append(
    cells: &mut Vec<(u32, Location)>,
    offset: u32,
    place: Location,
    size: u32,
    count: u32,
) -> Result<(), AllocError>
    requires offsets { offset + count ≤ 2 ^ 32 }
    requires places { place.at + count * size < 2 ^ 32 + size }
    ensures ok { OnOk result (cells.new.items ≡ cells.old.items ++ cells_of_run offset place size count) }
    ensures err { OnErr result (cells.new.items ≡ cells.old.items) }
{
    let (log, at) = (place.log(), place.at());
    cells.reserve(count as usize)?;
    for done in 0..count {
        let location = Location::pack(log, at + done * size).unwrap();
        // Does not fail: room was reserved.
        cells.push((offset + done, location))?;
    }
    Ok(())
}
