//! Runs of keys: consecutive entry ids of one ledger, with places at an even distance in one log.

ghost use Rattle.std.specs.Prelude.{◌≡◌, ℕ, ◌+◌, ◌*◌, ◌<◌, ◌≤◌, ◌^◌, IfOk, OnOk, OnErr};
ghost use Rattle.bk_index.specs.Runs.{with_run};

use super::{Index, NO_PAGE};
use bk_record::{Key, Location};
use std::alloc::AllocError;

// Number of keys in a row that are inserted alone before several at once are tried again.
const PART: u32 = 16;

impl Index {
    /// Sets the locations of the keys of a run, in order.
    ///
    /// The keys are `first` and those of the next entry ids of its ledger, `count` in all. The
    /// location of `first` becomes `place`; that of each next key is in the same log, `size` bytes
    /// behind the one before. A key in the page of the one before is inserted without a search for
    /// its page.
    ///
    /// Requires entry ids below 2^63 and positions below 2^32.
    ///
    /// # Errors
    ///
    /// - `AllocError` if an allocation fails. The index then has the locations of the first keys of
    ///   the run, fewer than `count`; all others are unchanged.
    pub fn insert_run(
        &mut self,
        first: Key,
        place: Location,
        size: u32,
        count: u32,
    ) -> Result<(), AllocError>
        requires ids { first.entry + count ≤ 2 ^ 63 }
        requires places { place.at + count * size < 2 ^ 32 + size }
        ensures ok { OnOk result (self.new ≡ with_run self.old first place size count) }
        ensures err { OnErr result ((done : ℕ) × (done < count) × (self.new ≡ with_run self.old first place size done)) }
    {
        let (ledger, entry) = (first.ledger(), first.entry());
        let (log, at) = (place.log(), place.at());
        let mut page = NO_PAGE;
        let mut done = 0;
        // Keys in a row that were inserted alone: where these are many, the page is a plain one.
        let mut alone = 0u32;
        while done < count {
            let key = Key::new(ledger, entry + u64::from(done)).unwrap();
            let location = Location::pack(log, at + done * size).unwrap();
            let left = count - done;
            let number = self.insert_some(key, location, size, left, alone, &mut page)?;
            alone = with_alone(alone, number);
            done += number;
        }
        Ok(())
    }

    // Same as `insert_part`, but after so many keys in a row that were inserted alone: mostly one key.
    #[inline]
    fn insert_some(
        &mut self,
        key: Key,
        place: Location,
        size: u32,
        count: u32,
        alone: u32,
        page: &mut usize,
    ) -> Result<u32, AllocError>
        requires some { 0 < count }
        requires places { place.at + count * size < 2 ^ 32 + size }
        ensures ok { IfOk result (λ n. self.new ≡ with_run self.old key place size n) }
        ensures some { IfOk result (λ n. 0 < n) }
        ensures bound { IfOk result (λ n. n ≤ count) }
        ensures err { OnErr result (self.new ≡ self.old) }
    {
        if alone % PART == 0 {
            return self.insert_part(key, place, size, count, page);
        }
        self.insert_near(key, place, page)?;
        Ok(1)
    }

    // Sets the locations of the first keys of a run, at least one, and returns their number: as
    // many as fit their page if they come after all others there. Tries the page of this number
    // first, and sets it to that of the keys.
    fn insert_part(
        &mut self,
        key: Key,
        place: Location,
        size: u32,
        count: u32,
        page: &mut usize,
    ) -> Result<u32, AllocError>
        requires some { 0 < count }
        requires places { place.at + count * size < 2 ^ 32 + size }
        ensures ok { IfOk result (λ n. self.new ≡ with_run self.old key place size n) }
        ensures some { IfOk result (λ n. 0 < n) }
        ensures bound { IfOk result (λ n. n ≤ count) }
        ensures err { OnErr result (self.new ≡ self.old) }
    {
        let pushed = self.pages.push_near(&key, place, size, count, page)?;
        self.len += pushed as usize;
        if pushed > 0 {
            return Ok(pushed);
        }
        self.insert_near(key, place, page)?;
        Ok(1)
    }
}

// Returns how many keys in a row were inserted alone, with so many inserted at once after them.
fn with_alone(alone: u32, number: u32) -> u32 {
    if number == 1 {
        alone.wrapping_add(1)
    } else {
        0
    }
}
