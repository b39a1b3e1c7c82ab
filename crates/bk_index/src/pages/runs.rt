//! Runs of keys at the end of a page, or as a new page behind all others.

ghost use Rattle.std.specs.Prelude.{◌≡◌, ℕ, ◌+◌, ◌*◌, ◌<◌, ◌≤◌, ◌^◌, length, IsTrue, IfOk, OnOk, OnErr};
ghost use Rattle.std.specs.FinMap.{is_sorted};
ghost use Rattle.std.specs.List.{AllByRecursion};
ghost use Rattle.std.specs.declared.cmp.Ordering.TheVariants.{Less};
ghost use Rattle.bk_record.specs.Key.{key_cmp};
ghost use Rattle.bk_index.specs.Pages.{all_pairs, IsHome};
ghost use Rattle.bk_index.specs.Runs.{key_of_run, put_run};

use super::{MOST_PAGES, Pages};
use crate::page::{LOWER, Page};
use bk_record::{Key, Location};
use std::alloc::AllocError;

impl Pages {
    /// Adds the first keys of a run after all others of their page, as many as fit there, and
    /// returns their number: maybe 0. Keys after all others of the index begin a new page if the
    /// last one has no room for them and at least 128 keys. If an allocation fails, the pages are
    /// unchanged. Tries the page `near` first, and sets it to the one before the keys.
    pub(crate) fn push_near(
        &mut self,
        key: &Key,
        place: Location,
        size: u32,
        count: u32,
        near: &mut usize,
    ) -> Result<u32, AllocError>
        requires some { 0 < count }
        requires sorted { IsTrue (is_sorted key_cmp (all_pairs self.old)) }
        requires places { place.at + count * size < 2 ^ 32 + size }
        ensures pushed { IfOk result (λ n. all_pairs self.new ≡ put_run (all_pairs self.old) key.now place size n) }
        ensures len { IfOk result (λ n. length (all_pairs self.new) ≡ length (all_pairs self.old) + n) }
        ensures few { OnOk result (length (all_pairs self.new) < 2 ^ 64) }
        ensures bound { IfOk result (λ n. n ≤ count) }
        ensures err { OnErr result (self.new ≡ self.old) }
    {
        let at = self.home_near(key, *near);
        *near = at;
        if self.are_before(at, key) {
            return self.begin_run(key, place, size, count);
        }
        if at >= self.list.len() {
            return Ok(0);
        }
        self.push_run(at, key, place, size, count)
    }

    // Whether a run from this key on begins a new page: the keys of all pages are before it, and the
    // last page, that of the key, has at least 128 keys and no room for it in its form.
    fn are_before(&self, at: usize, key: &Key) -> bool
        requires { IsHome key.now self.now at }
        ensures { IsTrue result → AllByRecursion (λ pair. key_cmp pair.0 key.now ≡ Less) (all_pairs self.now) }
    {
        let count = self.list.len();
        if count == 0 {
            return true;
        }
        if at != count - 1 {
            return false;
        }
        let page = &self.list[at];
        if page.len() < LOWER || !page.is_full_for(key) {
            return false;
        }
        let Err(place) = page.place_for(key) else {
            return false;
        };
        place == page.len()
    }

    // Adds a page with the first keys of a run, at least one, and returns their number.
    fn begin_run(
        &mut self,
        key: &Key,
        place: Location,
        size: u32,
        count: u32,
    ) -> Result<u32, AllocError>
        requires some { 0 < count }
        requires before { AllByRecursion (λ pair. key_cmp pair.0 key.now ≡ Less) (all_pairs self.old) }
        requires places { place.at + count * size < 2 ^ 32 + size }
        ensures pushed { IfOk result (λ n. all_pairs self.new ≡ put_run (all_pairs self.old) key.now place size n) }
        ensures len { IfOk result (λ n. length (all_pairs self.new) ≡ length (all_pairs self.old) + n) }
        ensures few { OnOk result (length (all_pairs self.new) < 2 ^ 64) }
        ensures bound { IfOk result (λ n. n ≤ count) }
        ensures err { OnErr result (self.new ≡ self.old) }
    {
        if self.list.len() >= MOST_PAGES {
            return Err(AllocError);
        }
        let (page, number) = Page::of_run(*self.fences.allocator(), key, place, size, count)?;
        self.fences.reserve(1)?;
        self.list.reserve(1)?;
        // Does not fail: room for both was reserved.
        self.fences.push(*key)?;
        self.list.push(page)?;
        Ok(number)
    }

    // Same as `push_near`, in the page of the key.
    fn push_run(
        &mut self,
        at: usize,
        key: &Key,
        place: Location,
        size: u32,
        count: u32,
    ) -> Result<u32, AllocError>
        requires within { at < length self.old }
        requires home { IsHome key.now self.old at }
        requires sorted { IsTrue (is_sorted key_cmp (all_pairs self.old)) }
        requires places { place.at + count * size < 2 ^ 32 + size }
        ensures pushed { IfOk result (λ n. all_pairs self.new ≡ put_run (all_pairs self.old) key.now place size n) }
        ensures len { IfOk result (λ n. length (all_pairs self.new) ≡ length (all_pairs self.old) + n) }
        ensures few { OnOk result (length (all_pairs self.new) < 2 ^ 64) }
        ensures bound { IfOk result (λ n. n ≤ count) }
        ensures err { OnErr result (self.new ≡ self.old) }
    {
        let most = self.before_next(at, key, count);
        let page = &mut self.list[at];
        let number = page.push_run(key, place, size, most)?;
        Ok(number)
    }

    // Returns how many keys of a run are before the next page: at most `count`.
    fn before_next(&self, at: usize, key: &Key, count: u32) -> u32
        requires within { at < length self.now }
        requires home { IsHome key.now self.now at }
        requires sorted { IsTrue (is_sorted key_cmp (all_pairs self.now)) }
        ensures homes { (i : ℕ) → i < result → IsHome (key_of_run key.now i) self.now at }
        ensures bound { result ≤ count }
    {
        let pages = self.fences.len();
        let next = at + 1;
        if next >= pages {
            return count;
        }
        let fence = self.fences[next];
        if fence.ledger() != key.ledger() {
            return count;
        }
        lesser(fence.entry().saturating_sub(key.entry()), count)
    }
}

// Returns the lesser of two numbers.
fn lesser(a: u64, b: u32) -> u32
    ensures first { result ≤ a }
    ensures second { result ≤ b }
{
    u64::from(b).min(a) as u32
}
