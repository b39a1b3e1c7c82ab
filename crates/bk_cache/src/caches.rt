//! The two write caches and the recent entries. A key is in at most one of the write caches, and a
//! read searches these first.

ghost use Rattle.std.specs.Prelude.{◌≡◌, ◌↔◌, ◌⊎◌, ◌+◌, ◌≤◌, [], Some, None, Ok, length, is_some, option_map, IsSome, IsTrue, IfSome, IfNone, IfOk};
ghost use Rattle.std.specs.FinMap as map;
ghost use Rattle.bk_record.specs.Key.{EntryKey};
ghost use Rattle.bk_record.specs.Limits.{max_cache_limit};
ghost use Rattle.bk_record.specs.Record.{read_added};
ghost use Rattle.bk_record.specs.Keyed.{ledger_count};
ghost use Rattle.bk_cache.specs.Recents.{recent_of, recents_with, IsOldOrRemembered};
ghost use Rattle.bk_cache.specs.Caches.{used_of, flush_of, write_cached_payload, cached_payload, AllKeyed, AreApart, first_after, new_caches, without};
ghost use Rattle.bk_cache.specs.Invariant.{IsSound};
ghost use Rattle.bk_cache.specs.Transitions.{CacheAddTransition, CacheSwapTransition};

use crate::cache::Cache;
use crate::recent::Recent;
use crate::{CacheAdd, CacheFault, CacheNear, Flushing, Swap};
use bk_record::Key;
use std::alloc::{AllocError, Global};
use std::marker::Model;
use std::mem;
use std::sync::Arc;

mod in_order;

/// Entries in memory: those of the active cache, of the flushing cache, and the recent ones.
/// Payloads are shared, and copied only when they are added.
#[derive(Drop)]
pub struct Caches {
    alloc: Global,
    limit: u64,
    active: Cache,
    flush: Option<Cache>,
    recent: Recent,
}

impl Model for Caches {
    ghost use Rattle.bk_cache.specs.Caches.{CacheState, cache_code};
    ghost use Rattle.bk_cache.specs.Invariant.{IsSound};

    ghost Value = { CacheState };

    ghost coded = { cache_code };

    ghost view = { λ c. record { active = c.active; flush = c.flush; recent = c.recent; limit = c.limit } };

    ghost invariant = { λ c. IsSound (record { active = c.active; flush = c.flush; recent = c.recent; limit = c.limit }) };
}

impl Caches {
    /// Returns empty caches.
    ///
    /// `limit` is the greatest number of payload bytes of the active cache, at most 1,073,741,824.
    /// `recent` is the greatest number of recent entries; their table is allocated at once.
    ///
    /// # Errors
    ///
    /// - `AllocError` if an allocation fails.
    pub fn new(alloc: Global, limit: u64, recent: u32) -> Result<Caches, AllocError>
        requires { limit ≤ max_cache_limit }
        ensures value { IfOk result (λ caches. caches ≡ new_caches limit recent) }
        ensures sound { IfOk result IsSound }
    {
        Ok(Caches {
            alloc,
            limit,
            active: Cache::new(alloc),
            flush: None,
            recent: Recent::new(alloc, recent as usize)?,
        })
    }

    /// Returns the greatest number of payload bytes of the active cache.
    pub fn limit(&self) -> u64
        ensures value { result ≡ self.now.limit }
        ensures sound { IsSound self.now }
    {
        self.limit
    }

    /// Returns the number of payload bytes of the active cache.
    pub fn used(&self) -> u64
        ensures value { result ≡ used_of self.now.active }
        ensures within { result ≤ self.now.limit }
        ensures sound { IsSound self.now }
    {
        self.active.used()
    }

    /// Returns whether a write cache has the key.
    pub fn holds(&self, key: &Key) -> bool
        ensures value { result ≡ is_some (write_cached_payload self.now key.now) }
        ensures sound { IsSound self.now }
    {
        self.written(key).is_some()
    }

    /// Returns the payload of a key: from the active cache, else from the flushing one, else from
    /// the recent entries. Does not change the order of the recent entries.
    #[inline]
    pub fn get(&self, key: &Key) -> Option<&Arc<Vec<u8>>>
        ensures value { option_map (λ payload. payload.now.value.items) result ≡ cached_payload self.now key.now }
        ensures keyed { IsSome (write_cached_payload self.now key.now) → IfSome result (λ payload. read_added payload.now.value.items ≡ Ok key.now) }
        ensures sound { IsSound self.now }
    {
        match self.written(key) {
            Some(payload) => Some(payload),
            None => self.recent.get(key),
        }
    }

    // The payload of a key in one of the write caches.
    #[inline]
    fn written(&self, key: &Key) -> Option<&Arc<Vec<u8>>>
        ensures value { option_map (λ payload. payload.now.value.items) result ≡ write_cached_payload self.now key.now }
        ensures keyed { IfSome result (λ payload. read_added payload.now.value.items ≡ Ok key.now) }
        ensures sound { IsSound self.now }
    {
        match (self.active.get(key), &self.flush) {
            (Some(payload), _) => Some(payload),
            (None, Some(flush)) => flush.get(key),
            (None, None) => None,
        }
    }

    /// Adds a copy of a payload to the active cache.
    ///
    /// Returns `Held` exactly if a write cache has the key, and then changes nothing. Requires that
    /// `check_add` accepts the payload with this key.
    ///
    /// # Errors
    ///
    /// For a key that no write cache has, in this order; the caches are unchanged:
    ///
    /// - `Full` exactly if the payload would exceed the active cache's limit, with its payload
    ///   bytes and the limit.
    /// - `Memory` if an allocation fails.
    pub fn add(&mut self, key: Key, payload: &[u8]) -> Result<CacheAdd, CacheFault>
        requires { read_added payload.now ≡ Ok key }
        ensures transition { CacheAddTransition self.old key payload.now result self.new }
        ensures sound { IsSound self.new }
    {
        if let Some(answer) = self.answered(&key, payload) {
            return answer;
        }
        match self.active.add(self.alloc, key, payload) {
            Ok(true) => Ok(CacheAdd::Taken),
            Ok(false) => Ok(CacheAdd::Held),
            Err(_) => Err(CacheFault::Memory),
        }
    }

    /// Adds a shared payload without a copy. Returns the same as `add`.
    ///
    /// # Errors
    ///
    /// Those of `add`, in the same order. `Memory` can occur for the key only.
    pub fn put(&mut self, key: Key, payload: Arc<Vec<u8>>) -> Result<CacheAdd, CacheFault>
        requires { read_added payload.value.items ≡ Ok key }
        ensures transition { CacheAddTransition self.old key payload.value.items result self.new }
        ensures sound { IsSound self.new }
    {
        if let Some(answer) = self.answered(&key, &payload) {
            return answer;
        }
        match self.active.put(key, payload) {
            Ok(true) => Ok(CacheAdd::Taken),
            Ok(false) => Ok(CacheAdd::Held),
            Err(_) => Err(CacheFault::Memory),
        }
    }

    // The result of an add without a change of the active cache: `Held` or `Full`. `None` if the
    // flush does not have the key and the payload fits.
    fn answered(&self, key: &Key, payload: &[u8]) -> Option<Result<CacheAdd, CacheFault>>
        ensures some { IfSome result (λ answer. CacheAddTransition self.now key.now payload.now answer self.now) }
        ensures absent { IfNone result (map.get (flush_of self.now) key.now ≡ None) }
        ensures fits { IfNone result (used_of self.now.active + length payload.now ≤ self.now.limit) }
    {
        if self.is_in_flush(key) {
            return Some(Ok(CacheAdd::Held));
        }
        let used = self.active.used();
        let limit = self.limit;
        if used + payload.len() as u64 > limit {
            return Some(match self.active.get(key) {
                Some(_) => Ok(CacheAdd::Held),
                None => Err(CacheFault::Full { used, limit }),
            });
        }
        None
    }

    // Whether the running flush has the key.
    fn is_in_flush(&self, key: &Key) -> bool
        ensures { result ≡ is_some (map.get (flush_of self.now) key.now) }
    {
        match &self.flush {
            Some(flush) => flush.get(key).is_some(),
            None => false,
        }
    }

    /// Makes the active cache the flushing one.
    ///
    /// Returns `Running` if a flush runs, even one without entries; else `Nothing` if the active
    /// cache is empty; else `Swapped` with its number of entries. Only `Swapped` changes the
    /// caches.
    pub fn swap(&mut self) -> Swap
        ensures transition { CacheSwapTransition self.old result self.new }
        ensures sound { IsSound self.new }
    {
        if self.flush.is_some() {
            return Swap::Running;
        }
        let count = self.active.len();
        if count == 0 {
            return Swap::Nothing;
        }
        let came_in = mem::replace(&mut self.active, Cache::new(self.alloc));
        self.flush = Some(came_in);
        Swap::Swapped(count)
    }

    /// Returns whether a flush runs.
    pub fn is_flushing(&self) -> bool
        ensures value { IsTrue result ↔ IsSome self.now.flush }
        ensures sound { IsSound self.now }
    {
        self.flush.is_some()
    }

    /// Returns the number of entries of the running flush, 0 if none runs.
    pub fn flush_len(&self) -> u64
        ensures value { result ≡ map.len (flush_of self.now) }
        ensures sound { IsSound self.now }
    {
        match &self.flush {
            Some(flush) => flush.len(),
            None => 0,
        }
    }

    /// Returns the number of payload bytes of the running flush, 0 if none runs.
    pub fn flush_used(&self) -> u64
        ensures value { result ≡ used_of (flush_of self.now) }
        ensures within { result ≤ self.now.limit }
        ensures sound { IsSound self.now }
    {
        match &self.flush {
            Some(flush) => flush.used(),
            None => 0,
        }
    }

    /// Returns an iterator over the entries of the running flush, by ledger, then entry; empty if
    /// none runs.
    pub fn flushing(&self) -> Flushing<'_>
        ensures items { result ≡ map.entries (flush_of self.now) }
        ensures keyed { AllKeyed (flush_of self.now) }
        ensures sound { IsSound self.now }
    {
        match &self.flush {
            Some(flush) => flush.walk(),
            None => Flushing::empty(),
        }
    }

    /// Returns the first entry of the running flush after a key, or the first of all if there is no
    /// key.
    pub fn flushing_after(&self, key: Option<Key>) -> Option<(Key, &Arc<Vec<u8>>)>
        ensures value { option_map (λ e. (e.0, e.1.now.value.items)) result ≡ first_after key (flush_of self.now) }
        ensures keyed { IfSome result (λ e. read_added e.1.now.value.items ≡ Ok e.0) }
        ensures sound { IsSound self.now }
    {
        match &self.flush {
            Some(flush) => flush.first_after(key),
            None => None,
        }
    }

    /// Same as `flushing_after`, but looks beside the entry that the last call with this hint
    /// returned, and sets the hint to the entry that it returns. The hint never changes the result.
    pub fn flushing_after_near(
        &self,
        key: Option<Key>,
        near: &mut CacheNear,
    ) -> Option<(Key, &Arc<Vec<u8>>)>
        ensures value { option_map (λ e. (e.0, e.1.now.value.items)) result ≡ first_after key (flush_of self.now) }
        ensures keyed { IfSome result (λ e. read_added e.1.now.value.items ≡ Ok e.0) }
        ensures sound { IsSound self.now }
    {
        match &self.flush {
            Some(flush) => flush.first_after_near(key, near),
            None => None,
        }
    }

    /// Ends the flush, if one runs, and drops its entries.
    pub fn done(&mut self)
        ensures value { self.new ≡ record self.old { flush = None } }
        ensures sound { IsSound self.new }
    {
        self.flush = None;
    }

    /// Adds a flushed entry to the recent entries, as the newest. Over the number allowed, the one
    /// remembered first is dropped.
    ///
    /// Nothing changes if no recent entry is allowed, or if an allocation fails for a new key.
    pub fn remember(&mut self, key: Key, payload: Arc<Vec<u8>>)
        ensures recent { (self.new ≡ self.old) ⊎ (self.new ≡ record self.old { recent = recents_with self.old.recent key payload.value.items }) }
        ensures replaced { IsSome (recent_of self.old.recent key) → self.new ≡ record self.old { recent = recents_with self.old.recent key payload.value.items } }
        ensures only { (q : EntryKey) → IfSome (recent_of self.new.recent q) (IsOldOrRemembered self.old.recent key payload.value.items q) }
        ensures sound { IsSound self.new }
    {
        self.recent.remember(&key, payload);
    }

    /// Returns the number of recent entries.
    pub fn recent_len(&self) -> u64
        ensures value { result ≡ length self.now.recent.entries }
        ensures within { result ≤ self.now.recent.most }
        ensures sound { IsSound self.now }
    {
        self.recent.len() as u64
    }

    /// Removes the entries of a ledger from the write caches and the recent entries.
    ///
    /// Returns the number of its keys in the write caches, at most 134,217,728, since a payload has
    /// at least 16 bytes. A running flush continues, even without entries.
    pub fn drop_ledger(&mut self, ledger: u64) -> u64
        ensures left { self.new ≡ without self.old ledger }
        ensures count { result ≡ ledger_count self.old.active ledger + ledger_count (flush_of self.old) ledger }
        ensures bound { result ≤ 134217728 }
        ensures apart { AreApart self.old }
        ensures sound { IsSound self.new }
    {
        self.recent.drop_ledger(ledger);
        let active = self.active.drop_ledger(ledger);
        match &mut self.flush {
            Some(flush) => active + flush.drop_ledger(ledger),
            None => active,
        }
    }
}
