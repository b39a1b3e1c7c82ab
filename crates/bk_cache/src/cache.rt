//! One write cache: shared payloads by key, their number, and the sum of their sizes in bytes.

ghost use Rattle.std.specs.Prelude.{◌≡◌, ◌+◌, ◌<◌, ◌^◌, Ok, length, option_map, IfSome, IfOk};
ghost use Rattle.std.specs.FinMap as map;
ghost use Rattle.bk_record.specs.Record.{read_added};
ghost use Rattle.bk_record.specs.Keyed.{without_ledger, ledger_count};
ghost use Rattle.bk_cache.specs.Caches.{used_of, AllKeyed, first_after};
ghost use Rattle.bk_cache.specs.Transitions.{CacheInsertTransition};

use crate::rows::Rows;
use crate::{CacheNear, Flushing};
use bk_record::{Key, LAST_ID};
use std::alloc::{AllocError, Global};
use std::marker::Model;
use std::sync::Arc;

mod in_order;

/// Payloads by key. Each is stored under its own key.
#[derive(Drop)]
pub(crate) struct Cache {
    rows: Rows,
    len: u64,
    used: u64,
}

impl Model for Cache {
    ghost use Rattle.std.specs.FinMap as entries;
    ghost use Rattle.bk_record.specs.Scan.{Payloads};
    ghost use Rattle.bk_cache.specs.Caches.{payloads_code};
    ghost use Rattle.bk_cache.specs.Invariant.{KeepsPairs};

    ghost Value = { Payloads };

    ghost coded = { payloads_code };

    ghost view = { λ cache. entries.from_sorted cache.rows };

    ghost invariant = { λ cache. KeepsPairs cache.rows cache.len cache.used };
}

impl Cache {
    /// Returns an empty cache. Does not allocate.
    pub(crate) fn new(alloc: Global) -> Cache
        ensures { result ≡ map.empty }
    {
        Cache {
            rows: Rows::new(alloc),
            len: 0,
            used: 0,
        }
    }

    /// Returns the number of entries.
    pub(crate) fn len(&self) -> u64
        ensures count { result ≡ map.len self.now }
        ensures bound { result < 2 ^ 63 }
    {
        // Lemma: each payload has at least 16 bytes.
        let _used = self.used;
        self.len
    }

    /// Returns the sum of the payloads' sizes in bytes.
    pub(crate) fn used(&self) -> u64
        ensures { result ≡ used_of self.now }
    {
        self.used
    }

    /// Returns the payload of a key.
    #[inline]
    pub(crate) fn get(&self, key: &Key) -> Option<&Arc<Vec<u8>>>
        ensures value { option_map (λ payload. payload.now.value.items) result ≡ map.get self.now key.now }
        ensures keyed { IfSome result (λ payload. read_added payload.now.value.items ≡ Ok key.now) }
    {
        self.rows.get(key)
    }

    /// Adds a copy of a payload under its own key. Returns whether it was added: `false` if the
    /// cache has the key. Fails only if an allocation fails for a new key. Unless the payload is
    /// added, the cache is unchanged.
    pub(crate) fn add(
        &mut self,
        alloc: Global,
        key: Key,
        payload: &[u8],
    ) -> Result<bool, AllocError>
        requires keyed { read_added payload.now ≡ Ok key }
        requires fits { used_of self.old + length payload.now < 2 ^ 64 }
        ensures transition { CacheInsertTransition self.old key payload.now result self.new }
    {
        match share(alloc, payload) {
            Ok(shared) => self.put(key, shared),
            // A key that the cache has does not fail.
            Err(fault) => match self.get(&key) {
                Some(_) => Ok(false),
                None => Err(fault),
            },
        }
    }

    /// Same as `add`, without a copy.
    pub(crate) fn put(&mut self, key: Key, payload: Arc<Vec<u8>>) -> Result<bool, AllocError>
        requires keyed { read_added payload.value.items ≡ Ok key }
        requires fits { used_of self.old + length payload.value.items < 2 ^ 64 }
        ensures transition { CacheInsertTransition self.old key payload.value.items result self.new }
    {
        let size = payload.len() as u64;
        if !self.rows.put(key, payload)? {
            return Ok(false);
        }
        self.len += 1;
        self.used += size;
        Ok(true)
    }

    /// Removes the entries of a ledger and returns their number.
    pub(crate) fn drop_ledger(&mut self, ledger: u64) -> u64
        ensures left { self.new ≡ without_ledger self.old ledger }
        ensures count { result ≡ ledger_count self.old ledger }
        ensures bound { result < 2 ^ 63 }
    {
        let rows = &mut self.rows;
        if ledger > LAST_ID {
            return 0;
        }
        let (count, bytes) = rows.drop_ledger(ledger);
        self.len -= count;
        self.used -= bytes;
        count
    }

    /// Returns an iterator over the entries in key order.
    pub(crate) fn walk(&self) -> Flushing<'_>
        ensures items { result ≡ map.entries self.now }
        ensures keyed { AllKeyed self.now }
    {
        self.rows.walk()
    }

    /// Returns the first entry after a key, or the first of all if there is no key.
    pub(crate) fn first_after(&self, key: Option<Key>) -> Option<(Key, &Arc<Vec<u8>>)>
        ensures value { option_map (λ e. (e.0, e.1.now.value.items)) result ≡ first_after key self.now }
        ensures keyed { IfSome result (λ e. read_added e.1.now.value.items ≡ Ok e.0) }
    {
        self.first_after_near(key, &mut CacheNear::start())
    }

    /// Same as `first_after`, but looks for the key at the place that `near` tells first, and then
    /// sets it to the place of the result.
    pub(crate) fn first_after_near(
        &self,
        key: Option<Key>,
        near: &mut CacheNear,
    ) -> Option<(Key, &Arc<Vec<u8>>)>
        ensures value { option_map (λ e. (e.0, e.1.now.value.items)) result ≡ first_after key self.now }
        ensures keyed { IfSome result (λ e. read_added e.1.now.value.items ≡ Ok e.0) }
    {
        match key {
            Some(key) => self.rows.first_after(&key, &mut near.place),
            None => {
                near.place = 0;
                self.rows.first()
            }
        }
    }
}

/// Returns a shared copy of a payload.
///
/// # Errors
///
/// - `AllocError` if an allocation fails.
pub fn share(alloc: Global, payload: &[u8]) -> Result<Arc<Vec<u8>>, AllocError>
    ensures { IfOk result (λ shared. shared.value.items ≡ payload.now) }
{
    Ok(Arc::new(alloc, payload.to_vec(alloc)?)?)
}
