//! The recent entries: those flushed last, the newest first. A read does not change their order, so
//! over the number allowed the one remembered first is dropped.

ghost use Rattle.std.specs.Prelude.{◌≡◌, ◌⊎◌, ◌≤◌, ℕ, [], true, false, length, option_map, IsSome, IfOk, IfSome, IfNone};
ghost use Rattle.std.specs.BTreeSet.{contains};
ghost use Rattle.bk_cache.specs.Recents.{recent_of, recents_with, without_recent, pair_cmp};

use bk_record::Key;
use lru::LruCache;
use std::alloc::{AllocError, Global};
use std::collections::BTreeSet;
use std::marker::Model;
use std::num::NonZeroUsize;
use std::ops::Bound;
use std::sync::Arc;

/// A key, with a hash for the table of recent entries.
#[derive(Clone, Copy, Debug, PartialEq, Eq, Hash)]
struct HashedKey {
    ledger: u64,
    entry: u64,
}

impl Model for HashedKey {
    ghost use Rattle.bk_record.specs.Key.{EntryKey};

    ghost Value = { EntryKey };

    ghost view = { λ key. record { ledger = key.ledger; entry = key.entry } };

    ghost inverse = { λ value. record { ledger = value.ledger; entry = value.entry } };
}

impl HashedKey {
    fn of(key: &Key) -> HashedKey
        ensures { result ≡ key.now }
    {
        HashedKey {
            ledger: key.ledger(),
            entry: key.entry(),
        }
    }
}

/// Recent entries. `pairs` has ledger and entry of each in order, so that those of a ledger are
/// adjacent.
#[derive(Drop)]
struct Kept {
    entries: LruCache<HashedKey, Arc<Vec<u8>>>,
    pairs: BTreeSet<(u64, u64)>,
}

impl Model for Kept {
    ghost use Rattle.std.specs.Prelude.{map};
    ghost use Rattle.bk_cache.specs.Recents.{Recents, recents_code, AreListedRecents};

    ghost Value = { Recents };

    ghost coded = { recents_code };

    ghost view = { λ kept. record { entries = map (λ e. (e.0, e.1.value.items)) kept.entries.entries; most = kept.entries.cap } };

    ghost invariant = { λ kept. AreListedRecents kept.entries.entries kept.pairs };
}

impl Kept {
    fn len(&self) -> usize
        ensures value { result ≡ length self.now.entries }
        ensures within { result ≤ self.now.most }
    {
        self.entries.len()
    }

    fn get(&self, key: &Key) -> Option<&Arc<Vec<u8>>>
        ensures { option_map (λ payload. payload.now.value.items) result ≡ recent_of self.now key.now }
    {
        self.entries.peek(&HashedKey::of(key))
    }

    fn remember(&mut self, key: &Key, payload: Arc<Vec<u8>>)
        ensures recent { (self.new ≡ self.old) ⊎ (self.new ≡ recents_with self.old key.now payload.value.items) }
        ensures replaced { IsSome (recent_of self.old key.now) → self.new ≡ recents_with self.old key.now payload.value.items }
    {
        let pair = (key.ledger(), key.entry());
        let Ok(is_new) = self.pairs.insert(pair) else {
            return;
        };
        // Lemma: each key is in the table once.
        let _ = self.entries.len();
        match self.entries.push(HashedKey::of(key), payload) {
            Ok(Some((gone, _))) => unlist(&mut self.pairs, gone, pair),
            Ok(None) => {}
            Err(_) => {
                if is_new {
                    self.pairs.remove(&pair);
                }
            }
        }
    }

    fn drop_ledger(&mut self, ledger: u64)
        ensures { self.new ≡ without_recent self.old ledger }
    {
        while let Some(entry) = first_entry(&self.pairs, ledger) {
            self.pairs.remove(&(ledger, entry));
            // Lemma: each key is in the table once.
            let _ = self.entries.len();
            let _ = self.entries.pop(&HashedKey { ledger, entry });
        }
    }
}

// Removes the pair of a key that was dropped, unless it is the new one.
fn unlist(pairs: &mut BTreeSet<(u64, u64)>, gone: HashedKey, stays: (u64, u64))
    ensures stay { (pair : ℕ × ℕ) → (pair.0 ≡ gone.ledger → pair.1 ≡ gone.entry → pair ≡ stays)
        → contains pair_cmp pairs.old pair ≡ true → contains pair_cmp pairs.new pair ≡ true }
{
    let pair = (gone.ledger, gone.entry);
    if pair != stays {
        pairs.remove(&pair);
    }
}

// The first entry of the ledger among the pairs. Those of one ledger are adjacent.
fn first_entry(pairs: &BTreeSet<(u64, u64)>, ledger: u64) -> Option<u64>
    ensures some { IfSome result (λ entry. contains pair_cmp pairs.now (ledger, entry) ≡ true) }
    ensures none { IfNone result ((entry : ℕ) → contains pair_cmp pairs.now (ledger, entry) ≡ false) }
{
    let (first, entry) = pairs
        .range((Bound::Included((ledger, 0)), Bound::Unbounded))
        .next()?;
    if *first == ledger { Some(*entry) } else { None }
}

/// Recent entries up to a number. If it is 0, there is no table.
#[derive(Drop)]
pub(crate) struct Recent {
    kept: Option<Kept>,
}

impl Model for Recent {
    ghost use Rattle.std.specs.Option.{option_map_or};
    ghost use Rattle.bk_cache.specs.Recents.{Recents, recents_code, no_recents};

    ghost Value = { Recents };

    ghost coded = { recents_code };

    ghost view = { λ recent. option_map_or (λ kept. kept) recent.kept no_recents };
}

impl Recent {
    /// Returns a table for `most` entries, without any yet.
    pub(crate) fn new(alloc: Global, most: usize) -> Result<Recent, AllocError>
        ensures { IfOk result (λ recent. recent ≡ record { entries = []; most = most }) }
    {
        let Some(most) = NonZeroUsize::new(most) else {
            return Ok(Recent { kept: None });
        };
        let kept = Kept {
            entries: LruCache::new(alloc, most)?,
            pairs: BTreeSet::new(alloc),
        };
        Ok(Recent { kept: Some(kept) })
    }

    /// Returns the number of recent entries.
    pub(crate) fn len(&self) -> usize
        ensures value { result ≡ length self.now.entries }
        ensures within { result ≤ self.now.most }
    {
        match &self.kept {
            Some(kept) => kept.len(),
            None => 0,
        }
    }

    /// Returns the payload of a recent entry. Does not change the order.
    pub(crate) fn get(&self, key: &Key) -> Option<&Arc<Vec<u8>>>
        ensures { option_map (λ payload. payload.now.value.items) result ≡ recent_of self.now key.now }
    {
        self.kept.as_ref()?.get(key)
    }

    /// Adds an entry as the newest, unless an allocation fails for a new key or no entry is
    /// allowed. The payload of an existing key is always replaced.
    pub(crate) fn remember(&mut self, key: &Key, payload: Arc<Vec<u8>>)
        ensures recent { (self.new ≡ self.old) ⊎ (self.new ≡ recents_with self.old key.now payload.value.items) }
        ensures replaced { IsSome (recent_of self.old key.now) → self.new ≡ recents_with self.old key.now payload.value.items }
    {
        if let Some(kept) = &mut self.kept {
            kept.remember(key, payload);
        }
    }

    /// Removes the entries of a ledger. At most one other entry is visited.
    pub(crate) fn drop_ledger(&mut self, ledger: u64)
        ensures { self.new ≡ without_recent self.old ledger }
    {
        if let Some(kept) = &mut self.kept {
            kept.drop_ledger(ledger);
        }
    }
}
