//! Adding an entry. Both ways, with a payload and with a prepared entry, end in `accept`.

ghost use Rattle.std.specs.Prelude.{◌≡◌, ℕ, List, false, None, Ok, IfSome, IfNone};
ghost use Rattle.std.specs.FinMap as map;
ghost use Rattle.bk_record.specs.Record.{read_added};
ghost use Rattle.sha2.specs.Sha256.{sha256};
ghost use Rattle.bk_store.specs.Transitions.{AddTransition, is_dead};
ghost use Rattle.bk_store.specs.Ledgers.{is_barred};

use crate::fields::Fields;
use crate::{AddFault, Added, Prepared};
use bk_cache::{CacheAdd, CacheFault, share};
use bk_disk::LogDisk;
use bk_record::{Key, check_add};
use sha2::{Digest, Sha256};
use std::sync::Arc;

/// Who adds an entry. Only a recovery may add to a fenced ledger.
#[derive(Clone, Copy, Debug, PartialEq, Eq)]
pub enum AddKind {
    /// The writer of the ledger.
    Ordinary,
    /// A recovery of the ledger, which continues after the fence.
    Recovery,
}

impl<D: LogDisk> Fields<D> {
    pub fn add(&mut self, kind: AddKind, payload: &[u8]) -> Result<Added, AddFault>
        ensures transition { AddTransition self.old.state kind payload.now result self.new.state }
        ensures internals { self.new ≡ record self.old { state = self.new.state } }
    {
        let key = check_add(payload)?;
        if let Some(answer) = self.answered(kind, &key) {
            return answer;
        }
        let Ok(copy) = share(self.alloc, payload) else {
            return self.refuse(kind, &key, payload);
        };
        self.accept(kind, key, copy, &Sha256::digest(payload))
    }

    pub fn add_prepared(&mut self, kind: AddKind, entry: Prepared) -> Result<Added, AddFault>
        ensures transition { AddTransition self.old.state kind entry result self.new.state }
        ensures internals { self.new ≡ record self.old { state = self.new.state } }
    {
        let Prepared {
            key,
            payload,
            digest,
        } = entry;
        if let Some(answer) = self.answered(kind, &key) {
            return answer;
        }
        self.accept(kind, key, payload, &digest)
    }

    /// Adds an entry of a live ledger that no fence bars, and whose key the index does not have.
    ///
    /// Takes its parts, since an entry that is moved as a whole is copied each time.
    fn accept(
        &mut self,
        kind: AddKind,
        key: Key,
        payload: Arc<Vec<u8>>,
        digest: &[u8; 32],
    ) -> Result<Added, AddFault>
        requires reads { read_added payload.value.items ≡ Ok key }
        requires digested { digest.now ≡ sha256 payload.value.items }
        requires lives { is_dead self.old.state key.ledger ≡ false }
        requires unbarred { is_barred kind self.old.state.ledgers.fenced key.ledger ≡ false }
        requires unnamed { map.get self.old.state.index key ≡ None }
        ensures transition { AddTransition self.old.state kind payload.value.items result self.new.state }
        ensures internals { self.new ≡ record self.old { state = self.new.state } }
    {
        // The mark needs room first, so that every accepted entry has its mark.
        if self.ledgers.ready().is_err() {
            return self.refuse(kind, &key, &payload);
        }
        match self.caches.put(key, payload) {
            Ok(CacheAdd::Taken) => Ok(Added::Accepted(self.ledgers.accept(key, *digest))),
            Ok(CacheAdd::Held) => Ok(Added::Held),
            Err(CacheFault::Full { used, limit }) => Err(AddFault::Full { used, limit }),
            Err(CacheFault::Memory) => Err(AddFault::Memory),
        }
    }

    // Returns the result of an add if the key alone decides it: its ledger is deleted or fenced, or
    // the index has the key.
    fn answered(&self, kind: AddKind, key: &Key) -> Option<Result<Added, AddFault>>
        ensures some { IfSome result (λ answer. (payload : List ℕ) → read_added payload ≡ Ok key.now
            → AddTransition self.now.state kind payload answer self.now.state) }
        ensures lives { IfNone result (is_dead self.now.state key.now.ledger ≡ false) }
        ensures unbarred { IfNone result (is_barred kind self.now.state.ledgers.fenced key.now.ledger ≡ false) }
        ensures unnamed { IfNone result (map.get self.now.state.index key.now ≡ None) }
    {
        if self.ledgers.is_dead(key.ledger()) {
            return Some(Err(AddFault::Deleted));
        }
        if self.ledgers.bars(kind, key.ledger()) {
            return Some(Err(AddFault::Fenced));
        }
        if self.index.get(key).is_some() {
            return Some(Ok(Added::Held));
        }
        None
    }

    // Returns the result of an add that is out of memory, if the index does not have the key:
    // `Held` and `Full` precede `Memory`.
    fn refuse(&self, kind: AddKind, key: &Key, payload: &[u8]) -> Result<Added, AddFault>
        requires reads { read_added payload.now ≡ Ok key.now }
        requires lives { is_dead self.now.state key.now.ledger ≡ false }
        requires unbarred { is_barred kind self.now.state.ledgers.fenced key.now.ledger ≡ false }
        requires unnamed { map.get self.now.state.index key.now ≡ None }
        ensures { AddTransition self.now.state kind payload.now result self.now.state }
    {
        if self.caches.holds(key) {
            return Ok(Added::Held);
        }
        let used = self.caches.used();
        let limit = self.caches.limit();
        if used + payload.len() as u64 > limit {
            return Err(AddFault::Full { used, limit });
        }
        Err(AddFault::Memory)
    }
}
