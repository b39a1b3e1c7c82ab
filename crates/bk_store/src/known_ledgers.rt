//! Deleted and fenced ledgers, and the trail.
//!
//! A change and its mark are made together. Room for the mark comes first, so that no change lacks
//! its mark.

ghost use Rattle.std.specs.Prelude.{◌≡◌, ◌<◌, ℕ, List, length, OnOk, OnErr};
ghost use Rattle.std.specs.FinSet as set;
ghost use Rattle.sha2.specs.Sha256.{sha256};

use crate::ledger_set::LedgerSet;
use crate::trail::Trail;
use crate::{AddKind, Mark, Receipt};
use bk_record::Key;
use std::alloc::{AllocError, Global};
use std::marker::Model;

/// Deleted ledgers, fenced ledgers, and the trail of what was accepted since the opening.
#[derive(Drop)]
pub(crate) struct KnownLedgers {
    dead: LedgerSet,
    fenced: LedgerSet,
    trail: Trail,
}

impl Model for KnownLedgers {
    ghost use Rattle.bk_store.specs.Ledgers.{HeldLedgers, held_ledgers_code};

    ghost Value = { HeldLedgers };

    ghost coded = { held_ledgers_code };

    ghost view = { λ l. record {
      known = record { dead = l.dead; fenced = l.fenced; trail = l.trail.marks };
      room = l.trail.room;
    } };
}

impl KnownLedgers {
    ghost use Rattle.bk_store.specs.Ledgers.{opened_ledgers, is_barred, receipt_of, with_add, with_deletion, with_fence};

    /// Returns the state after opening with these deleted ledgers: nothing is fenced, and the trail
    /// is empty.
    pub fn opened(alloc: Global, dead: LedgerSet) -> KnownLedgers
        ensures { result.known ≡ opened_ledgers dead }
    {
        KnownLedgers {
            dead,
            fenced: LedgerSet::new(alloc),
            trail: Trail::new(alloc),
        }
    }

    /// Returns the deleted ledgers.
    pub fn dead(&self) -> &LedgerSet
        ensures { result.now ≡ self.now.known.dead }
    {
        &self.dead
    }

    /// Returns whether a ledger is deleted.
    pub fn is_dead(&self, ledger: u64) -> bool
        ensures { result ≡ set.contains self.now.known.dead ledger }
    {
        self.dead.contains(ledger)
    }

    /// Returns whether a ledger is fenced.
    pub fn is_fenced(&self, ledger: u64) -> bool
        ensures { result ≡ set.contains self.now.known.fenced ledger }
    {
        self.fenced.contains(ledger)
    }

    /// Returns whether a fence bars adds of this kind to a ledger.
    pub fn bars(&self, kind: AddKind, ledger: u64) -> bool
        ensures { result ≡ is_barred kind self.now.known.fenced ledger }
    {
        match kind {
            AddKind::Ordinary => self.fenced.contains(ledger),
            AddKind::Recovery => false,
        }
    }

    /// Returns the marks, in order.
    pub fn trail(&self) -> &[Mark]
        ensures { result.now ≡ self.now.known.trail }
    {
        self.trail.marks()
    }

    /// Returns the number of marks.
    pub fn front(&self) -> u64
        ensures { result ≡ length self.now.known.trail }
    {
        self.trail.len()
    }

    /// Makes room for one more mark. Fails only if out of memory, and changes no mark.
    pub fn ready(&mut self) -> Result<(), AllocError>
        ensures same { self.new.known ≡ self.old.known }
        ensures ok { OnOk result (0 < self.new.room) }
    {
        self.trail.ready()
    }

    /// Appends the mark of an entry whose payload has this SHA-256, and returns its receipt. There
    /// must be room for the mark.
    pub fn accept(&mut self, key: Key, digest: [u8; 32]) -> Receipt
        requires { 0 < self.old.room }
        ensures receipt { (payload : List ℕ) → digest ≡ sha256 payload → result ≡ receipt_of self.old.known.trail key payload }
        ensures known { (payload : List ℕ) → digest ≡ sha256 payload → self.new.known ≡ with_add self.old.known key payload }
    {
        let number = self.trail.len();
        self.trail.push(Mark::Add { key, digest });
        Receipt {
            number,
            key,
            digest,
        }
    }

    /// Deletes a ledger and clears its fence. Fails only if out of memory, which changes nothing.
    pub fn delete(&mut self, ledger: u64) -> Result<(), AllocError>
        ensures ok { OnOk result (self.new.known ≡ with_deletion self.old.known ledger) }
        ensures err { OnErr result (self.new.known ≡ self.old.known) }
    {
        self.trail.ready()?;
        self.dead.insert(ledger)?;
        self.fenced.remove(ledger);
        self.trail.push(Mark::Delete { ledger });
        Ok(())
    }

    /// Fences a ledger. Fails only if out of memory, which changes nothing.
    pub fn fence(&mut self, ledger: u64) -> Result<(), AllocError>
        ensures ok { OnOk result (self.new.known ≡ with_fence self.old.known ledger) }
        ensures err { OnErr result (self.new.known ≡ self.old.known) }
    {
        self.trail.ready()?;
        self.fenced.insert(ledger)?;
        self.trail.push(Mark::Fence { ledger });
        Ok(())
    }
}
