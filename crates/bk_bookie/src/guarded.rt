//! The shared state: the store, and the counts of the passes.
//!
//! Each call of a bookie is one critical section, and each critical section is one call here.
//! Outside the lock no clause can name the state of the store. So the contracts here state what a
//! call does, and those of `Bookie` state what its pass then knows.

ghost use Rattle.std.specs.Prelude.{◌≡◌, ◌+◌, ◌≤◌, ◌<◌, [], IfOk, IfSome, IfNone, OnErr, sum_by, vec_len};
ghost use Rattle.bk_bookie.specs.Adds.{add_count};
ghost use Rattle.bk_bookie.specs.Guarded.{AreKeyed};
ghost use Rattle.bk_bookie.specs.Receipts.{AllStand, FinishFails};

use crate::pass::{AddLedger, Pass};
use crate::receipts::first_refused;
use crate::{FinishFault, Finished, NoPass};
use bk_disk::LogDisk;
use bk_store::{Receipt, Store};
use std::marker::Model;
use std::sync::ledger::{Blank, Book, Share};

/// A store, the book of the counts of its passes, and the parts of the ledger that no pass holds.
/// `most` passes may be created, `made` have been.
#[derive(Drop)]
pub(crate) struct Guarded<L: AddLedger, D: LogDisk> {
    pub(crate) store: Store<D>,
    pub(crate) book: Book<L>,
    rest: Share<L>,
    most: u32,
    made: u32,
}

impl<L: AddLedger, D: LogDisk> Model for Guarded<L, D> {
    ghost use Rattle.bk_bookie.specs.Guarded.{GuardedState, desk_code, GuardedInvariant};

    ghost Value = { GuardedState };

    ghost coded = { desk_code };

    ghost view = { λ d. record { store = d.store; most = d.most; made = d.made } };

    ghost invariant = { λ d. GuardedInvariant (record { store = d.store; most = d.most; made = d.made }) L.honest L.parts
        d.book.total d.rest.parts d.rest.amount };
}

impl<L: AddLedger, D: LogDisk> Guarded<L, D> {
    /// Returns the shared state of a store that was just opened.
    pub fn new(store: Store<D>, blank: Blank, most: u32) -> Guarded<L, D>
        requires name { blank.name ≡ L.name }
        requires parts { blank.parts ≡ L.parts }
        requires each { blank.parts ≡ most + 1 }
        requires honest { store.honest ≡ L.honest }
        requires unmarked { store.ledgers.trail ≡ [] }
        requires keyed { AreKeyed store.caches }
        ensures { result ≡ record { store = store; most = most; made = 0 } }
    {
        let (book, rest) = blank.open::<L>();
        Guarded {
            store,
            book,
            rest,
            most,
            made: 0,
        }
    }

    /// Creates a pass, unless all have been created.
    pub fn pass(&mut self) -> Result<Pass<L>, NoPass>
        ensures ok { IfOk result (λ p. (p ≡ record { adds = 0; seen = 0 }) × (self.old.made < self.old.most)
            × (self.new ≡ record self.old { made = self.old.made + 1 })) }
        ensures err { OnErr result ((self.old.made ≡ self.old.most) × (self.new ≡ self.old)) }
    {
        if self.made == self.most {
            return Err(NoPass);
        }
        let share = self.rest.split_off(1, 0);
        self.made += 1;
        Ok(Pass {
            share,
            adds: 0,
            seen: 0,
        })
    }

    /// Returns why `finish` is refused, given the number of passes and the receipts, or `None`.
    pub fn refusal(&self, handed: usize, receipts: &[Receipt]) -> Option<FinishFault>
        ensures none { IfNone result ((self.now.made ≤ handed) × AllStand self.now.store.ledgers.trail receipts.now) }
        ensures some { IfSome result (λ fault. FinishFails self.now.made self.now.store.ledgers.trail handed receipts.now fault) }
    {
        if handed < self.made as usize {
            return Some(FinishFault::PassesOut(self.made - handed as u32));
        }
        first_refused(self.store.trail(), receipts)
    }

    /// Ends the shared state. Returns its store and the number of adds that all passes count.
    pub fn close(self, passes: Vec<Pass<L>>) -> Finished<D>
        requires { self.made ≤ vec_len passes }
        ensures store { result.store ≡ self.store }
        ensures sum { result.adds ≡ sum_by (λ p. p.adds) passes.items }
        ensures count { result.adds ≡ add_count self.store.ledgers.trail }
    {
        let Guarded {
            store,
            mut book,
            mut rest,
            most: _,
            made: _,
        } = self;
        // Lemma: the length of the trail bounds every count.
        let _front = store.front();
        let mut adds = 0;
        for pass in passes {
            let Pass {
                share,
                adds: more,
                seen: _,
            } = pass;
            rest.merge(share);
            book.audit(&mut rest);
            adds += more;
        }
        book.audit(&mut rest);
        Finished { store, adds }
    }
}
