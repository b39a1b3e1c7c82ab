//! A bookie: one store that many threads share, behind one mutex.

ghost use Rattle.std.specs.Prelude.{◌≡◌, ◌↔◌, ◌+◌, ◌≤◌, IfOk, IfErr, IsTrue};
ghost use Rattle.bk_store.specs.Limits.{IsAllowed};
ghost use Rattle.bk_store.specs.Opening.{OpenFails};
ghost use Rattle.bk_store.specs.declared.adding.AddKind.TheVariants.{Ordinary, Recovery};
ghost use Rattle.bk_bookie.specs.Adds.{AnswersAdd, accepted_count};
ghost use Rattle.bk_bookie.specs.Calls.{GivesEntry, GivesBack, ReadBackObserves};
ghost use Rattle.bk_bookie.specs.Passes.{SeenIsMonotone};
ghost use Rattle.bk_bookie.specs.Receipts.{GivesReceipt};
ghost use Rattle.bk_bookie.specs.Works.{IsAnswerOf};

use crate::add_request::AddRequest;
use crate::guarded::Guarded;
use crate::hold::hold;
use crate::pass::{AddLedger, Pass};
use crate::{CallFault, NoPass, ReadBackFault};
use bk_disk::LogDisk;
use bk_drive::{Answer, Work};
use bk_record::Key;
use bk_store::{
    AddFault, AddKind, Added, DeleteFault, Fence, FenceFault, OpenFault, Receipt, Settings, Store,
    TakeFault, Taken,
};
use std::alloc::Global;
use std::sync::ledger::Blank;
use std::sync::{Mutex, Wait};

/// Thread-safe bookie over one `Store`.
///
/// Each call by a pass, and each step, is one critical section. A lease that `take` returns is read
/// and released without the lock.
#[derive(Drop)]
pub struct Bookie<L: AddLedger, D: LogDisk> {
    pub(crate) guarded: Mutex<Guarded<L, D>>,
    pub(crate) alloc: Global,
}

/// Why a bookie was not opened, and its blank ledger, which is unused.
#[derive(Drop)]
pub struct OpenRefused {
    pub fault: OpenFault,
    pub blank: Blank,
}

impl<L: AddLedger, D: LogDisk> Bookie<L, D> {
    /// Opens a bookie on the logs of a disk.
    ///
    /// `passes` passes can be created. `blank` is a ledger of std with one part per pass and one
    /// more. `dead` lists the ledgers deleted earlier.
    ///
    /// # Errors
    ///
    /// Those of `Store::open`, in its order. The blank ledger is returned; the disk is dropped.
    pub fn open(
        alloc: Global,
        blank: Blank,
        passes: u32,
        disk: D,
        settings: Settings,
        dead: &[u64],
    ) -> Result<Bookie<L, D>, OpenRefused>
        requires name { blank.name ≡ L.name }
        requires parts { blank.parts ≡ L.parts }
        requires each { blank.parts ≡ passes + 1 }
        requires honest { D.honest disk ≡ L.honest }
        ensures settings { IfErr result (λ refused. (refused.fault ≡ OpenFault.Settings) ↔ ¬ (IsAllowed settings)) }
        ensures allowed { IfOk result (λ _. IsAllowed settings) }
        ensures fails { IfErr result (λ refused. IsTrue (D.honest disk) → OpenFails (D.files disk) settings refused.fault) }
        ensures blank { IfErr result (λ refused. refused.blank ≡ blank) }
    {
        match Store::open(alloc, disk, settings, dead) {
            Ok(store) => Ok(Bookie {
                guarded: Mutex::new(Guarded::new(store, blank, passes)),
                alloc,
            }),
            Err(fault) => Err(OpenRefused { fault, blank }),
        }
    }

    /// Creates a pass.
    ///
    /// # Errors
    ///
    /// - `NoPass` if all passes of this bookie have been created.
    pub fn pass(&self, rt: &impl Wait) -> Result<Pass<L>, NoPass>
        ensures { IfOk result (λ p. p ≡ record { adds = 0; seen = 0 }) }
    {
        hold(rt, &self.guarded).pass()
    }

    /// Adds an entry as `Store::add` does.
    ///
    /// Checks and copies the payload and computes its SHA-256 before it takes the lock. If the
    /// entry is accepted, the pass counts one add more. The receipt has the number of the entry's
    /// mark in the trail, its key, and the SHA-256 of its payload.
    ///
    /// # Errors
    ///
    /// In this order; the store is unchanged:
    ///
    /// - `Backwards`: the trail is shorter than the pass has observed.
    /// - `Of`: a fault of `Store::add`.
    pub fn add(
        &self,
        rt: &impl Wait,
        pass: &mut Pass<L>,
        payload: &[u8],
    ) -> Result<Added, CallFault<AddFault>>
        ensures seen { SeenIsMonotone pass.old result pass.new }
        ensures count { pass.new.adds ≡ pass.old.adds + accepted_count result }
        ensures answers { AnswersAdd Ordinary payload.now result }
        ensures receipt { GivesReceipt pass.old pass.new payload.now result }
    {
        let offered = AddRequest::new(self.alloc, payload);
        hold(rt, &self.guarded).add(AddKind::Ordinary, pass, offered)
    }

    /// Adds an entry as `Store::add_recovery` does: a fence does not refuse it.
    ///
    /// # Errors
    ///
    /// As `add`, but never `Fenced`.
    pub fn add_recovery(
        &self,
        rt: &impl Wait,
        pass: &mut Pass<L>,
        payload: &[u8],
    ) -> Result<Added, CallFault<AddFault>>
        ensures seen { SeenIsMonotone pass.old result pass.new }
        ensures count { pass.new.adds ≡ pass.old.adds + accepted_count result }
        ensures answers { AnswersAdd Recovery payload.now result }
        ensures receipt { GivesReceipt pass.old pass.new payload.now result }
    {
        let offered = AddRequest::new(self.alloc, payload);
        hold(rt, &self.guarded).add(AddKind::Recovery, pass, offered)
    }

    /// Returns the entry of a key as `Store::take` does: a cached payload or a lease.
    ///
    /// # Errors
    ///
    /// - `Backwards`: the trail is shorter than the pass has observed.
    /// - `Of`: a fault of `Store::take`.
    pub fn take(
        &self,
        rt: &impl Wait,
        pass: &mut Pass<L>,
        key: Key,
    ) -> Result<Taken<D::View>, CallFault<TakeFault>>
        ensures seen { SeenIsMonotone pass.old result pass.new }
        ensures count { pass.new.adds ≡ pass.old.adds }
        ensures gives { IsTrue L.honest → GivesEntry D.View.bytes D.View.honest key result }
    {
        hold(rt, &self.guarded).take(pass, key)
    }

    /// Returns the entry of a receipt, if the trail has the receipt's mark at its number.
    ///
    /// # Errors
    ///
    /// In this order; nothing changes except what the pass has observed:
    ///
    /// - `Backwards`: the trail is shorter than the pass has observed.
    /// - `Missing`: the trail ends before the receipt's number. Has the length of the trail.
    /// - `Differs`: the trail has another mark there. Has that mark.
    /// - `Of`: a fault of `Store::take`.
    pub fn read_back(
        &self,
        rt: &impl Wait,
        pass: &mut Pass<L>,
        receipt: &Receipt,
    ) -> Result<Taken<D::View>, ReadBackFault>
        ensures seen { ReadBackObserves pass.old receipt.now result pass.new }
        ensures count { pass.new.adds ≡ pass.old.adds }
        ensures gives { IsTrue L.honest → GivesBack D.View.bytes D.View.honest receipt.now result }
    {
        hold(rt, &self.guarded).read_back(pass, receipt)
    }

    /// Deletes a ledger as `Store::delete` does.
    ///
    /// # Errors
    ///
    /// - `Backwards`: the trail is shorter than the pass has observed.
    /// - `Of`: a fault of `Store::delete`.
    pub fn delete(
        &self,
        rt: &impl Wait,
        pass: &mut Pass<L>,
        ledger: u64,
    ) -> Result<u64, CallFault<DeleteFault>>
        ensures seen { SeenIsMonotone pass.old result pass.new }
        ensures count { pass.new.adds ≡ pass.old.adds }
    {
        hold(rt, &self.guarded).delete(pass, ledger)
    }

    /// Fences a ledger as `Store::fence` does.
    ///
    /// # Errors
    ///
    /// - `Backwards`: the trail is shorter than the pass has observed.
    /// - `Of`: a fault of `Store::fence`.
    pub fn fence(
        &self,
        rt: &impl Wait,
        pass: &mut Pass<L>,
        ledger: u64,
    ) -> Result<Fence, CallFault<FenceFault>>
        ensures seen { SeenIsMonotone pass.old result pass.new }
        ensures count { pass.new.adds ≡ pass.old.adds }
    {
        hold(rt, &self.guarded).fence(pass, ledger)
    }

    /// Performs one step of the store alone, as `bk_drive::apply` does.
    pub fn step(&self, rt: &impl Wait, work: Work) -> Answer
        ensures { IsAnswerOf work result }
    {
        hold(rt, &self.guarded).step(work)
    }
}
