//! Deletions and fences in a manifest, each before its step.

ghost use Rattle.std.specs.Prelude.{◌≡◌, IsTrue, IfOk, is_ok};
ghost use Rattle.bk_manifest.specs.Keeping.{durable};
ghost use Rattle.bk_recorded.specs.Opening.{AreOf};
ghost use Rattle.bk_recorded.specs.Recording.{RecordsOne};
ghost use Rattle.bk_manifest.specs.Fact.{deleted_ledger, fenced_ledger};
ghost use Rattle.bk_manifest.specs.State.{the_deletion, the_fence};

use bk_drive::{Recorder, Step};
use bk_ledgers::{Listed, ledgers_of, record_deletion, record_fence};
use bk_manifest::{Manifest, ManifestError, ManifestFile};
use bk_record::LAST_ID;
use std::alloc::{AllocError, Global};

/// Records deletions and fences in the manifest of the ledgers, each before its step.
#[derive(Drop)]
pub struct LedgerRecorder<F: ManifestFile> {
    pub manifest: Manifest<F>,
    /// Why the last step was refused, if it was.
    pub refused: Option<ManifestError>,
    alloc: Global,
}

impl<F: ManifestFile> LedgerRecorder<F> {
    /// Returns a recorder that writes this manifest.
    pub fn new(alloc: Global, manifest: Manifest<F>) -> LedgerRecorder<F>
        ensures { result.manifest ≡ manifest }
    {
        LedgerRecorder {
            manifest,
            refused: None,
            alloc,
        }
    }

    /// Returns the ledgers that are recorded as deleted, and as fenced. Fails if an allocation is
    /// refused.
    pub fn ledgers(&self) -> Result<Listed, AllocError>
        ensures { IsTrue self.now.manifest.honest → IfOk result (λ listed. AreOf (durable self.now.manifest) listed.deleted.items listed.fenced.items) }
    {
        let records = self.manifest.state().records(self.alloc)?;
        ledgers_of(self.alloc, &records)
    }

    /// Notes why a record was refused, if it was. Returns whether it is durable.
    fn is_done(&mut self, recorded: Result<(), ManifestError>) -> bool
        ensures done { result ≡ is_ok recorded }
        ensures same { self.new.manifest ≡ self.old.manifest }
    {
        match recorded {
            Ok(()) => true,
            Err(error) => {
                self.refused = Some(error);
                false
            }
        }
    }

    /// Records the deletion of a ledger, unless it is recorded.
    fn delete(&mut self, ledger: u64) -> bool
        ensures { RecordsOne (deleted_ledger ledger) (the_deletion ledger) ledger self.old.manifest result self.new.manifest }
    {
        if ledger > LAST_ID {
            return true;
        }
        let recorded = record_deletion(self.alloc, &mut self.manifest, ledger);
        self.is_done(recorded)
    }

    /// Records the fence of a ledger, unless it is recorded.
    fn fence(&mut self, ledger: u64) -> bool
        ensures { RecordsOne (fenced_ledger ledger) (the_fence ledger) ledger self.old.manifest result self.new.manifest }
    {
        if ledger > LAST_ID {
            return true;
        }
        let recorded = record_fence(self.alloc, &mut self.manifest, ledger);
        self.is_done(recorded)
    }
}

impl<F: ManifestFile> Recorder for LedgerRecorder<F> {
    ghost use Rattle.bk_recorded.specs.Recording.{RecordsStep};

    ghost record_gives = { λ before step allowed after. RecordsStep before.manifest step allowed after.manifest };

    /// Records a deletion or a fence of a ledger that can have an entry, unless it is recorded. Returns
    /// false if that fails.
    fn record(&mut self, step: &Step) -> bool {
        self.refused = None;
        match step {
            Step::Delete(ledger) => self.delete(*ledger),
            Step::Fence(ledger) => self.fence(*ledger),
            Step::Work(_)
            | Step::Add(_)
            | Step::AddRecovery(_)
            | Step::Take(_, _)
            | Step::Fetch(_)
            | Step::Release(_)
            | Step::Read(_)
            | Step::Stats => true,
        }
    }
}
