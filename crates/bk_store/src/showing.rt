//! Publishing a log: syncs it, then takes a view of its whole file.

ghost use Rattle.std.specs.Prelude.{◌≡◌, IsTrue, OnOk};
ghost use Rattle.bk_record.specs.Files.{file_of};
ghost use Rattle.bk_disk.specs.Disk.{FailsExactlyOnDiskFault, Views};
ghost use Rattle.bk_disk.specs.Durable.{IsDurable, DurableGrows};
ghost use Rattle.bk_log.specs.Faults.{log_fault_of};
ghost use Rattle.bk_store.specs.Invariant.{StoreInvariant};
ghost use Rattle.bk_store.specs.Primitives.{CanPublishLog, PublishLogTransition};
ghost use Rattle.bk_store.specs.Internals.{DurableNeverShrinks, with_durable_of};

use crate::fields::Fields;
use bk_disk::{DiskFault, LogDisk};
use bk_log::LogFault;
use std::alloc::Global;
use std::sync::Arc;

impl<D: LogDisk> Fields<D> {
    /// Syncs a log, and sets its last view to one of its whole file.
    #[tactic(auto, using(bk_disk::proofs::DurableGrows::kept_rules))]
    pub fn publish_log(&mut self, log: u32) -> Result<(), LogFault>
        requires keeps { StoreInvariant self.old }
        requires may { CanPublishLog self.old.state log }
        ensures transition { PublishLogTransition self.old.state log result self.new.state }
        ensures internals { self.new ≡ record (with_durable_of self.old self.new) { state = self.new.state } }
        ensures durable { DurableNeverShrinks self.old self.new }
        ensures synced { IsTrue self.old.state.honest → OnOk result (IsDurable self.new.synced log (file_of self.old.state.files log)) }
    {
        match view_log(&mut self.disk, self.alloc, log) {
            Ok(view) => {
                self.logs.show(log, view);
                Ok(())
            }
            Err(fault) => Err(log_fault(fault)),
        }
    }
}

/// Syncs a log and returns a view of it.
#[tactic(auto, using(bk_disk::proofs::DurableGrows::kept_rules))]
fn view_log<D: LogDisk>(disk: &mut D, alloc: Global, log: u32) -> Result<Arc<D::View>, DiskFault>
    ensures honest { D.honest disk.new ≡ D.honest disk.old }
    ensures durable { IsTrue (D.honest disk.old) → DurableGrows (D.synced disk.old) (D.gone disk.old) (D.synced disk.new) (D.gone disk.new) }
    ensures synced { IsTrue (D.honest disk.old) → OnOk result (IsDurable (D.synced disk.new) log (file_of (D.files disk.old) log)) }
    ensures cause { FailsExactlyOnDiskFault (D.failures disk.old) (D.failures disk.new) result }
    ensures transition { IsTrue (D.honest disk.old) → Views (λ view. D.View.bytes view.value)
        (λ view. D.View.honest view.value) (D.files disk.old) log result (D.files disk.new) }
{
    disk.sync(alloc, log)?;
    let view = disk.view(alloc, log)?;
    match Arc::new(alloc, view) {
        Ok(view) => Ok(view),
        Err(_) => Err(DiskFault::Memory),
    }
}

/// Returns the fault of a log for a fault of the disk.
pub(crate) fn log_fault(fault: DiskFault) -> LogFault
    ensures { result ≡ log_fault_of fault }
{
    match fault {
        DiskFault::Disk => LogFault::Disk,
        DiskFault::Memory => LogFault::Memory,
        DiskFault::Exists | DiskFault::NoLog | DiskFault::PastEnd | DiskFault::TooLong => {
            LogFault::Odd
        }
    }
}
