//! Effect of a fault on the running flush. An I/O error of a write restarts it; one of a publish
//! does so only if the disk has lost a log of it. Any other fault leaves it unchanged.

ghost use Rattle.std.specs.Prelude.{◌≡◌};
ghost use Rattle.bk_store.specs.Faults.{step_fault_of, step_fault_of_make};
ghost use Rattle.bk_flush.specs.Flushing.{RestartsOnDeviceFault, RestartsIfLost, StaysUnlessLost};
ghost use Rattle.bk_store.specs.Contents.{PreservesContents};

use bk_disk::LogDisk;
use bk_log::LogFault;
use bk_store::{MakeFault, StepFault, Store};

/// Handles a fault of a write or a seal, and returns it as a fault of the step.
pub(crate) fn flush_fault<D: LogDisk>(store: &mut Store<D>, fault: LogFault) -> StepFault
    ensures value { result ≡ step_fault_of fault }
    ensures left { RestartsOnDeviceFault result store.old store.new }
    ensures frame { PreservesContents store.old store.new }
{
    match fault {
        LogFault::Memory => {}
        LogFault::Disk | LogFault::Failed | LogFault::Odd => store.restart_flush(),
    }
    StepFault::from(fault)
}

/// Handles a fault of a publish, and returns it as a fault of the step.
pub(crate) fn publish_fault<D: LogDisk>(store: &mut Store<D>, fault: LogFault) -> StepFault
    ensures value { result ≡ step_fault_of fault }
    ensures left { RestartsIfLost result store.old store.new }
    ensures frame { PreservesContents store.old store.new }
{
    match fault {
        LogFault::Memory => {}
        LogFault::Disk | LogFault::Failed | LogFault::Odd => restart_if_lost(store),
    }
    StepFault::from(fault)
}

/// Restarts the flush if the disk has lost a log of it: no later sync of that log succeeds.
fn restart_if_lost<D: LogDisk>(store: &mut Store<D>)
    ensures left { StaysUnlessLost store.old store.new }
    ensures frame { PreservesContents store.old store.new }
{
    if store.has_lost_log() {
        store.restart_flush();
    }
}

/// Handles a fault of the creation of a log, and returns it as a fault of the step.
pub(crate) fn making_fault<D: LogDisk>(store: &mut Store<D>, fault: MakeFault) -> StepFault
    ensures value { result ≡ step_fault_of_make fault }
    ensures left { RestartsOnDeviceFault result store.old store.new }
    ensures frame { PreservesContents store.old store.new }
{
    match fault {
        MakeFault::LogsFull | MakeFault::NoMoreIds | MakeFault::Memory => {}
        MakeFault::Disk | MakeFault::Odd => store.restart_flush(),
    }
    StepFault::from(fault)
}
