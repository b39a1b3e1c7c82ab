//! Refusals: the faults of calls as replies.

ghost use Rattle.std.specs.Prelude.{◌≡◌};
ghost use Rattle.bk_serve.specs.Refusals as says;

use bk_collect::CollectFault;
use bk_log::FetchFault;
use bk_manifest::ManifestError;
use bk_record::RecordFault;
use bk_serve_core::Refusal;
use bk_store::{AddFault, DeleteFault, FenceFault, StepFault, TakeFault};

fn of_record(fault: RecordFault) -> Refusal
    ensures { result ≡ says.of_record fault }
{
    match fault {
        RecordFault::Short(length) | RecordFault::TooLong(length) => Refusal::TooLong { length },
        RecordFault::Negative => Refusal::Negative,
        RecordFault::Memory => Refusal::Memory,
    }
}

pub(crate) fn of_add(fault: AddFault) -> Refusal
    ensures { result ≡ says.of_add fault }
{
    match fault {
        AddFault::Bad(fault) => of_record(fault),
        AddFault::Deleted => Refusal::Deleted,
        AddFault::Fenced => Refusal::Fenced,
        AddFault::Full { used, limit } => Refusal::Full { used, limit },
        AddFault::Memory => Refusal::Memory,
    }
}

pub(crate) fn of_take(fault: TakeFault) -> Refusal
    ensures { result ≡ says.of_take fault }
{
    match fault {
        TakeFault::NoSeat => Refusal::NoSeat,
        TakeFault::TooMany => Refusal::TooMany,
        TakeFault::Memory => Refusal::Memory,
    }
}

pub(crate) fn of_fetch(fault: FetchFault) -> Refusal
    ensures { result ≡ says.of_fetch fault }
{
    match fault {
        FetchFault::Disk => Refusal::Disk,
        FetchFault::NotThere => Refusal::NotThere,
        FetchFault::Memory => Refusal::Memory,
        FetchFault::Odd => Refusal::Odd,
    }
}

pub(crate) fn of_delete(fault: DeleteFault) -> Refusal
    ensures { result ≡ says.of_delete fault }
{
    match fault {
        DeleteFault::AlreadyDeleted => Refusal::AlreadyDeleted,
        DeleteFault::Memory => Refusal::Memory,
    }
}

pub(crate) fn of_fence(fault: FenceFault) -> Refusal
    ensures { result ≡ says.of_fence fault }
{
    match fault {
        FenceFault::Deleted => Refusal::Deleted,
        FenceFault::Memory => Refusal::Memory,
    }
}

pub(crate) fn of_step(fault: StepFault) -> Refusal
    ensures { result ≡ says.of_step fault }
{
    match fault {
        StepFault::Disk => Refusal::Disk,
        StepFault::Memory { .. } => Refusal::Memory,
        StepFault::LogsFull => Refusal::LogsFull,
        StepFault::NoMoreIds => Refusal::NoMoreIds,
        StepFault::Odd => Refusal::Odd,
    }
}

/// `TooLong` occurs only if the manifest's file would be too long.
pub(crate) fn of_note(error: ManifestError) -> Refusal
    ensures { result ≡ says.of_note error }
{
    match error {
        ManifestError::Memory => Refusal::Memory,
        ManifestError::Disk | ManifestError::TooLong => Refusal::Disk,
        ManifestError::Fault(_) => Refusal::Odd,
    }
}

pub(crate) fn of_collect(fault: CollectFault) -> Refusal
    ensures { result ≡ says.of_collect fault }
{
    match fault {
        CollectFault::Disk => Refusal::Disk,
        CollectFault::Memory => Refusal::Memory,
        CollectFault::Log { id, .. } => Refusal::BadLog { log: u64::from(id) },
        CollectFault::Odd => Refusal::Odd,
    }
}
