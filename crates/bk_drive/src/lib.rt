//! A machine over one store: steps, four readers, and the main theorem about lists of steps.
#![tactic(auto)]

mod counts;
mod ledger_reads;
mod readers;
mod recorded;
mod recorder;
mod run;
mod step;
mod taking;

pub use bk_collect::{CloseAnswer, CollectFault, RemoveAnswer, RetireAnswer};
pub use bk_compact::{
    BeginAnswer, CompactFault, CopyAnswer, EndAnswer, FinishAnswer, GiveUpAnswer, Kind,
    SwitchAnswer,
};
pub use bk_flush::{FlushFault, PublishAnswer, RollAnswer, WriteAnswer};
pub use bk_lease::Lease;
pub use bk_store::{
    AddFault, AddKind, Added, DeleteFault, Fence, FenceFault, LogCause, Mark, OpenFault, Receipt,
    Settings, StepFault, Store, SwapAnswer, TakeFault,
};
pub use counts::Counts;
pub use ledger_reads::{LedgerRead, LedgerReadAnswer};
pub use readers::{Readers, Reading};
pub use recorded::drive_recorded;
pub use recorder::{Recorder, RecordsNothing};
pub use run::{Ran, apply, drive};
pub use step::{Answer, FetchAnswer, ReleaseAnswer, Step, TakeAnswer, Work};
