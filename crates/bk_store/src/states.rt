//! Setting the state of a log that is not the flush's.

ghost use Rattle.std.specs.Prelude.{◌≡◌};
ghost use Rattle.bk_store.specs.Invariant.{StoreInvariant};
ghost use Rattle.bk_store.specs.Primitives.{CanSetLogState, SetLogStateTransition};

use crate::LogState;
use crate::fields::Fields;
use bk_disk::LogDisk;

impl<D: LogDisk> Fields<D> {
    /// Sets the state of a log, which is written no more.
    pub fn set_log_state(&mut self, log: u32, state: LogState)
        requires keeps { StoreInvariant self.old }
        requires may { CanSetLogState self.old.state log state }
        ensures transition { SetLogStateTransition self.old.state log state self.new.state }
        ensures internals { self.new ≡ record self.old { state = self.new.state } }
    {
        self.logs.end_writing(log, state);
    }
}
