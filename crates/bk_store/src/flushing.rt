//! Beginning, restarting and ending a flush.

ghost use Rattle.std.specs.Prelude.{◌≡◌, ℕ, false, Some, IsTrue};
ghost use Rattle.bk_record.specs.Files.{In};
ghost use Rattle.bk_store.specs.Invariant.{StoreInvariant};
ghost use Rattle.bk_store.specs.Primitives.{AllIndexed, RestartFlushTransition, EndFlushTransition};
ghost use Rattle.bk_store.specs.Transitions.{SwapTransition};
ghost use Rattle.bk_store.specs.Internals.{RestartFlushInternals, EndFlushInternals};

use crate::SwapAnswer;
use crate::fields::Fields;
use bk_disk::LogDisk;

impl<D: LogDisk> Fields<D> {
    pub fn swap(&mut self) -> SwapAnswer
        requires { StoreInvariant self.old }
        ensures transition { SwapTransition self.old.state result self.new.state }
        ensures internals { self.new ≡ record self.old { state = self.new.state } }
    {
        let answer = self.caches.swap();
        self.fronts = self.fronts.after_swap(&answer, self.ledgers.front());
        answer
    }

    /// Returns whether the disk has lost a log of the flush.
    pub fn has_lost_log(&self) -> bool
        ensures { IsTrue self.now.state.honest → result ≡ false }
    {
        for log in &self.filled {
            if self.disk.is_lost(*log) {
                return true;
            }
        }
        false
    }

    /// Restarts the flush.
    pub fn restart_flush(&mut self)
        requires { StoreInvariant self.old }
        ensures transition { RestartFlushTransition self.old.state self.new.state }
        ensures internals { RestartFlushInternals self.old self.new }
    {
        self.logs.after_restart(&self.filled);
        self.filled.clear();
        self.writing = None;
        self.places.clear();
    }

    /// Ends the flush.
    pub fn end_flush(&mut self)
        requires keeps { StoreInvariant self.old }
        requires named { AllIndexed self.old.state }
        ensures transition { EndFlushTransition self.old.state self.new.state }
        ensures internals { EndFlushInternals self.old self.new }
    {
        self.logs.after_flush(&self.filled);
        keep_written(&mut self.filled, self.writing);
        self.places.clear();
        self.caches.done();
        self.fronts = self.fronts.after_flush();
    }
}

/// Removes all logs from the list except the Writing log.
fn keep_written(filled: &mut Vec<u32>, writing: Option<u32>)
    ensures still { (id : ℕ) → In id filled.old.items → writing ≡ Some id → In id filled.new.items }
    ensures alone { (id : ℕ) → In id filled.new.items → writing ≡ Some id }
{
    filled.retain(|id| Some(*id) == writing);
}
