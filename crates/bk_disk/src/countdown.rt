//! Countdown to one event.

ghost use Rattle.std.specs.Prelude.{◌≡◌, ◌==◌, false, IsTrue};
ghost use Rattle.bk_disk.specs.Failing.{count_after_event};

use std::marker::Model;

/// A number of events until a chosen one.
#[derive(Drop)]
pub(crate) struct Countdown {
    left: u64,
    reached: bool,
}

impl Model for Countdown {
    ghost use Rattle.std.specs.Prelude.{◌≡◌, IsTrue};
    ghost use Rattle.bk_disk.specs.Failing.{Count, count_code};

    ghost Value = { Count };

    ghost coded = { count_code };

    ghost view = { λ count. record { left = count.left; reached = count.reached } };

    ghost invariant = { λ count. IsTrue count.reached → count.left ≡ 0 };
}

impl Countdown {
    /// Returns a countdown to the event of this number, counted from 1; with 0, to none.
    pub(crate) fn new(number: u64) -> Self
        ensures { result ≡ record { left = number; reached = false } }
    {
        Countdown {
            left: number,
            reached: false,
        }
    }

    /// Counts one event. Returns whether it is the chosen one, which occurs once.
    pub(crate) fn count(&mut self) -> bool
        ensures chosen { result ≡ (self.old.left == 1) }
        ensures once { IsTrue result → self.old.reached ≡ false }
        ensures counted { self.new ≡ count_after_event self.old }
    {
        let chosen = self.left == 1;
        self.left = self.left.saturating_sub(1);
        self.reached = self.reached || chosen;
        chosen
    }

    /// Returns whether the chosen event has occurred.
    pub(crate) fn is_reached(&self) -> bool
        ensures { result ≡ self.now.reached }
    {
        self.reached
    }
}
