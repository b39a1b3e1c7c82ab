//! Times of what is done again and again.

ghost use Rattle.std.specs.Prelude.{◌≡◌, ◌↔◌, ◌≤◌, ◌+◌, ◌*◌, ◌==◌, IsTrue, if◌then◌else◌};
ghost use Rattle.std.specs.Bool.{OnTrue, OnFalse};
ghost use Rattle.bk_simulation.specs.Numbers.{in_64_bits};

/// Millionths of a second in a second.
pub(crate) const SECOND: u64 = 1_000_000;

/// The times of what is done again and again, in millionths of a second.
#[derive(Clone, Copy)]
pub(crate) struct Alarm {
    every: u64,
    next: u64,
}

impl Alarm {
    /// Returns an alarm of so many seconds; 0: never.
    pub(crate) fn new(seconds: u64) -> Alarm {
        let every = seconds.saturating_mul(SECOND);
        Alarm {
            every,
            next: if every == 0 { u64::MAX } else { every },
        }
    }

    /// Returns whether it is time, and moves on if it is.
    pub(crate) fn rings(&mut self, now: u64) -> bool
        ensures rings { IsTrue result ↔ (self.old.next ≤ now) }
        ensures next { OnTrue result (self.new.next ≡ in_64_bits (now + self.old.every)) }
        ensures unchanged { OnFalse result (self.new ≡ self.old) }
        ensures every { self.new.every ≡ self.old.every }
    {
        if now < self.next {
            return false;
        }
        self.next = now.saturating_add(self.every);
        true
    }
}
