//! Comparison of the results of a scenario with the expected ones.

ghost use Rattle.std.specs.Prelude.{◌≡◌, ℕ, ◌+◌, ◌-◌, ◌^◌, ◌<◌, ◌↔◌, IsTrue, IfSome, IfNone, length};
ghost use Rattle.bk_scenarios.specs.Lines.{HaveSame, HaveOther};

/// Number of scenarios, and number of those that agree.
#[derive(Clone, Copy)]
pub(crate) struct Tally {
    agree: u64,
    all: u64,
}

impl Tally {
    /// Returns the tally of no scenario.
    pub(crate) fn new() -> Tally
        ensures { result ≡ record { agree = 0; all = 0 } }
    {
        Tally { agree: 0, all: 0 }
    }

    /// Returns the tally with one more scenario.
    pub(crate) fn with(self, agrees: bool) -> Tally
        ensures all { self.all < 2 ^ 64 - 1 → result.all ≡ self.all + 1 }
        ensures agreed { IsTrue agrees → self.agree < 2 ^ 64 - 1 → result.agree ≡ self.agree + 1 }
        ensures other { ¬ (IsTrue agrees) → result.agree ≡ self.agree }
    {
        Tally {
            agree: self.agree.saturating_add(u64::from(agrees)),
            all: self.all.saturating_add(1),
        }
    }

    /// Returns the number of scenarios that agree.
    pub(crate) fn agree(self) -> u64
        ensures { result ≡ self.agree }
    {
        self.agree
    }

    /// Returns the number of scenarios.
    pub(crate) fn all(self) -> u64
        ensures { result ≡ self.all }
    {
        self.all
    }

    /// Returns whether there is a scenario and all agree.
    pub(crate) fn is_whole(self) -> bool
        ensures { IsTrue result ↔ ((0 < self.all) × (self.agree ≡ self.all)) }
    {
        self.all > 0 && self.agree == self.all
    }
}

/// Returns the number of the first line, counted from 0, in which two texts differ, or `None` if
/// they have the same lines.
pub(crate) fn first_other(expected: &[String], got: &[String]) -> Option<usize>
    ensures length { IfNone result (length expected.now ≡ length got.now) }
    ensures same { IfNone result ((k : ℕ) → k < length expected.now → HaveSame expected.now got.now k) }
    ensures before { IfSome result (λ i. (k : ℕ) → k < i → HaveSame expected.now got.now k) }
    ensures other { IfSome result (HaveOther expected.now got.now) }
{
    let both = expected.len().min(got.len());
    for index in 0..both {
        if expected[index].as_str() != got[index].as_str() {
            return Some(index);
        }
    }
    if expected.len() == got.len() {
        return None;
    }
    Some(both)
}
