//! How long a ledger is kept after it was closed.

ghost use Rattle.std.specs.Prelude.{◌≤◌};

use crate::chance::{Chance, ONE, times_power};

/// Greatest number of seconds that a ledger is kept: a hundred years.
const MOST: u64 = 3_153_600_000;

/// ln 2, as a fraction of 16 bits.
const LN2: u64 = 45_426;

/// The distribution of the times.
#[derive(Clone, Copy, Debug, PartialEq, Eq)]
pub enum Kind {
    /// The same time for all.
    Fixed,
    /// Memoryless.
    Exponential,
    /// Pareto's with exponent 3/2: most times are below the mean, and a few are far above. The part
    /// of the ledgers that are kept longer than t falls as t to the power of -3/2.
    HeavyTailed,
}

impl Kind {
    /// Returns the name.
    pub fn name(self) -> &'static str {
        match self {
            Kind::Fixed => "fixed",
            Kind::Exponential => "exponential",
            Kind::HeavyTailed => "heavy",
        }
    }
}

/// A distribution and its mean in seconds.
#[derive(Clone, Copy, Debug, PartialEq, Eq)]
pub struct Retention {
    pub kind: Kind,
    pub mean: u64,
}

impl Retention {
    /// Returns a time in seconds, at most a hundred years.
    pub(crate) fn sample(&self, chance: &mut Chance) -> u64
        ensures { result ≤ MOST }
    {
        let mean = self.mean.min(MOST);
        let time = match self.kind {
            Kind::Fixed => mean,
            Kind::Exponential => exponential(mean, chance.halvings()),
            Kind::HeavyTailed => heavy_tailed(mean, chance.halvings()),
        };
        time.min(MOST)
    }
}

/// Returns the mean times ln 2 times a number of halvings.
fn exponential(mean: u64, halvings: u64) -> u64 {
    let rough = mean.saturating_mul(halvings) / ONE;
    rough.saturating_mul(LN2) / ONE
}

/// Returns a third of the mean, which is the least time, times two to the power of two thirds of a
/// number of halvings.
fn heavy_tailed(mean: u64, halvings: u64) -> u64 {
    times_power(mean / 3, halvings.saturating_mul(2) / 3)
}
