//! Random choices of a crash and of steps.

use bk_crash::Choices;
use rand_core::Rng;
use rand_pcg::Pcg32;

/// Random choices.
#[derive(Drop)]
pub(super) struct Chance(Pcg32);

impl Chance {
    pub(super) fn new(seed: u64) -> Chance {
        Chance(Pcg32::new(seed, 54))
    }
}

impl Choices for Chance {
    fn up_to(&mut self, most: usize) -> usize {
        let word = self.0.next_u32() as usize;
        match most.checked_add(1) {
            Some(count) => word % count,
            None => word,
        }
    }
}
