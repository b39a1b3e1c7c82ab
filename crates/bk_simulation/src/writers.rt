//! The ledgers that are written, each by one writer.

use crate::chance::Chance;
use crate::{Load, Plan};
use std::alloc::{AllocError, Global};

/// A ledger that is written.
#[derive(Clone, Copy)]
struct Writer {
    ledger: u64,
    next: u64,
    left: u64,
}

/// The next record: its ids, and whether the ledger is closed after it.
#[derive(Clone, Copy)]
pub(crate) struct Next {
    pub ledger: u64,
    pub entry: u64,
    pub is_last: bool,
}

/// The writers.
#[derive(Drop)]
pub(crate) struct Writers {
    open: Vec<Writer>,
    /// The id of the next ledger.
    fresh: u64,
    /// Mean number of records of a ledger, at least 1.
    mean: u64,
}

/// Returns the mean number of records of a ledger, at least 1.
fn mean_of(load: &Load, unit: u64) -> u64 {
    (load.ledger / unit.max(1)).max(1)
}

impl Writers {
    /// Returns the writers, each somewhere in its first ledger.
    pub(crate) fn new(
        alloc: Global,
        plan: &Plan,
        chance: &mut Chance,
    ) -> Result<Writers, AllocError> {
        let mean = mean_of(&plan.load, plan.unit);
        let mut open = Vec::new(alloc);
        for ledger in 0..u64::from(plan.load.writers) {
            open.push(Writer {
                ledger,
                next: 0,
                left: chance.below(mean).saturating_add(1),
            })?;
        }
        Ok(Writers {
            open,
            fresh: u64::from(plan.load.writers),
            mean,
        })
    }

    /// Returns the next record, of a random writer.
    pub(crate) fn next(&mut self, chance: &mut Chance) -> Option<Next> {
        let number = chance.below(self.open.len() as u64) as usize;
        let fresh = self.fresh;
        let size = (self.mean / 2).saturating_add(chance.below(self.mean.saturating_add(1)));
        let writer = self.open.get_mut(number)?;
        let next = Next {
            ledger: writer.ledger,
            entry: writer.next,
            is_last: writer.left <= 1,
        };
        writer.next = writer.next.saturating_add(1);
        writer.left = writer.left.saturating_sub(1);
        if next.is_last {
            *writer = Writer {
                ledger: fresh,
                next: 0,
                left: size.max(1),
            };
            self.fresh = fresh.saturating_add(1);
        }
        Some(next)
    }
}
