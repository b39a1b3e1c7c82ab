//! The holds of the lock: how many of which length, and the longest of each call.

ghost use Rattle.bk_simulation.specs.Numbers.{HasSevenDigits};

use std::alloc::{AllocError, Global};
use std::collections::BTreeMap;

/// A call that holds the lock.
#[derive(Clone, Copy, Debug, PartialEq, Eq)]
pub enum Call {
    Add,
    Write,
    /// A write that seals a log and creates the next one.
    Seal,
    Publish,
    Delete,
    Begin,
    Copy,
    EndCopy,
    Switch,
    Finish,
    Retire,
    Remove,
}

impl Call {
    /// All calls.
    pub const ALL: [Call; 12] = [
        Call::Add,
        Call::Write,
        Call::Seal,
        Call::Publish,
        Call::Delete,
        Call::Begin,
        Call::Copy,
        Call::EndCopy,
        Call::Switch,
        Call::Finish,
        Call::Retire,
        Call::Remove,
    ];

    /// Returns the name.
    pub fn name(self) -> &'static str {
        match self {
            Call::Add => "add",
            Call::Write => "write",
            Call::Seal => "seal",
            Call::Publish => "publish",
            Call::Delete => "delete",
            Call::Begin => "begin",
            Call::Copy => "copy",
            Call::EndCopy => "end_copy",
            Call::Switch => "switch",
            Call::Finish => "finish",
            Call::Retire => "retire",
            Call::Remove => "remove",
        }
    }
}

/// The holds of one call.
#[derive(Clone, Copy, Debug, PartialEq, Eq)]
pub struct Longest {
    pub call: Call,
    /// Number of holds.
    pub count: u64,
    /// Instructions of the longest one, and its size: entries, keys, logs or ledgers.
    pub cost: u64,
    pub size: u64,
}

/// All holds.
#[derive(Drop)]
pub struct Holds {
    /// Number of holds by their instructions, rounded down to seven binary digits.
    lengths: BTreeMap<u64, u64>,
    longest: Vec<Longest>,
}

/// Returns a number rounded down to seven binary digits.
pub(crate) fn rounded(cost: u64) -> u64
    ensures { HasSevenDigits cost result }
{
    let digits = 64u32.saturating_sub(cost.leading_zeros());
    let shift = digits.saturating_sub(7).min(63);
    let low = cost % (1u64 << shift);
    cost - low
}

impl Holds {
    /// Returns that no call held the lock.
    pub(crate) fn new(alloc: Global) -> Result<Holds, AllocError> {
        let mut longest = Vec::new(alloc);
        for call in Call::ALL.iter() {
            longest.push(Longest {
                call: *call,
                count: 0,
                cost: 0,
                size: 0,
            })?;
        }
        Ok(Holds {
            lengths: BTreeMap::new(alloc),
            longest,
        })
    }

    /// Counts `times` holds of a call, each of this size and so many instructions.
    pub(crate) fn note(
        &mut self,
        call: Call,
        size: u64,
        cost: u64,
        times: u64,
    ) -> Result<(), AllocError> {
        let step = rounded(cost);
        match self.lengths.get_mut(&step) {
            Some(count) => *count = count.saturating_add(times),
            None => {
                if self.lengths.insert(step, times).is_err() {
                    return Err(AllocError);
                }
            }
        }
        for longest in self.longest.iter_mut() {
            if longest.call == call {
                longest.count = longest.count.saturating_add(times);
                if cost >= longest.cost {
                    longest.cost = cost;
                    longest.size = size;
                }
            }
        }
        Ok(())
    }

    /// Returns the number of holds.
    pub fn count(&self) -> u64 {
        let mut all = 0u64;
        for count in self.lengths.values() {
            all = all.saturating_add(*count);
        }
        all
    }

    /// Returns the least number of instructions, rounded down to seven binary digits, that at most
    /// this many thousandths of all holds exceed.
    pub fn exceeded_by(&self, thousandths: u64) -> u64 {
        let most = u128::from(self.count()).saturating_mul(u128::from(thousandths)) / 1000;
        let mut above = self.count();
        for (cost, count) in &self.lengths {
            above = above.saturating_sub(*count);
            if u128::from(above) <= most {
                return *cost;
            }
        }
        0
    }

    /// Returns the holds of each call.
    pub fn calls(&self) -> &[Longest] {
        self.longest.as_slice()
    }

    /// Returns the longest hold of all, the first of equals; `None` if there is none.
    pub fn longest(&self) -> Option<Longest> {
        let mut best: Option<Longest> = None;
        for longest in &self.longest {
            match best {
                Some(other) if other.cost >= longest.cost => {}
                _ => best = Some(*longest),
            }
        }
        best
    }
}
