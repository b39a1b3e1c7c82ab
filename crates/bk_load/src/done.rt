//! Results of callers.

ghost use Rattle.std.specs.Prelude.{◌≡◌, ◌+◌, OnOk, OnErr, if◌then◌else◌, vec_len};
ghost use Rattle.bk_load.specs.Sums.{JoinsResults, sum_of};

use bk_store::Receipt;
use std::alloc::{AllocError, Global};

/// What one or several callers have done.
#[derive(Drop)]
pub(crate) struct Done {
    /// The receipts of the accepted adds, and the nanoseconds that each add took.
    pub receipts: Vec<Receipt>,
    pub times: Vec<u32>,
    /// Total bytes of their payloads.
    pub bytes: u64,
    /// Number of adds that found their entry already there.
    pub held: u64,
    /// Number of adds to a deleted ledger.
    pub refused: u64,
    /// Number of entries taken, and number of these that differ from what was added.
    pub takes: u64,
    pub wrong: u64,
    /// The ledgers that were deleted.
    pub dead: Vec<u64>,
}

impl Done {
    /// Returns the results of no caller.
    pub fn new(alloc: Global) -> Done
        ensures { vec_len result.receipts ≡ 0 }
    {
        Done {
            receipts: Vec::new(alloc),
            times: Vec::new(alloc),
            bytes: 0,
            held: 0,
            refused: 0,
            takes: 0,
            wrong: 0,
            dead: Vec::new(alloc),
        }
    }

    /// Counts an entry that was taken.
    pub fn count_take(&mut self, is_right: bool)
        ensures takes { self.new.takes ≡ sum_of self.old.takes 1 }
        ensures wrong { self.new.wrong ≡ sum_of self.old.wrong (if is_right then 0 else 1) }
        ensures receipts { self.new.receipts ≡ self.old.receipts }
    {
        self.takes = self.takes.saturating_add(1);
        self.wrong = self.wrong.saturating_add(u64::from(!is_right));
    }

    /// Adds the results of another caller. Fails only if out of memory.
    pub fn take_in(&mut self, other: &Done) -> Result<(), AllocError>
        ensures ok { OnOk result (vec_len self.new.receipts ≡ vec_len self.old.receipts + vec_len other.now.receipts) }
        ensures sums { OnOk result (JoinsResults self.old other.now self.new) }
        ensures err { OnErr result (vec_len self.new.receipts ≡ vec_len self.old.receipts) }
    {
        self.times.extend_from_slice(&other.times)?;
        self.dead.extend_from_slice(&other.dead)?;
        self.receipts.extend_from_slice(&other.receipts)?;
        self.bytes = self.bytes.saturating_add(other.bytes);
        self.held = self.held.saturating_add(other.held);
        self.refused = self.refused.saturating_add(other.refused);
        self.takes = self.takes.saturating_add(other.takes);
        self.wrong = self.wrong.saturating_add(other.wrong);
        Ok(())
    }
}
