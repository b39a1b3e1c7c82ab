//! Instructions of a call under the lock, by its size, as measured.
//!
//! A cost is a fixed part and parts for each thing that the call visits.

ghost use Rattle.std.specs.Prelude.{◌≡◌, ◌+◌, ◌*◌};
ghost use Rattle.bk_simulation.specs.Numbers.{in_64_bits};

/// Instructions of the parts of calls.
#[derive(Clone, Copy, Debug, PartialEq, Eq)]
pub struct Cost {
    /// An add, without its digest.
    pub add: u64,
    /// A write of one entry.
    pub write: u64,
    /// A seal and the creation of the next log, and for each ledger of the sealed log.
    pub seal: u64,
    pub seal_ledger: u64,
    /// A publish, and for each entry.
    pub publish: u64,
    pub publish_entry: u64,
    /// A deletion, for each key, and for each log that has the ledger.
    pub delete: u64,
    pub delete_key: u64,
    pub delete_log: u64,
    /// The begin of a compaction, and for each log that is held.
    pub begin: u64,
    pub begin_log: u64,
    /// A step of a copy, for each entry that is examined, and for each that is copied.
    pub copy: u64,
    pub copy_examined: u64,
    pub copy_copied: u64,
    /// A switch, and for each entry.
    pub switch: u64,
    pub switch_entry: u64,
    /// The end of a compaction.
    pub finish: u64,
    /// A look at one log whether it can be retired.
    pub retire: u64,
    /// The removal of a log, and for each ledger in it.
    pub remove: u64,
    pub remove_ledger: u64,
}

impl Cost {
    /// What was measured (docs/scale.md).
    pub const MEASURED: Cost = Cost {
        add: 1500,
        write: 1250,
        seal: 18_000,
        seal_ledger: 107,
        publish: 6000,
        publish_entry: 483,
        delete: 2000,
        delete_key: 79,
        delete_log: 1380,
        begin: 20_000,
        begin_log: 831,
        copy: 60_000,
        copy_examined: 200,
        copy_copied: 1100,
        switch: 500,
        switch_entry: 159,
        finish: 323,
        retire: 121,
        remove: 6000,
        remove_ledger: 450,
    };
}

/// Returns a fixed part and a part for each of `count`.
pub(crate) fn linear(fixed: u64, each: u64, count: u64) -> u64
    ensures { result ≡ in_64_bits (fixed + each * count) }
{
    fixed.saturating_add(each.saturating_mul(count))
}
