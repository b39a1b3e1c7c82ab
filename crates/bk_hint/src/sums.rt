//! Sums of record sizes by ledger.

ghost use Rattle.std.specs.Prelude.{◌≡◌, ℕ, ◌+◌, ◌<◌, ◌^◌, ◌↔◌, IsTrue, IfOk, OnOk};
ghost use Rattle.std.specs.BTreeMap as tree;
ghost use Rattle.std.specs.Ordering.{nat_cmp};
ghost use Rattle.bk_hint.specs.Sums.{bytes_in, summed_at, sum_of, IsSumAdded, IsMapOf};

use crate::Contents;
use std::alloc::{AllocError, Global};
use std::collections::BTreeMap;

/// Returns for each ledger the sum of the sizes of its records, as the ledgers map of the log has to
/// have them. A ledger without a record has none. Takes steps in the number of runs.
///
/// # Errors
///
/// - `AllocError` if an allocation is refused.
pub fn sums_by_ledger(alloc: Global, contents: &Contents) -> Result<BTreeMap<u64, u64>, AllocError>
    ensures { IfOk result (λ sums. (ledger : ℕ) → tree.get nat_cmp sums ledger ≡ sum_of (bytes_in contents.now ledger)) }
{
    let mut sums = BTreeMap::new(alloc);
    for run in contents.runs() {
        add(&mut sums, run.first.key.ledger(), run.bytes())?;
    }
    Ok(sums)
}

/// Adds bytes to the sum of a ledger. Takes one look-up.
fn add(sums: &mut BTreeMap<u64, u64>, ledger: u64, bytes: u64) -> Result<(), AllocError>
    requires { summed_at sums.old ledger + bytes < 2 ^ 64 }
    ensures { OnOk result (IsSumAdded sums.old sums.new ledger bytes) }
{
    *sums.entry(ledger)?.or_insert(0) += bytes;
    Ok(())
}

/// Returns whether a log's ledgers map is that of these entries: each ledger with a record has the
/// sum of the sizes of its records, and no other ledger is in the map.
///
/// # Errors
///
/// - `AllocError` if an allocation is refused.
pub fn fits_map(
    alloc: Global,
    contents: &Contents,
    map: &BTreeMap<u64, u64>,
) -> Result<bool, AllocError>
    ensures { IfOk result (λ fits. IsTrue fits ↔ IsMapOf contents.now map.now) }
{
    let sums = sums_by_ledger(alloc, contents)?;
    let found = sums.len();
    let wanted = map.len();
    if found != wanted {
        return Ok(false);
    }
    let same = sums == *map;
    Ok(same)
}
