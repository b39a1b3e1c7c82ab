//! Look-up of receipts in a trail.

ghost use Rattle.std.specs.Prelude.{◌≡◌, ◌↔◌, IsTrue, IfSome, IfNone};
ghost use Rattle.bk_bookie.specs.Receipts.{AllStand, FirstRefused, LooksUp, mark_of};

use crate::FinishFault;
use bk_store::{Mark, Receipt};

/// What a trail has at the number of a receipt.
#[derive(Clone, Copy, Debug, PartialEq, Eq)]
pub(crate) enum Found {
    /// The mark of the receipt.
    Stands,
    /// Nothing: the trail ends before it.
    Missing,
    /// This mark, which is not the receipt's.
    Differs(Mark),
}

/// Looks up a receipt in a trail.
pub(crate) fn look_up(trail: &[Mark], receipt: &Receipt) -> Found
    ensures { LooksUp trail.now receipt.now result }
{
    let Some(mark) = trail.get(receipt.number as usize) else {
        return Found::Missing;
    };
    if is_mark_of(mark, receipt) {
        Found::Stands
    } else {
        Found::Differs(*mark)
    }
}

/// Returns whether a mark is that of a receipt.
fn is_mark_of(mark: &Mark, receipt: &Receipt) -> bool
    ensures { IsTrue result ↔ (mark.now ≡ mark_of receipt.now) }
{
    match mark {
        Mark::Add { key, digest } => *key == receipt.key && *digest == receipt.digest,
        Mark::Delete { .. } | Mark::Fence { .. } => false,
    }
}

/// Returns the fault of the first receipt whose mark is not in the trail, or `None`.
pub(crate) fn first_refused(trail: &[Mark], receipts: &[Receipt]) -> Option<FinishFault>
    ensures none { IfNone result (AllStand trail.now receipts.now) }
    ensures some { IfSome result (λ fault. FirstRefused trail.now receipts.now fault) }
{
    for receipt in receipts {
        match look_up(trail, receipt) {
            Found::Stands => {}
            Found::Missing => return Some(FinishFault::Missing(receipt.number)),
            Found::Differs(_) => return Some(FinishFault::Differs(receipt.number)),
        }
    }
    None
}
