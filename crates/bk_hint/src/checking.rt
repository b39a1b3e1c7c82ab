//! Whether heads and steps list legal entries in order.

ghost use Rattle.std.specs.Prelude.{◌≡◌, ◌+◌, ◌<◌, ◌≤◌, ◌^◌, ◌∷◌, ℕ, List, IsNone, IfSome};
ghost use Rattle.std.specs.Option.{SomeIff};
ghost use Rattle.bk_hint.specs.Entries.{first_of, next_of, past, IsKept, IsLegal, IsSound};
ghost use Rattle.bk_hint.specs.Checking.{repeated_by, IsRepeatable, Passes};
ghost use Rattle.bk_hint.specs.Walking.{CanGoOn};

use crate::Listed;
use crate::head::Head;
use crate::noting::{AGAIN, BEGIN};
use bk_record::{Key, LAST_ID, LENGTH_FIELD};

/// Returns the entry of a head, if it is legal behind `last`.
fn after_head(last: &Listed, head: &Head) -> Option<Listed>
    requires { past last.now < 2 ^ 32 + 4 }
    ensures { SomeIff result (IsLegal (first_of head.now) × (past last.now ≤ head.now.at)) (first_of head.now) }
{
    if head.size < Listed::LEAST || head.size > Listed::MOST {
        return None;
    }
    let at = u64::from(head.at);
    if at < last.past() || at > Listed::END - u64::from(head.size) {
        return None;
    }
    let key = Key::new(head.ledger, head.entry)?;
    Some(Listed {
        key,
        at,
        size: head.size,
    })
}

/// Returns the entry directly behind `last` whose payload has so many bytes, if it is legal.
fn after_size(last: &Listed, payload: u32) -> Option<Listed>
    requires room { past last.now < 2 ^ 32 + 4 }
    requires low { payload < 2 ^ 31 }
    ensures { SomeIff result (IsLegal (next_of last.now (payload + 4))) (next_of last.now (payload + 4)) }
{
    let size = payload + LENGTH_FIELD as u32;
    if size < Listed::LEAST || last.past() > Listed::END - u64::from(size) {
        return None;
    }
    let key = Key::new(last.key.ledger(), last.key.entry() + 1)?;
    Some(Listed {
        key,
        at: last.past(),
        size,
    })
}

/// Returns the last of so many entries directly behind `last`, of the size that it has, if they are
/// legal.
#[tactic(auto, using(crate::proofs::Checks::product_below))]
fn after_repeats(last: &Listed, count: u32) -> Option<Listed>
    requires { past last.now < 2 ^ 32 + 4 }
    ensures { SomeIff result (IsRepeatable count last.now) (repeated_by count last.now) }
{
    if last.size < Listed::LEAST || last.size > Listed::MOST {
        return None;
    }
    if last.key.entry() > LAST_ID - u64::from(count) {
        return None;
    }
    let bytes = u64::from(count) * u64::from(last.size);
    if bytes > Listed::END - last.past() {
        return None;
    }
    let key = Key::new(last.key.ledger(), last.key.entry() + u64::from(count))?;
    Some(Listed {
        key,
        at: last.at + bytes,
        size: last.size,
    })
}

/// Returns the last entry of a step behind `last` and the heads behind it, if the entries are legal.
fn after_step<'a>(last: &Listed, step: u32, left: &'a [Head]) -> Option<(Listed, &'a [Head])>
    requires { past last.now < 2 ^ 32 + 4 }
    ensures none { IsNone result → (steps : List ℕ) → ¬ (CanGoOn last.now 0 left.now (step ∷ steps)) }
    ensures some { IfSome result (λ t. (steps : List ℕ) → Passes last.now left.now step steps t.0 t.1.now) }
{
    if step == BEGIN {
        let (head, others) = left.split_first()?;
        let first = after_head(last, head)?;
        return Some((first, others));
    }
    if step < AGAIN {
        let behind = after_size(last, step)?;
        return Some((behind, left));
    }
    let again = after_repeats(last, step - AGAIN + 1)?;
    Some((again, left))
}

/// Returns the last entry of heads and steps, if they list legal entries in order and each step 0
/// has its head.
pub(crate) fn last_in(heads: &[Head], steps: &[u32]) -> Option<Listed>
    ensures none { IsNone result → ¬ (IsSound heads.now steps.now) }
    ensures kept { IfSome result (λ last. IsKept heads.now steps.now last) }
{
    let mut last = Listed::origin();
    let mut left = heads;
    let mut rest = steps;
    'steps: while let Some((step, others)) = rest.split_first() {
        match after_step(&last, *step, left) {
            Some((next, behind)) => {
                last = next;
                left = behind;
                rest = others;
            }
            None => return None,
        }
    }
    if left.is_empty() { Some(last) } else { None }
}
