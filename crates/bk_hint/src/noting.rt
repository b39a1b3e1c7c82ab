//! One entry more, in heads and steps.

ghost use Rattle.std.specs.Prelude.{◌≡◌, ◌<◌, ◌≤◌, ◌^◌, OnOk, OnErr};
ghost use Rattle.bk_hint.specs.Entries.{past, IsKept, IsLegal};
ghost use Rattle.bk_hint.specs.Noting.{Gains, IsBegun, Repeats};

use crate::Listed;
use crate::head::Head;
use bk_record::LENGTH_FIELD;
use std::alloc::AllocError;

/// The step of an entry that begins a run.
pub(crate) const BEGIN: u32 = 0;

/// The step of one entry more of the size of the last one. Greater steps are several such entries.
pub(crate) const AGAIN: u32 = 0x8000_0000;

/// Appends a run of one entry.
fn begin(heads: &mut Vec<Head>, steps: &mut Vec<u32>, next: &Listed) -> Result<(), AllocError>
    requires { next.now.at < 2 ^ 32 }
    ensures ok { OnOk result (IsBegun heads.old.items steps.old.items next.now heads.new.items steps.new.items) }
    ensures err { OnErr result ((heads.new.items ≡ heads.old.items) × (steps.new.items ≡ steps.old.items)) }
{
    steps.reserve(1)?;
    heads.push(Head::of(next))?;
    steps.push(BEGIN).unwrap();
    Ok(())
}

/// Appends an entry of the size of the last one, directly behind it.
fn repeat(steps: &mut Vec<u32>) -> Result<(), AllocError>
    ensures ok { OnOk result (Repeats steps.old.items steps.new.items) }
    ensures err { OnErr result (steps.new.items ≡ steps.old.items) }
{
    let count = steps.len();
    if count > 0 && steps[count - 1] >= AGAIN && steps[count - 1] < u32::MAX {
        steps[count - 1] += 1;
        return Ok(());
    }
    steps.push(AGAIN)?;
    Ok(())
}

/// Appends an entry behind `last`, the last one.
#[tactic(auto, using(crate::proofs::Steps::kept_below))]
pub(crate) fn note(
    heads: &mut Vec<Head>,
    steps: &mut Vec<u32>,
    last: &Listed,
    next: &Listed,
) -> Result<(), AllocError>
    requires kept { IsKept heads.old.items steps.old.items last.now }
    requires behind { past last.now ≤ next.now.at }
    requires legal { IsLegal next.now }
    ensures ok { OnOk result (Gains heads.old.items steps.old.items next.now heads.new.items steps.new.items) }
    ensures err { OnErr result ((heads.new.items ≡ heads.old.items) × (steps.new.items ≡ steps.old.items)) }
{
    if next.follows(last) {
        if next.size == last.size {
            return repeat(steps);
        }
        steps.push(next.size - LENGTH_FIELD as u32)?;
        return Ok(());
    }
    begin(heads, steps, next)
}
