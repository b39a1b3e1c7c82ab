//! Iterator over entries.

ghost use Rattle.std.specs.Prelude.{◌≡◌, [], MatchOption};
ghost use Rattle.std.specs.Iterator.{YieldsFirst, item_count};
ghost use Rattle.bk_hint.specs.Entries.{entries_of, origin, IsSound};
ghost use Rattle.bk_hint.specs.Walking.{CanGoOn, Turns};

use crate::Listed;
use crate::head::Head;
use crate::noting::{AGAIN, BEGIN};
use bk_record::LENGTH_FIELD;
use std::marker::Model;

/// Iterator over the entries of a log, in file order. `Contents::iter` returns it. Contracts see the
/// list of what is left.
#[derive(Debug, Drop)]
pub struct Entries<'a> {
    last: Listed,
    again: u32,
    heads: &'a [Head],
    steps: &'a [u32],
}

impl<'a> Model for Entries<'a> {
    ghost use Rattle.std.specs.Prelude.{List};
    ghost use Rattle.bk_hint.specs.declared.listed.Listed.{Listed};
    ghost use Rattle.bk_hint.specs.Walking.{left_of, CanGoOn};

    ghost Value = { List Listed };

    ghost view = { λ walk. left_of walk.last walk.again walk.heads.now walk.steps.now };

    ghost invariant = { λ walk. CanGoOn walk.last walk.again walk.heads.now walk.steps.now };
}

impl<'a> Entries<'a> {
    /// Returns an iterator over the entries of heads and steps.
    pub(crate) fn over(heads: &'a [Head], steps: &'a [u32]) -> Entries<'a>
        requires { IsSound heads.now steps.now }
        ensures { result ≡ entries_of origin heads.now steps.now }
    {
        Entries {
            last: Listed::origin(),
            again: 0,
            heads,
            steps,
        }
    }
}

/// An entry, how many more of its size follow it directly, and the heads and steps behind these.
pub(crate) type Turn<'a> = (Listed, u32, &'a [Head], &'a [u32]);

/// Returns the first entry of the next step behind `last`, and what is left.
pub(crate) fn turn<'a>(last: &Listed, heads: &'a [Head], steps: &'a [u32]) -> Option<Turn<'a>>
    requires { CanGoOn last.now 0 heads.now steps.now }
    ensures { MatchOption result (steps.now ≡ []) (λ t. Turns last.now heads.now steps.now t.0 t.1 t.2.now t.3.now) }
{
    let (step, others) = steps.split_first()?;
    if *step == BEGIN {
        let (head, heads) = heads.split_first()?;
        return Some((head.first(), 0, heads, others));
    }
    if *step < AGAIN {
        return Some((last.next(*step + LENGTH_FIELD as u32), 0, heads, others));
    }
    Some((last.repeated(), *step - AGAIN, heads, others))
}

impl Iterator for Entries<'_> {
    type Item = Listed;

    ghost next_gives = { YieldsFirst (λ walk. walk) };

    ghost remaining = { item_count (λ walk. walk) };

    fn next(&mut self) -> Option<Listed> {
        if self.again > 0 {
            let next = self.last.repeated();
            self.again -= 1;
            self.last = next.same();
            return Some(next);
        }
        match turn(&self.last, self.heads, self.steps) {
            Some((next, again, heads, steps)) => {
                self.last = next.same();
                self.again = again;
                self.heads = heads;
                self.steps = steps;
                Some(next)
            }
            None => None,
        }
    }
}
