//! A cursor that finds entries by their places.

ghost use Rattle.std.specs.Prelude.{◌≡◌, slice_get};

use crate::{Contents, Listed, ListedRuns};
use std::marker::Model;

/// Finds entries of a log by their places in the file order. `Contents::cursor` returns it.
/// Contracts see the list of the entries.
#[derive(Drop)]
pub struct EntryCursor<'a> {
    contents: &'a Contents,
    /// The runs that are not passed.
    runs: ListedRuns<'a>,
    /// Number of entries before them.
    before: u64,
}

impl<'a> Model for EntryCursor<'a> {
    ghost use Rattle.std.specs.Prelude.{List};
    ghost use Rattle.bk_hint.specs.declared.listed.Listed.{Listed};
    ghost use Rattle.bk_hint.specs.Cursor.{IsReached};

    ghost Value = { List Listed };

    ghost view = { λ cursor. cursor.contents.now };

    ghost invariant = { λ cursor. IsReached cursor.contents.now cursor.runs cursor.before };
}

impl<'a> EntryCursor<'a> {
    /// Returns a cursor at the first entry.
    pub(crate) fn over(contents: &'a Contents) -> EntryCursor<'a>
        ensures { result ≡ contents.now }
    {
        EntryCursor {
            contents,
            runs: contents.runs(),
            before: 0,
        }
    }

    /// Returns the entry at this place, `None` if there are not so many. Passes the runs before it;
    /// if it is before these, begins anew. So places that rise take steps in the number of runs, all
    /// together.
    pub fn nth(&mut self, place: u64) -> Option<Listed>
        ensures same { self.new ≡ self.old }
        ensures found { result ≡ slice_get self.old place }
    {
        if place < self.before {
            self.runs = self.contents.runs();
            self.before = 0;
        }
        let mut rest = self.runs.same();
        'walk: while let Some(run) = rest.next() {
            let left = place - self.before;
            if left <= u64::from(run.again) {
                return Some(run.at(left as u32));
            }
            self.before += run.count();
            self.runs = rest.same();
        }
        None
    }
}
