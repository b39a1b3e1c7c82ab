//! The text of the counts of a store.

ghost use Rattle.std.specs.Prelude.{Some};
ghost use Rattle.bk_script.specs.Text.{stats_text};

use super::Text;
use bk_drive::Counts;
use std::fmt;
use std::fmt::{Display, Formatter};

impl Display for Text<'_, Counts> {
    ghost output = { λ text. Some (stats_text text.0.now) };

    fn fmt<W: fmt::Write>(&self, f: &mut Formatter<W>) -> fmt::Result {
        let Counts {
            cached,
            flushing,
            front,
            durable,
        } = self.0;
        write!(
            f,
            "stats cached {cached} flushing {flushing} marks {front} durable {durable}"
        )
    }
}
