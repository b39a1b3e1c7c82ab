//! The texts of answers of a collection.

ghost use Rattle.std.specs.Prelude.{Some};
ghost use Rattle.bk_script.specs.Text.{close_text, rebuild_text, remove_text, retire_text};

use super::Text;
use bk_drive::{CloseAnswer, CollectFault, RemoveAnswer, RetireAnswer};
use std::fmt;
use std::fmt::{Display, Formatter};

impl Display for Text<'_, RetireAnswer> {
    ghost output = { λ text. Some (retire_text text.0.now) };

    fn fmt<W: fmt::Write>(&self, f: &mut Formatter<W>) -> fmt::Result {
        match self.0 {
            RetireAnswer::NoLog => write!(f, "no log"),
            RetireAnswer::InUse => write!(f, "in use"),
            RetireAnswer::Retired(log) => write!(f, "retired {log}"),
            RetireAnswer::StillNamed(count) => write!(f, "still named {count}"),
        }
    }
}

impl Display for Text<'_, CloseAnswer> {
    ghost output = { λ text. Some (close_text text.0.now) };

    fn fmt<W: fmt::Write>(&self, f: &mut Formatter<W>) -> fmt::Result {
        match self.0 {
            CloseAnswer::NoLog => write!(f, "no log"),
            CloseAnswer::NotRetired => write!(f, "not retired"),
            CloseAnswer::Closed => write!(f, "closed"),
            CloseAnswer::Leased(count) => write!(f, "leased {count}"),
        }
    }
}

impl Display for Text<'_, Result<RemoveAnswer, CollectFault>> {
    ghost output = { λ text. Some (remove_text text.0.now) };

    fn fmt<W: fmt::Write>(&self, f: &mut Formatter<W>) -> fmt::Result {
        match self.0 {
            Ok(RemoveAnswer::NoLog) => write!(f, "no log"),
            Ok(RemoveAnswer::NotClosed) => write!(f, "not closed"),
            Ok(RemoveAnswer::Removed) => write!(f, "removed"),
            Err(fault) => write!(f, "fault {}", Text(fault)),
        }
    }
}

impl Display for Text<'_, Result<u64, CollectFault>> {
    ghost output = { λ text. Some (rebuild_text text.0.now) };

    fn fmt<W: fmt::Write>(&self, f: &mut Formatter<W>) -> fmt::Result {
        match self.0 {
            Ok(count) => write!(f, "rebuilt {count}"),
            Err(fault) => write!(f, "fault {}", Text(fault)),
        }
    }
}
