//! The texts of answers of a compaction.

ghost use Rattle.std.specs.Prelude.{Some};
ghost use Rattle.bk_script.specs.Text.{begin_text, copy_text, end_text, finish_text, give_up_text, switch_text};

use super::Text;
use bk_drive::{
    BeginAnswer, CopyAnswer, EndAnswer, FinishAnswer, GiveUpAnswer, StepFault, SwitchAnswer,
};
use std::fmt;
use std::fmt::{Display, Formatter};

impl Display for Text<'_, Result<BeginAnswer, StepFault>> {
    ghost output = { λ text. Some (begin_text text.0.now) };

    fn fmt<W: fmt::Write>(&self, f: &mut Formatter<W>) -> fmt::Result {
        match self.0 {
            Ok(BeginAnswer::JobRunning) => write!(f, "job running"),
            Ok(BeginAnswer::NothingToDo) => write!(f, "nothing to do"),
            Ok(BeginAnswer::Chosen(log)) => write!(f, "chosen {log}"),
            Err(fault) => write!(f, "fault {}", Text(fault)),
        }
    }
}

impl Display for Text<'_, Result<CopyAnswer, StepFault>> {
    ghost output = { λ text. Some (copy_text text.0.now) };

    fn fmt<W: fmt::Write>(&self, f: &mut Formatter<W>) -> fmt::Result {
        match self.0 {
            Ok(CopyAnswer::NoJob) => write!(f, "no job"),
            Ok(CopyAnswer::NotNow) => write!(f, "not now"),
            Ok(CopyAnswer::AtEnd) => write!(f, "at end"),
            Ok(CopyAnswer::Copied(count)) => write!(f, "copied {count}"),
            Err(fault) => write!(f, "fault {}", Text(fault)),
        }
    }
}

impl Display for Text<'_, Result<EndAnswer, StepFault>> {
    ghost output = { λ text. Some (end_text text.0.now) };

    fn fmt<W: fmt::Write>(&self, f: &mut Formatter<W>) -> fmt::Result {
        match self.0 {
            Ok(EndAnswer::NoJob) => write!(f, "no job"),
            Ok(EndAnswer::NotNow) => write!(f, "not now"),
            Ok(EndAnswer::NotAtEnd) => write!(f, "not at end"),
            Ok(EndAnswer::Ended(count)) => write!(f, "ended {count}"),
            Err(fault) => write!(f, "fault {}", Text(fault)),
        }
    }
}

impl Display for Text<'_, SwitchAnswer> {
    ghost output = { λ text. Some (switch_text text.0.now) };

    fn fmt<W: fmt::Write>(&self, f: &mut Formatter<W>) -> fmt::Result {
        match self.0 {
            SwitchAnswer::NoJob => write!(f, "no job"),
            SwitchAnswer::NotNow => write!(f, "not now"),
            SwitchAnswer::Moved(count, left) => write!(f, "moved {count} {left}"),
        }
    }
}

impl Display for Text<'_, FinishAnswer> {
    ghost output = { λ text. Some (finish_text text.0.now) };

    fn fmt<W: fmt::Write>(&self, f: &mut Formatter<W>) -> fmt::Result {
        match self.0 {
            FinishAnswer::NoJob => write!(f, "no job"),
            FinishAnswer::NotNow => write!(f, "not now"),
            FinishAnswer::Left(count) => write!(f, "left {count}"),
            FinishAnswer::StillNamed(count) => write!(f, "still named {count}"),
            FinishAnswer::Retired(log) => write!(f, "retired {log}"),
        }
    }
}

impl Display for Text<'_, GiveUpAnswer> {
    ghost output = { λ text. Some (give_up_text text.0.now) };

    fn fmt<W: fmt::Write>(&self, f: &mut Formatter<W>) -> fmt::Result {
        match self.0 {
            GiveUpAnswer::NoJob => write!(f, "no job"),
            GiveUpAnswer::GivenUp => write!(f, "given up"),
        }
    }
}
