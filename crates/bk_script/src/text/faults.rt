//! The texts of faults.

ghost use Rattle.std.specs.Prelude.{Some};
ghost use Rattle.bk_script.specs.Text.{add_fault_text, cause_text, collect_fault_text, delete_fault_text};
ghost use Rattle.bk_script.specs.Text.{fence_fault_text, fetch_fault_text, head_fault_text, record_fault_text, step_fault_text};

use super::Text;
use bk_drive::{AddFault, CollectFault, DeleteFault, FenceFault, LogCause, StepFault};
use bk_head::HeadFault;
use bk_log::FetchFault;
use bk_record::RecordFault;
use std::fmt;
use std::fmt::{Display, Formatter};

impl Display for Text<'_, AddFault> {
    ghost output = { λ text. Some (add_fault_text text.0.now) };

    fn fmt<W: fmt::Write>(&self, f: &mut Formatter<W>) -> fmt::Result {
        match self.0 {
            AddFault::Bad(fault) => write!(f, "{}", Text(fault)),
            AddFault::Deleted => write!(f, "deleted"),
            AddFault::Fenced => write!(f, "fenced"),
            AddFault::Full { used, limit } => write!(f, "full {used} {limit}"),
            AddFault::Memory => write!(f, "memory"),
        }
    }
}

impl Display for Text<'_, RecordFault> {
    ghost output = { λ text. Some (record_fault_text text.0.now) };

    fn fmt<W: fmt::Write>(&self, f: &mut Formatter<W>) -> fmt::Result {
        match self.0 {
            RecordFault::Short(length) => write!(f, "short {length}"),
            RecordFault::Negative => write!(f, "negative number"),
            RecordFault::TooLong(length) => write!(f, "too long {length}"),
            RecordFault::Memory => write!(f, "memory"),
        }
    }
}

impl Display for Text<'_, FetchFault> {
    ghost output = { λ text. Some (fetch_fault_text text.0.now) };

    fn fmt<W: fmt::Write>(&self, f: &mut Formatter<W>) -> fmt::Result {
        match self.0 {
            FetchFault::Disk => write!(f, "disk"),
            FetchFault::NotThere => write!(f, "not there"),
            FetchFault::Memory => write!(f, "memory"),
            FetchFault::Odd => write!(f, "odd disk"),
        }
    }
}

impl Display for Text<'_, DeleteFault> {
    ghost output = { λ text. Some (delete_fault_text text.0.now) };

    fn fmt<W: fmt::Write>(&self, f: &mut Formatter<W>) -> fmt::Result {
        match self.0 {
            DeleteFault::AlreadyDeleted => write!(f, "already deleted"),
            DeleteFault::Memory => write!(f, "memory"),
        }
    }
}

impl Display for Text<'_, FenceFault> {
    ghost output = { λ text. Some (fence_fault_text text.0.now) };

    fn fmt<W: fmt::Write>(&self, f: &mut Formatter<W>) -> fmt::Result {
        match self.0 {
            FenceFault::Deleted => write!(f, "deleted"),
            FenceFault::Memory => write!(f, "memory"),
        }
    }
}

impl Display for Text<'_, StepFault> {
    ghost output = { λ text. Some (step_fault_text text.0.now) };

    fn fmt<W: fmt::Write>(&self, f: &mut Formatter<W>) -> fmt::Result {
        match self.0 {
            StepFault::Disk => write!(f, "disk"),
            StepFault::Memory { done } => write!(f, "memory after {done}"),
            StepFault::LogsFull => write!(f, "logs full"),
            StepFault::NoMoreIds => write!(f, "no more ids"),
            StepFault::Odd => write!(f, "odd disk"),
        }
    }
}

impl Display for Text<'_, CollectFault> {
    ghost output = { λ text. Some (collect_fault_text text.0.now) };

    fn fmt<W: fmt::Write>(&self, f: &mut Formatter<W>) -> fmt::Result {
        match self.0 {
            CollectFault::Disk => write!(f, "disk"),
            CollectFault::Memory => write!(f, "memory"),
            CollectFault::Log { id, cause } => write!(f, "log {id}: {}", Text(cause)),
            CollectFault::Odd => write!(f, "odd disk"),
        }
    }
}

impl Display for Text<'_, LogCause> {
    ghost output = { λ text. Some (cause_text text.0.now) };

    fn fmt<W: fmt::Write>(&self, f: &mut Formatter<W>) -> fmt::Result {
        match self.0 {
            LogCause::Header(fault) => write!(f, "{}", Text(fault)),
            LogCause::BadLength { at, length } => write!(f, "bad length {at} {length}"),
        }
    }
}

impl Display for Text<'_, HeadFault> {
    ghost output = { λ text. Some (head_fault_text text.0.now) };

    fn fmt<W: fmt::Write>(&self, f: &mut Formatter<W>) -> fmt::Result {
        match self.0 {
            HeadFault::BadMagic => write!(f, "bad magic"),
            HeadFault::Version(version) => write!(f, "version {version}"),
            HeadFault::Negative => write!(f, "negative number"),
            HeadFault::NotAMap(at) => write!(f, "not a map {at}"),
            HeadFault::MapLength(at) => write!(f, "map length {at}"),
            HeadFault::Repeated(ledger) => write!(f, "repeated {ledger}"),
            HeadFault::CountDiffers(found) => write!(f, "count differs {found}"),
            HeadFault::Memory => write!(f, "memory"),
        }
    }
}
