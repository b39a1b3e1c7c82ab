//! Why it is not known which ledgers are deleted.

use bk_ledgers::ReadFault;
use bk_record::LAST_ID;
use std::alloc::{AllocError, AllocFailed};
use std::fmt::{Display, Formatter};
use std::{error, fmt, io};

/// Why it is not known which ledgers are deleted.
#[derive(Debug, Drop)]
pub enum DeadFault {
    /// The file at this path cannot be read, for this reason.
    Unread {
        path: String,
        reason: io::Error,
    },
    /// The line of this number, from 1, of the file at this path is no ledger.
    Line {
        path: String,
        number: u64,
        end: LineEnd,
    },
    /// No line of the files of live ledgers names one, and the call does not say that none is live.
    NoneLive,
    /// The logs cannot be read, to find their ledgers. The reason was reported.
    Logs,
    /// The manifest of the ledgers cannot be read.
    Manifest(ReadFault),
    /// Out of memory.
    Memory,
}

/// What is before the line feed of a line that is no ledger. The text goes on after the fault.
#[derive(Clone, Copy, Debug, PartialEq, Eq)]
pub enum LineEnd {
    /// Nothing that a text editor hides.
    Plain,
    /// A carriage return, as in files of other systems.
    Return,
}

impl LineEnd {
    /// Returns the end of a line.
    pub fn of(line: &str) -> LineEnd {
        if line.ends_with('\r') {
            LineEnd::Return
        } else {
            LineEnd::Plain
        }
    }
}

impl Display for LineEnd {
    fn fmt<W: fmt::Write>(&self, f: &mut Formatter<W>) -> fmt::Result {
        match self {
            LineEnd::Plain => Ok(()),
            LineEnd::Return => f.write_str(
                "it ends in a carriage return, which tr -d '\\r' removes",
            ),
        }
    }
}

impl Display for DeadFault {
    fn fmt<W: fmt::Write>(&self, f: &mut Formatter<W>) -> fmt::Result {
        match self {
            DeadFault::Unread { path, reason } => write!(f, "{path}: {reason}"),
            DeadFault::Line { path, number, end } => {
                write!(
                    f,
                    "{path}: line {number}: no number from 0 to {LAST_ID} in plain digits"
                )?;
                match end {
                    LineEnd::Plain => Ok(()),
                    LineEnd::Return => write!(f, "; {end}"),
                }
            }
            DeadFault::NoneLive => write!(f, "no live ledger is named"),
            DeadFault::Logs => write!(f, "ledgers of the logs unread"),
            DeadFault::Manifest(fault) => write!(f, "{fault}"),
            DeadFault::Memory => write!(f, "memory"),
        }
    }
}

impl error::Error for DeadFault {}

impl From<AllocError> for DeadFault {
    fn from(_: AllocError) -> DeadFault {
        DeadFault::Memory
    }
}

impl<T: Drop> From<AllocFailed<T>> for DeadFault {
    fn from(_: AllocFailed<T>) -> DeadFault {
        DeadFault::Memory
    }
}

impl From<ReadFault> for DeadFault {
    fn from(fault: ReadFault) -> DeadFault {
        DeadFault::Manifest(fault)
    }
}
