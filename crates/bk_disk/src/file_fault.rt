//! A call of the system that failed on a file or directory, for commands that print the fault.

use crate::reason::Reason;
use std::alloc::{AllocError, Global};
use std::error::Error;
use std::fmt::{Display, Formatter};
use std::{fmt, io};

/// A call of the system on a file or directory.
#[derive(Clone, Copy, Debug, PartialEq, Eq)]
pub enum Operation {
    Lock,
    List,
    Open,
    Create,
    Read,
    Write,
    Sync,
    Truncate,
    Rename,
    Remove,
}

impl Display for Operation {
    fn fmt<W: fmt::Write>(&self, f: &mut Formatter<W>) -> fmt::Result {
        f.write_str(match self {
            Operation::Lock => "lock",
            Operation::List => "list",
            Operation::Open => "open",
            Operation::Create => "create",
            Operation::Read => "read",
            Operation::Write => "write",
            Operation::Sync => "sync",
            Operation::Truncate => "truncate",
            Operation::Rename => "rename",
            Operation::Remove => "remove",
        })
    }
}

/// A call of the system that failed, and its reason.
#[derive(Clone, Copy, Debug, PartialEq, Eq)]
pub(crate) struct Failed {
    pub(crate) operation: Operation,
    pub(crate) reason: Reason,
}

impl Failed {
    /// Returns a call that the system refused.
    pub(crate) fn new(operation: Operation, error: io::Error) -> Failed {
        Failed::by(operation, Reason::of(&error))
    }

    /// Returns a call that failed for a reason.
    pub(crate) fn by(operation: Operation, reason: Reason) -> Failed {
        Failed { operation, reason }
    }
}

/// A call of the system that failed, with the file or directory and the reason. Its text is
/// `PATH: OPERATION: REASON`. If the call left a log that could not be set aside, it goes on with
/// `; not set aside: OPERATION: REASON`.
#[derive(Debug, Drop)]
pub struct FileFault {
    path: String,
    failed: Failed,
    unmarked: Option<Failed>,
}

impl FileFault {
    pub(crate) fn new(path: String, failed: Failed) -> FileFault {
        FileFault {
            path,
            failed,
            unmarked: None,
        }
    }

    /// Returns the fault of a log that could not be set aside, if it could not.
    pub(crate) fn of_log(path: String, failed: Failed, unmarked: Option<Failed>) -> FileFault {
        FileFault {
            path,
            failed,
            unmarked,
        }
    }

    /// Returns a copy.
    pub(crate) fn copy(&self, alloc: Global) -> Result<FileFault, AllocError> {
        Ok(FileFault {
            path: String::from_str(alloc, &self.path)?,
            failed: self.failed,
            unmarked: self.unmarked,
        })
    }

    /// Returns the path of the file or directory.
    pub fn path(&self) -> &str {
        self.path.as_str()
    }

    /// Returns the operation.
    pub fn operation(&self) -> Operation {
        self.failed.operation
    }

    /// Returns the reason of the system.
    pub fn reason(&self) -> io::Error {
        self.failed.reason.to_error()
    }
}

impl Display for FileFault {
    fn fmt<W: fmt::Write>(&self, f: &mut Formatter<W>) -> fmt::Result {
        let reason = self.failed.reason.to_error();
        write!(f, "{}: {}: {reason}", self.path, self.failed.operation)?;
        match self.unmarked {
            Some(Failed { operation, reason }) => {
                let reason = reason.to_error();
                write!(f, "; not set aside: {operation}: {reason}")
            }
            None => Ok(()),
        }
    }
}

impl Error for FileFault {}
