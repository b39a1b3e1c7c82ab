//! Why a call on a directory or a file failed, in a few bytes that every call can keep and every
//! thread can share. The text is made when it is reported.

use std::io::{self, ErrorKind};

/// Why a call failed.
#[derive(Clone, Copy, Debug, PartialEq, Eq)]
pub(crate) enum Reason {
    /// The system's number of the error.
    System(i32),
    /// An error of the library, which has no number.
    Library(ErrorKind),
    /// What this crate found.
    Found(Finding),
}

/// What this crate found in a directory.
#[derive(Clone, Copy, Debug, PartialEq, Eq)]
pub(crate) enum Finding {
    /// Another program has the lock.
    Held,
    /// The name of a log is a link, in a directory that is written.
    Link,
    /// A file has the names of two logs.
    TwoLogs,
    /// The lock file is a link.
    LinkedLock,
    /// The lock file has a second name, or is no plain file.
    OddLock,
    /// The name of a log is no file, in a directory that is read.
    NoFile,
    /// A name of this crate is a link, a directory, a pipe, a socket or a device.
    LinkedName,
    Directory,
    Pipe,
    Socket,
    Device,
    /// The file of a log has another length than it was left with.
    Changed,
    /// The name of a log leads to another file.
    Replaced,
    /// The file of a log ends before a view of it.
    Shorter,
    /// Another log could not be noted as lost.
    Unnoted,
    /// There is a copy of a log that is missing.
    CopyAlone,
    /// A file of this crate has a second name.
    TwoNames,
}

impl Finding {
    /// Returns the kind of error that the library has for it.
    fn kind(self) -> ErrorKind {
        match self {
            Finding::Held => ErrorKind::ResourceBusy,
            Finding::NoFile => ErrorKind::NotFound,
            Finding::Shorter => ErrorKind::UnexpectedEof,
            Finding::Unnoted => ErrorKind::OutOfMemory,
            Finding::Changed | Finding::Replaced => ErrorKind::Other,
            _ => ErrorKind::InvalidInput,
        }
    }

    /// Returns its text, of at most 80 bytes.
    fn text(self) -> &'static str {
        match self {
            Finding::Held => "another program writes here",
            Finding::Link => "a link is no log in a directory that is written: remove it",
            Finding::TwoLogs => "two names of one file, which is no log here: remove one of them",
            Finding::LinkedLock => "a link is not followed to lock a directory: remove it",
            Finding::OddLock => "the lock is a plain file with one name: move this away",
            Finding::NoFile => "this is no file",
            Finding::LinkedName => "a link is no plain file: remove it",
            Finding::Directory => "a directory is no plain file: move it away",
            Finding::Pipe => "a pipe is no plain file: move it away",
            Finding::Socket => "a socket is no plain file: move it away",
            Finding::Device => "a device is no plain file: move it away",
            Finding::Changed => "somebody else changed the file's length",
            Finding::Replaced => "another file has the name of this log",
            Finding::Shorter => "the file is shorter than it was",
            Finding::Unnoted => "no memory to note which log failed",
            Finding::CopyAlone => "a copy of a log that is missing: move it away, or back",
            Finding::TwoNames => "a file with a second name: remove one of them",
        }
    }
}

impl Reason {
    /// Returns that memory is refused.
    pub(crate) const MEMORY: Reason = Reason::Library(ErrorKind::OutOfMemory);

    /// Returns the reason that the library gives.
    pub(crate) fn of(error: &io::Error) -> Reason {
        match error.raw_os_error() {
            Some(code) => Reason::System(code),
            None => Reason::Library(error.kind()),
        }
    }

    /// Returns its kind.
    pub(crate) fn kind(self) -> ErrorKind {
        match self {
            Reason::System(code) => io::Error::from_raw_os_error(code).kind(),
            Reason::Library(kind) => kind,
            Reason::Found(finding) => finding.kind(),
        }
    }

    /// Returns the error that the library has for it, with its text.
    pub(crate) fn to_error(self) -> io::Error {
        match self {
            Reason::System(code) => io::Error::from_raw_os_error(code),
            Reason::Library(kind) => io::Error::from(kind),
            Reason::Found(finding) => io::Error::new(finding.kind(), finding.text()),
        }
    }
}
