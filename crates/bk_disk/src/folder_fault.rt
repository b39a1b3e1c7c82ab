//! Why a directory is not opened.

use std::error::Error;
use std::fmt::{Display, Formatter};
use std::{fmt, io};

/// Why a directory is not opened to be read or to be written. Its text names the file or directory.
#[derive(Debug, Drop)]
pub enum FolderFault {
    /// Another process writes in the directory, or another disk of this process.
    InUse {
        /// The file whose lock it holds.
        lock: String,
        /// The number of the process, if the file has it.
        holder: Option<u32>,
    },
    /// What is at a path cannot be opened, locked or synced, or is no log; the reason.
    Refused {
        path: String,
        reason: io::Error,
    },
    /// An allocation was refused.
    Memory,
}

impl Display for FolderFault {
    fn fmt<W: fmt::Write>(&self, f: &mut Formatter<W>) -> fmt::Result {
        match self {
            FolderFault::InUse { lock, holder } => {
                match holder {
                    Some(process) => write!(f, "in use: process {process}")?,
                    None => write!(f, "in use: another program")?,
                }
                write!(
                    f,
                    " holds the lock of {lock}; one program writes in a folder at a time, so wait until it ends, or end it: the lock goes with it, and the file may stay"
                )
            }
            FolderFault::Refused { path, reason } => write!(f, "disk: {path}: {reason}"),
            FolderFault::Memory => write!(f, "memory"),
        }
    }
}

impl Error for FolderFault {}
