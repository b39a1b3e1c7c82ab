//! The words of the command line.

use std::alloc::AllocGlobal;
use std::env::Env;
use std::{env, io};
use thiserror::Error;

/// Why the words of the command line are not known. Its text is what the program reports.
#[derive(Clone, Copy, Debug, PartialEq, Eq, Error)]
pub(crate) enum WordsFault {
    /// A word is not UTF-8.
    #[error("error: a word of the command line is not UTF-8")]
    NotText,
    /// Out of memory.
    #[error("fault memory")]
    Memory,
}

impl WordsFault {
    /// Returns the program's exit status.
    pub(crate) fn status(self) -> u8 {
        match self {
            WordsFault::NotText => 2,
            WordsFault::Memory => 1,
        }
    }
}

/// Returns the words of the process's command line, the program's name first.
pub(crate) fn words_of<R: Env + AllocGlobal>(rt: &R) -> Result<Vec<String>, WordsFault> {
    let args = match env::args(rt) {
        Ok(args) => args,
        Err(error) if error.kind() == io::ErrorKind::InvalidData => {
            return Err(WordsFault::NotText);
        }
        Err(_) => return Err(WordsFault::Memory),
    };
    args.collect(rt.alloc()).map_err(|_| WordsFault::Memory)
}
