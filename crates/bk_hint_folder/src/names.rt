//! The names of a directory that are of logs and of hints.

ghost use Rattle.std.specs.Prelude.{◌<◌, ◌^◌, IfOk, IfSome};

use crate::HintingFault;
use bk_disk::{FolderFault, log_of};
use std::alloc::{AllocError, Global};
use std::{fs, io};

/// The logs of a directory, and the files beside them, by log: each rising.
#[derive(Drop)]
pub(crate) struct Names {
    pub(crate) logs: Vec<u32>,
    /// The hints, `1f.hint` of log 31.
    pub(crate) hints: Vec<u32>,
    /// The hints that were not written to their end, `1f.hint.new`.
    pub(crate) torn: Vec<u32>,
    /// The logs that are set aside, `1f.unsynced`.
    pub(crate) aside: Vec<u32>,
}

/// What a name of a directory is.
#[derive(Clone, Copy)]
enum Named {
    Log(u32),
    Hint(u32),
    Torn(u32),
    Aside(u32),
    Other,
}

impl Names {
    /// Returns the names of the directory at a path.
    ///
    /// # Errors
    ///
    /// - `Folder` if it cannot be listed, or memory is refused.
    pub(crate) fn of(rt: &HostRuntime, path: &str) -> Result<Names, HintingFault> {
        let alloc = rt.alloc();
        let mut names = Names {
            logs: Vec::new(alloc),
            hints: Vec::new(alloc),
            torn: Vec::new(alloc),
            aside: Vec::new(alloc),
        };
        let entries = fs::read_dir(rt, path).map_err(|reason| unlisted(alloc, path, reason))?;
        for entry in entries {
            let entry = entry.map_err(|reason| unlisted(alloc, path, reason))?;
            let named = named_by(alloc, entry.file_name())?;
            names.add(named)?;
        }
        names.sort()?;
        Ok(names)
    }

    /// Adds a name.
    fn add(&mut self, named: Named) -> Result<(), AllocError> {
        match named {
            Named::Log(log) => self.logs.push(log)?,
            Named::Hint(log) => self.hints.push(log)?,
            Named::Torn(log) => self.torn.push(log)?,
            Named::Aside(log) => self.aside.push(log)?,
            Named::Other => {}
        }
        Ok(())
    }

    /// Returns whether a log is set aside.
    pub(crate) fn is_aside(&self, log: u32) -> bool {
        self.aside.contains(&log)
    }

    /// Sorts them.
    fn sort(&mut self) -> Result<(), AllocError> {
        self.logs.sort()?;
        self.hints.sort()?;
        self.torn.sort()?;
        self.aside.sort()
    }
}

/// Returns the fault of a directory that cannot be listed.
fn unlisted(alloc: Global, path: &str, reason: io::Error) -> HintingFault {
    HintingFault::Folder(match String::from_str(alloc, path) {
        Ok(path) => FolderFault::Refused { path, reason },
        Err(_) => FolderFault::Memory,
    })
}

/// Returns what a name is.
fn named_by(alloc: Global, name: &str) -> Result<Named, AllocError> {
    if let Some(log) = log_of(name) {
        return Ok(Named::Log(log));
    }
    if let Some(log) = log_before(alloc, name, ".hint")? {
        return Ok(Named::Hint(log));
    }
    if let Some(log) = log_before(alloc, name, ".hint.new")? {
        return Ok(Named::Torn(log));
    }
    match log_before(alloc, name, ".unsynced")? {
        Some(log) => Ok(Named::Aside(log)),
        None => Ok(Named::Other),
    }
}

/// Returns the log whose file would have this name, with `.log` in place of this end.
fn log_before(alloc: Global, name: &str, end: &str) -> Result<Option<u32>, AllocError>
    ensures { IfOk result (λ found. IfSome found (λ log. log < 2 ^ 31)) }
{
    match name.strip_suffix(end) {
        Some(id) => {
            let file = format!(in alloc; "{id}.log")?;
            Ok(log_of(&file))
        }
        None => Ok(None),
    }
}
