//! Logs that this disk sets aside for the next one, since a write or a sync of them failed.

ghost use Rattle.std.specs.Prelude.{◌≡◌, None, is_some, OnOk};
ghost use Rattle.bk_disk.specs.Doubts.{trouble_of};

use super::Folder;
use crate::file_fault::{Failed, FileFault, Operation};
use crate::names::unsynced_name_of;
use crate::reason::Reason;
use crate::trouble::{State, Trouble};
use crate::{DiskFault, name_of};
use std::alloc::{AllocError, Global};
use std::fs::{self, OpenOptions};
use std::io::ErrorKind;

impl Folder {
    // Notes a call that failed on the file of a log, and the state in which it leaves the log.
    pub(super) fn lose(
        &mut self,
        log: u32,
        state: State,
        path: String,
        failed: Failed,
    ) -> DiskFault {
        let unmarked = self.note(log, state, failed);
        self.watch
            .note(Some(FileFault::of_log(path, failed, unmarked)));
        DiskFault::Disk
    }

    // Notes the state in which a failed call leaves a log, and closes its file. A log that is lost
    // is set aside; returns the call that failed if it is not.
    pub(super) fn note(&mut self, log: u32, state: State, failed: Failed) -> Option<Failed> {
        self.kept.close(log);
        let unmarked = match state {
            State::Lost => self.set_aside(log).err(),
            State::Replaced | State::Gone => None,
        };
        let trouble = Trouble {
            state,
            failed,
            unmarked,
        };
        self.troubles.note(log, trouble);
        unmarked
    }

    // Fails with `Disk` if an earlier call leaves a log that cannot be written or synced.
    pub(super) fn check_trouble(&self, alloc: Global, log: u32) -> Result<(), DiskFault>
        ensures { OnOk result (trouble_of self.now.troubles log ≡ None) }
    {
        let Some(trouble) = self.troubles.find(log) else {
            return Ok(());
        };
        let path = self.path_of(alloc, log)?;
        let fault = FileFault::of_log(path, trouble.failed, trouble.unmarked);
        self.watch.note(Some(fault));
        Err(DiskFault::Disk)
    }

    /// Returns whether a failed call left a log that cannot be written or synced.
    pub(crate) fn is_lost(&self, log: u32) -> bool
        ensures { result ≡ is_some (trouble_of self.now.troubles log) }
    {
        self.troubles.find(log).is_some()
    }

    // Returns whether a failed call left a log in this state.
    pub(super) fn is_left(&self, log: u32, state: State) -> bool {
        match self.troubles.find(log) {
            Some(trouble) => trouble.state == state,
            None => false,
        }
    }

    // Makes the file that sets a log aside, and syncs the directory.
    fn set_aside(&mut self, log: u32) -> Result<(), Failed> {
        let Ok(path) = self.unsynced_path_of(log) else {
            return Err(Failed::by(Operation::Create, Reason::MEMORY));
        };
        let made = OpenOptions::new()
            .write(true)
            .create_new(true)
            .open(&self.rt, path.as_str());
        match made {
            Ok(_) => {}
            // An earlier call made it.
            Err(error) if error.kind() == ErrorKind::AlreadyExists && self.is_plain(&path) => {}
            Err(error) => return Err(Failed::new(Operation::Create, error)),
        }
        self.sync_names()
            .map_err(|error| Failed::new(Operation::Sync, error))
    }

    // Removes the file that sets a log aside, if there is one. If this fails, the next disk writes
    // the log again or removes the file.
    pub(super) fn take_back(&mut self, log: u32) {
        if let Ok(path) = self.unsynced_path_of(log) {
            let _ = fs::remove_file(&self.rt, path.as_str());
        }
    }

    // Returns whether a name leads to a plain file.
    fn is_plain(&self, path: &str) -> bool {
        match fs::symlink_metadata(&self.rt, path) {
            Ok(found) => found.is_file(),
            Err(_) => false,
        }
    }

    // Returns the path of the file that sets a log aside.
    fn unsynced_path_of(&self, log: u32) -> Result<String, AllocError> {
        let name = unsynced_name_of(self.rt.alloc(), log)?;
        format!(in self.rt.alloc(); "{}/{}", self.path, name)
    }

    // Returns the path of a log's file.
    pub(super) fn path_of(&self, alloc: Global, log: u32) -> Result<String, DiskFault> {
        let name = name_of(alloc, log).map_err(|_| DiskFault::Memory)?;
        format!(in alloc; "{}/{}", self.path, name).map_err(|_| DiskFault::Memory)
    }
}
