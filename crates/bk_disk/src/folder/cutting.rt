//! Truncation of the file of a log, beside a copy of what it loses.

ghost use Rattle.std.specs.Prelude.{◌≤◌};

use super::{Folder, Opened};
use crate::DiskFault;
use crate::copying::{CopyFailed, copy_bytes};
use crate::file_fault::{Failed, Operation};
use crate::trouble::State;
use std::alloc::Global;
use std::fs::{self, File, OpenOptions};
use std::io::{self, ErrorKind};

impl Folder {
    /// Truncates a log's file to its first `length` bytes and syncs it. What it had behind them is
    /// copied to a new file beside it before, which is synced. The file stays open no longer.
    pub(crate) fn cut(&mut self, alloc: Global, log: u32, length: u64) -> Result<(), DiskFault> {
        self.begin_write(alloc)?;
        self.check_trouble(alloc, log)?;
        let Opened { path, file, found } = self.open_to_change(alloc, log)?;
        if found.len() <= length {
            return Ok(());
        }
        self.keep_rest(alloc, &path, &file, length, found.len())?;
        self.kept.close(log);
        match truncate(&file, length) {
            Ok(()) => Ok(()),
            Err(failed) => Err(self.lose(log, State::Lost, path, failed)),
        }
    }

    // Copies the bytes of a log's file at these positions to a new file beside it, and syncs it.
    fn keep_rest(
        &mut self,
        alloc: Global,
        path: &str,
        file: &File,
        from: u64,
        to: u64,
    ) -> Result<(), DiskFault>
        requires { from ≤ to }
    {
        let (beside, mut copy) = self.create_beside(alloc, path)?;
        let failed = match copy_bytes(file, from, to, &mut copy) {
            Ok(()) => copy.sync_all().err().map(|error| (Operation::Sync, error)),
            Err(CopyFailed::Write(error)) => Some((Operation::Write, error)),
            Err(CopyFailed::Read(error)) => Some((Operation::Read, error)),
        };
        match failed {
            None => self
                .sync_names()
                .map_err(|error| self.refuse_folder(Operation::Sync, error)),
            Some((operation, error)) => {
                // It has nothing that the log has not.
                let _ = fs::remove_file(&self.rt, beside.as_str());
                Err(self.refuse(beside, Failed::new(operation, error)))
            }
        }
    }

    // Makes a file beside a log's file, under a name that is free.
    fn create_beside(&self, alloc: Global, path: &str) -> Result<(String, File), DiskFault> {
        for number in 0..u32::MAX {
            let beside = format!(in alloc; "{path}.cut.{number}").map_err(|_| DiskFault::Memory)?;
            let made = OpenOptions::new()
                .write(true)
                .create_new(true)
                .open(&self.rt, beside.as_str());
            match made {
                Ok(file) => return Ok((beside, file)),
                Err(error) if error.kind() == ErrorKind::AlreadyExists => {}
                Err(error) => {
                    return Err(self.refuse(beside, Failed::new(Operation::Create, error)));
                }
            }
        }
        let error = io::Error::from(ErrorKind::AlreadyExists);
        Err(self.refuse_folder(Operation::Create, error))
    }
}

// Truncates a file and syncs it.
fn truncate(file: &File, length: u64) -> Result<(), Failed> {
    file.set_len(length)
        .map_err(|error| Failed::new(Operation::Truncate, error))?;
    file.sync_all()
        .map_err(|error| Failed::new(Operation::Sync, error))
}
