//! The patch of a log's header, which seals the log.

use super::{Folder, Opened};
use crate::DiskFault;
use crate::file_fault::{Failed, Operation};
use crate::trouble::State;
use std::alloc::Global;
use std::fs::{File, OpenOptions};
use std::os::unix::fs::FileExt;

impl Folder {
    /// Writes twelve bytes over those at byte 8 of a log's file, which seals the log, and syncs the
    /// file. It stays open no longer.
    pub(crate) fn write_patch(
        &mut self,
        alloc: Global,
        log: u32,
        bytes: &[u8; 12],
    ) -> Result<(), DiskFault> {
        self.begin_write(alloc)?;
        self.check_trouble(alloc, log)?;
        let Opened { path, file, found } = self.open_to_change(alloc, log)?;
        if found.len() < 20 {
            return Err(DiskFault::PastEnd);
        }
        match self.patch_file(log, &file, bytes) {
            Ok(()) => {
                self.kept.close(log);
                Ok(())
            }
            Err(failed) => Err(self.lose(log, State::Lost, path, failed)),
        }
    }

    // Writes twelve bytes at byte 8 of a log's file, and syncs it.
    fn patch_file(&mut self, log: u32, file: &File, bytes: &[u8; 12]) -> Result<(), Failed> {
        file.write_all_at(bytes, 8)
            .map_err(|reason| Failed::new(Operation::Write, reason))?;
        self.sync_log(log, file)
    }

    // Opens a log's file to read and write it.
    pub(super) fn open_to_change(&mut self, alloc: Global, log: u32) -> Result<Opened, DiskFault> {
        self.open_log(alloc, log, OpenOptions::new().read(true).write(true))
    }
}
