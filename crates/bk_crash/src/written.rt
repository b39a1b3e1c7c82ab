//! The record of a disk: the bytes of each log, its durable length, and the removed files. It
//! determines what a loss of power may leave.

ghost use Rattle.std.specs.Prelude.{◌≡◌, ℕ, ◌≤◌, List, Option, false, option_map, IfOk, OnOk};
ghost use Rattle.std.specs.FinMap as map;
ghost use Rattle.bk_record.specs.Files.{Files};
ghost use Rattle.bk_manifest.specs.Fact.{Fact};
ghost use Rattle.bk_manifest.specs.State.{IsStateOf, said, the_log, log_state};
ghost use Rattle.bk_store.specs.Crash.{MayLeave};
ghost use Rattle.bk_crash.specs.Noting.{noted, found_log, made_log, longer_log, patched_log, synced_log, cut_log, with_removed};
ghost use Rattle.bk_crash.specs.Leaving.{by_id, IsBackOf};
ghost use Rattle.bk_crash.specs.AllLogs.{logs_of, files_of, gone_of, AreSynced, ArePutBack};
ghost use Rattle.bk_crash.specs.Remaining.{AreWritten, MayRemain, IsBackOfBy};

use crate::written_log::{WrittenLog, beginning, damage, durable_length};
use bk_manifest::{LogState, State};
use std::alloc::{AllocError, Global};
use std::collections::BTreeMap;

/// A log id and the bytes of its file.
pub type File = (u32, Vec<u8>);

/// Chooses what a loss of power leaves, if it may leave several things.
pub trait Choices {
    /// Returns a number from 0 to `most`.
    fn up_to(&mut self, most: usize) -> usize
        ensures { result ≤ most };
}

/// The record of what was written to the logs of a disk.
#[derive(Drop)]
pub struct Written {
    logs: BTreeMap<u32, WrittenLog>,
    /// The removed files.
    gone: BTreeMap<u32, Vec<u8>>,
    /// Whether an allocation for the record failed, so that a part of it is missing.
    is_lost: bool,
}

impl Written {
    /// Returns an empty record.
    pub fn new(alloc: Global) -> Written
        ensures logs { logs_of result ≡ map.empty }
        ensures gone { gone_of result ≡ map.empty }
        ensures lost { result.is_lost ≡ false }
    {
        Written {
            logs: BTreeMap::new(alloc),
            gone: BTreeMap::new(alloc),
            is_lost: false,
        }
    }

    /// Returns a copy for the disk of the next process, which sees everything written while power
    /// stays on. What is not durable is not durable in the copy.
    ///
    /// # Errors
    ///
    /// - `AllocError` if an allocation fails.
    pub fn copy(&self) -> Result<Written, AllocError>
        ensures logs { IfOk result (λ copy. logs_of copy ≡ logs_of self.now) }
        ensures gone { IfOk result (λ copy. gone_of copy ≡ gone_of self.now) }
        ensures lost { IfOk result (λ copy. copy.is_lost ≡ self.now.is_lost) }
    {
        Ok(Written {
            logs: self.logs.clone()?,
            gone: self.gone.clone()?,
            is_lost: self.is_lost,
        })
    }

    /// Returns the files as they are while power stays on.
    ///
    /// # Errors
    ///
    /// - `AllocError` if an allocation fails.
    pub fn files(&self, alloc: Global) -> Result<Vec<File>, AllocError>
        ensures { IfOk result (λ files. by_id files.items ≡ files_of self.now) }
    {
        let mut files = Vec::new(alloc);
        for (log, written) in self.logs.iter() {
            files.push((*log, written.bytes().clone()?))?;
        }
        Ok(files)
    }

    /// Returns whether an allocation for the record failed, so that a part of it is missing.
    pub fn is_lost(&self) -> bool
        ensures { result ≡ self.now.is_lost }
    {
        self.is_lost
    }

    /// Records a log that is durable with all its bytes.
    pub fn find(&mut self, log: u32, bytes: Vec<u8>)
        ensures logs { self.new.is_lost ≡ false → logs_of self.new ≡ map.insert (logs_of self.old) log (found_log bytes.items) }
        ensures gone { gone_of self.new ≡ gone_of self.old }
    {
        self.put(log, WrittenLog::found(bytes));
    }

    /// Records a listing: no file that was removed earlier is back after a crash.
    pub(crate) fn list(&mut self, alloc: Global)
        ensures logs { logs_of self.new ≡ logs_of self.old }
        ensures gone { gone_of self.new ≡ map.empty }
    {
        self.gone = BTreeMap::new(alloc);
    }

    pub(crate) fn create(&mut self, alloc: Global, log: u32)
        ensures logs { self.new.is_lost ≡ false → logs_of self.new ≡ map.insert (logs_of self.old) log made_log }
        ensures gone { gone_of self.new ≡ gone_of self.old }
    {
        self.put(log, WrittenLog::made(alloc));
    }

    fn put(&mut self, log: u32, written: WrittenLog)
        ensures logs { self.new.is_lost ≡ false → logs_of self.new ≡ map.insert (logs_of self.old) log written }
        ensures gone { gone_of self.new ≡ gone_of self.old }
    {
        match self.logs.insert(log, written) {
            Ok(_) => {}
            Err(_) => self.is_lost = true,
        }
    }

    pub(crate) fn append(&mut self, log: u32, more: &[u8])
        ensures logs { self.new.is_lost ≡ false → logs_of self.new ≡ noted (longer_log more.now) (logs_of self.old) log }
        ensures gone { gone_of self.new ≡ gone_of self.old }
    {
        if let Some(written) = self.logs.get_mut(&log) {
            match written.append(more) {
                Ok(()) => {}
                Err(_) => self.is_lost = true,
            }
        }
    }

    pub(crate) fn patch(&mut self, log: u32, bytes: &[u8; 12])
        ensures logs { logs_of self.new ≡ noted (patched_log bytes.now) (logs_of self.old) log }
        ensures gone { gone_of self.new ≡ gone_of self.old }
    {
        if let Some(written) = self.logs.get_mut(&log) {
            written.patch(bytes);
        }
    }

    pub(crate) fn sync(&mut self, log: u32)
        ensures logs { logs_of self.new ≡ noted synced_log (logs_of self.old) log }
        ensures gone { gone_of self.new ≡ gone_of self.old }
    {
        if let Some(written) = self.logs.get_mut(&log) {
            written.sync();
        }
    }

    pub(crate) fn cut(&mut self, log: u32, length: u64)
        ensures logs { logs_of self.new ≡ noted (cut_log length) (logs_of self.old) log }
        ensures gone { gone_of self.new ≡ gone_of self.old }
    {
        if let Some(written) = self.logs.get_mut(&log) {
            written.cut(length);
        }
    }

    pub(crate) fn remove(&mut self, log: u32)
        ensures logs { logs_of self.new ≡ map.remove (logs_of self.old) log }
        ensures gone { self.new.is_lost ≡ false → gone_of self.new ≡ with_removed (gone_of self.old) log (map.get (logs_of self.old) log) }
    {
        if let Some(written) = self.logs.remove(&log) {
            match self.gone.insert(log, written.into_bytes()) {
                Ok(_) => {}
                Err(_) => self.is_lost = true,
            }
        }
    }

    /// Returns files that a loss of power may leave.
    ///
    /// Each log has a prefix with at least its synced bytes, and any bytes in the part of its
    /// header that was patched since. A log without synced bytes may be missing. Removed files, or
    /// prefixes of them, may be back.
    ///
    /// # Errors
    ///
    /// - `AllocError` if an allocation fails.
    pub fn left<C: Choices>(&self, alloc: Global, choices: &mut C) -> Result<Vec<File>, AllocError>
        ensures { (kept : Files) → AreSynced self.now kept
            → IfOk result (λ left. MayLeave (files_of self.now) (gone_of self.now) kept (by_id left.items)) }
    {
        let mut left = Vec::new(alloc);
        for (log, written) in self.logs.iter() {
            if let Some(bytes) = written.left(alloc, choices)? {
                left.push((*log, bytes))?;
            }
        }
        self.put_back(alloc, choices, &mut left)?;
        Ok(left)
    }

    /// Appends the removed files that are back.
    fn put_back<C: Choices>(
        &self,
        alloc: Global,
        choices: &mut C,
        left: &mut Vec<File>,
    ) -> Result<(), AllocError>
        ensures { OnOk result (ArePutBack (λ id. IsBackOf) self.now left.old.items left.new.items) }
    {
        for (log, bytes) in self.gone.iter() {
            if self.logs.contains_key(log) {
                continue;
            }
            if let Some(bytes) = back(alloc, bytes, choices)? {
                left.push((*log, bytes))?;
            }
        }
        Ok(())
    }

    /// Returns files that a loss of power may leave on a device that leaves any bytes after the
    /// synced ones, if the manifest of the logs means this state then.
    ///
    /// A log of which the state has durable bytes remains, with these and with its synced bytes. Any
    /// other log with its synced bytes, or it is missing. A removed file may be back, with its
    /// durable bytes if the state has it as removed.
    ///
    /// # Errors
    ///
    /// - `AllocError` if an allocation fails.
    pub fn remaining<C: Choices>(
        &self,
        alloc: Global,
        state: &State,
        choices: &mut C,
    ) -> Result<Vec<File>, AllocError>
        ensures { (kept : Files) (records : List Fact) → AreSynced self.now kept → IsStateOf records state.now → AreWritten (files_of self.now) records
            → IfOk result (λ left. MayRemain (files_of self.now) (gone_of self.now) kept records (by_id left.items)) }
    {
        let mut left = Vec::new(alloc);
        for (log, written) in self.logs.iter() {
            let other = self.other();
            if let Some(bytes) = written.remaining(alloc, state.log(*log), other, choices)? {
                left.push((*log, bytes))?;
            }
        }
        self.put_back_by(alloc, state, choices, &mut left)?;
        Ok(left)
    }

    /// Returns bytes of a log, which a device may leave in any other.
    fn other(&self) -> &[u8] {
        match self.logs.iter().next() {
            Some((_, log)) => log.bytes(),
            None => &[],
        }
    }

    /// Appends the removed files that are back, by a state.
    fn put_back_by<C: Choices>(
        &self,
        alloc: Global,
        state: &State,
        choices: &mut C,
        left: &mut Vec<File>,
    ) -> Result<(), AllocError>
        ensures { OnOk result (ArePutBack (λ id. IsBackOfBy (log_state (said state.now (the_log id)))) self.now left.old.items left.new.items) }
    {
        for (log, bytes) in self.gone.iter() {
            if self.logs.contains_key(log) {
                continue;
            }
            if let Some(bytes) = back_by(alloc, state.log(*log), bytes, choices)? {
                left.push((*log, bytes))?;
            }
        }
        Ok(())
    }
}

/// Returns a removed file or a prefix of it, if it is back.
fn back<C: Choices>(
    alloc: Global,
    file: &[u8],
    choices: &mut C,
) -> Result<Option<Vec<u8>>, AllocError>
    ensures { IfOk result (λ back. IsBackOf file.now (option_map (λ bytes. bytes.items) back)) }
{
    if choices.up_to(1) == 0 {
        Ok(Some(beginning(alloc, file, 0, choices)?))
    } else {
        Ok(None)
    }
}

/// Returns a removed file, if it is back: any bytes, after those that its removal has as durable.
fn back_by<C: Choices>(
    alloc: Global,
    state: Option<LogState>,
    file: &[u8],
    choices: &mut C,
) -> Result<Option<Vec<u8>>, AllocError>
    ensures { IfOk result (λ back. IsBackOfBy state file.now (option_map (λ bytes. bytes.items) back)) }
{
    if choices.up_to(1) == 1 {
        return Ok(None);
    }
    let least = durable_length(state).unwrap_or(0) as usize;
    let mut bytes = beginning(alloc, file, least, choices)?;
    damage(alloc, &mut bytes, file, least, choices)?;
    Ok(Some(bytes))
}
