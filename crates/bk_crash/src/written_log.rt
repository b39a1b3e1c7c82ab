//! The record of one log, and what a loss of power may leave of it.

ghost use Rattle.std.specs.Prelude.{◌≡◌, ℕ, ◌≤◌, List, ◌++◌, take, option_map, IfOk, OnOk, OnErr};
ghost use Rattle.bk_disk.specs.Disk.{patched_file};
ghost use Rattle.bk_crash.specs.Noting.{found_log, made_log, longer_log, patched_log, synced_log, cut_log};
ghost use Rattle.bk_crash.specs.Leaving.{IsLeftOf, IsSpoiled, IsBegun, IsDamagedFrom};
ghost use Rattle.bk_crash.specs.Remaining.{RemainsOf};
ghost use Rattle.bk_manifest_disk.specs.Recording.{promised};

use crate::Choices;
use bk_manifest::LogState;
use bk_record::HEADER_LENGTH;
use std::alloc::{AllocError, Global};
use std::marker::Model;

/// Begin and end of the bytes of a header that a patch writes.
const PATCHED: (usize, usize) = (8, 20);

/// The record of a log.
#[derive(Drop)]
pub(crate) struct WrittenLog {
    bytes: Vec<u8>,
    /// Number of durable bytes, or `None` if the file itself is not durable.
    synced: Option<usize>,
    /// Whether the header was patched since.
    is_patched: bool,
}

impl Model for WrittenLog {
    ghost use Rattle.bk_crash.specs.Noting.{NotedLog, log_code};

    ghost Value = { NotedLog };

    ghost coded = { log_code };

    ghost view = { λ log. record { bytes = log.bytes.items; synced = log.synced; patched = log.is_patched } };
}

impl Clone for WrittenLog {
    ghost is_clone = { λ log copy. copy ≡ log };

    fn clone(&self) -> Result<WrittenLog, AllocError> {
        Ok(WrittenLog {
            bytes: self.bytes.clone()?,
            synced: self.synced,
            is_patched: self.is_patched,
        })
    }
}

impl WrittenLog {
    /// Returns a log that is durable with all its bytes.
    pub fn found(bytes: Vec<u8>) -> WrittenLog
        ensures { result ≡ found_log bytes.items }
    {
        let length = bytes.len();
        WrittenLog {
            bytes,
            synced: Some(length),
            is_patched: false,
        }
    }

    /// Returns a log that was created and of which nothing is durable.
    pub fn made(alloc: Global) -> WrittenLog
        ensures { result ≡ made_log }
    {
        WrittenLog {
            bytes: Vec::new(alloc),
            synced: None,
            is_patched: false,
        }
    }

    /// Returns the bytes that were written.
    pub fn bytes(&self) -> &Vec<u8>
        ensures { result.now.items ≡ self.now.bytes }
    {
        &self.bytes
    }

    /// Returns the bytes that were written.
    pub fn into_bytes(self) -> Vec<u8>
        ensures { result.items ≡ self.bytes }
    {
        self.bytes
    }

    /// Records bytes appended. If out of memory, fails and records nothing.
    pub fn append(&mut self, more: &[u8]) -> Result<(), AllocError>
        ensures ok { OnOk result (self.new ≡ longer_log more.now self.old) }
        ensures err { OnErr result (self.new ≡ self.old) }
    {
        self.bytes.extend_from_slice(more)
    }

    /// Records twelve bytes written into the header.
    pub fn patch(&mut self, bytes: &[u8; 12])
        ensures { self.new ≡ patched_log bytes.now self.old }
    {
        self.is_patched = true;
        overwrite(&mut self.bytes, bytes);
    }

    /// Records that everything written is durable.
    pub fn sync(&mut self)
        ensures { self.new ≡ synced_log self.old }
    {
        self.synced = Some(self.bytes.len());
        self.is_patched = false;
    }

    /// Records that the log is truncated to `length` bytes.
    pub fn cut(&mut self, length: u64)
        ensures { self.new ≡ cut_log length self.old }
    {
        let length = length as usize;
        self.bytes.truncate(length);
        self.synced = self.synced.map(|synced| synced.min(length));
    }
}

impl WrittenLog {
    /// Returns a prefix of the log of at least `least` bytes, possibly with other bytes in its
    /// patched header.
    fn begun<C: Choices>(
        &self,
        alloc: Global,
        least: usize,
        choices: &mut C,
    ) -> Result<Vec<u8>, AllocError>
        ensures { IfOk result (λ bytes. IsBegun self.now least bytes.items) }
    {
        let mut bytes = beginning(alloc, &self.bytes, least, choices)?;
        if self.is_patched {
            spoil(&mut bytes, choices);
        }
        Ok(bytes)
    }

    /// Returns what a loss of power leaves of the log, or `None` for no file, if nothing was
    /// synced.
    pub fn left<C: Choices>(
        &self,
        alloc: Global,
        choices: &mut C,
    ) -> Result<Option<Vec<u8>>, AllocError>
        ensures { IfOk result (λ left. IsLeftOf self.now (option_map (λ bytes. bytes.items) left)) }
    {
        let least = match self.synced {
            Some(synced) => synced,
            None if choices.up_to(3) == 0 => return Ok(None),
            None => 0,
        };
        Ok(Some(self.begun(alloc, least, choices)?))
    }

    /// Returns what a loss of power leaves of the log, by the last record about it, on a device that
    /// leaves any bytes after the synced ones; `None` for no file, if nothing was synced or the
    /// record has no durable bytes. `other` may be left after the synced bytes.
    pub fn remaining<C: Choices>(
        &self,
        alloc: Global,
        state: Option<LogState>,
        other: &[u8],
        choices: &mut C,
    ) -> Result<Option<Vec<u8>>, AllocError>
        ensures { IfOk result (λ left. RemainsOf state self.now (option_map (λ bytes. bytes.items) left)) }
    {
        let durable = durable_length(state);
        if (self.synced.is_none() || durable.is_none()) && choices.up_to(3) == 0 {
            return Ok(None);
        }
        let least = self.synced.unwrap_or(0).max(durable.unwrap_or(0) as usize);
        let mut bytes = self.begun(alloc, least, choices)?;
        damage(alloc, &mut bytes, other, least.max(HEADER_LENGTH), choices)?;
        Ok(Some(bytes))
    }
}

/// Returns how many bytes of a log its last record has as durable.
pub(crate) fn durable_length(state: Option<LogState>) -> Option<u64>
    ensures { result ≡ promised state }
{
    match state {
        Some(LogState::Durable { length } | LogState::Removed { length }) => Some(length),
        Some(LogState::Made) | None => None,
    }
}

/// A record that was never written.
const RECORD: [u8; 28] =
    *b"\x00\x00\x00\x18\x00\x00\x00\x00\x00\x00\x00\x4d\x00\x00\x00\x00\x00\x00\x00\x01mmmmmmmm";

/// Leaves any bytes in a file of at least `end` bytes, from there or from a later position on.
pub(crate) fn damage<C: Choices>(
    alloc: Global,
    bytes: &mut Vec<u8>,
    other: &[u8],
    end: usize,
    choices: &mut C,
) -> Result<(), AllocError>
    ensures { OnOk result (IsDamagedFrom end bytes.old.items bytes.new.items) }
{
    if bytes.len() < end {
        return Ok(());
    }
    let more = match choices.up_to(2) {
        0 => 0,
        1 => choices.up_to(40),
        _ => bytes.len(),
    };
    bytes.truncate(end.saturating_add(more));
    add_damage(alloc, bytes, other, choices)
}

/// Appends what a device may leave: nothing, zeros, ones, another log from its header on or without
/// it, or a record that was never written.
fn add_damage<C: Choices>(
    alloc: Global,
    bytes: &mut Vec<u8>,
    other: &[u8],
    choices: &mut C,
) -> Result<(), AllocError>
    ensures { OnOk result ((more : List ℕ) × (bytes.new.items ≡ bytes.old.items ++ more)) }
{
    match choices.up_to(5) {
        0 => Ok(()),
        1 => add_all(bytes, &vec![in alloc; 0u8; choices.up_to(100)]?),
        2 => add_all(bytes, &vec![in alloc; 0xffu8; choices.up_to(100)]?),
        3 => add_all(bytes, other),
        4 => add_all(bytes, &other[HEADER_LENGTH.min(other.len())..]),
        _ => add_all(bytes, &RECORD),
    }
}

fn add_all(bytes: &mut Vec<u8>, more: &[u8]) -> Result<(), AllocError>
    ensures { OnOk result (bytes.new.items ≡ bytes.old.items ++ more.now) }
{
    bytes.extend_from_slice(more)
}

/// Overwrites twelve bytes from byte 8 of a file, if it is long enough.
fn overwrite(file: &mut [u8], bytes: &[u8; 12])
    ensures { file.new ≡ patched_file file.old bytes.now }
{
    if file.len() >= PATCHED.1 {
        file[PATCHED.0..PATCHED.1].copy_from_slice(bytes);
    }
}

/// Returns a prefix of a file of at least `least` bytes: just these, all, a few more, or any
/// number.
pub(crate) fn beginning<C: Choices>(
    alloc: Global,
    file: &[u8],
    least: usize,
    choices: &mut C,
) -> Result<Vec<u8>, AllocError>
    ensures { IfOk result (λ bytes. (count : ℕ) × (least ≤ count) × (bytes.items ≡ take count file.now)) }
{
    let open = file.len().saturating_sub(least);
    let more = match choices.up_to(3) {
        0 => 0,
        1 => open,
        2 => choices.up_to(30),
        _ => choices.up_to(open),
    };
    let end = least.saturating_add(more);
    Vec::from_slice(alloc, &file[..end.min(file.len())])
}

/// Overwrites the patched bytes of a header, or leaves them.
fn spoil<C: Choices>(file: &mut [u8], choices: &mut C)
    ensures { IsSpoiled file.old file.new }
{
    match choices.up_to(2) {
        0 => overwrite(file, &[0; 12]),
        1 => overwrite(file, &[0xa5; 12]),
        _ => {}
    }
}
