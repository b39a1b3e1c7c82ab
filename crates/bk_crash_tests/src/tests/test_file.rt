//! A manifest's file in memory whose device fails, and what a loss of power leaves of it.

ghost use Rattle.std.specs.Prelude.{◌≡◌, [], false, IsTrue, IsErrOf};
ghost use Rattle.bk_manifest.specs.Keeping.{FailsExactlyIf};

use super::chance::Chance;
use bk_crash::Choices;
use bk_manifest::{FileFault, HEADER, ManifestFile};
use std::alloc::{AllocError, Global};

/// The bytes of a file, and how many of them are synced.
#[derive(Drop)]
pub(super) struct Saved {
    pub(super) bytes: Vec<u8>,
    pub(super) synced: usize,
}

impl Saved {
    /// Returns an empty file.
    pub(super) fn empty(alloc: Global) -> Saved {
        Saved {
            bytes: Vec::new(alloc),
            synced: 0,
        }
    }

    /// Returns a file of these bytes, all of them synced.
    pub(super) fn of(alloc: Global, bytes: &[u8]) -> Result<Saved, AllocError> {
        Ok(Saved {
            bytes: Vec::from_slice(alloc, bytes)?,
            synced: bytes.len(),
        })
    }

    /// Returns what a loss of power leaves: the synced bytes, and a prefix of the others.
    pub(super) fn left(&self, alloc: Global, chance: &mut Chance) -> Result<Vec<u8>, AllocError> {
        let synced = self.synced.min(self.bytes.len());
        let (front, behind) = self.bytes.split_at(synced);
        let more = part_of(behind, chance);
        let mut left = Vec::from_slice(alloc, front)?;
        left.extend_from_slice(more)?;
        Ok(left)
    }
}

/// Returns a prefix: nothing, all of it, or any number of bytes.
fn part_of<'a>(bytes: &'a [u8], chance: &mut Chance) -> &'a [u8] {
    let count = match chance.up_to(2) {
        0 => 0,
        1 => bytes.len(),
        _ => chance.up_to(bytes.len()),
    };
    &bytes[..count.min(bytes.len())]
}

/// Returns the number of first bytes that two files have in common.
fn common(one: &[u8], two: &[u8]) -> usize {
    let mut count = 0usize;
    for (a, b) in one.iter().zip(two.iter()) {
        if *a != *b {
            break;
        }
        count = count.saturating_add(1);
    }
    count
}

/// Returns what is left of a manifest that an opening changed, if the power fails meanwhile. If it
/// was replaced: the old or the new file; else a prefix of what was written after the old records.
pub(super) fn torn(
    alloc: Global,
    before: &[u8],
    after: &[u8],
    chance: &mut Chance,
) -> Result<Vec<u8>, AllocError> {
    let same = common(before, after);
    if same < HEADER {
        let left = if chance.up_to(1) == 0 { before } else { after };
        return Vec::from_slice(alloc, left);
    }
    let (front, behind) = after.split_at(same.min(after.len()));
    let more = part_of(behind, chance);
    let mut left = Vec::from_slice(alloc, front)?;
    left.extend_from_slice(more)?;
    Ok(left)
}

/// When a call on the file fails: the one after this many others. Then the power is off, or it was
/// refused once.
#[derive(Clone, Copy)]
pub(super) enum Failing {
    Power(u64),
    Once(u64),
}

/// A file in memory. It is not honest and states nothing of its bytes.
#[derive(Drop)]
pub(super) struct TestFile {
    saved: Saved,
    failing: Failing,
    failures: u64,
    /// Number of bytes that the first failing call writes of its piece. If it replaces the file, an
    /// odd number leaves the new one.
    kept: usize,
}

impl TestFile {
    pub(super) fn new(saved: Saved, failing: Failing, kept: usize) -> TestFile {
        TestFile {
            saved,
            failing,
            failures: 0,
            kept,
        }
    }

    /// Returns a copy of the bytes, with the number of synced ones.
    pub(super) fn saved(&self) -> Result<Saved, AllocError> {
        Ok(Saved {
            bytes: self.saved.bytes.clone()?,
            synced: self.saved.synced,
        })
    }

    /// Returns whether a call has failed.
    pub(super) fn has_failed(&self) -> bool {
        self.failures > 0
    }

    /// Returns whether the power has failed.
    pub(super) fn is_dead(&self) -> bool {
        self.failures > 0 && matches!(self.failing, Failing::Power(_))
    }

    /// Counts a call, and returns whether it fails.
    fn fails(&mut self) -> bool
        ensures { FailsExactlyIf self.old.failures self.new.failures (IsTrue result) }
    {
        match self.failing {
            Failing::Once(0) if self.failures > 0 => return false,
            Failing::Power(0) | Failing::Once(0) => {}
            Failing::Power(calls) => {
                self.failing = Failing::Power(calls.saturating_sub(1));
                return false;
            }
            Failing::Once(calls) => {
                self.failing = Failing::Once(calls.saturating_sub(1));
                return false;
            }
        }
        match self.failures.checked_add(1) {
            Some(more) => {
                self.failures = more;
                true
            }
            None => false,
        }
    }

    /// Cuts the file at a position and writes a piece there.
    fn put(&mut self, at: usize, piece: &[u8]) -> Result<(), FileFault>
        ensures failures { self.new.failures ≡ self.old.failures }
        ensures memory { IsErrOf result FileFault.Disk → ⊥ }
    {
        self.saved.bytes.truncate(at);
        self.saved.synced = self.saved.synced.min(at);
        match self.saved.bytes.extend_from_slice(piece) {
            Ok(()) => Ok(()),
            Err(_) => Err(FileFault::Memory),
        }
    }

    /// Puts a synced file of these bytes in the place of this one.
    fn put_all(&mut self, alloc: Global, whole: &[u8]) -> Result<(), FileFault>
        ensures failures { self.new.failures ≡ self.old.failures }
        ensures memory { IsErrOf result FileFault.Disk → ⊥ }
    {
        match Saved::of(alloc, whole) {
            Ok(saved) => {
                self.saved = saved;
                Ok(())
            }
            Err(_) => Err(FileFault::Memory),
        }
    }
}

impl ManifestFile for TestFile {
    ghost bytes = { λ _. [] };

    ghost synced = { λ _. 0 };

    ghost honest = { λ _. false };

    ghost failures = { λ file. file.failures };

    fn count_failures(&self) -> u64 {
        self.failures
    }

    fn read(&mut self, alloc: Global) -> Result<Vec<u8>, FileFault> {
        if self.fails() {
            return Err(FileFault::Disk);
        }
        match Vec::from_slice(alloc, &self.saved.bytes) {
            Ok(bytes) => Ok(bytes),
            Err(_) => Err(FileFault::Memory),
        }
    }

    fn write_at(&mut self, at: usize, piece: &[u8]) -> Result<(), FileFault> {
        let is_first = self.failures == 0;
        if self.fails() {
            if is_first {
                let _ = self.put(at, &piece[..self.kept.min(piece.len())]);
            }
            return Err(FileFault::Disk);
        }
        self.put(at, piece)
    }

    fn sync(&mut self) -> Result<(), FileFault> {
        if self.fails() {
            return Err(FileFault::Disk);
        }
        self.saved.synced = self.saved.bytes.len();
        Ok(())
    }

    fn replace(&mut self, alloc: Global, whole: &[u8]) -> Result<(), FileFault> {
        let is_first = self.failures == 0;
        if self.fails() {
            if is_first && self.kept % 2 == 1 {
                let _ = self.put_all(alloc, whole);
            }
            return Err(FileFault::Disk);
        }
        self.put_all(alloc, whole)
    }
}
