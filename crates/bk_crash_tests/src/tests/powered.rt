//! Stores on disks whose power fails, bare or with a manifest.

use super::chance::Chance;
use super::stop::{Stop, not_opened};
use super::test_file::{Failing, Saved, TestFile, torn};
use bk_crash::{Choices, File, PowerDisk, Written};
use bk_disk::{DiskFault, LogDisk, MemDisk};
use bk_drive::{OpenFault, Settings, Store};
use bk_manifest::{ManifestError, State, read_manifest};
use bk_manifest_disk::{Fault, KeptDisk, LimitedDisk, open};
use std::alloc::{AllocError, Global};

const SETTINGS: Settings = Settings {
    log_limit: 2048,
    cache_limit: 100_000,
    recent: 2,
    slots: 65_536,
    leases: 16,
    minor: 500,
    major: 1000,
};

/// What a loss of power leaves: the files of the logs, and the bytes of their manifest.
#[derive(Drop)]
pub(super) struct Left {
    pub(super) files: Vec<File>,
    pub(super) manifest: Vec<u8>,
}

/// Returns what is left if nothing was written.
pub(super) fn nothing(alloc: Global) -> Left {
    Left {
        files: Vec::new(alloc),
        manifest: Vec::new(alloc),
    }
}

/// When calls fail: the power of the logs after N calls, and calls on the file of their manifest.
#[derive(Clone, Copy)]
pub(super) struct Calls {
    pub(super) disk: u64,
    pub(super) file: Failing,
}

/// No call fails.
pub(super) const ALL: Calls = Calls {
    disk: u64::MAX,
    file: Failing::Power(u64::MAX),
};

/// Puts a log on a disk. Returns whether it succeeds.
fn put_log<D: LogDisk>(alloc: Global, disk: &mut D, log: u32, bytes: &[u8]) -> bool {
    log < 2_147_483_648 && disk.create(alloc, log).is_ok() && disk.append(alloc, log, bytes).is_ok()
}

/// Returns a disk in memory with these files.
fn memory_of(alloc: Global, files: &[File]) -> Result<MemDisk, Stop> {
    let mut disk = MemDisk::new(alloc);
    for (log, bytes) in files {
        if !put_log(alloc, &mut disk, *log, bytes) {
            return Err(Stop::new("no disk", 0, 0));
        }
    }
    Ok(disk)
}

/// Returns the record of these durable files.
fn found(alloc: Global, files: &[File]) -> Result<Written, AllocError> {
    let mut written = Written::new(alloc);
    for (log, bytes) in files {
        written.find(*log, bytes.clone()?);
    }
    Ok(written)
}

/// Returns a disk with these durable files and power for N calls.
fn disk_of(
    alloc: Global,
    files: &[File],
    calls: u64,
    kept: usize,
) -> Result<PowerDisk<MemDisk>, Stop> {
    let disk = memory_of(alloc, files)?;
    let written = found(alloc, files)?;
    Ok(PowerDisk::new(disk, written, calls, kept))
}

/// Returns the disk of the next process, after the one before wrote this and ended with power on.
fn next_disk(alloc: Global, written: &Written) -> Result<PowerDisk<MemDisk>, Stop> {
    let disk = memory_of(alloc, &written.files(alloc)?)?;
    Ok(PowerDisk::new(disk, written.copy()?, u64::MAX, 0))
}

/// The disk and the file of a manifest that a store opens on.
#[derive(Drop)]
pub(super) struct Device {
    disk: PowerDisk<MemDisk>,
    file: TestFile,
}

/// Returns a device with what a loss of power left.
pub(super) fn device_of(
    alloc: Global,
    left: &Left,
    calls: Calls,
    chance: &mut Chance,
) -> Result<Device, Stop> {
    let disk = disk_of(alloc, &left.files, calls.disk, chance.up_to(60))?;
    let saved = Saved::of(alloc, &left.manifest)?;
    let file = TestFile::new(saved, calls.file, chance.up_to(60));
    Ok(Device { disk, file })
}

/// Returns the device of the next process, after the one before ended with power on.
pub(super) fn next_device(alloc: Global, ended: &Ended) -> Result<Device, Stop> {
    let disk = next_disk(alloc, &ended.written)?;
    let saved = Saved {
        bytes: ended.saved.bytes.clone()?,
        synced: ended.saved.synced,
    };
    let file = TestFile::new(saved, ALL.file, 0);
    Ok(Device { disk, file })
}

/// What a process has written: its logs, and the file of their manifest.
#[derive(Drop)]
pub(super) struct Ended {
    pub(super) written: Written,
    pub(super) saved: Saved,
}

/// How the disk of a store lies over a device whose power fails. The bound of a disk is where it is
/// needed.
pub(super) trait Powered<D> {
    /// Returns the disk of a store over this device, or `None` if the power fails meanwhile.
    fn over(alloc: Global, device: Device) -> Result<Option<D>, Stop>;

    /// Returns the disk below.
    fn power(disk: &D) -> &PowerDisk<MemDisk>;

    /// Returns the file of the manifest, if there is one.
    fn file(disk: &D) -> Option<&TestFile>;

    /// Returns what a loss of power leaves.
    fn left(alloc: Global, ended: &Ended, chance: &mut Chance) -> Result<Left, Stop>;

    /// Returns what is left with the manifest as it is when the power fails during an opening.
    fn interrupted(alloc: Global, left: Left, chance: &mut Chance) -> Result<Left, Stop>;
}

/// The store uses that disk directly.
pub(super) struct Bare;

impl Powered<PowerDisk<MemDisk>> for Bare {
    fn over(_alloc: Global, device: Device) -> Result<Option<PowerDisk<MemDisk>>, Stop> {
        Ok(Some(device.disk))
    }

    fn power(disk: &PowerDisk<MemDisk>) -> &PowerDisk<MemDisk> {
        disk
    }

    fn file(_disk: &PowerDisk<MemDisk>) -> Option<&TestFile> {
        None
    }

    fn left(alloc: Global, ended: &Ended, chance: &mut Chance) -> Result<Left, Stop> {
        Ok(Left {
            files: ended.written.left(alloc, chance)?,
            manifest: Vec::new(alloc),
        })
    }

    fn interrupted(_alloc: Global, left: Left, _chance: &mut Chance) -> Result<Left, Stop> {
        Ok(left)
    }
}

/// The store uses a disk with a manifest, and bytes after the synced part are damaged.
pub(super) struct Kept;

/// The disk of such a store.
pub(super) type KeptLogs = KeptDisk<LimitedDisk<PowerDisk<MemDisk>>, TestFile>;

/// Returns why an opening by a manifest failed, or `None` if the power did.
fn refused(fault: Fault) -> Result<Option<KeptLogs>, Stop> {
    let what = match fault {
        Fault::Disk(DiskFault::Disk) | Fault::Manifest(ManifestError::Disk) => return Ok(None),
        Fault::Lack(_) => "durable bytes are missing",
        Fault::Manifest(_) => "no manifest",
        Fault::Disk(_) => "no disk",
    };
    Err(Stop::new(what, 0, 0))
}

/// Returns what a manifest means; an empty file nothing.
fn state_of(alloc: Global, manifest: &[u8]) -> Result<State, Stop> {
    if manifest.is_empty() {
        return Ok(State::new(alloc));
    }
    match read_manifest(alloc, manifest) {
        Ok(contents) => Ok(State::of(alloc, contents.records)?),
        Err(_) => Err(Stop::new("no manifest", 0, 0)),
    }
}

impl Powered<KeptLogs> for Kept {
    fn over(alloc: Global, device: Device) -> Result<Option<KeptLogs>, Stop> {
        match open(alloc, device.disk, device.file) {
            Ok(opened) => Ok(Some(opened.disk)),
            Err(fault) => refused(fault),
        }
    }

    fn power(disk: &KeptLogs) -> &PowerDisk<MemDisk> {
        disk.inner().inner()
    }

    fn file(disk: &KeptLogs) -> Option<&TestFile> {
        Some(disk.manifest().file())
    }

    fn left(alloc: Global, ended: &Ended, chance: &mut Chance) -> Result<Left, Stop> {
        let manifest = ended.saved.left(alloc, chance)?;
        let state = state_of(alloc, &manifest)?;
        let files = ended.written.remaining(alloc, &state, chance)?;
        Ok(Left { files, manifest })
    }

    fn interrupted(alloc: Global, left: Left, chance: &mut Chance) -> Result<Left, Stop> {
        let device = device_of(alloc, &left, ALL, chance)?;
        let Some(disk) = Self::over(alloc, device)? else {
            return Err(not_opened(OpenFault::Disk));
        };
        let after = disk.manifest().file().saved()?;
        Ok(Left {
            manifest: torn(alloc, &left.manifest, &after.bytes, chance)?,
            files: left.files,
        })
    }
}

/// Returns what a loss of power leaves during an opening, which writes no log.
pub(super) fn again<D: LogDisk, P: Powered<D>>(
    alloc: Global,
    left: Left,
    chance: &mut Chance,
) -> Result<Left, Stop> {
    let written = found(alloc, &left.files)?;
    let saved = Saved::of(alloc, &left.manifest)?;
    P::left(alloc, &Ended { written, saved }, chance)
}

/// Opens a store on a device, or returns `None` if the power failed meanwhile.
pub(super) fn opened<D: LogDisk, P: Powered<D>>(
    alloc: Global,
    device: Device,
    dead: &[u64],
) -> Result<Option<Store<D>>, Stop> {
    let Some(disk) = P::over(alloc, device)? else {
        return Ok(None);
    };
    match Store::open(alloc, disk, SETTINGS, dead) {
        Ok(store) => Ok(Some(store)),
        Err(OpenFault::Disk) => Ok(None),
        Err(fault) => Err(not_opened(fault)),
    }
}

/// Returns what a store has written so far.
pub(super) fn written_by<D: LogDisk, P: Powered<D>>(
    alloc: Global,
    store: &Store<D>,
) -> Result<Ended, AllocError> {
    let written = P::power(store.disk()).written().copy()?;
    let saved = match P::file(store.disk()) {
        Some(file) => file.saved()?,
        None => Saved::empty(alloc),
    };
    Ok(Ended { written, saved })
}

/// Returns whether the power is off.
pub(super) fn is_dead<D: LogDisk, P: Powered<D>>(store: &Store<D>) -> bool {
    P::power(store.disk()).is_dead()
        || match P::file(store.disk()) {
            Some(file) => file.is_dead(),
            None => false,
        }
}

/// Returns whether a call has failed.
pub(super) fn has_failed<D: LogDisk, P: Powered<D>>(store: &Store<D>) -> bool {
    P::power(store.disk()).is_dead()
        || match P::file(store.disk()) {
            Some(file) => file.has_failed(),
            None => false,
        }
}
