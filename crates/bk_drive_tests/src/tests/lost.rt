//! A publish that fails on a real directory: the flush goes on, unless the disk has lost its log.

use super::{DISK, SETTINGS, Told, told};
use bk_disk::{DirDisk, FaultDisk};
use bk_drive::{Added, Store, Work, apply};
use std::alloc::AllocError;
use std::fs::{self, OpenOptions};
use std::io::{self, Write};
use std::process::Abort;

/// Entry 0 of ledger 5.
const ENTRY: &[u8] = b"\0\0\0\0\0\0\0\x05\0\0\0\0\0\0\0\0hello";

type Row = (Work, Told);

/// The sync of the log fails, which loses nothing.
const FAILS: [Row; 4] = [
    (Work::Swap, ("swapped", 1)),
    (Work::WriteOne, ("wrote", 1028)),
    (Work::Publish, DISK),
    (Work::WriteOne, ("all written", 0)),
];

/// The log has another length than the disk left it with, so it is lost.
const IS_LOST: [Row; 5] = [
    (Work::Publish, DISK),
    (Work::Publish, ("not all written", 0)),
    (Work::WriteOne, ("wrote", 4_294_968_324)),
    (Work::WriteOne, ("all written", 0)),
    (Work::Publish, ("published", 1)),
];

/// The next publish syncs the log again.
const GOES_ON: [Row; 4] = [
    (Work::Publish, ("published", 1)),
    (Work::Publish, ("no flush", 0)),
    (Work::Roll, ("sealed", 0)),
    (Work::Retire(0), ("still named", 1)),
];

/// Somebody else writes at the end of log 0.
fn grow(rt: &HostRuntime, folder: &str) -> io::Result<()> {
    let path = path_of(rt, folder)?;
    OpenOptions::new()
        .append(true)
        .open(rt, path.as_str())?
        .write_all(b"x")
}

fn path_of(rt: &HostRuntime, folder: &str) -> Result<String, AllocError> {
    format!(in rt.alloc(); "{folder}/0.log")
}

/// Performs steps and compares their answers.
fn check(abort: &impl Abort, store: &mut Store<FaultDisk<DirDisk>>, rows: &[Row]) {
    for (number, (work, want)) in rows.iter().enumerate() {
        let answer = told(&apply(store, *work));
        assert!(abort; answer == *want, "step {number}: {}", answer.0);
    }
}

/// Opens a store on an empty directory of which call 5 fails: the sync after the listing, the
/// creation of a log, its header and an entry.
fn open(abort: &impl Abort, rt: &HostRuntime, folder: &str) -> Store<FaultDisk<DirDisk>> {
    let _ = fs::remove_dir_all(rt, folder);
    assert!(abort; fs::create_dir(rt, folder).is_ok());
    let disk = DirDisk::open_to_write(rt, folder).expect(abort, "a directory");
    let disk = FaultDisk::new(disk, 5, 0);
    let mut store = Store::open(rt.alloc(), disk, SETTINGS, &[]).expect(abort, "a store");
    assert!(abort; matches!(store.add(ENTRY), Ok(Added::Accepted(_))));
    store
}

#[test]
fn a_flush_goes_on_after_a_publish_that_failed(rt: HostRuntime) {
    let mut store = open(&rt, &rt, "bk_drive_stays");
    check(&rt, &mut store, &FAILS);
    check(&rt, &mut store, &GOES_ON);
    drop(store);
    assert!(rt; fs::remove_dir_all(&rt, "bk_drive_stays").is_ok());
}

#[test]
fn a_flush_restarts_once_its_log_is_lost(rt: HostRuntime) {
    let mut store = open(&rt, &rt, "bk_drive_lost");
    check(&rt, &mut store, &FAILS);
    assert!(rt; grow(&rt, "bk_drive_lost").is_ok());
    check(&rt, &mut store, &IS_LOST);
    drop(store);
    assert!(rt; fs::remove_dir_all(&rt, "bk_drive_lost").is_ok());
}
