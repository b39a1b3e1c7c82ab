//! Openings on disks that fail, and a list of steps on a directory.

use super::SETTINGS;
use bk_disk::{DirDisk, DiskFault, FaultDisk, LogDisk, MemDisk};
use bk_drive::{Answer, OpenFault, RollAnswer, Step, Work, drive};
use bk_store::Store;
use std::alloc::{AllocError, Global};
use std::fs;
use std::test::Fail;

/// Whether a store opens on a new disk whose call of this number fails, 0 for none.
fn opens(alloc: Global, call: u64) -> Result<(), OpenFault> {
    let disk = FaultDisk::new(MemDisk::new(alloc), call, 0);
    match Store::open(alloc, disk, SETTINGS, &[]) {
        Ok(_) => Ok(()),
        Err(fault) => Err(fault),
    }
}

#[test]
fn a_refused_opening_is_made_again_on_a_new_disk(rt: HostRuntime) {
    assert!(rt; matches!(opens(rt.alloc(), 1), Err(OpenFault::Disk)));
    assert!(rt; opens(rt.alloc(), 0).is_ok());
}

/// Entry 0 of ledger 1, with the data `hello`.
const HELLO: [u8; 21] = *b"\0\0\0\0\0\0\0\x01\0\0\0\0\0\0\0\0hello";

/// Steps that add this entry, flush it, and seal its log.
fn steps(alloc: Global) -> Result<Vec<Step>, AllocError> {
    let mut steps = Vec::new(alloc);
    steps.push(Step::Add(Vec::from_slice(alloc, &HELLO)?))?;
    for work in &[Work::Swap, Work::WriteOne, Work::Publish, Work::Roll] {
        steps.push(Step::Work(*work))?;
    }
    Ok(steps)
}

/// Performs the steps on a disk. Returns the disk if the last one sealed log 0.
fn sealed(alloc: Global, disk: DirDisk, steps: &[Step]) -> Option<DirDisk> {
    let Ok(ran) = drive(alloc, disk, SETTINGS, &[], steps) else {
        return None;
    };
    match ran.answers.last() {
        Some(Answer::Roll(Ok(RollAnswer::Sealed(0)))) => ran.store.into_disk().ok(),
        _ => None,
    }
}

/// The logs of a disk and the length of log 0.
fn contents<D: LogDisk>(alloc: Global, disk: &mut D) -> Result<(Vec<u32>, u64), DiskFault> {
    Ok((disk.list(alloc)?, disk.length(alloc, 0)?))
}

/// Whether log 0 is the only log of a disk, and has a header, a record and a map.
fn has_sealed_log<D: LogDisk>(alloc: Global, disk: &mut D) -> bool {
    match contents(alloc, disk) {
        Ok((logs, length)) => logs.as_slice() == [0].as_slice() && length == 1089,
        Err(_) => false,
    }
}

#[test]
fn steps_on_a_directory_leave_its_log(rt: HostRuntime) -> Result<(), Fail> {
    let alloc = rt.alloc();
    let _ = fs::remove_dir_all(&rt, "bookie_driven");
    fs::create_dir(&rt, "bookie_driven")?;
    let steps = steps(alloc)?;
    let Some(mut disk) = sealed(alloc, DirDisk::open(&rt, "bookie_driven")?, &steps) else {
        panic!(rt; "not sealed");
    };
    for name in &[
        "bookie_driven/01f.log",
        "bookie_driven/0.log.compacted",
        "bookie_driven/notes",
    ] {
        fs::write(&rt, name, b"bytes".as_slice())?;
    }
    assert!(rt; has_sealed_log(alloc, &mut disk));
    fs::remove_dir_all(&rt, "bookie_driven")?;
    Ok(())
}
