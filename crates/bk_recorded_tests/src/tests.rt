//! Lives of a store with a manifest of its ledgers, each on the disk and the manifest that the one
//! before left.

use bk_disk::MemDisk;
use bk_drive::{AddFault, Added, Answer, DeleteFault, Fence, FenceFault, Ran, Settings, Step};
use bk_manifest::{Manifest, MemManifest, Plan};
use bk_recorded::{LedgerRecorder, drive_kept};
use std::alloc::{AllocError, Global};
use std::process::Abort;
use std::test::Fail;

const SETTINGS: Settings = Settings {
    log_limit: 2048,
    cache_limit: 65_536,
    recent: 0,
    slots: 8,
    leases: 4,
    minor: 200,
    major: 800,
};

/// Returns an empty file whose device fails as planned.
fn empty_file(alloc: Global, plan: Plan) -> MemManifest {
    MemManifest {
        bytes: Vec::new(alloc),
        synced: 0,
        plan,
        renames: false,
    }
}

/// Returns what a loss of power leaves of the file of a manifest: its synced bytes.
fn left_of(
    alloc: Global,
    ledgers: &LedgerRecorder<MemManifest>,
) -> Result<MemManifest, AllocError> {
    let file = ledgers.manifest.file();
    let synced = file.synced.min(file.bytes.len());
    let (bytes, _) = file.bytes.split_at(synced);
    Ok(MemManifest {
        bytes: Vec::from_slice(alloc, bytes)?,
        synced,
        plan: Plan::Never,
        renames: false,
    })
}

/// Returns a recorder with an empty manifest.
fn first(alloc: Global, plan: Plan) -> Option<LedgerRecorder<MemManifest>> {
    match Manifest::create(alloc, empty_file(alloc, plan), 1) {
        Ok(manifest) => Some(LedgerRecorder::new(alloc, manifest)),
        Err(_) => None,
    }
}

/// Returns a recorder with the manifest of a file.
fn next(alloc: Global, file: MemManifest) -> Option<LedgerRecorder<MemManifest>> {
    match Manifest::open(alloc, file) {
        Ok(Some(opened)) => Some(LedgerRecorder::new(alloc, opened.manifest)),
        _ => None,
    }
}

/// Returns the payload of an entry without data.
fn payload(alloc: Global, ledger: u64, entry: u64) -> Result<Vec<u8>, AllocError> {
    let mut payload = Vec::from_slice(alloc, &ledger.to_be_bytes())?;
    payload.extend_from_slice(&entry.to_be_bytes())?;
    Ok(payload)
}

fn add(alloc: Global, ledger: u64, entry: u64) -> Result<Step, AllocError> {
    Ok(Step::Add(payload(alloc, ledger, entry)?))
}

/// An answer as a word.
fn told(answer: &Answer) -> &'static str {
    match answer {
        Answer::Add(Ok(Added::Accepted(_))) => "accepted",
        Answer::Add(Err(AddFault::Deleted)) => "add of a deleted ledger",
        Answer::Add(Err(AddFault::Fenced)) => "add to a fenced ledger",
        Answer::Delete(Ok(1)) => "deleted one entry",
        Answer::Delete(Err(DeleteFault::AlreadyDeleted)) => "deleted already",
        Answer::Fence(Ok(Fence::Fenced)) => "fenced",
        Answer::Fence(Ok(Fence::AlreadyFenced)) => "fenced already",
        Answer::Fence(Err(FenceFault::Deleted)) => "fence of a deleted ledger",
        Answer::Unrecorded => "unrecorded",
        _ => "another answer",
    }
}

/// Performs steps on a disk, and compares the answers with these words. Returns the store's disk
/// if it opened and all are equal.
fn life(
    alloc: Global,
    disk: MemDisk,
    steps: &[Step],
    ledgers: &mut LedgerRecorder<MemManifest>,
    words: &[&'static str],
) -> Option<MemDisk> {
    let Ok(
        Ran {
            store,
            answers,
            readers: _,
        },
    ) = drive_kept(alloc, disk, SETTINGS, steps, ledgers)
    else {
        return None;
    };
    if answers.len() != words.len() {
        return None;
    }
    for (answer, word) in answers.iter().zip(words.iter()) {
        if told(answer) != *word {
            return None;
        }
    }
    match store.into_disk() {
        Ok(disk) => Some(disk),
        Err(_) => None,
    }
}

#[test]
fn the_next_life_knows_deletions_and_fences(rt: HostRuntime) -> Result<(), Fail> {
    let alloc = rt.alloc();
    let Some(mut ledgers) = first(alloc, Plan::Never) else {
        panic!(rt; "no manifest");
    };
    let steps = vec![in alloc;
        add(alloc, 1, 0)?,
        add(alloc, 2, 0)?,
        Step::Delete(1),
        Step::Fence(2),
        add(alloc, 2, 1)?,
    ]?;
    let words = [
        "accepted",
        "accepted",
        "deleted one entry",
        "fenced",
        "add to a fenced ledger",
    ];
    let Some(disk) = life(alloc, MemDisk::new(alloc), &steps, &mut ledgers, &words) else {
        panic!(rt; "the first life");
    };
    let Some(mut ledgers) = next(alloc, left_of(alloc, &ledgers)?) else {
        panic!(rt; "the manifest is lost");
    };
    let steps = vec![in alloc;
        add(alloc, 1, 1)?,
        add(alloc, 2, 1)?,
        Step::AddRecovery(payload(alloc, 2, 1)?),
        Step::Delete(1),
        Step::Fence(2),
        Step::Fence(1),
        add(alloc, 3, 0)?,
    ]?;
    let words = [
        "add of a deleted ledger",
        "add to a fenced ledger",
        "accepted",
        "deleted already",
        "fenced already",
        "fence of a deleted ledger",
        "accepted",
    ];
    assert!(rt; life(alloc, disk, &steps, &mut ledgers, &words).is_some());
    Ok(())
}

#[test]
fn a_number_that_is_no_ledger_id_is_not_recorded(rt: HostRuntime) -> Result<(), Fail> {
    let alloc = rt.alloc();
    let Some(mut ledgers) = first(alloc, Plan::Never) else {
        panic!(rt; "no manifest");
    };
    let end = ledgers.manifest.file().bytes.len();
    let steps = vec![in alloc; Step::Fence(9_223_372_036_854_775_808), add(alloc, 1, 0)?]?;
    assert!(rt;
        life(
            alloc,
            MemDisk::new(alloc),
            &steps,
            &mut ledgers,
            &["fenced", "accepted"]
        )
        .is_some()
    );
    assert_eq!(rt; ledgers.manifest.file().bytes.len(), end);
    let steps = vec![in alloc; Step::Fence(9_223_372_036_854_775_807)]?;
    assert!(rt;
        life(
            alloc,
            MemDisk::new(alloc),
            &steps,
            &mut ledgers,
            &["fenced"]
        )
        .is_some()
    );
    assert!(rt; ledgers.manifest.file().bytes.len() > end);
    Ok(())
}
