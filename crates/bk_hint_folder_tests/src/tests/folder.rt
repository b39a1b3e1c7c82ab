//! Hints in a directory.

use super::logs::{HINT, make, write};
use bk_disk::{DirDisk, LogDisk};
use bk_hint_disk::WhyNot;
use bk_hint_folder::{
    HintState, LogFault, LogReason, SeesStates, Written, WrongHint, check_hints, write_hints,
};
use std::alloc::Global;
use std::fs;
use std::os::unix::fs::symlink;
use std::process::Abort;
use std::test::Fail;

/// The states of the hints of a directory, by log.
#[derive(Drop)]
struct States {
    found: Vec<(u32, HintState)>,
    faults: u32,
}

impl SeesStates for States {
    fn see(&mut self, log: u32, state: HintState) -> bool {
        self.found.push((log, state)).is_ok()
    }

    fn fail(&mut self, _fault: &LogFault) {
        self.faults = self.faults.saturating_add(1);
    }
}

/// Returns the states of the hints of a directory.
fn states_of(rt: &HostRuntime, folder: &str) -> Option<States> {
    let mut states = States {
        found: Vec::new(rt.alloc()),
        faults: 0,
    };
    check_hints(rt, folder, &mut states).ok()?;
    Some(states)
}

/// Makes the logs in a new directory.
fn made(rt: &HostRuntime, folder: &str) -> Option<()> {
    let _ = fs::remove_dir_all(rt, folder);
    fs::create_dir(rt, folder).ok()?;
    let mut disk = DirDisk::open_to_write(rt, folder).ok()?;
    make(rt.alloc(), &mut disk)
}

/// Returns the counts: made, kept, unsealed, unfit, orphans, faults.
fn counts(written: &Written) -> [u64; 6] {
    [
        written.made,
        written.kept,
        written.unsealed,
        written.unfit,
        written.orphans,
        written.faults.len() as u64,
    ]
}

/// Returns the counts of a run on a directory.
fn run(rt: &HostRuntime, folder: &str) -> Option<[u64; 6]> {
    Some(counts(&write_hints(rt, folder).ok()?))
}

#[test]
fn hints_of_a_directory(rt: HostRuntime) -> Result<(), Fail> {
    const FOLDER: &str = "bk_hint_folder";
    assert!(rt; made(&rt, FOLDER).is_some());
    assert_eq!(rt; run(&rt, FOLDER), Some([2, 0, 2, 0, 0, 0]));
    assert_eq!(rt; run(&rt, FOLDER), Some([0, 2, 2, 0, 0, 0]));
    assert_eq!(rt;
        fs::metadata(&rt, "bk_hint_folder/1.hint")
            .map(|m| m.len())
            .ok(),
        Some(HINT)
    );
    assert!(rt; fs::metadata(&rt, "bk_hint_folder/2.hint").is_err());
    // A damaged one is made again; those without a log are removed, also a part of one.
    assert!(rt; fs::write(&rt, "bk_hint_folder/3.hint", b"BKHI").is_ok());
    assert!(rt; fs::write(&rt, "bk_hint_folder/9.hint", b"BKHI").is_ok());
    assert!(rt; fs::write(&rt, "bk_hint_folder/9.hint.new", b"B").is_ok());
    assert!(rt; fs::write(&rt, "bk_hint_folder/09.hint", b"B").is_ok());
    let states = states_of(&rt, FOLDER).expect(&rt, "the states");
    assert_eq!(rt; states.found.len(), 5);
    assert_eq!(rt; states.found[0], (1, HintState::Right));
    assert_eq!(rt; states.found[1], (2, HintState::Unsealed));
    assert!(rt;
        matches!(
            states.found[2],
            (3, HintState::Wrong(WrongHint::NotUsed(WhyNot::Damaged(_))))
        )
    );
    assert_eq!(rt; states.found[4], (9, HintState::NoLog));
    assert_eq!(rt; run(&rt, FOLDER), Some([1, 1, 2, 0, 2, 0]));
    assert!(rt; fs::metadata(&rt, "bk_hint_folder/9.hint").is_err());
    assert!(rt; fs::metadata(&rt, "bk_hint_folder/9.hint.new").is_err());
    assert!(rt; fs::metadata(&rt, "bk_hint_folder/09.hint").is_ok());
    assert!(rt; fs::remove_dir_all(&rt, FOLDER).is_ok());
    Ok(())
}

#[test]
fn hints_that_cannot_be_written(rt: HostRuntime) -> Result<(), Fail> {
    const FOLDER: &str = "bk_hint_folder_faults";
    assert!(rt; made(&rt, FOLDER).is_some());
    // A directory has the name of the hint: that is a fault, and the other log gets its hint.
    assert!(rt; fs::create_dir(&rt, "bk_hint_folder_faults/1.hint").is_ok());
    let written = write_hints(&rt, FOLDER).expect(&rt, "a run");
    assert_eq!(rt; counts(&written), [1, 0, 2, 0, 0, 1]);
    assert!(rt; matches!(written.faults[0].why, LogReason::Refused { .. }));
    assert_eq!(rt; written.faults[0].log, 1);
    // A link is replaced, and its target stays.
    assert!(rt; fs::remove_dir(&rt, "bk_hint_folder_faults/1.hint").is_ok());
    assert!(rt; fs::write(&rt, "bk_hint_folder_faults/other", b"kept").is_ok());
    assert!(rt; symlink(&rt, "other", "bk_hint_folder_faults/1.hint").is_ok());
    assert_eq!(rt; run(&rt, FOLDER), Some([1, 1, 2, 0, 0, 0]));
    assert_eq!(rt;
        fs::read(&rt, "bk_hint_folder_faults/other").ok().as_deref(),
        Some(&b"kept"[..])
    );
    // A log that is set aside gets no hint.
    assert!(rt; fs::remove_file(&rt, "bk_hint_folder_faults/1.hint").is_ok());
    assert!(rt; fs::write(&rt, "bk_hint_folder_faults/1.unsynced", b"").is_ok());
    let written = write_hints(&rt, FOLDER).expect(&rt, "a run");
    assert_eq!(rt; counts(&written), [0, 1, 2, 0, 0, 1]);
    assert!(rt; matches!(written.faults[0].why, LogReason::Aside));
    assert!(rt; fs::remove_dir_all(&rt, FOLDER).is_ok());
    // No directory.
    assert!(rt; write_hints(&rt, FOLDER).is_err());
    assert!(rt; states_of(&rt, FOLDER).is_none());
    Ok(())
}
