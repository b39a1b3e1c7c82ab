//! Commands on a directory whose logs have hints.

use super::Shown;
use super::hints::{DATA, bad_hints, cases, hint_of, two_logs};
use bk_disk::LogDisk;
use bk_inspect::{DirCommand, Ends, FolderCommand, Form, Hints, run_folder_as};
use std::fs;
use std::process::Abort;
use std::test::Fail;

const FOLDER: &str = "bk_dir_hints";

/// Makes a directory with the two logs and their hints.
fn make(rt: &HostRuntime) -> Option<()> {
    let alloc = rt.alloc();
    let mut disk = two_logs(alloc)?;
    let _ = fs::remove_dir_all(rt, FOLDER);
    fs::create_dir(rt, FOLDER).ok()?;
    for log in [0, 1] {
        let length = disk.length(alloc, log).ok()?;
        let bytes = disk.read_at(alloc, log, 0, length).ok()?;
        let path = format!(in alloc; "{FOLDER}/{log}.log").ok()?;
        fs::write(rt, path.as_str(), bytes).ok()?;
        let hint = hint_of(alloc, &mut disk, log)?;
        let path = format!(in alloc; "{FOLDER}/{log}.hint").ok()?;
        fs::write(rt, path.as_str(), hint).ok()?;
    }
    Some(())
}

/// Runs a command on the directory.
fn run_on(rt: &HostRuntime, hints: Hints, command: &FolderCommand<'_>) -> Shown {
    let mut output = Vec::new(rt.alloc());
    let mut errors = Vec::new(rt.alloc());
    let status = run_folder_as(
        rt,
        Form::Text,
        FOLDER,
        Ends::Durable,
        hints,
        command,
        &mut output,
        &mut errors,
    );
    Shown {
        status,
        output,
        errors,
    }
}

/// Position of the second record of log 0. It is not among those that are compared with the hint.
const SECOND: usize = 1024 + 20 + DATA as usize;

/// Makes the length of the second record of log 0 invalid.
fn break_record(rt: &HostRuntime) -> Option<()> {
    let mut bytes = fs::read(rt, "bk_dir_hints/0.log").ok()?;
    if bytes.len() < SECOND + 4 {
        return None;
    }
    bytes[SECOND..SECOND + 4].copy_from_slice(&7u32.to_be_bytes());
    fs::write(rt, "bk_dir_hints/0.log", bytes).ok()
}

#[test]
fn hints_of_a_directory_are_used(rt: HostRuntime) -> Result<(), Fail> {
    let check = FolderCommand::Dir(DirCommand::Check);
    for (command, _) in &cases(&rt) {
        assert!(rt; make(&rt).is_some());
        let plain = run_on(&rt, Hints::Ignored, command);
        assert!(rt; plain.status == 0 && plain.errors.is_empty(), "{command:?}");
        assert!(rt; run_on(&rt, Hints::Used, command) == plain, "{command:?}");
        // A hint hides a fault of a record; a check finds it.
        assert!(rt; break_record(&rt).is_some());
        assert!(rt; run_on(&rt, Hints::Used, command) == plain, "{command:?}");
        assert_eq!(rt;
            run_on(&rt, Hints::Ignored, command).status,
            1,
            "{command:?}"
        );
        assert_eq!(rt; run_on(&rt, Hints::Used, &check).status, 1);
    }
    fs::remove_dir_all(&rt, FOLDER)?;
    Ok(())
}

/// What is told of each hint that may not be used.
static TOLD: [&str; 5] = [
    "note hint not used: log 0: short hint 0\n",
    "note hint not used: log 0: hint length 80\n",
    "note hint not used: log 0: bad hint checksum\n",
    "note hint not used: log 0: hint of log 1\n",
    "note hint not used: log 0: hint of a log of 25140 bytes\n",
];

#[test]
fn hints_of_a_directory_that_may_not_be_used_are_told(rt: HostRuntime) -> Result<(), Fail> {
    let check = FolderCommand::Dir(DirCommand::Check);
    assert!(rt; make(&rt).is_some());
    let bad = bad_hints(rt.alloc()).expect(&rt, "hints");
    for (hint, told) in bad.iter().zip(TOLD.iter()) {
        fs::write(&rt, "bk_dir_hints/0.hint", hint.as_slice())?;
        for (command, _) in &cases(&rt) {
            let plain = run_on(&rt, Hints::Ignored, command);
            let found = run_on(&rt, Hints::Used, command);
            assert!(rt; found.output == plain.output, "{command:?}, {told}");
            assert_eq!(rt; found.status, 0, "{command:?}, {told}");
            assert_eq!(rt; found.errors.as_slice(), told.as_bytes(), "{command:?}");
        }
        assert!(rt;
            run_on(&rt, Hints::Used, &check).errors.is_empty(),
            "{told}"
        );
    }
    fs::remove_dir_all(&rt, FOLDER)?;
    Ok(())
}
