//! What is reported of calls of the system that fail: file, operation and reason.

use super::compact::fill;
use super::folder::{Row, TOLD, anew, check};
use super::{holds, run};
use bk_commands::{FailedCalls, Hints, OpeningDisk, open_or_make};
use bk_disk::{DiskFault, LogDisk, LogView};
use bk_inspect::Form;
use std::fs::{self, OpenOptions};
use std::os::unix::fs::symlink;
use std::test::Fail;

/// A link that leads nowhere, which a compaction cannot list, and what is reported of it.
const NOWHERE: &str =
    "fault disk: bk_shell_nowhere/5.log: list: No such file or directory (os error 2)\n";

const NOWHERE_OBJECT: &str =
    "{\"fault\":\"disk\",\"file\":\"bk_shell_nowhere/5.log\",\"operation\":\"list\",\"reason\":\"No such file or directory (os error 2)\"}\n";

/// Compactions of a directory with that link, and what each is to leave.
const LISTED: [Row<'static>; 3] = [
    Row {
        words: &["bk_shell", "compact", "bk_shell_nowhere"],
        errors: NOWHERE,
        ..TOLD
    },
    Row {
        words: &["bk_shell", "compact", "--dry-run", "bk_shell_nowhere"],
        errors: NOWHERE,
        ..TOLD
    },
    Row {
        words: &["bk_shell", "--json", "compact", "bk_shell_nowhere"],
        errors: NOWHERE_OBJECT,
        ..TOLD
    },
];

#[test]
fn a_compaction_names_the_file_that_cannot_be_listed(rt: HostRuntime) -> Result<(), Fail> {
    anew(&rt, "bk_shell_nowhere")?;
    symlink(&rt, "nowhere", "bk_shell_nowhere/5.log")?;
    check(&rt, &rt, &LISTED);
    fs::remove_dir_all(&rt, "bk_shell_nowhere")?;
    Ok(())
}

/// Makes a directory and opens it, with log 5 of 2000 bytes.
fn opened(rt: &HostRuntime, folder: &str) -> Result<OpeningDisk, Fail> {
    anew(rt, folder)?;
    let mut disk = open_or_make(rt, folder, false, Hints::Used)?.disk;
    disk.create(rt.alloc(), 5)?;
    disk.append(rt.alloc(), 5, &[7; 2000])?;
    Ok(disk)
}

/// What is reported of the calls that failed.
fn reported(rt: &HostRuntime, failed: &FailedCalls, form: Form) -> Vec<u8> {
    let mut errors = Vec::new(rt.alloc());
    failed.tell(form, &mut errors);
    errors
}

/// What is reported of a log whose file was replaced.
const REPLACED: &str = "bk_shell_replaced/5.log: open: another file has the name of this log\n";

const REPLACED_OBJECT: &str =
    "{\"fault\":\"disk\",\"file\":\"bk_shell_replaced/5.log\",\"operation\":\"open\",\"reason\":\"another file has the name of this log\"}\n";

#[test]
fn a_call_that_fails_is_reported_once(rt: HostRuntime) -> Result<(), Fail> {
    let mut disk = opened(&rt, "bk_shell_replaced")?;
    let failed = disk.failed_calls()?;
    assert!(rt; reported(&rt, &failed, Form::Text).is_empty());
    fs::remove_file(&rt, "bk_shell_replaced/5.log")?;
    fs::write(&rt, "bk_shell_replaced/5.log", b"other".as_slice())?;
    for _ in 0..3 {
        assert!(rt; disk.sync(rt.alloc(), 5) == Err(DiskFault::Disk));
    }
    drop(disk);
    assert!(rt; reported(&rt, &failed, Form::Text).as_slice() == REPLACED.as_bytes());
    assert!(rt; reported(&rt, &failed, Form::Json).as_slice() == REPLACED_OBJECT.as_bytes());
    fs::remove_dir_all(&rt, "bk_shell_replaced")?;
    Ok(())
}

/// What is reported of a view whose file was cut, and of a call after it.
const CUT: &str =
    "bk_shell_views/5.log: read: the file is shorter than it was\nbk_shell_views/5.log: open: somebody else changed the file's length\n";

#[test]
fn a_read_of_a_view_that_fails_is_reported(rt: HostRuntime) -> Result<(), Fail> {
    let mut disk = opened(&rt, "bk_shell_views")?;
    let failed = disk.failed_calls()?;
    let view = disk.view(rt.alloc(), 5)?;
    let file = OpenOptions::new()
        .write(true)
        .open(&rt, "bk_shell_views/5.log")?;
    file.set_len(1500)?;
    let mut bytes = [0; 100];
    assert!(rt; view.read_into(1900, &mut bytes) == Err(DiskFault::Disk));
    assert!(rt; disk.sync(rt.alloc(), 5) == Err(DiskFault::Disk));
    assert!(rt; reported(&rt, &failed, Form::Text).as_slice() == CUT.as_bytes());
    fs::remove_dir_all(&rt, "bk_shell_views")?;
    Ok(())
}

/// Words of calls that create log 3.
const CREATING: [&[&str]; 2] = [
    &["bk_shell", "compact", "--dead=2", "bk_shell_taken_name"],
    &["bk_shell", "script", "--folder", "bk_shell_taken_name"],
];

#[test]
fn a_name_that_is_taken_is_reported(rt: HostRuntime) -> Result<(), Fail> {
    fill(&rt, "bk_shell_taken_name")?;
    fs::create_dir(&rt, "bk_shell_taken_name/3.log")?;
    for words in CREATING {
        let shown = run(&rt, words, "add 9 0 x\nswap\nwrite\n");
        assert!(rt;
            holds(&shown.errors, "bk_shell_taken_name/3.log"),
            "{words:?}"
        );
    }
    let find: [&str; 5] = ["bk_shell", "find", "bk_shell_taken_name", "1", "0"];
    assert!(rt; run(&rt, &find, "").output.as_slice() == b"0 1028 68656c6c6f\n".as_slice());
    fs::remove_dir_all(&rt, "bk_shell_taken_name")?;
    Ok(())
}
