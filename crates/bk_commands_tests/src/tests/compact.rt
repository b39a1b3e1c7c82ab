//! Compactions of real folders, which each test makes and takes away.

use super::folder::{DONE, Row, TOLD, anew, check, in_use};
use super::run;
use bk_disk::DirDisk;
use std::fs;
use std::test::Fail;

/// Three logs. Of the first 25 of 245 bytes live when ledger 2 is deleted, of the second nothing, of the third all.
const THREE: &str =
    "add 1 0 hello\npad 2 0 200\nswap\nwrite\nwrite\npublish\nroll\nadd 2 1 x\nswap\nwrite\npublish\nroll\nadd 3 0 live\nswap\nwrite\npublish\n";

/// Makes a folder with these logs.
pub(super) fn fill(rt: &HostRuntime, folder: &str) -> Result<(), Fail> {
    anew(rt, folder)?;
    let shown = run(rt, &["bk_shell", "script", "--folder", folder], THREE);
    if shown.status == 0 && shown.output.ends_with(b"published 1\n") {
        Ok(())
    } else {
        Err(Fail::new("the folder was not filled"))
    }
}

/// What is planned for them, and done, where ledger 2 is dead. The copy has a header, a record of 25 bytes and a map of 40.
const PLANNED: &str =
    "0 1325 compact 1\n1 1085 remove\nledger 2 entries 2 bytes 241\nbefore 3 after 2 freed 1321 moved 1\n";

/// The same where ledger 7 is named too, of which no log has an entry.
const PLANNED_WITH_SEVEN: &str =
    "0 1325 compact 1\n1 1085 remove\nledger 2 entries 2 bytes 241\nledger 7 entries 0 bytes 0\nbefore 3 after 2 freed 1321 moved 1\n";

/// Compactions of these logs, and what each is to leave.
const PLANS: [Row<'static>; 12] = [
    // Without a dead ledger all lives.
    Row {
        words: &["bk_shell", "compact", "bk_shell_compact"],
        output: "before 3 after 3 freed 0 moved 0\n",
        ..DONE
    },
    Row {
        words: &[
            "bk_shell",
            "compact",
            "--dry-run",
            "--dead",
            "2",
            "bk_shell_compact",
        ],
        output: PLANNED,
        ..DONE
    },
    Row {
        words: &[
            "bk_shell",
            "compact",
            "--dry-run",
            "--dead=2",
            "--minor",
            "bk_shell_compact",
        ],
        output: PLANNED,
        ..DONE
    },
    Row {
        words: &[
            "bk_shell",
            "compact",
            "--dry-run",
            "--dead=2",
            "--below=103",
            "bk_shell_compact",
        ],
        output: PLANNED,
        ..DONE
    },
    // 25 of 245 bytes are more than 102 thousandths.
    Row {
        words: &[
            "bk_shell",
            "compact",
            "--dry-run",
            "--dead=2",
            "--below=102",
            "bk_shell_compact",
        ],
        output: "1 1085 remove\nledger 2 entries 2 bytes 241\nbefore 3 after 2 freed 1085 moved 0\n",
        ..DONE
    },
    Row {
        words: &["bk_shell", "logs", "bk_shell_compact"],
        output: "0 1325 sealed\n1 1085 sealed\n2 1048 open\n",
        ..DONE
    },
    Row {
        words: &["bk_shell", "compact", "--dead", "2", "bk_shell_compact"],
        output: "before 3 after 2 freed 1321 moved 1\n",
        ..DONE
    },
    Row {
        words: &["bk_shell", "logs", "bk_shell_compact"],
        output: "2 1048 open\n3 1089 sealed\n",
        ..DONE
    },
    Row {
        words: &["bk_shell", "find", "bk_shell_compact", "1", "0"],
        output: "3 1028 68656c6c6f\n",
        ..DONE
    },
    Row {
        words: &["bk_shell", "find", "bk_shell_compact", "2", "0"],
        output: "not found\n",
        errors: "note ledger 2 is deleted\n",
        ..DONE
    },
    Row {
        words: &["bk_shell", "find", "bk_shell_compact", "3", "0"],
        output: "2 1028 6c697665\n",
        ..DONE
    },
    Row {
        words: &[
            "bk_shell",
            "compact",
            "--dead",
            "2",
            "--major",
            "bk_shell_compact",
        ],
        output: "before 2 after 2 freed 0 moved 0\n",
        ..DONE
    },
];

#[test]
fn a_folder_is_compacted_as_planned(rt: HostRuntime) -> Result<(), Fail> {
    let folder = "bk_shell_compact";
    fill(&rt, folder)?;
    check(&rt, &rt, &PLANS);
    fs::remove_dir_all(&rt, folder)?;
    Ok(())
}

/// The logs of a directory of which only the plan is shown.
const DRY_LOGS: [&str; 3] = [
    "bk_shell_dry/0.log",
    "bk_shell_dry/1.log",
    "bk_shell_dry/2.log",
];

/// A dry run without a dead ledger: all lives.
const DRY: [Row<'static>; 1] = [Row {
    words: &["bk_shell", "compact", "--dry-run", "bk_shell_dry"],
    output: "before 3 after 3 freed 0 moved 0\n",
    ..DONE
}];

/// The bytes of these logs, one behind the other.
fn bytes_of_logs(rt: &HostRuntime) -> Result<Vec<u8>, Fail> {
    let mut bytes = Vec::new(rt.alloc());
    for path in DRY_LOGS.iter() {
        bytes.extend_from_slice(&fs::read(rt, *path)?)?;
    }
    Ok(bytes)
}

#[test]
fn a_dry_run_writes_nothing(rt: HostRuntime) -> Result<(), Fail> {
    fill(&rt, "bk_shell_dry")?;
    fs::remove_file(&rt, "bk_shell_dry/writer.lock")?;
    fs::remove_file(&rt, "bk_shell_dry/ledgers.manifest")?;
    fs::remove_file(&rt, "bk_shell_dry/logs.manifest")?;
    let before = bytes_of_logs(&rt)?;
    check(&rt, &rt, &DRY);
    let after = bytes_of_logs(&rt)?;
    assert!(rt; before.len() == 3458 && after.as_slice() == before.as_slice());
    for path in DRY_LOGS.iter() {
        fs::remove_file(&rt, *path)?;
    }
    // No other file is there, so the directory is empty now.
    fs::remove_dir(&rt, "bk_shell_dry")?;
    Ok(())
}

/// Compactions with files of deleted ledgers, and what each is to leave.
const DEAD_FILES: [Row<'static>; 7] = [
    Row {
        words: &[
            "bk_shell",
            "compact",
            "--dead-file",
            "bk_shell_dead_no",
            "bk_shell_dead",
        ],
        errors: "fault bk_shell_dead_no: No such file or directory (os error 2)\n",
        ..TOLD
    },
    Row {
        words: &[
            "bk_shell",
            "compact",
            "--dead-file",
            "bk_shell_dead_bad",
            "bk_shell_dead",
        ],
        errors: "fault bk_shell_dead_bad: line 3: no number from 0 to 9223372036854775807 in plain digits\n",
        ..TOLD
    },
    Row {
        words: &[
            "bk_shell",
            "compact",
            "--dead-file=bk_shell_dead_cr",
            "bk_shell_dead",
        ],
        errors: "fault bk_shell_dead_cr: line 2: no number from 0 to 9223372036854775807 in plain digits; it ends in a carriage return, which tr -d '\\r' removes\n",
        ..TOLD
    },
    Row {
        words: &[
            "bk_shell",
            "--json",
            "compact",
            "--dead-file=bk_shell_dead_cr",
            "bk_shell_dead",
        ],
        errors: "{\"fault\":\"bad line\",\"file\":\"bk_shell_dead_cr\",\"line\":2,\"reason\":\"it ends in a carriage return, which tr -d '\\\\r' removes\"}\n",
        ..TOLD
    },
    // Each of several files is read, the last one and the first.
    Row {
        words: &[
            "bk_shell",
            "compact",
            "--dry-run",
            "--dead-file=bk_shell_dead_seven",
            "--dead-file=bk_shell_dead_list",
            "bk_shell_dead",
        ],
        output: PLANNED_WITH_SEVEN,
        ..DONE
    },
    Row {
        words: &[
            "bk_shell",
            "compact",
            "--dry-run",
            "--dead-file=bk_shell_dead_list",
            "--dead-file=bk_shell_dead_seven",
            "bk_shell_dead",
        ],
        output: PLANNED_WITH_SEVEN,
        ..DONE
    },
    Row {
        words: &[
            "bk_shell",
            "compact",
            "--dead=9",
            "--dead-file=bk_shell_dead_list",
            "bk_shell_dead",
        ],
        output: "before 3 after 2 freed 1321 moved 1\n",
        ..DONE
    },
];

/// Files of deleted ledgers: their names, and what is in them.
const FILES: [(&str, &str); 4] = [
    ("bk_shell_dead_bad", "2\n\n 7\n"),
    ("bk_shell_dead_list", "7\n\n2"),
    ("bk_shell_dead_cr", "7\n2\r\n"),
    ("bk_shell_dead_seven", "7\n"),
];

#[test]
fn a_file_names_the_dead_ledgers(rt: HostRuntime) -> Result<(), Fail> {
    fill(&rt, "bk_shell_dead")?;
    for (path, text) in FILES.iter() {
        fs::write(&rt, *path, text.as_bytes())?;
    }
    check(&rt, &rt, &DEAD_FILES);
    for (path, _) in FILES.iter() {
        fs::remove_file(&rt, *path)?;
    }
    fs::remove_dir_all(&rt, "bk_shell_dead")?;
    Ok(())
}

/// Compactions of what has no logs, and what each is to leave.
const REFUSED: [Row<'static>; 3] = [
    Row {
        words: &["bk_shell", "compact", "bk_shell_lost"],
        errors: "fault disk: bk_shell_lost: No such file or directory (os error 2)\n",
        ..TOLD
    },
    Row {
        words: &["bk_shell", "compact", "bk_shell_file"],
        errors: "fault disk: bk_shell_file: Not a directory (os error 20)\n",
        ..TOLD
    },
    Row {
        words: &["bk_shell", "compact", "bk_shell_bare"],
        status: 0,
        output: "before 0 after 0 freed 0 moved 0\n",
        errors: "no log found in bk_shell_bare: a log is a file named by its id in hexadecimal, such as 1f.log\n",
    },
];

#[test]
fn what_can_not_be_compacted_is_told(rt: HostRuntime) -> Result<(), Fail> {
    let _ = fs::remove_dir_all(&rt, "bk_shell_lost");
    fs::write(&rt, "bk_shell_file", b"bytes".as_slice())?;
    anew(&rt, "bk_shell_bare")?;
    check(&rt, &rt, &REFUSED);
    assert!(rt; fs::metadata(&rt, "bk_shell_bare/writer.lock").is_err());
    fs::remove_file(&rt, "bk_shell_file")?;
    fs::remove_dir_all(&rt, "bk_shell_bare")?;
    Ok(())
}

/// The directory that another program writes to.
const BUSY: &str = "bk_shell_busy";

/// Whether a compaction is refused, since this process writes there.
fn is_kept_out(rt: &HostRuntime) -> Result<bool, Fail> {
    let shown = run(rt, &["bk_shell", "compact", "--dead=2", BUSY], "");
    let busy = in_use(rt, BUSY)?;
    let is_told = shown.errors.as_slice() == busy.as_bytes();
    Ok(is_told && shown.status == 1 && shown.output.is_empty())
}

#[test]
fn a_folder_that_is_written_is_not_compacted(rt: HostRuntime) -> Result<(), Fail> {
    fill(&rt, BUSY)?;
    let writer = DirDisk::open_to_write(&rt, BUSY)?;
    assert!(rt; is_kept_out(&rt)?);
    // What would be done is told all the same.
    let words = ["bk_shell", "compact", "--dead=2", "--dry-run", BUSY];
    let dry = run(&rt, &words, "");
    assert!(rt; dry.status == 0 && dry.output.as_slice() == PLANNED.as_bytes());
    drop(writer);
    fs::remove_dir_all(&rt, BUSY)?;
    Ok(())
}
