//! Scripts on directories, which each test creates and removes.

use super::worked::{SCRIPTS, push_line, texts_of};
use super::{DEFAULTS, Shown, is_shown};
use bk_disk::DirDisk;
use bk_drive::Settings;
use bk_script::run_on;
use std::io::Write;
use std::test::Fail;
use std::{fs, io};

/// Creates an empty directory.
fn anew(rt: &HostRuntime, folder: &str) -> io::Result<()> {
    let _ = fs::remove_dir_all(rt, folder);
    fs::create_dir(rt, folder)
}

/// Runs a script on this disk.
fn run_over(
    rt: &HostRuntime,
    disk: DirDisk,
    settings: Settings,
    dead: &[u64],
    script: &str,
) -> Shown {
    let alloc = rt.alloc();
    let mut output = Vec::new(alloc);
    let mut errors = Vec::new(alloc);
    let mut reader = script.as_bytes();
    let status = match run_on(alloc, disk, settings, dead, &mut reader, &mut output) {
        Ok(()) => 0,
        Err(fault) => {
            let _ = writeln!(errors, "{fault}");
            1
        }
    };
    Shown {
        status,
        output,
        errors,
    }
}

/// Runs a script on a directory, which it locks until its end.
fn run_in(
    rt: &HostRuntime,
    folder: &str,
    settings: Settings,
    dead: &[u64],
    script: &str,
) -> Result<Shown, Fail> {
    let disk = DirDisk::open_to_write(rt, folder)?;
    Ok(run_over(rt, disk, settings, dead, script))
}

/// Returns whether each of these lines has its answer on an empty directory.
fn are_answered_in(
    rt: &HostRuntime,
    folder: &str,
    settings: Settings,
    dead: &[u64],
    steps: &[(&str, &str)],
) -> Result<bool, Fail> {
    let (script, output) = texts_of(rt.alloc(), steps)?;
    anew(rt, folder)?;
    let shown = run_in(rt, folder, settings, dead, &script)?;
    Ok(is_shown(&shown, 0, &output, ""))
}

#[test]
fn an_empty_folder_answers_as_a_disk_in_memory(rt: HostRuntime) -> Result<(), Fail> {
    let folder = "bk_script_worked";
    for (number, (settings, dead, steps)) in SCRIPTS.iter().enumerate() {
        let answered = are_answered_in(&rt, folder, *settings, dead, steps)?;
        assert!(rt; answered, "script {number}");
    }
    fs::remove_dir_all(&rt, folder)?;
    Ok(())
}

/// A script with a flush, a sealed log, another flush, a deletion, and a compaction of the first
/// log.
static STEPS: [&str; 19] = [
    "add 1 0 one",
    "add 2 0 two",
    "swap",
    "write",
    "write",
    "publish",
    "roll",
    "add 1 1 three",
    "swap",
    "write",
    "publish",
    "delete 2",
    "major",
    "copy 2",
    "end",
    "switch 1",
    "finish",
    "close 0",
    "remove 0",
];

/// The entries that are published after N steps: the step, the entry, and the output of a read.
static PUBLISHED: [(usize, &str, &str); 3] = [
    (6, "1 0", "bytes 6f6e65\nreleased\n"),
    (6, "2 0", "bytes 74776f\nreleased\n"),
    (11, "1 1", "bytes 7468726565\nreleased\n"),
];

/// Number of steps after which ledger 2 is deleted. A later opening must list it.
const DELETED: usize = 12;

/// Output of a read of an entry of a deleted ledger.
const GONE: &str = "deleted\nno lease\nno lease\n";

/// Runs the first steps on an empty directory. Returns whether they ran.
fn run_first(rt: &HostRuntime, folder: &str, count: usize) -> Result<bool, Fail> {
    let mut script = String::new(rt.alloc());
    for line in STEPS.iter().take(count) {
        push_line(&mut script, line)?;
    }
    anew(rt, folder)?;
    let ran = run_in(rt, folder, DEFAULTS, &[], &script)?;
    Ok(ran.status == 0)
}

/// Returns whether a read of this entry, on a store opened after N steps, ends with this text.
fn is_read(
    rt: &HostRuntime,
    folder: &str,
    count: usize,
    entry: &str,
    end: &str,
) -> Result<bool, Fail> {
    let read = format!(in rt.alloc(); "take 0 {entry}\nfetch 0\nrelease 0\n")?;
    let dead: &[u64] = if count < DELETED { &[] } else { &[2] };
    let shown = run_in(rt, folder, DEFAULTS, dead, &read)?;
    Ok(shown.status == 0 && shown.output.ends_with(end.as_bytes()))
}

/// Runs the first steps on an empty directory, then reads each published entry. Returns whether all
/// are there, and none of the deleted ledger.
fn is_all_there(rt: &HostRuntime, folder: &str, count: usize) -> Result<bool, Fail> {
    let mut is_there = run_first(rt, folder, count)?;
    for (since, entry, printed) in PUBLISHED.iter() {
        if *since <= count {
            let is_dead = count >= DELETED && entry.starts_with("2");
            let end = if is_dead { GONE } else { *printed };
            is_there = is_read(rt, folder, count, entry, end)? && is_there;
        }
    }
    Ok(is_there)
}

#[test]
fn what_was_published_is_there_after_each_step(rt: HostRuntime) -> Result<(), Fail> {
    let folder = "bk_script_stopped";
    for count in 0..=STEPS.len() {
        assert!(rt; is_all_there(&rt, folder, count)?, "after {count} steps");
    }
    fs::remove_dir_all(&rt, folder)?;
    Ok(())
}

/// Files that are not logs and stay unchanged.
static FOREIGN: [&str; 5] = [
    "notes",
    "01f.log",
    "1F.log",
    "0.log.compacted",
    "80000000.log",
];

/// Creates a directory with these files.
fn make_foreign(rt: &HostRuntime, folder: &str) -> Result<(), Fail> {
    anew(rt, folder)?;
    for name in FOREIGN.iter() {
        let path = format!(in rt.alloc(); "{folder}/{name}")?;
        fs::write(rt, path.as_str(), b"bytes".as_slice())?;
    }
    Ok(())
}

/// Returns the number of these files that are unchanged.
fn foreign_left(rt: &HostRuntime, folder: &str) -> Result<usize, Fail> {
    let mut left = 0usize;
    for name in FOREIGN.iter() {
        let path = format!(in rt.alloc(); "{folder}/{name}")?;
        let text = fs::read_to_string(rt, path.as_str())?;
        if text.as_str() == "bytes" {
            left = left.saturating_add(1);
        }
    }
    Ok(left)
}

#[test]
fn other_files_of_the_folder_are_left_alone(rt: HostRuntime) -> Result<(), Fail> {
    let folder = "bk_script_foreign";
    make_foreign(&rt, folder)?;
    let script = "add 1 0 a\nswap\nwrite\npublish\nroll\n";
    let output = "accepted\nswapped 1\nwrote 1028\npublished 1\nsealed 0\n";
    let shown = run_in(&rt, folder, DEFAULTS, &[], script)?;
    assert!(rt; is_shown(&shown, 0, output, ""), "beside other files");
    let left = foreign_left(&rt, folder)?;
    assert!(rt; left == FOREIGN.len(), "{left} files are as they were");
    fs::remove_dir_all(&rt, folder)?;
    Ok(())
}

#[test]
fn a_folder_that_is_taken_away_is_told(rt: HostRuntime) -> Result<(), Fail> {
    let folder = "bk_script_taken";
    anew(&rt, folder)?;
    let disk = DirDisk::open_to_write(&rt, folder)?;
    fs::remove_dir_all(&rt, folder)?;
    let shown = run_over(&rt, disk, DEFAULTS, &[], "add 1 0 a\n");
    assert!(rt;
        is_shown(&shown, 1, "", "fault disk\n"),
        "without the folder"
    );
    Ok(())
}
