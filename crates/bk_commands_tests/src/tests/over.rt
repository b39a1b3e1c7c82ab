//! Scripts over real folders: what they answer, what they leave, and what stands in their way.

use super::{CACHE, FLUSH, HALF_DELETED, LATEST, ROLL, Shown, run};
use bk_commands::run_words;
use std::alloc::Global;
use std::fs::{self, OpenOptions};
use std::io::{self, Read, Write};
use std::test::Fail;

/// A flush, a compaction of its log from the choice to the removal, and reads at each end of it.
const COMPACTED: &str =
    "add 1 0 hello\nadd 1 1\npad 2 0 200\ntake 0 1 0\nswap\nadd 1 2 later\nwrite\nwrite\nwrite\npublish\nroll\ndelete 2\nminor\ncopy 5\nend\nswitch 9\nfinish\nclose 0\nremove 0\ntake 0 1 0\nfetch 0\nswap\nwrite\npublish\ntake 1 1 2\nfetch 1\nrebuild\n";

/// Words behind `script`, and an input.
const RUNS: [(&[&str], &str); 8] = [
    (&[], FLUSH),
    (&["--log-limit", "2048"], FLUSH),
    (&["--slots=1"], ROLL),
    (&["--cache-limit", "100"], CACHE),
    (&["--recent", "1"], LATEST),
    (&["--major=545"], HALF_DELETED),
    (&["7", "9"], COMPACTED),
    (&["--minor", "1000"], COMPACTED),
];

/// What a script shows, in memory or over a new folder.
fn shown<'w>(
    rt: &HostRuntime,
    behind: &[&'w str],
    folder: &[&'w str],
    input: &str,
) -> Option<Shown> {
    let mut words = Vec::new(rt.alloc());
    words.extend_from_slice(&["bk_shell", "script"]).ok()?;
    words.extend_from_slice(behind).ok()?;
    words.extend_from_slice(folder).ok()?;
    Some(run(rt, &words, input))
}

/// Whether a script shows the same over a new folder as in memory.
fn is_same(rt: &HostRuntime, behind: &[&str], input: &str) -> bool {
    let _ = fs::remove_dir_all(rt, "bk_shell_same");
    let memory = shown(rt, behind, &[], input);
    let folder = shown(rt, behind, &["--folder", "bk_shell_same"], input);
    match (memory, folder) {
        (Some(memory), Some(folder)) => {
            memory.status == folder.status
                && memory.output == folder.output
                && memory.errors == folder.errors
        }
        _ => false,
    }
}

#[test]
fn a_folder_answers_as_memory(rt: HostRuntime) -> Result<(), Fail> {
    for (behind, input) in RUNS.iter() {
        assert!(rt; is_same(&rt, behind, input), "{behind:?} {input}");
    }
    fs::remove_dir_all(&rt, "bk_shell_same")?;
    Ok(())
}

/// How many lines of a script are run before it is left.
const LINES: usize = 27;

/// The entries that stand in the logs once so many lines were run: how many lines, the entry, what a read of it shows.
const PUBLISHED: [(usize, &str, &[u8]); 3] = [
    (10, "take 0 1 0\nfetch 0\n", b"bytes 68656c6c6f\n"),
    (10, "take 0 1 1\nfetch 0\n", b"bytes -\n"),
    (24, "take 0 1 2\nfetch 0\n", b"bytes 6c61746572\n"),
];

/// The first lines of a text.
fn first_lines(text: &str, count: usize) -> &str {
    let mut length: usize = 0;
    for line in text.split_inclusive('\n').take(count) {
        length = length.saturating_add(line.len());
    }
    text.get(..length).unwrap_or(text)
}

/// Runs the first lines of the long script over a new folder, and then comes back to it: whether all that was published is there.
fn stays(rt: &HostRuntime, lines: usize) -> bool {
    let over: &[&str] = &["--folder", "bk_shell_stays"];
    let _ = fs::remove_dir_all(rt, "bk_shell_stays");
    if !shown(rt, &[], over, first_lines(COMPACTED, lines)).is_some_and(|it| it.status == 0) {
        return false;
    }
    for (from, read, text) in PUBLISHED.iter() {
        let is_there = shown(rt, &["2"], over, read).is_some_and(|it| it.output.ends_with(text));
        if *from <= lines && !is_there {
            return false;
        }
    }
    true
}

#[test]
fn what_was_published_stays(rt: HostRuntime) -> Result<(), Fail> {
    assert_eq!(rt; COMPACTED.split_inclusive('\n').count(), LINES);
    for lines in 0..LINES + 1 {
        assert!(rt; stays(&rt, lines), "after {lines} lines");
    }
    fs::remove_dir_all(&rt, "bk_shell_stays")?;
    Ok(())
}

/// What a device may leave behind the bytes that it was asked to keep: zeros, other bytes, a record that nobody added.
const DAMAGES: [&[u8]; 3] = [
    &[0; 100],
    &[0xa5; 100],
    b"\x00\x00\x00\x18\x00\x00\x00\x00\x00\x00\x00\x4d\x00\x00\x00\x00\x00\x00\x00\x01mmmmmmmm",
];

/// What reads of an entry that was published and of the one in that record show.
const IN_FRONT: &[u8] = b"leased 1028\nbytes 68656c6c6f\nnot held\n";

/// Publishes entries, has a device leave something behind them, and comes back: what was published is found, and nothing else.
fn is_found_in_front(rt: &HostRuntime, damage: &[u8]) -> Result<bool, Fail> {
    let over: &[&str] = &["--folder", "bk_shell_damaged"];
    let _ = fs::remove_dir_all(rt, "bk_shell_damaged");
    let made = shown(rt, &[], over, first_lines(COMPACTED, 10));
    let mut log = OpenOptions::new()
        .append(true)
        .open(rt, "bk_shell_damaged/0.log")?;
    log.write_all(damage)?;
    let read = shown(rt, &[], over, "take 0 1 0\nfetch 0\ntake 1 77 1\n");
    Ok(
        made.is_some_and(|it| it.status == 0)
            && read.is_some_and(|it| it.output.as_slice() == IN_FRONT),
    )
}

#[test]
fn what_stands_behind_the_durable_bytes_is_not_read(rt: HostRuntime) -> Result<(), Fail> {
    for damage in DAMAGES.iter() {
        assert!(rt; is_found_in_front(&rt, damage)?, "{damage:?}");
    }
    fs::remove_dir_all(&rt, "bk_shell_damaged")?;
    Ok(())
}

/// An input at whose first read a folder is taken away.
#[derive(Drop)]
struct Thief<'a> {
    rt: &'a HostRuntime,
    folder: &'a str,
    input: &'a [u8],
}

impl Read for Thief<'_> {
    fn read(&mut self, buf: &mut [u8]) -> io::Result<usize> {
        let _ = fs::remove_dir_all(self.rt, self.folder);
        self.input.read(buf)
    }
}

#[test]
fn a_folder_is_taken_away(rt: HostRuntime) -> Result<(), Fail> {
    let alloc: Global = rt.alloc();
    let words = ["bk_shell", "script", "--folder", "bk_shell_taken"];
    let mut thief = Thief {
        rt: &rt,
        folder: "bk_shell_taken",
        input: ROLL.as_bytes(),
    };
    let (mut output, mut errors) = (Vec::new(alloc), Vec::new(alloc));
    let status = run_words(&rt, &words, &mut thief, &mut output, &mut errors);
    assert_eq!(rt; status, 1);
    assert!(rt; output.is_empty());
    assert!(rt;
        errors.starts_with(b"fault disk\nbk_shell_taken"),
        "{errors:?}"
    );
    assert!(rt;
        errors.ends_with(b": No such file or directory (os error 2)\n"),
        "{errors:?}"
    );
    Ok(())
}
