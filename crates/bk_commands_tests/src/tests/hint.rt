//! The command `hint`, and commands that use hints or are told not to.

use super::durable::{TWO, fill, flip, grow};
use super::folder::{DONE, Row, TOLD, anew, check};
use super::{holds, run};
use std::fs;
use std::os::unix::fs::symlink;
use std::test::Fail;

/// What is made of a directory with a sealed log and an open one.
const MADE: [Row<'static>; 9] = [
    Row {
        words: &["bk_shell", "hint", "--check", "bk_shell_hints"],
        output: "0 none\n1 unsealed\n",
        ..DONE
    },
    Row {
        words: &["bk_shell", "hint", "bk_shell_hints"],
        output: "0 bytes 64\nmade 1 kept 0 unsealed 1 unfit 0 removed 0\n",
        ..DONE
    },
    Row {
        words: &["bk_shell", "--json", "hint", "bk_shell_hints"],
        output: "{\"made\":0,\"kept\":1,\"unsealed\":1,\"unfit\":0,\"removed\":0}\n",
        ..DONE
    },
    Row {
        words: &["bk_shell", "hint", "--check", "--json", "bk_shell_hints"],
        output: "{\"log\":0,\"state\":\"right\"}\n{\"log\":1,\"state\":\"unsealed\"}\n",
        ..DONE
    },
    Row {
        words: &["bk_shell", "find", "bk_shell_hints", "1", "0"],
        output: "0 1028 68656c6c6f\n",
        ..DONE
    },
    Row {
        words: &["bk_shell", "find", "bk_shell_hints", "2", "0"],
        output: "1 1028 7468657265\n",
        ..DONE
    },
    Row {
        words: &["bk_shell", "ledgers", "bk_shell_hints"],
        output: "1 1 25 0 0 1\n2 1 25 0 0 1\n",
        ..DONE
    },
    Row {
        words: &["bk_shell", "check", "bk_shell_hints"],
        output: "0 ok\n1 unsealed\n",
        ..DONE
    },
    Row {
        words: &["bk_shell", "hint", "bk_shell_hints_nowhere"],
        errors: "fault disk: bk_shell_hints_nowhere: No such file or directory (os error 2)\n",
        ..TOLD
    },
];

/// What a script reads of it, and a compaction removes.
const TAKES: &str = "take 0 1 0\nfetch 0\ntake 1 2 0\nfetch 1\n";

const TAKEN: &str = "leased 1028\nbytes 68656c6c6f\nleased 4294968324\nbytes 7468657265\n";

/// The hint of the sealed log, as another program makes it of the description of the format.
const HINT: [u8; 64] = [
    0x42, 0x4b, 0x48, 0x49, 0x00, 0x00, 0x00, 0x01, 0x00, 0x00, 0x00, 0x00, 0x00, 0x00, 0x00, 0x00,
    0x00, 0x00, 0x04, 0x41, 0x07, 0xda, 0x57, 0xa4, 0x00, 0x00, 0x00, 0x01, 0x00, 0x00, 0x00, 0x01,
    0x00, 0x00, 0x00, 0x00, 0x00, 0x00, 0x00, 0x01, 0x00, 0x00, 0x00, 0x00, 0x00, 0x00, 0x00, 0x00,
    0x00, 0x00, 0x04, 0x04, 0x00, 0x00, 0x00, 0x19, 0x00, 0x00, 0x00, 0x00, 0xa2, 0x04, 0xe9, 0x41,
];

#[test]
fn hints_are_made_and_used(rt: HostRuntime) -> Result<(), Fail> {
    let folder = "bk_shell_hints";
    fill(&rt, folder, TWO)?;
    check(&rt, &rt, &MADE);
    assert_eq!(rt;
        fs::read(&rt, "bk_shell_hints/0.hint")?.as_slice(),
        HINT.as_slice()
    );
    let shown = run(&rt, &["bk_shell", "script", "--folder", folder], TAKES);
    assert_eq!(rt; shown.output.as_slice(), TAKEN.as_bytes());
    assert!(rt; shown.errors.is_empty());
    // The hint of a log that is removed goes with it.
    let shown = run(&rt, &["bk_shell", "compact", folder, "--dead", "1"], "");
    assert_eq!(rt; shown.status, 0);
    assert!(rt; fs::metadata(&rt, "bk_shell_hints/0.log").is_err());
    assert!(rt; fs::metadata(&rt, "bk_shell_hints/0.hint").is_err());
    fs::remove_dir_all(&rt, folder)?;
    Ok(())
}

/// Commands on a directory whose hint of log 0 is damaged: they answer as without it.
const DAMAGED: [Row<'static>; 6] = [
    Row {
        words: &["bk_shell", "hint", "--check", "bk_shell_unhinted"],
        status: 1,
        output: "0 wrong hint length 64\n1 unsealed\n",
        ..DONE
    },
    Row {
        words: &["bk_shell", "find", "bk_shell_unhinted", "1", "0"],
        output: "0 1028 68656c6c6f\n",
        errors: "note hint not used: log 0: hint length 64\n",
        ..DONE
    },
    Row {
        words: &["bk_shell", "--json", "find", "bk_shell_unhinted", "2", "0"],
        output: "{\"found\":true,\"log\":1,\"at\":1028,\"data\":\"7468657265\"}\n",
        errors: "{\"note\":\"hint not used\",\"log\":0,\"why\":\"hint length 64\"}\n",
        ..DONE
    },
    Row {
        words: &[
            "bk_shell",
            "find",
            "--no-hints",
            "bk_shell_unhinted",
            "1",
            "0",
        ],
        output: "0 1028 68656c6c6f\n",
        ..DONE
    },
    Row {
        words: &["bk_shell", "compact", "--dry-run", "bk_shell_unhinted"],
        output: "before 2 after 2 freed 0 moved 0\n",
        errors: "note hint not used: log 0: hint length 64\n",
        ..DONE
    },
    Row {
        words: &[
            "bk_shell",
            "compact",
            "--no-hints",
            "--dry-run",
            "bk_shell_unhinted",
        ],
        output: "before 2 after 2 freed 0 moved 0\n",
        ..DONE
    },
];

/// How a hint is damaged.
#[derive(Clone, Copy, Debug)]
enum Damage {
    Flipped(usize),
    Cut(usize),
    /// The hint of a shorter log of this id.
    Stale,
    Link,
    Directory,
}

static DAMAGES: [Damage; 6] = [
    Damage::Flipped(30),
    Damage::Flipped(62),
    Damage::Cut(40),
    Damage::Stale,
    Damage::Link,
    Damage::Directory,
];

/// Damages the hint of log 0 of a directory.
fn spoil(rt: &HostRuntime, how: Damage) -> Result<(), Fail> {
    const HINT: &str = "bk_shell_unhinted/0.hint";
    let mut hint = fs::read(rt, HINT)?;
    fs::remove_file(rt, HINT)?;
    match how {
        Damage::Flipped(at) => {
            flip(&mut hint, at, 4);
            fs::write(rt, HINT, &hint)?;
        }
        Damage::Cut(length) => fs::write(rt, HINT, hint.get(..length).unwrap_or(&[]))?,
        Damage::Stale => {
            // The log grows, as if another one had its id.
            fs::write(rt, HINT, &hint)?;
            grow(rt, "bk_shell_unhinted/0.log", b"\0")?;
        }
        Damage::Link => {
            fs::write(rt, "bk_shell_unhinted/other", &hint)?;
            symlink(rt, "other", HINT)?;
        }
        Damage::Directory => fs::create_dir(rt, HINT)?,
    }
    Ok(())
}

/// Whether the script answers as without hints, and notes that the hint of log 0 is not used.
fn answers_as_without(rt: &HostRuntime) -> bool {
    let words = [
        "bk_shell",
        "script",
        "--folder",
        "bk_shell_unhinted",
        "--no-manifest",
    ];
    let shown = run(rt, &words, TAKES);
    shown.status == 0
        && shown.output.as_slice() == TAKEN.as_bytes()
        && holds(&shown.errors, "note hint not used: log 0: ")
}

#[test]
fn damaged_hints_are_noted_and_not_used(rt: HostRuntime) -> Result<(), Fail> {
    let folder = "bk_shell_unhinted";
    for how in &DAMAGES {
        fill(&rt, folder, TWO)?;
        assert_eq!(rt; run(&rt, &["bk_shell", "hint", folder], "").status, 0);
        spoil(&rt, *how)?;
        assert!(rt; answers_as_without(&rt), "{how:?}");
        let words = [
            "bk_shell",
            "script",
            "--folder",
            folder,
            "--no-manifest",
            "--no-hints",
        ];
        let shown = run(&rt, &words, TAKES);
        assert_eq!(rt; shown.output.as_slice(), TAKEN.as_bytes());
        assert!(rt; shown.errors.is_empty());
    }
    fill(&rt, folder, TWO)?;
    assert_eq!(rt; run(&rt, &["bk_shell", "hint", folder], "").status, 0);
    spoil(&rt, Damage::Flipped(30))?;
    check(&rt, &rt, &DAMAGED);
    // It is made again.
    let shown = run(&rt, &["bk_shell", "hint", folder], "");
    assert_eq!(rt;
        shown.output.as_slice(),
        b"0 bytes 64\nmade 1 kept 0 unsealed 1 unfit 0 removed 0\n".as_slice()
    );
    fs::remove_dir_all(&rt, folder)?;
    Ok(())
}

/// A log that cannot be read, and a hint that cannot be written.
const FAULTS: [Row<'static>; 2] = [
    Row {
        words: &["bk_shell", "hint", "bk_shell_unwritten"],
        output: "made 0 kept 0 unsealed 1 unfit 0 removed 0\n",
        errors: "fault log 0: disk: bk_shell_unwritten/0.hint: rename: Is a directory (os error 21)\n",
        ..TOLD
    },
    Row {
        words: &["bk_shell", "hint", "--check", "bk_shell_unwritten"],
        output: "0 wrong hint is no plain file\n1 unsealed\n",
        ..TOLD
    },
];

#[test]
fn a_hint_that_cannot_be_written_is_a_fault(rt: HostRuntime) -> Result<(), Fail> {
    let folder = "bk_shell_unwritten";
    fill(&rt, folder, TWO)?;
    fs::create_dir(&rt, "bk_shell_unwritten/0.hint")?;
    check(&rt, &rt, &FAULTS);
    fs::remove_dir_all(&rt, folder)?;
    anew(&rt, folder)?;
    let shown = run(&rt, &["bk_shell", "hint", folder], "");
    assert_eq!(rt;
        shown.output.as_slice(),
        b"made 0 kept 0 unsealed 0 unfit 0 removed 0\n".as_slice()
    );
    fs::remove_dir_all(&rt, folder)?;
    Ok(())
}
