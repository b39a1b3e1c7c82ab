//! Calls of `load`.

use super::{LoadCall, load_call};
use bk_commands::{command_of, text_of};
use bk_load::Until;
use std::alloc::Global;
use std::process::Abort;
use std::test::Fail;

/// Words behind the program's name, and what they ask for: the threads, the end, the folder.
const CALLS: [(&[&str], u32, Until, Option<&str>); 6] = [
    (&["load"], 8, Until::Adds(100_000), None),
    (
        &["load", "--threads", "256"],
        256,
        Until::Adds(100_000),
        None,
    ),
    (&["load", "--seconds", "3"], 8, Until::Seconds(3), None),
    (&["--json", "load", "--adds=1"], 8, Until::Adds(1), None),
    (
        &["load", "--folder", "logs", "--adds", "1000000000"],
        8,
        Until::Adds(1_000_000_000),
        Some("logs"),
    ),
    (
        &["load", "--no-manifest", "--folder", "logs"],
        8,
        Until::Adds(100_000),
        Some("logs"),
    ),
];

/// Whether a call asks for this load.
fn is_asked(call: &LoadCall<'_>, threads: u32, until: Until, folder: Option<&str>) -> bool {
    call.load.callers == threads && call.load.until == until && call.folder == folder
}

#[test]
fn a_call_of_load(rt: HostRuntime) -> Result<(), Fail> {
    for (behind, threads, until, folder) in CALLS.iter() {
        let mut words = vec![in rt.alloc(); "any name"]?;
        words.extend_from_slice(behind)?;
        let is_right = match load_call(rt.alloc(), &words) {
            Ok(call) => {
                let no_manifest = behind.contains(&"--no-manifest");
                is_asked(&call, *threads, *until, *folder) && call.no_manifest == no_manifest
            }
            Err(_) => false,
        };
        assert!(rt;
            command_of(&words) == Some("load") && is_right,
            "{behind:?}"
        );
    }
    Ok(())
}

/// Wrong calls and a call for help, and a part of what is told of each.
const WRONG: [(&[&str], &str); 8] = [
    (
        &["bk_shell", "load", "--threads", "0"],
        "invalid value '0' for '--threads <N>': not a number from 1 to 256 in plain digits\n\nUsage: bookie load [OPTIONS]\n",
    ),
    (
        &["bk_shell", "load", "--threads=257"],
        "'257' for '--threads <N>': not a number from 1 to 256",
    ),
    (
        &["bk_shell", "load", "--seconds", "x"],
        "'x' for '--seconds <N>': not a number from 1 to 1000000",
    ),
    (
        &["bk_shell", "load", "--adds", "1", "--seconds", "1"],
        "cannot be used with",
    ),
    (
        &["bk_shell", "load", "5"],
        "unexpected argument '5' found\n\nUsage: bookie load [OPTIONS]\n",
    ),
    (
        &["bk_shell", "load", "--add=5"],
        "unexpected argument '--add' found",
    ),
    (&["bk_shell", "load", "--folder"], "a value is required"),
    (&["bk_shell", "help", "load"], "--seconds <N>"),
];

/// What is told of words that are no load.
fn told_of_load(rt: &impl Abort, alloc: Global, words: &[&str]) -> String {
    match load_call(alloc, words) {
        Ok(_) => {
            assert!(rt; false, "{words:?} is a load");
            String::new(alloc)
        }
        Err(error) => text_of(alloc, &error).expect(rt, "memory"),
    }
}

#[test]
fn a_wrong_call_of_load_is_told(rt: HostRuntime) {
    for (words, part) in WRONG.iter() {
        let text = told_of_load(&rt, rt.alloc(), words);
        assert!(rt;
            command_of(words) == Some("load") && text.contains(part),
            "{part:?} in {text:?}"
        );
    }
}
