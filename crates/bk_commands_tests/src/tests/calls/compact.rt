//! Calls of `compact`.

use super::folder::told_of_folder;
use bk_commands::{CompactAsk, folder_call, is_folder_call};
use std::alloc::Global;
use std::test::Fail;

/// Words behind the program's name, and what they ask for: the threshold, the dead ledgers, whether it is only told.
const CALLS: [(&[&str], u32, &[u64], bool); 6] = [
    (&["compact", "logs"], 800, &[], false),
    (&["compact", "--minor", "logs"], 200, &[], false),
    (&["compact", "logs", "--major"], 800, &[], false),
    (&["compact", "--below", "0", "logs"], 0, &[], false),
    (
        &["compact", "--below=1000", "logs", "--dry-run"],
        1000,
        &[],
        true,
    ),
    (
        &["compact", "--dead", "3", "logs", "--dead=0"],
        800,
        &[3, 0],
        false,
    ),
];

/// Whether words ask for this compaction of the folder `logs`.
fn is_asked(alloc: Global, words: &[&str], below: u32, dead: &[u64], is_dry: bool) -> bool {
    match folder_call(alloc, words) {
        Ok(call) => match CompactAsk::of(alloc, &call) {
            Ok(ask) => {
                call.path == "logs"
                    && call.name() == "compact"
                    && ask.below == below
                    && ask.deleted.dead.as_slice() == dead
                    && ask.deleted.dead_files.is_empty()
                    && ask.is_dry == is_dry
            }
            Err(_) => false,
        },
        Err(_) => false,
    }
}

#[test]
fn a_call_of_compact(rt: HostRuntime) -> Result<(), Fail> {
    for (behind, below, dead, is_dry) in CALLS.iter() {
        let mut words = vec![in rt.alloc(); "any name"]?;
        words.extend_from_slice(behind)?;
        let is_on_folder = is_folder_call(&words);
        let is_right = is_asked(rt.alloc(), &words, *below, dead, *is_dry);
        assert!(rt; is_on_folder && is_right, "{behind:?}");
    }
    Ok(())
}

/// Wrong calls, and a part of what is told of each.
const WRONG: [(&[&str], &str); 7] = [
    (&["bk_shell", "compact"], "<DIR>"),
    (
        &["bk_shell", "compact", "--minor", "--major", "logs"],
        "cannot be used with",
    ),
    (
        &["bk_shell", "compact", "--below=5", "--major", "logs"],
        "cannot be used with",
    ),
    (
        &["bk_shell", "compact", "--below", "1001", "logs"],
        "invalid value '1001' for '<N>': not a number from 0 to 1000 in plain digits\n\nUsage: bookie compact [OPTIONS] <DIR>\n",
    ),
    (
        &["bk_shell", "compact", "--dead", "x", "logs"],
        "invalid value 'x' for '<LEDGER>': not a number from 0 to 9223372036854775807",
    ),
    (
        &["bk_shell", "compact", "logs", "5"],
        "unexpected argument '5' found",
    ),
    (&["bk_shell", "help", "compact"], "2 freed 1321 moved 1"),
];

#[test]
fn a_wrong_call_of_compact_is_told(rt: HostRuntime) {
    for (words, part) in WRONG.iter() {
        let text = told_of_folder(&rt, rt.alloc(), words);
        assert!(rt; text.contains(part), "{part:?} in {text:?}");
    }
}
