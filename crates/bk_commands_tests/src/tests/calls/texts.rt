//! What is told of wrong words behind `script`, and its help.

use super::told;

/// What is told of a wrong value and of an unknown word: the part that it has, and one that it has not.
const TOLD: [(&[&str], &str, &str); 12] = [
    (
        &["bk_shell", "script", "--slots", "0"],
        "'0' for '--slots <NUMBER>': not a number from 1 to 65536",
        "<COMMAND>",
    ),
    (
        &["bk_shell", "script", "--slots", "0"],
        "\n\nUsage: bookie script [OPTIONS] [LEDGER]...\n",
        "--log-limit",
    ),
    (
        &["bk_shell", "script", "--slot", "5"],
        "unexpected argument '--slot' found; there is '--slots'\n",
        "tip",
    ),
    (
        &["bk_shell", "script", "--log_limit=5"],
        "unexpected argument '--log_limit' found; there is '--log-limit'\n",
        "tip",
    ),
    (
        &["bk_shell", "script", "--medium", "100"],
        "unexpected argument '--medium' found\n\nUsage: bookie script [OPTIONS] [LEDGER]...\n",
        "--log-limit",
    ),
    (
        &["bk_shell", "script", "--minr=100"],
        "unexpected argument '--minr' found; there is '--minor'\n",
        "--major",
    ),
    (
        &["bk_shell", "script", "--major=1001"],
        "'1001' for '--major <NUMBER>': not a number from 0 to 1000 in plain digits",
        "--minor",
    ),
    (
        &["bk_shell", "script", "--cachelimit=5"],
        "unexpected argument '--cachelimit' found; there is '--cache-limit'\n",
        "tip",
    ),
    (
        &["bk_shell", "script", "--no-hint"],
        "unexpected argument '--no-hint' found; there is '--no-hints'\n",
        "tip",
    ),
    (
        &["bk_shell", "script", "--flder", "logs"],
        "unexpected argument '--flder' found; there is '--folder'\n",
        "tip",
    ),
    (
        &["bk_shell", "script", "5", "x"],
        "invalid value 'x' for '[LEDGER]...': not a number from 0 to 9223372036854775807 in plain digits\n\nUsage: bookie script [OPTIONS] [LEDGER]...\n",
        "tip",
    ),
    (
        &["bk_shell", "scrip"],
        "similar subcommand exists: 'script'",
        "OPTIONS",
    ),
];

#[test]
fn a_wrong_word_is_told_and_no_other_option_is_named(rt: HostRuntime) {
    for (words, part, other) in TOLD.iter() {
        let text = told(&rt, rt.alloc(), words);
        assert!(rt; text.contains(part), "{part:?} in {text:?}");
        assert!(rt; !text.contains(other), "{other:?} in {text:?}");
    }
}

/// Parts of the help: each step and option, the largest payload of a pad, each way to status 1.
const SHOWN: [&str; 36] = [
    "add LEDGER ENTRY [TEXT]",
    "pad LEDGER ENTRY SIZE",
    "4999984",
    "take READER LEDGER ENTRY",
    "fetch READER",
    "release READER",
    "delete LEDGER",
    "swap ",
    "write ",
    "publish ",
    "roll ",
    "retire LOG",
    "close LOG",
    "remove LOG",
    "rebuild ",
    "minor, major ",
    "copy N",
    "end ",
    "switch N",
    "finish ",
    "giveup ",
    "--log-limit <NUMBER>",
    "--cache-limit <NUMBER>",
    "--recent <NUMBER>",
    "--slots <NUMBER>",
    "--leases <NUMBER>",
    "--minor <NUMBER>",
    "--major <NUMBER>",
    "--folder <DIR>",
    "[LEDGER]...",
    "a read fails",
    "16777216 bytes",
    "1048576 reads",
    "the store is not opened",
    "no memory",
    "cannot be written",
];

#[test]
fn help_shows_each_step_and_option(rt: HostRuntime) {
    let text = told(&rt, rt.alloc(), &["bk_shell", "help", "script"]);
    for part in SHOWN.iter() {
        assert!(rt; text.contains(part), "{part:?} in the help");
    }
}
