//! Calls of the commands that read a folder.

use super::super::folder::anew;
use super::super::{holds, run};
use bk_commands::words::{CUT_TORN, DEAD};
use bk_commands::{CommandRow, dir_command, folder_call, is_folder_call, tables, text_of};
use bk_inspect::{Digest, DigestChoice, DirCommand, EntryRange, Form, ScanChoice};
use std::alloc::Global;
use std::fs;
use std::process::Abort;
use std::test::Fail;

/// What the program tells of these words, which are no call on a folder.
pub(super) fn told_of_folder(rt: &impl Abort, alloc: Global, words: &[&str]) -> String {
    match folder_call(alloc, words) {
        Ok(_) => {
            assert!(rt; false, "{words:?} is a call on a folder");
            String::new(alloc)
        }
        Err(error) => text_of(alloc, &error).expect(rt, "memory"),
    }
}

/// Wrong calls of the commands that read a folder, and a part of what is told of each.
const WRONG_FOLDERS: [(&[&str], &str); 30] = [
    (
        &["bk_shell", "scan", "--no-hints", "folder", "0"],
        "unexpected argument '--no-hints' found",
    ),
    (
        &["bk_shell", "seal", "folder"],
        "give <LOG> or --all-unsealed\n\nUsage: bookie seal [OPTIONS] <DIR> [LOG]\n",
    ),
    (
        &["bk_shell", "seal", "folder", "1", "--all-unsealed"],
        "cannot be used with",
    ),
    (
        &["bk_shell", "export", "folder", "1", "--raw", "--hex"],
        "cannot be used with",
    ),
    (
        &["bk_shell", "export", "folder", "1", "--raw", "--json"],
        "cannot be used with",
    ),
    (&["bk_shell", "import", "folder"], "<FILE>"),
    (&["bk_shell", "logs"], "<DIR>"),
    (&["bk_shell", "check"], "<DIR>"),
    (&["bk_shell", "header", "folder"], "<LOG>"),
    (&["bk_shell", "find", "folder", "1"], "<ENTRY>"),
    (
        &["bk_shell", "logs", "folder", "1"],
        "unexpected argument '1' found\n\nUsage: bookie logs [OPTIONS] <DIR>\n",
    ),
    (
        &["bk_shell", "map", "folder", "2147483648"],
        "invalid value '2147483648' for '<LOG>': not a number from 0 to 2147483647 in plain digits\n\nUsage: bookie map [OPTIONS] <DIR> <LOG>\n",
    ),
    (&["bk_shell", "header", "folder", "01"], "'01' for '<LOG>'"),
    (
        &["bk_shell", "scan", "folder", "+1"],
        "Usage: bookie scan [OPTIONS] <DIR> <LOG>\n",
    ),
    (
        &["bk_shell", "scan", "folder", "1f"],
        "invalid value '1f' for '<LOG>': not a number from 0 to 2147483647 in plain digits; the file 1f.log is log 31\n",
    ),
    (
        &["bk_shell", "scan", "folder", "01f.log"],
        "'01f.log' for '<LOG>'",
    ),
    (
        &["bk_shell", "scan", "--from", "4294967296", "folder", "0"],
        "'4294967296' for '<AT>': not a number from 0 to 4294967295",
    ),
    (
        &["bk_shell", "stat", "folder", "--dead", "-1"],
        "unexpected argument",
    ),
    (
        &["bk_shell", "stat", "folder", "--dead", "05"],
        "invalid value '05' for '<LEDGER>': not a number from 0 to 9223372036854775807 in plain digits\n\nUsage: bookie stat [OPTIONS] <DIR>\n",
    ),
    (
        &["bk_shell", "entries", "folder", "1", "x"],
        "'x' for '<FIRST>'",
    ),
    (&["bk_shell", "scan", "folder", "-1"], "unexpected argument"),
    (
        &["bk_shell", "find", "folder", "9223372036854775808", "0"],
        "'9223372036854775808' for '<LEDGER>': not a number from 0 to 9223372036854775807",
    ),
    (
        &["bk_shell", "find", "folder", "0", "x"],
        "'x' for '<ENTRY>': not a number from 0 to 9223372036854775807 in plain digits\n\nUsage: bookie find [OPTIONS] <DIR> <LEDGER> <ENTRY>\n",
    ),
    (
        &["bk_shell", "check", "--all", "folder"],
        "unexpected argument '--all' found",
    ),
    (
        &["bk_shell", "check", "--digest", "crc64", "folder"],
        "invalid value 'crc64' for '--digest <KIND>': not crc32c, crc32 or auto\n\nUsage: bookie check [OPTIONS] <DIR>\n",
    ),
    (
        &["bk_shell", "check", "--digest=", "folder"],
        "'--digest <KIND>'",
    ),
    (&["bk_shell", "check", "--digest", "auto"], "<DIR>"),
    (
        &["bk_shell", "logs", "--digest", "auto", "folder"],
        "unexpected argument '--digest' found",
    ),
    (
        &["bk_shell", "seal", "folder", "1F.log"],
        "invalid value '1F.log' for '<LOG>': not a number from 0 to 2147483647 in plain digits\n\nUsage: bookie seal [OPTIONS] <DIR> [LOG]\n",
    ),
    (
        &["bk_shell", "--json", "logs", "folder", "--json=yes"],
        "unexpected value 'yes' for '--json' found",
    ),
];

#[test]
fn a_wrong_call_on_a_folder_is_told(rt: HostRuntime) {
    for (words, part) in WRONG_FOLDERS.iter() {
        let text = told_of_folder(&rt, rt.alloc(), words);
        assert!(rt; text.contains(part), "{part:?} in {text:?}");
    }
}

/// Calls on the directory `folder`, and the command that each is.
const COMMANDS: [(&[&str], DirCommand); 17] = [
    (&["bk_shell", "logs", "folder"], DirCommand::Logs),
    (
        &["bk_shell", "header", "folder", "0"],
        DirCommand::Header(0),
    ),
    (
        &["bk_shell", "map", "folder", "2147483647"],
        DirCommand::Map(2_147_483_647),
    ),
    (&["bk_shell", "scan", "folder", "31"], DirCommand::Scan(31)),
    (
        &["bk_shell", "scan", "folder", "1f.log"],
        DirCommand::Scan(31),
    ),
    (
        &["bk_shell", "scan", "--data", "folder", "0"],
        DirCommand::ScanPart(
            0,
            ScanChoice {
                ledger: None,
                from: 0,
                data: true,
            },
        ),
    ),
    (
        &[
            "bk_shell",
            "scan",
            "folder",
            "0",
            "--ledger",
            "7",
            "--from=1028",
        ],
        DirCommand::ScanPart(
            0,
            ScanChoice {
                ledger: Some(7),
                from: 1028,
                data: false,
            },
        ),
    ),
    (&["bk_shell", "ledgers", "folder"], DirCommand::Ledgers),
    (
        &["bk_shell", "entries", "folder", "7"],
        DirCommand::Entries(EntryRange {
            ledger: 7,
            first: 0,
            last: 9_223_372_036_854_775_807,
        }),
    ),
    (
        &["bk_shell", "entries", "folder", "7", "2"],
        DirCommand::Entries(EntryRange {
            ledger: 7,
            first: 2,
            last: 9_223_372_036_854_775_807,
        }),
    ),
    (
        &["bk_shell", "entries", "folder", "7", "2", "5"],
        DirCommand::Entries(EntryRange {
            ledger: 7,
            first: 2,
            last: 5,
        }),
    ),
    (&["bk_shell", "check", "folder"], DirCommand::Check),
    (
        &["bk_shell", "check", "--digest", "crc32c", "folder"],
        DirCommand::CheckDigests(DigestChoice::One(Digest::Crc32c)),
    ),
    (
        &["bk_shell", "check", "folder", "--digest", "crc32"],
        DirCommand::CheckDigests(DigestChoice::One(Digest::Crc32)),
    ),
    (
        &["bk_shell", "check", "--digest=auto", "folder"],
        DirCommand::CheckDigests(DigestChoice::Auto),
    ),
    (
        &["bk_shell", "check", "--long", "folder"],
        DirCommand::CheckLong(None),
    ),
    (
        &["bk_shell", "check", "folder", "--long", "--digest=auto"],
        DirCommand::CheckLong(Some(DigestChoice::Auto)),
    ),
];

/// Whether words are a call of this command on the directory `folder`.
fn is_command(alloc: Global, words: &[&str], command: DirCommand) -> bool {
    match folder_call(alloc, words) {
        Ok(call) => call.path == "folder" && dir_command(&call) == Some(command),
        Err(_) => false,
    }
}

#[test]
fn a_call_on_a_folder(rt: HostRuntime) {
    for (words, command) in COMMANDS.iter() {
        assert!(rt; is_folder_call(words), "{words:?}");
        assert!(rt; is_command(rt.alloc(), words, *command), "{words:?}");
    }
}

/// Commands on folders, and parts of the help of each.
const FOLDER_HELP: [(&str, &str); 12] = [
    (
        "logs",
        "$ ./bookie logs /var/bookie/current\n  0 1089 sealed",
    ),
    ("header", "version 1 map 1049 count 1"),
    ("map", "no map"),
    ("scan", "entries 1 foreign 1 torn 0"),
    ("find", "0 1028 68656c6c6f"),
    ("check", "map differs"),
    ("stat", "3 1087 3 63 41 650 open"),
    ("ledgers", "1 3 66 0 2 2"),
    ("entries", "2 3 1071 20"),
    ("seal", "sealed 3 map 1049 count 1"),
    ("compact", "0 1325 compact 1"),
    ("hint", "0 bytes 64"),
];

#[test]
fn help_shows_each_command_on_a_folder(rt: HostRuntime) {
    for (name, part) in FOLDER_HELP.iter() {
        let text = told_of_folder(&rt, rt.alloc(), &["bk_shell", "help", name]);
        assert!(rt; text.contains(part), "{part:?} in {text:?}");
    }
}

/// The operands of a command on a directory without logs.
const OPERANDS: [&str; 4] = ["bk_shell_rows_of", "0", "0", "0"];

/// Whether a row of the table is in the list of commands, and a function runs it on a directory
/// without logs.
fn is_served(rt: &HostRuntime, list: &[u8], row: &CommandRow) -> Result<bool, Fail> {
    let mut words = vec![in rt.alloc(); "bk_shell", row.name]?;
    let count = row.operands.len().saturating_add(1);
    for operand in OPERANDS.iter().take(count) {
        words.push(*operand)?;
    }
    let shown = run(rt, &words, "");
    Ok(holds(list, row.summary) && shown.status < 2 && !holds(&shown.errors, "function"))
}

/// Checks the commands of these rows.
fn check_rows(
    abort: &impl Abort,
    rt: &HostRuntime,
    list: &[u8],
    rows: &'static [CommandRow],
) -> Result<(), Fail> {
    for row in rows {
        assert!(abort; is_served(rt, list, row)?, "{}", row.name);
    }
    Ok(())
}

#[test]
fn each_row_is_listed_and_has_a_function(rt: HostRuntime) -> Result<(), Fail> {
    let list = run(&rt, &["bk_shell", "help"], "").output;
    anew(&rt, "bk_shell_rows_of")?;
    for rows in tables() {
        check_rows(&rt, &rt, &list, rows)?;
    }
    fs::remove_dir_all(&rt, "bk_shell_rows_of")?;
    Ok(())
}

/// Calls of `stat`, and the ledgers that they name.
const DEAD_LEDGERS: [(&[&str], &[u64]); 3] = [
    (&["bk_shell", "stat", "folder"], &[]),
    (&["bk_shell", "stat", "--dead", "3", "folder"], &[3]),
    (
        &["bk_shell", "stat", "--dead", "3", "folder", "--dead=0"],
        &[3, 0],
    ),
];

/// Whether words call `stat` with these ledgers.
fn is_stat(alloc: Global, words: &[&str], dead: &[u64]) -> Result<bool, Fail> {
    match folder_call(alloc, words) {
        Ok(call) => {
            let named = call.numbers(alloc, &DEAD)?;
            Ok(call.name() == "stat" && named.as_slice() == dead)
        }
        Err(_) => Ok(false),
    }
}

#[test]
fn a_call_of_stat_names_the_dead_ledgers(rt: HostRuntime) -> Result<(), Fail> {
    for (words, dead) in DEAD_LEDGERS.iter() {
        assert!(rt; is_stat(rt.alloc(), words, dead)?, "{words:?}");
    }
    Ok(())
}

/// Calls of `logs` and of `seal`, the form that they ask for, and the log that is to be sealed.
const FORMS: [(&[&str], Form, Option<u32>); 6] = [
    (&["bk_shell", "logs", "folder"], Form::Text, None),
    (&["bk_shell", "logs", "folder", "--json"], Form::Json, None),
    (&["bk_shell", "--json", "logs", "folder"], Form::Json, None),
    (&["bk_shell", "seal", "folder", "31"], Form::Text, Some(31)),
    (
        &["bk_shell", "seal", "--json", "folder", "1f.log"],
        Form::Json,
        Some(31),
    ),
    (
        &["bk_shell", "--json", "seal", "folder", "0"],
        Form::Json,
        Some(0),
    ),
];

/// Whether words call this command, in this form, on this log.
fn is_formed(alloc: Global, words: &[&str], name: &str, form: Form, log: Option<u32>) -> bool {
    match folder_call(alloc, words) {
        Ok(call) => call.form == form && call.log() == log && call.name() == name,
        Err(_) => false,
    }
}

#[test]
fn a_call_names_a_form(rt: HostRuntime) {
    for (words, form, sealed) in FORMS.iter() {
        let name = match sealed {
            Some(_) => "seal",
            None => "logs",
        };
        let is_asked = is_formed(rt.alloc(), words, name, *form, *sealed);
        assert!(rt; is_asked && is_folder_call(words), "{words:?}");
    }
}

/// Calls of `seal` on log 31, and whether they cut.
const CUTS: [(&[&str], bool); 3] = [
    (
        &["bk_shell", "seal", "--cut-torn", "folder", "1f.log"],
        true,
    ),
    (&["bk_shell", "seal", "folder", "31", "--cut-torn"], true),
    (&["bk_shell", "seal", "folder", "31"], false),
];

/// Whether words are a call on log 31 that cuts, or does not.
fn is_cut(alloc: Global, words: &[&str], cuts: bool) -> bool {
    match folder_call(alloc, words) {
        Ok(call) => call.has(&CUT_TORN) == cuts && call.log() == Some(31),
        Err(_) => false,
    }
}

#[test]
fn a_call_of_seal_may_ask_for_a_cut(rt: HostRuntime) {
    for (words, cuts) in CUTS.iter() {
        assert!(rt; is_cut(rt.alloc(), words, *cuts), "{words:?}");
    }
}
