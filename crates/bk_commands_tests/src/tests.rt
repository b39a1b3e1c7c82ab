mod calls;
mod compact;
mod compact_kept;
mod damaged;
mod disk;
mod durable;
mod faults;
mod folder;
mod hint;
mod json;
mod lacking;
mod manifest;
mod memory;
mod opening;
mod over;
mod quick;
mod rescue;
mod script_folder;
mod seal_ways;

use bk_commands::{StartFault, run_words, tell_reading, words_of};
use std::alloc::Global;
use std::env::{Env, FillError};
use std::io;
use std::io::{Read, Write};

/// What a call of the program left: its status, and the texts on the two streams.
#[derive(Debug, Drop)]
struct Shown {
    status: u8,
    output: Vec<u8>,
    errors: Vec<u8>,
}

fn run(rt: &HostRuntime, words: &[&str], input: &str) -> Shown {
    let alloc = rt.alloc();
    let mut output = Vec::new(alloc);
    let mut errors = Vec::new(alloc);
    let mut reader = input.as_bytes();
    let status = run_words(rt, words, &mut reader, &mut output, &mut errors);
    Shown {
        status,
        output,
        errors,
    }
}

/// A flush of two records of 500 bytes, and one of 20 bytes for the next log where 2048 bytes are the limit.
const FLUSH: &str = "pad 1 0 480\npad 1 1 504\npad 1 2 0\nswap\nwrite\nwrite\nwrite\n";

/// A second log after a roll.
const ROLL: &str = "add 1 0 a\nswap\nwrite\npublish\nroll\nadd 1 1 b\nswap\nwrite\n";

/// A log of which 120 of 220 bytes live.
const HALF_DELETED: &str =
    "pad 1 0 100\npad 2 0 80\nswap\nwrite\nwrite\npublish\nroll\ndelete 2\nmajor\nminor\n";

/// Two entries that take 100 bytes, and two more, of which one is held already; then room again.
const CACHE: &str = "pad 1 0 44\npad 1 1 24\nadd 1 2\npad 1 0 9\nswap\nadd 1 2\n";

/// Two entries that are flushed, and a take of each, of the later one first.
const LATEST: &str = "add 1 0 a\nadd 1 1 b\nswap\nwrite\nwrite\npublish\ntake 0 1 1\ntake 0 1 0\n";

/// Scripts: words, input and output.
const RUNS: [(&[&str], &str, &str); 10] = [
    (
        &["bk_shell", "script"],
        FLUSH,
        "accepted\naccepted\naccepted\nswapped 3\nwrote 1028\nwrote 1528\nwrote 2052\n",
    ),
    (
        &["bk_shell", "script", "--log-limit", "2048"],
        FLUSH,
        "accepted\naccepted\naccepted\nswapped 3\nwrote 1028\nwrote 1528\nwrote 4294968324\n",
    ),
    (
        &["bk_shell", "script"],
        ROLL,
        "accepted\nswapped 1\nwrote 1028\npublished 1\nsealed 0\naccepted\nswapped 1\nwrote 4294968324\n",
    ),
    (
        &["bk_shell", "script", "--slots=1"],
        ROLL,
        "accepted\nswapped 1\nwrote 1028\npublished 1\nsealed 0\naccepted\nswapped 1\nfault logs full\n",
    ),
    (
        &["bk_shell", "script", "--cache-limit", "100"],
        CACHE,
        "accepted\naccepted\nfault full 100 100\nheld\nswapped 2\naccepted\n",
    ),
    (
        &["bk_shell", "script", "--recent", "1"],
        LATEST,
        "accepted\naccepted\nswapped 2\nwrote 1028\nwrote 1049\npublished 2\ncached 62\nleased 1028\n",
    ),
    (
        &["bk_shell", "script"],
        HALF_DELETED,
        "accepted\naccepted\nswapped 2\nwrote 1028\nwrote 1148\npublished 2\nsealed 0\ndropped 1\nchosen 0\njob running\n",
    ),
    (
        &["bk_shell", "script", "--major=545"],
        HALF_DELETED,
        "accepted\naccepted\nswapped 2\nwrote 1028\nwrote 1148\npublished 2\nsealed 0\ndropped 1\nnothing to do\nnothing to do\n",
    ),
    (
        &["bk_shell", "script", "--major", "0", "--minor", "546"],
        HALF_DELETED,
        "accepted\naccepted\nswapped 2\nwrote 1028\nwrote 1148\npublished 2\nsealed 0\ndropped 1\nnothing to do\nchosen 0\n",
    ),
    (
        &["bk_shell", "script", "9", "8", "9"],
        "add 9 0 x\ntake 0 9 0\ndelete 9\ndelete 8\ndelete 1\n",
        "fault deleted\ndeleted\nfault already deleted\nfault already deleted\ndropped 0\n",
    ),
];

/// Whether a call ends with status 0, this output and no errors.
fn is_answered(rt: &HostRuntime, words: &[&str], input: &str, output: &str) -> bool {
    let shown = run(rt, words, input);
    shown.status == 0 && shown.output.as_slice() == output.as_bytes() && shown.errors.is_empty()
}

#[test]
fn options_are_used(rt: HostRuntime) {
    for (words, input, output) in RUNS.iter() {
        assert!(rt; is_answered(&rt, words, input, output), "{words:?}");
    }
}

/// Fails at each call.
#[derive(Drop)]
struct Closed;

impl Read for Closed {
    fn read(&mut self, _buf: &mut [u8]) -> io::Result<usize> {
        Err(io::Error::from(io::ErrorKind::Other))
    }
}

impl Write for Closed {
    fn write(&mut self, _buf: &[u8]) -> io::Result<usize> {
        Err(io::Error::from(io::ErrorKind::Other))
    }

    fn flush(&mut self) -> io::Result<()> {
        Err(io::Error::from(io::ErrorKind::Other))
    }
}

/// Takes all that is written and fails at the flush.
#[derive(Drop)]
struct Full;

impl Write for Full {
    fn write(&mut self, buf: &[u8]) -> io::Result<usize> {
        Ok(buf.len())
    }

    fn flush(&mut self) -> io::Result<()> {
        Err(io::Error::from(io::ErrorKind::Other))
    }
}

/// Wrong command lines, and the beginning of what is told of each.
const WRONG: [(&[&str], &str); 6] = [
    (&[], "error: "),
    (&["bk_shell"], "error: "),
    (
        &["bk_shell", "frob"],
        "error: unrecognized subcommand 'frob'",
    ),
    (
        &["bk_shell", "script", "x"],
        "error: invalid value 'x' for '[LEDGER]...': not a number from 0 to 9223372036854775807 in plain digits\n\nUsage: bookie script [OPTIONS] [LEDGER]...\n",
    ),
    (
        &["bk_shell", "script", "--slots", "0"],
        "error: invalid value '0' for '--slots <NUMBER>'",
    ),
    (
        &["bk_shell", "script", "--slots", "1", "--slots", "1"],
        "error: ",
    ),
];

/// Whether words end with status 2, no output and a text that begins so, and read no input.
fn is_wrong(rt: &HostRuntime, words: &[&str], told: &str) -> bool {
    let mut output = Vec::new(rt.alloc());
    let mut errors = Vec::new(rt.alloc());
    let status = run_words(rt, words, &mut Closed, &mut output, &mut errors);
    status == 2 && output.is_empty() && errors.starts_with(told.as_bytes())
}

#[test]
fn a_wrong_command_line_is_told_with_status_2_and_reads_no_input(rt: HostRuntime) {
    for (words, told) in WRONG.iter() {
        assert!(rt; is_wrong(&rt, words, told), "{words:?}");
    }
}

/// Whether bytes are a text that has a part.
fn holds(bytes: &[u8], part: &str) -> bool {
    match str::from_utf8(bytes) {
        Ok(text) => text.contains(part),
        Err(_) => false,
    }
}

/// Wrong words, and whether the list of commands is told.
const LISTED: [(&[&str], bool); 4] = [
    (&["bk_shell"], true),
    (&["bk_shell", "frob"], true),
    (&["bk_shell", "help", "frob"], true),
    (&["bk_shell", "script", "x"], false),
];

#[test]
fn a_wrong_command_gets_the_list_of_commands(rt: HostRuntime) {
    for (words, has_list) in LISTED.iter() {
        let shown = run(&rt, words, "");
        let is_right = shown.status == 2 && holds(&shown.errors, "check DIR") == *has_list;
        assert!(rt; is_right, "{words:?}");
    }
}

/// Words that call an unknown command, and the command that is meant.
const NEAR: [(&[&str], &str); 4] = [
    (&["bk_shell", "stats", "x"], "'stats'; there is 'stat'\n"),
    (&["bk_shell", "sacn", "d", "0"], "'sacn'; there is 'scan'\n"),
    (
        &["bk_shell", "help", "entrie"],
        "'entrie'; there is 'entries'\n",
    ),
    (
        &["bk_shell", "--json", "scrip"],
        "'scrip'; there is 'script'\n",
    ),
];

/// Whether words end with status 2 and a text that names the command, without the list.
fn is_named(rt: &HostRuntime, words: &[&str], near: &str) -> bool {
    let shown = run(rt, words, "");
    shown.status == 2
        && shown.errors.starts_with(b"error: unrecognized command '")
        && holds(&shown.errors, near)
        && !holds(&shown.errors, "check DIR")
}

#[test]
fn a_near_command_is_named_without_the_list(rt: HostRuntime) {
    for (words, near) in NEAR.iter() {
        assert!(rt; is_named(&rt, words, near), "{words:?}");
    }
}

/// Words, whether the input is a terminal, and whether the program says that it reads.
const READINGS: [(&[&str], bool, bool); 5] = [
    (&["bk_shell", "script"], true, true),
    (&["bk_shell", "script", "--folder", "d", "7"], true, true),
    (&["bk_shell", "script"], false, false),
    (&["bk_shell", "script", "x"], true, false),
    (&["bk_shell", "logs", "d"], true, false),
];

/// What is said to the words before a script is read.
fn announced(alloc: Global, words: &[&str], is_terminal: bool) -> Vec<u8> {
    let mut errors = Vec::new(alloc);
    tell_reading(alloc, words, is_terminal, &mut errors);
    errors
}

#[test]
fn a_script_from_a_terminal_is_announced(rt: HostRuntime) {
    for (words, is_terminal, is_told) in READINGS.iter() {
        let told = announced(rt.alloc(), words, *is_terminal);
        let is_right = holds(&told, "Ctrl-D") == *is_told && told.is_empty() != *is_told;
        assert!(rt; is_right, "{words:?}");
    }
}

#[test]
fn the_version_is_shown(rt: HostRuntime) {
    let shown = run(&rt, &["bk_shell", "--version"], "");
    assert_eq!(rt; shown.status, 0);
    assert!(rt; shown.output.as_slice() == b"bookie 0.1.0\nlogic dac8208d650f15bf\n".as_slice());
    assert_eq!(rt; shown.errors.len(), 0);
}

/// Parts of the program's help.
const HELP: [&str; 4] = ["check", "stat", "script", "--version"];

#[test]
fn help_goes_to_the_output(rt: HostRuntime) {
    let shown = run(&rt, &["bk_shell", "--help"], "");
    assert!(rt; shown.status == 0 && shown.errors.is_empty());
    assert!(rt; shown.output.starts_with(b"Entry log storage of a bookie"));
    for name in HELP.iter() {
        assert!(rt; holds(&shown.output, name), "{name} in the help");
    }
}

/// The status of a call for help that goes to this writer, and what is told.
fn told_of_help<W: Write>(rt: &HostRuntime, writer: &mut W) -> (u8, Vec<u8>) {
    let mut errors = Vec::new(rt.alloc());
    let words: [&str; 3] = ["bk_shell", "help", "script"];
    let status = run_words(rt, &words, &mut Closed, writer, &mut errors);
    (status, errors)
}

#[test]
fn help_that_can_not_be_written_is_a_fault_of_its_own(rt: HostRuntime) {
    let (closed, told) = told_of_help(&rt, &mut Closed);
    assert!(rt; closed == 1 && told.as_slice() == b"fault output\n".as_slice());
    let (full, told) = told_of_help(&rt, &mut Full);
    assert!(rt; full == 1 && told.as_slice() == b"fault output\n".as_slice());
}

/// Fails as a pipe does that nobody reads any more.
#[derive(Drop)]
struct Unread;

impl Write for Unread {
    fn write(&mut self, _buf: &[u8]) -> io::Result<usize> {
        Err(io::Error::from(io::ErrorKind::BrokenPipe))
    }

    fn flush(&mut self) -> io::Result<()> {
        Err(io::Error::from(io::ErrorKind::BrokenPipe))
    }
}

/// The status of a script whose answers go to this writer, and what is told.
fn told_of_answers<W: Write>(rt: &HostRuntime, writer: &mut W) -> (u8, Vec<u8>) {
    let mut errors = Vec::new(rt.alloc());
    let mut reader = b"swap\n".as_slice();
    let words = ["bk_shell", "script"];
    let status = run_words(rt, &words, &mut reader, writer, &mut errors);
    (status, errors)
}

#[test]
fn answers_that_can_not_be_written_are_told(rt: HostRuntime) {
    let (closed, told) = told_of_answers(&rt, &mut Closed);
    assert!(rt; closed == 1 && told.starts_with(b"fault output: "));
    let (full, told) = told_of_answers(&rt, &mut Full);
    assert!(rt; full == 1 && told.starts_with(b"fault output: "));
    let (unread, told) = told_of_answers(&rt, &mut Unread);
    assert!(rt; unread == 1 && told.is_empty());
}

/// An environment in which the program is called with these words.
#[derive(Drop)]
struct Called<'a> {
    words: &'a [&'a [u8]],
}

impl Env for Called<'_> {
    fn arg(&self, i: usize, buf: &mut [u8]) -> Result<usize, FillError> {
        let Some(word) = self.words.get(i) else {
            return Err(FillError::NotPresent);
        };
        let Some(room) = buf.get_mut(..word.len()) else {
            return Err(FillError::TooLong);
        };
        room.copy_from_slice(word);
        Ok(word.len())
    }

    fn var(&self, _name: &str, _buf: &mut [u8]) -> Result<usize, FillError> {
        Err(FillError::NotPresent)
    }

    fn var_at(&self, _i: usize, _buf: &mut [u8]) -> Result<usize, FillError> {
        Err(FillError::NotPresent)
    }
}

/// Words of a call, and whether all of them are UTF-8.
const CALLS: [(&[&[u8]], bool); 4] = [
    (&[b"bk_shell", b"script"], true),
    (&[b"bk_shell", b"\xc3\xa9"], true),
    (&[b"bk_shell", b"script", b"\xff"], false),
    (&[b"\x80", b"script"], false),
];

/// Whether the words are read as they are, or refused as no text.
fn is_read(alloc: Global, words: &[&[u8]], is_text: bool) -> bool {
    match words_of(&(Called { words }, alloc)) {
        Ok(found) => is_text && found.len() == words.len(),
        Err(fault) => !is_text && fault == StartFault::NotText,
    }
}

#[test]
fn a_word_that_is_not_utf_8_is_a_wrong_command_line(rt: HostRuntime) {
    for (words, is_text) in CALLS.iter() {
        assert!(rt; is_read(rt.alloc(), words, *is_text), "{words:?}");
    }
}
