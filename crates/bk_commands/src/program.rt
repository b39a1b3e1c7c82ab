//! Does what the words of a command line ask for, on any streams.

ghost use Rattle.std.specs.Prelude.{◌≡◌, ◌≤◌, ℕ, List, None, Option, Some, map};
ghost use Rattle.bk_store.specs.declared.settings.Settings.{Settings};
ghost use Rattle.bk_script.specs.Run.{RunsScript};
ghost use Rattle.bk_cli.specs.CommandLine.{Asks};
ghost use Rattle.bk_commands.specs.Folder.{RunsOverFolder};
ghost use Rattle.clap.specs.Values.{kind_of};
ghost use Rattle.clap.specs.Walk.{Text};

use crate::commands::run_call;
use crate::script::{run_in_memory, run_over_folder};
use bk_cli::{
    ABOUT, Commands, PROGRAM_HELP, VERSION, folder_call, is_folder_call, near_command_error,
    script_call, text_of,
};
use clap::Error;
use clap::error::ErrorKind;
use std::alloc::{AllocGlobal, Global};
use std::convert::AsStr;
use std::env::Env;
use std::io::{Read, Write};
use std::{env, io};
use thiserror::Error;

/// Why nothing is done. Its text is what the program reports.
#[derive(Clone, Copy, Debug, PartialEq, Eq, Error)]
pub enum StartFault {
    /// A word of the command line is not UTF-8.
    #[error("error: a word of the command line is not UTF-8\n\nFor more information, try '--help'.")]
    NotText,
    /// Out of memory.
    #[error("fault memory")]
    Memory,
    /// Help that was asked for cannot be written.
    #[error("fault output")]
    Output,
}

impl StartFault {
    /// Returns the program's status: 2 for a wrong command line, else 1.
    pub fn status(self) -> u8 {
        match self {
            StartFault::NotText => 2,
            StartFault::Memory | StartFault::Output => 1,
        }
    }
}

/// Returns the words of the process's command line, the program's name first.
///
/// # Errors
///
/// `NotText` if a word is not UTF-8; `Memory`.
pub fn words_of<R: Env + AllocGlobal>(rt: &R) -> Result<Vec<String>, StartFault> {
    let args = match env::args(rt) {
        Ok(args) => args,
        Err(error) if error.kind() == io::ErrorKind::InvalidData => {
            return Err(StartFault::NotText);
        }
        Err(_) => return Err(StartFault::Memory),
    };
    args.collect(rt.alloc()).map_err(|_| StartFault::Memory)
}

/// Reports a fault on the error stream. A failed write is ignored.
pub fn tell_fault<E: Write>(fault: StartFault, errors: &mut E) {
    let _ = writeln!(errors, "{fault}");
}

/// Reports on the error stream that a script is read from the terminal, if words call one and the
/// standard input is a terminal. A failed write is ignored.
pub fn tell_reading<S: AsStr, E: Write>(
    alloc: Global,
    words: &[S],
    is_terminal: bool,
    errors: &mut E,
) {
    if is_terminal && script_call(alloc, words).is_ok() {
        let _ = writeln!(
            errors,
            "reading the steps from the terminal until Ctrl-D; then they are run"
        );
    }
}

/// Does what the words ask for, of which the first is the program's name: runs the script of the
/// reader, in memory or on a directory, or a command on a directory, or writes help. `load` is no
/// command here. The reader is read by a script only.
///
/// Returns the program's status: 0; 1 on a fault, as `run_in_memory`, `run_over_folder`, `run_call`
/// and `tell` say; 2 if the words are a wrong command line. The error stream gets the reason.
/// `writer` gets answers and help, and is flushed if the status is 0.
pub fn run_words<S: AsStr, R: Read, W: Write, E: Write>(
    rt: &HostRuntime,
    words: &[S],
    reader: &mut R,
    writer: &mut W,
    errors: &mut E,
) -> u8
    ensures done { (asked : Settings) (named : List ℕ) → Asks (map S.text words.now) None asked named → result ≡ 0
        → (settings : Settings) × (dead : List ℕ) × Asks (map S.text words.now) None settings dead
        × RunsScript settings dead (R.remaining reader.old) (R.remaining reader.new)
        (W.contents writer.old) (W.contents writer.new) }
    ensures folder { (path : Text) (asked : Settings) (named : List ℕ) → Asks (map S.text words.now) (Some path) asked named
        → result ≡ 0 → (settings : Settings) × (dead : List ℕ) × Asks (map S.text words.now) (Some path) settings dead
        × RunsOverFolder settings dead (R.remaining reader.old) (R.remaining reader.new)
        (W.contents writer.old) (W.contents writer.new) }
    ensures right { (over : Option Text) (asked : Settings) (named : List ℕ) → Asks (map S.text words.now) over asked named
        → result ≤ 1 }
{
    let alloc = rt.alloc();
    match script_call(alloc, words) {
        Ok(call) => match call.folder {
            None => run_in_memory(alloc, &call, reader, writer, errors),
            Some(path) => run_over_folder(rt, path, &call, reader, writer, errors),
        },
        Err(error) => run_other(rt, words, &error, writer, errors),
    }
}

/// Does what words ask for that call no script, as the error says: a command on a directory, or
/// help; or reports why they are wrong. Returns the status.
fn run_other<S: AsStr, W: Write, E: Write>(
    rt: &HostRuntime,
    words: &[S],
    error: &Error,
    writer: &mut W,
    errors: &mut E,
) -> u8
    ensures { kind_of error.now ≡ ErrorKind.OutOfMemory → result ≡ 1 }
{
    if error.kind() == ErrorKind::OutOfMemory {
        return tell(rt.alloc(), error, writer, errors);
    }
    if is_folder_call(words) {
        return match folder_call(rt.alloc(), words) {
            Ok(call) => run_call(rt, &call, writer, errors),
            Err(error) => tell(rt.alloc(), &error, writer, errors),
        };
    }
    match about_program(words) {
        Some(about) => show(about, writer, errors),
        None => tell_wrong(rt.alloc(), words, error, writer, errors),
    }
}

/// What is asked of the program itself.
#[derive(Clone, Copy)]
enum About {
    /// The help with the list of commands.
    Help,
    /// The version.
    Version,
}

/// Returns what words ask of the program itself.
fn about_program<S: AsStr>(words: &[S]) -> Option<About> {
    match words {
        [_, word] => match word.as_str() {
            "--help" | "-h" | "help" => Some(About::Help),
            "--version" | "-V" => Some(About::Version),
            _ => None,
        },
        _ => None,
    }
}

/// Writes what was asked of the program itself. Returns the status.
fn show<W: Write, E: Write>(about: About, writer: &mut W, errors: &mut E) -> u8 {
    let written = match about {
        About::Help => write_program_help(writer),
        About::Version => write_help(VERSION, writer),
    };
    match written {
        Ok(()) => 0,
        Err(error) => tell_unwritten(&error, errors),
    }
}

/// Writes the help with the list of commands.
fn write_program_help<W: Write>(writer: &mut W) -> io::Result<()> {
    writer.write_all(ABOUT.as_bytes())?;
    write!(writer, "{Commands}")?;
    write_help(PROGRAM_HELP, writer)
}

/// Reports why words are wrong that call no command on a directory. If they call none at all, the
/// command that was meant is named, or else all commands are listed. Returns the status.
fn tell_wrong<S: AsStr, W: Write, E: Write>(
    alloc: Global,
    words: &[S],
    error: &Error,
    writer: &mut W,
    errors: &mut E,
) -> u8 {
    if matches!(words, [_, first, ..] if first.as_str() == "script") {
        return tell(alloc, error, writer, errors);
    }
    match near_command_error(alloc, words) {
        Ok(Some(near)) => tell(alloc, &near, writer, errors),
        Ok(None) => tell_unknown(alloc, error, writer, errors),
        Err(_) => {
            tell_fault(StartFault::Memory, errors);
            1
        }
    }
}

/// Reports why words are wrong that call no command, and lists the commands. Returns the status.
fn tell_unknown<W: Write, E: Write>(
    alloc: Global,
    error: &Error,
    writer: &mut W,
    errors: &mut E,
) -> u8 {
    let status = tell(alloc, error, writer, errors);
    if status == 2 {
        let _ = write!(errors, "\n{Commands}");
    }
    status
}

/// Reports that help cannot be written; nothing if nobody reads it any more. Returns the status.
fn tell_unwritten<E: Write>(error: &io::Error, errors: &mut E) -> u8
    ensures { result ≡ 1 }
{
    if error.kind() != io::ErrorKind::BrokenPipe {
        tell_fault(StartFault::Output, errors);
    }
    1
}

/// Writes the help that an error of a parse asks for, or reports why the words are wrong. Returns
/// the program's status: 0 if the help was written; 2 if the words are wrong; 1 if memory is
/// refused (`StartFault::Memory`) or the help cannot be written (`StartFault::Output`, without a
/// report if nobody reads it any more).
pub fn tell<W: Write, E: Write>(alloc: Global, error: &Error, writer: &mut W, errors: &mut E) -> u8
    ensures { kind_of error.now ≡ ErrorKind.OutOfMemory → result ≡ 1 }
{
    if error.kind() == ErrorKind::OutOfMemory {
        tell_fault(StartFault::Memory, errors);
        return 1;
    }
    let Ok(text) = text_of(alloc, error) else {
        tell_fault(StartFault::Memory, errors);
        return 1;
    };
    if error.use_stderr() {
        let _ = errors.write_all(text.as_bytes());
        return 2;
    }
    match write_help(text.as_str(), writer) {
        Ok(()) => 0,
        Err(error) => tell_unwritten(&error, errors),
    }
}

/// Writes help and flushes.
fn write_help<W: Write>(text: &str, writer: &mut W) -> io::Result<()> {
    writer.write_all(text.as_bytes())?;
    writer.flush()
}
