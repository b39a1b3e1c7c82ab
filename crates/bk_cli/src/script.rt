//! Command line of `script`, and the texts of parse errors.

ghost use Rattle.std.specs.Prelude.{◌≡◌, ℕ, List, Option, codes, map, option_map, IfOk, IfErr, OnErr};
ghost use Rattle.clap.specs.Matches.{found_of};
ghost use Rattle.clap.specs.Simple.{app_of};
ghost use Rattle.clap.specs.Values.{kind_of};
ghost use Rattle.clap.specs.Walk.{Text, all_of, first_of, one_of, rows_of};
ghost use Rattle.bk_store.specs.Limits.{IsAllowed};
ghost use Rattle.bk_store.specs.declared.settings.Settings.{Settings};
ghost use Rattle.bk_cli.specs.CommandLine.{program, Asks, AsksFlag, AsksLedgers, AsksNoHints, AsksNoManifest, AsksSettings};

use crate::folder_option::{
    FOLDER, NO_HINTS, NO_MANIFEST, folder_arg, no_hints_arg, no_manifest_arg, read_folder,
    read_no_hints, read_no_manifest,
};
use crate::help::{ABOUT_SCRIPT, PROGRAM_HELP, SCRIPT_HELP};
use crate::ledgers::{ledgers_arg, read_ledgers};
use crate::number_option::{BadValue, NumberOption};
use bk_record::{MAX_CACHE_LIMIT, MAX_LOG_LIMIT};
use bk_store::Settings;
use clap::error::ErrorKind;
use clap::{ArgMatches, Command, Error};
use std::alloc::{AllocError, Global};
use std::convert::AsStr;
use std::fmt::Display;
use strsim::osa_distance;

/// A call of `script`.
#[derive(Debug, PartialEq, Eq, Drop)]
pub struct ScriptCall<'a> {
    /// The settings of the store, each in its range: `IsAllowed`.
    pub settings: Settings,
    /// The path of the directory; `None` for a new disk in memory.
    pub folder: Option<&'a str>,
    /// Whether the manifests of the directory are neither read nor written.
    pub no_manifest: bool,
    /// Whether no hint of the directory is used.
    pub no_hints: bool,
    /// The ledgers deleted earlier, in the order of the words, each 0 to 9223372036854775807.
    pub dead: Vec<u64>,
}

/// The settings of a call of `script` without options: limits in bytes, `recent` in entries, `minor`
/// and `major` in thousandths of live bytes.
pub const DEFAULTS: Settings = Settings::DEFAULT;

/// Length in bytes above which a log is sealed.
const LOG_LIMIT: NumberOption = NumberOption {
    name: "log-limit",
    least: 2048,
    most: MAX_LOG_LIMIT,
    default: DEFAULTS.log_limit,
    help: "Seal a log before a record would take it past this many bytes: 2048 to 4000000000 [default: 1073741824]",
};

/// The limit of the active cache, in payload bytes.
const CACHE_LIMIT: NumberOption = NumberOption {
    name: "cache-limit",
    least: 16,
    most: MAX_CACHE_LIMIT,
    default: DEFAULTS.cache_limit,
    help: "Refuse an entry that would take the cache past this many bytes: 16 to 1073741824 [default: 16777216]",
};

/// The number of recently flushed entries in memory.
const RECENT: NumberOption = NumberOption {
    name: "recent",
    least: 0,
    most: 65_536,
    default: DEFAULTS.recent,
    help: "Keep this many of the last flushed entries in memory: 0 to 65536 [default: 0]",
};

/// The number of logs held at once.
const SLOTS: NumberOption = NumberOption {
    name: "slots",
    least: 1,
    most: 65_536,
    default: DEFAULTS.slots,
    help: "Hold at most this many logs at once: 1 to 65536 [default: 1024]",
};

/// The number of leases on one log at once.
const LEASES: NumberOption = NumberOption {
    name: "leases",
    least: 1,
    most: 65_535,
    default: DEFAULTS.leases,
    help: "Grant at most this many leases on one log at once: 1 to 65535 [default: 1024]",
};

/// The threshold of `minor`, in thousandths of live bytes.
const MINOR: NumberOption = NumberOption {
    name: "minor",
    least: 0,
    most: 1000,
    default: DEFAULTS.minor,
    help: "Compact by `minor` a log of which less than this many thousandths are live: 0 to 1000 [default: 200]",
};

/// The same for `major`.
const MAJOR: NumberOption = NumberOption {
    name: "major",
    least: 0,
    most: 1000,
    default: DEFAULTS.major,
    help: "Compact by `major` a log of which less than this many thousandths are live: 0 to 1000 [default: 800]",
};

/// Parses a command line to a call of `script`. The first word is the program's name.
///
/// # Errors
///
/// By the kind of the error:
///
/// - `OutOfMemory`: an allocation failed.
/// - `DisplayHelp`: help was requested.
/// - any other kind: the command line is invalid.
pub fn script_call<'a, S: AsStr>(alloc: Global, words: &'a [S]) -> Result<ScriptCall<'a>, Error>
    ensures allowed { IfOk result (λ call. IsAllowed call.settings) }
    ensures asked { IfOk result (λ call. Asks (map S.text words.now) (option_map (λ path. path.now) call.folder) call.settings
        call.dead.items) }
    ensures unrecorded { IfOk result (λ call. AsksNoManifest (map S.text words.now) call.no_manifest) }
    ensures unhinted { IfOk result (λ call. AsksNoHints (map S.text words.now) call.no_hints) }
    ensures refused { IfErr result (λ error. (folder : Option Text) (settings : Settings) (dead : List ℕ)
        → Asks (map S.text words.now) folder settings dead → kind_of error ≡ ErrorKind.OutOfMemory) }
{
    let mut command = command(alloc)?;
    let matches = command.try_get_matches_from_mut(words)?;
    let Some(script) = matches.subcommand_matches("script") else {
        return Err(command.error(ErrorKind::MissingSubcommand, "a command is asked for")?);
    };
    read_script(alloc, script)
}

/// Returns the call that the options and operands of `script` select.
///
/// # Errors
///
/// By the kind of the error:
///
/// - `OutOfMemory`: an allocation failed.
/// - `ValueValidation`: a value is out of its range.
fn read_script<'a>(alloc: Global, script: &ArgMatches<'a>) -> Result<ScriptCall<'a>, Error>
    ensures allowed { IfOk result (λ call. IsAllowed call.settings) }
    ensures asked { IfOk result (λ call. AsksSettings (rows_of (found_of script.now)) call.settings) }
    ensures over { IfOk result (λ call. first_of (codes "folder") (rows_of (found_of script.now)) ≡ option_map (λ path. path.now) call.folder) }
    ensures unrecorded { IfOk result (λ call. AsksFlag (one_of (codes "no-manifest") (rows_of (found_of script.now))) call.no_manifest) }
    ensures unhinted { IfOk result (λ call. AsksFlag (one_of (codes "no-hints") (rows_of (found_of script.now))) call.no_hints) }
    ensures ledgers { IfOk result (λ call. AsksLedgers (all_of (codes "LEDGER") (rows_of (found_of script.now))) call.dead.items) }
    ensures refused { IfErr result (λ error. (settings : Settings) (dead : List ℕ) → AsksSettings (rows_of (found_of script.now)) settings
        → AsksLedgers (all_of (codes "LEDGER") (rows_of (found_of script.now))) dead → kind_of error ≡ ErrorKind.OutOfMemory) }
{
    let settings = match read_options(script) {
        Ok(settings) => settings,
        Err(bad) => return Err(bad_script(alloc, &bad)?),
    };
    match read_ledgers(alloc, script)? {
        Ok(dead) => Ok(ScriptCall {
            settings,
            folder: read_folder(script),
            no_manifest: read_no_manifest(script),
            no_hints: read_no_hints(script),
            dead,
        }),
        Err(bad) => Err(bad_script(alloc, &bad)?),
    }
}

/// Returns the error of a value of `script` that is out of its range.
fn bad_script<B: Display>(alloc: Global, bad: &B) -> Result<Error, AllocError> {
    let told = format!(in alloc; "{bad}")?;
    script_error(alloc, ErrorKind::ValueValidation, &told)
}

/// Returns the settings that the options of `script` select.
fn read_options<'a>(script: &ArgMatches<'a>) -> Result<Settings, BadValue<'a>>
    ensures ok { IfOk result (AsksSettings (rows_of (found_of script.now))) }
    ensures err { OnErr result ((settings : Settings) → ¬ (AsksSettings (rows_of (found_of script.now)) settings)) }
{
    let log_limit = LOG_LIMIT.read(script)?;
    let cache_limit = CACHE_LIMIT.read(script)?;
    let recent = RECENT.read(script)?;
    let slots = SLOTS.read(script)?;
    let leases = LEASES.read(script)?;
    let minor = MINOR.read(script)?;
    let major = MAJOR.read(script)?;
    Ok(Settings {
        log_limit,
        cache_limit,
        recent,
        slots,
        leases,
        minor,
        major,
    })
}

/// Returns the text of a parse error, with a line feed at its end: the reason with the usage, or
/// the requested help. For an unknown option of `script`, the text names an option that differs
/// from it by one typing error, if there is one.
///
/// # Errors
///
/// - `AllocError` if an allocation fails.
pub fn text_of(alloc: Global, error: &Error) -> Result<String, AllocError> {
    let text = format!(in alloc; "{error}")?;
    let Some(word) = unknown_word(error, &text) else {
        return Ok(text);
    };
    let told = match near_option(alloc, word)? {
        Some(name) => format!(in alloc; "unexpected argument '{word}' found; there is '--{name}'")?,
        None => format!(in alloc; "unexpected argument '{word}' found")?,
    };
    let error = script_error(alloc, ErrorKind::UnknownArgument, &told)?;
    format!(in alloc; "{error}")
}

/// Returns the unknown option in the text of an error; `None` if `script` was not called.
fn unknown_word<'t>(error: &Error, text: &'t str) -> Option<&'t str> {
    let is_on_folder = text.contains("<DIR>") && !text.contains("bookie script ");
    let is_load = text.contains("bookie load ");
    if error.kind() != ErrorKind::UnknownArgument || is_on_folder || is_load {
        return None;
    }
    let (_, rest) = text.split_once("unexpected argument '")?;
    let (word, _) = rest.split_once("' found")?;
    Some(word)
}

/// Returns the option of `script` that differs from a word by one typing error: one letter more,
/// fewer or different, or two letters exchanged.
fn near_option(alloc: Global, word: &str) -> Result<Option<&'static str>, AllocError> {
    let numbers = [LOG_LIMIT, CACHE_LIMIT, RECENT, SLOTS, LEASES, MINOR, MAJOR];
    for name in numbers
        .iter()
        .map(|option| option.name)
        .chain([FOLDER, NO_MANIFEST, NO_HINTS])
    {
        if osa_distance(alloc, word.trim_start_matches('-'), name)? <= 1 {
            return Ok(Some(name));
        }
    }
    Ok(None)
}

/// Returns an error in the words of `script` that the parser did not report.
fn script_error(alloc: Global, kind: ErrorKind, told: &str) -> Result<Error, AllocError>
    ensures { IfOk result (λ error. kind_of error ≡ kind) }
{
    let mut script = Command::new(alloc, "script").override_usage(
        "bookie script [OPTIONS] [LEDGER]...",
    );
    script.error(kind, told)
}

/// Returns the part of the program's command line that concerns `script`.
fn command<'a>(alloc: Global) -> Result<Command<'a>, AllocError>
    ensures { IfOk result (λ command. app_of command ≡ program) }
{
    let script = Command::new(alloc, "script")
        .about(ABOUT_SCRIPT)
        .after_help(SCRIPT_HELP)
        .arg(LOG_LIMIT.arg(alloc))?
        .arg(CACHE_LIMIT.arg(alloc))?
        .arg(RECENT.arg(alloc))?
        .arg(SLOTS.arg(alloc))?
        .arg(LEASES.arg(alloc))?
        .arg(MINOR.arg(alloc))?
        .arg(MAJOR.arg(alloc))?
        .arg(folder_arg(alloc))?
        .arg(no_manifest_arg(alloc))?
        .arg(no_hints_arg(alloc))?
        .arg(ledgers_arg(alloc))?;
    Command::new(alloc, "bookie")
        .bin_name("bookie")?
        .about("Entry log storage of a bookie")
        .after_help(PROGRAM_HELP)
        .subcommand_required(true)
        .subcommand(script)
}
