//! The functions of the commands on a directory: an arm and a function for each row of bk_cli.

ghost use Rattle.std.specs.Prelude.{◌≤◌};

use crate::hint::run_hint;
use bk_cli::words::{
    DATA, DIGEST, ENTRY, FILE, FIRST, FROM, LAST, LEDGER, LONG, NO_HINTS, NO_MANIFEST, OF_LEDGER,
    QUICK, RAW,
};
use bk_cli::{DEFAULTS, FolderCall};
use bk_compact_folder::{CompactAsk, run_compact};
use bk_deleted::{Deleted, DeletedAsk, deleted_in, note_deleted};
use bk_import_seal::{run_import, run_seal};
use bk_inspect::{
    DataForm, Digest, DigestChoice, DirCommand, Ends, EntryRange, FolderCommand, Form, Hints,
    ScanChoice, run_folder_as,
};
use bk_manifest_command::run_manifest;
use bk_messages::{CommandFault, DeadFault, end_early, tell_dead};
use bk_record::{Key, LAST_ID};
use bk_survey::{Thresholds, report_folder};
use std::alloc::{AllocError, Global};
use std::io::Write;

/// Runs a command on a directory. Returns the program's status.
pub(crate) fn run_call<W: Write, E: Write>(
    rt: &HostRuntime,
    call: &FolderCall<'_>,
    writer: &mut W,
    errors: &mut E,
) -> u8
    ensures { result ≤ 1 }
{
    note_deleted(rt, call, errors);
    if let Some(command) = dir_command(call) {
        let command = FolderCommand::Dir(command);
        let ends = ends_of(call);
        let hints = hints_of(call);
        return run_folder_as(
            rt, call.form, call.path, ends, hints, &command, writer, errors,
        );
    }
    match call.name() {
        "stat" => run_stat(rt, call, writer, errors),
        "export" => run_export(rt, call, writer, errors),
        "import" => run_import_of(rt, call, writer, errors),
        "report" => run_report(rt, call, writer, errors),
        "seal" => run_seal(rt, call, writer, errors),
        "compact" => run_compaction(rt, call, writer, errors),
        "hint" => run_hint(rt, call, writer, errors),
        "manifest" => run_manifest(rt, call, writer, errors),
        _ => without_function(call, errors),
    }
}

/// Returns up to where the logs are read.
fn ends_of(call: &FolderCall<'_>) -> Ends {
    if call.has(&NO_MANIFEST) {
        Ends::Files
    } else {
        Ends::Durable
    }
}

/// Returns whether hints are used. A command without the option uses none, whatever this is.
fn hints_of(call: &FolderCall<'_>) -> Hints {
    if call.has(&NO_HINTS) {
        Hints::Ignored
    } else {
        Hints::Used
    }
}

/// Returns the command on any disk that a call is; `None` if it is none of these.
pub fn dir_command(call: &FolderCall<'_>) -> Option<DirCommand> {
    match call.name() {
        "logs" => Some(DirCommand::Logs),
        "header" => Some(DirCommand::Header(call.log()?)),
        "map" => Some(DirCommand::Map(call.log()?)),
        "scan" => scan_of(call),
        "find" => Some(DirCommand::Find(key_of(call)?)),
        "check" => Some(check_of(call)),
        "ledgers" => Some(DirCommand::Ledgers),
        "entries" => Some(DirCommand::Entries(range_of(call)?)),
        _ => None,
    }
}

/// Returns the scan: of the whole log, or of the entries that the options choose.
fn scan_of(call: &FolderCall<'_>) -> Option<DirCommand> {
    let log = call.log()?;
    let ledger = call.number(&OF_LEDGER);
    let from = call.number(&FROM);
    let data = call.has(&DATA);
    if ledger.is_none() && from.is_none() && !data {
        return Some(DirCommand::Scan(log));
    }
    let choice = ScanChoice {
        ledger,
        from: from.unwrap_or(0),
        data,
    };
    Some(DirCommand::ScanPart(log, choice))
}

/// Returns the key that is searched for.
fn key_of(call: &FolderCall<'_>) -> Option<Key> {
    Key::new(call.number(&LEDGER)?, call.number(&ENTRY)?)
}

/// Returns the check: of headers and maps alone, or with a digest if the option names one, and in
/// detail if it is asked for.
fn check_of(call: &FolderCall<'_>) -> DirCommand {
    if call.has(&QUICK) {
        return DirCommand::CheckQuick;
    }
    let choice = digest_of(call);
    if call.has(&LONG) {
        return DirCommand::CheckLong(choice);
    }
    match choice {
        None => DirCommand::Check,
        Some(choice) => DirCommand::CheckDigests(choice),
    }
}

/// Returns the digest that the option names.
fn digest_of(call: &FolderCall<'_>) -> Option<DigestChoice> {
    Some(match call.text(&DIGEST)? {
        "crc32c" => DigestChoice::One(Digest::Crc32c),
        "crc32" => DigestChoice::One(Digest::Crc32),
        _ => DigestChoice::Auto,
    })
}

/// Returns how an export writes entries.
fn data_form_of(call: &FolderCall<'_>) -> DataForm {
    if call.has(&RAW) {
        DataForm::Raw
    } else {
        DataForm::Hex
    }
}

/// Returns the entries that are listed.
fn range_of(call: &FolderCall<'_>) -> Option<EntryRange> {
    Some(EntryRange {
        ledger: call.number(&LEDGER)?,
        first: call.number(&FIRST).unwrap_or(0),
        last: call.number(&LAST).unwrap_or(LAST_ID),
    })
}

/// Runs `stat`.
fn run_stat<W: Write, E: Write>(
    rt: &HostRuntime,
    call: &FolderCall<'_>,
    writer: &mut W,
    errors: &mut E,
) -> u8
    ensures { result ≤ 1 }
{
    match deleted_by(rt, call, errors) {
        Ok(deleted) => {
            let command = FolderCommand::Stat(&deleted.all);
            let (ends, hints) = (ends_of(call), hints_of(call));
            run_folder_as(
                rt, call.form, call.path, ends, hints, &command, writer, errors,
            )
        }
        Err(fault) => {
            tell_dead(rt.alloc(), call.form, fault, errors);
            1
        }
    }
}

/// Runs `export`.
fn run_export<W: Write, E: Write>(
    rt: &HostRuntime,
    call: &FolderCall<'_>,
    writer: &mut W,
    errors: &mut E,
) -> u8
    ensures { result ≤ 1 }
{
    match range_of(call) {
        Some(range) => {
            let command = FolderCommand::Export(range, data_form_of(call));
            let (ends, hints) = (ends_of(call), hints_of(call));
            run_folder_as(
                rt, call.form, call.path, ends, hints, &command, writer, errors,
            )
        }
        None => without_function(call, errors),
    }
}

/// Runs `report`.
fn run_report<W: Write, E: Write>(
    rt: &HostRuntime,
    call: &FolderCall<'_>,
    writer: &mut W,
    errors: &mut E,
) -> u8
    ensures { result ≤ 1 }
{
    const THRESHOLDS: Thresholds = Thresholds {
        minor: DEFAULTS.minor,
        major: DEFAULTS.major,
    };
    match deleted_by(rt, call, errors) {
        Ok(deleted) => {
            let dead = &deleted.all;
            let ends = ends_of(call);
            report_folder(
                rt, call.form, call.path, ends, dead, THRESHOLDS, writer, errors,
            )
        }
        Err(fault) => {
            tell_dead(rt.alloc(), call.form, fault, errors);
            1
        }
    }
}

/// Runs `import`.
fn run_import_of<W: Write, E: Write>(
    rt: &HostRuntime,
    call: &FolderCall<'_>,
    writer: &mut W,
    errors: &mut E,
) -> u8
    ensures { result ≤ 1 }
{
    let Some(file) = call.text(&FILE) else {
        return without_function(call, errors);
    };
    match deleted_by(rt, call, errors) {
        Ok(deleted) => {
            let no_manifest = call.has(&NO_MANIFEST);
            let (form, path) = (call.form, call.path);
            let hints = hints_of(call);
            run_import(
                rt,
                form,
                path,
                file,
                &deleted,
                no_manifest,
                hints,
                writer,
                errors,
            )
        }
        Err(fault) => {
            tell_dead(rt.alloc(), call.form, fault, errors);
            1
        }
    }
}

/// Runs `compact`.
fn run_compaction<W: Write, E: Write>(
    rt: &HostRuntime,
    call: &FolderCall<'_>,
    writer: &mut W,
    errors: &mut E,
) -> u8
    ensures { result ≤ 1 }
{
    match CompactAsk::of(rt.alloc(), call) {
        Ok(ask) => run_compact(rt, call.form, call.path, &ask, writer, errors),
        Err(AllocError) => without_memory(rt.alloc(), call.form, errors),
    }
}

/// Returns the deleted ledgers of a call.
fn deleted_by<E: Write>(
    rt: &HostRuntime,
    call: &FolderCall<'_>,
    errors: &mut E,
) -> Result<Deleted, DeadFault> {
    let ask = DeletedAsk::of(rt.alloc(), call)?;
    deleted_in(rt, call.form, call.path, &ask, errors)
}

/// Reports that memory is refused. Returns the status.
fn without_memory<E: Write>(alloc: Global, form: Form, errors: &mut E) -> u8
    ensures { result ≤ 1 }
{
    end_early(alloc, form, &CommandFault::Memory, &None, errors);
    1
}

/// Reports a row of the table that no function runs. Returns the status.
fn without_function<E: Write>(call: &FolderCall<'_>, errors: &mut E) -> u8
    ensures { result ≤ 1 }
{
    let _ = writeln!(errors, "fault {} has no function", call.name());
    1
}
