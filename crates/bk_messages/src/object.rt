//! The object of a fault: its word, what it is about, and the way on.

ghost use Rattle.std.specs.Prelude.{◌≡◌, IfOk, option_map, string_bytes};
ghost use Rattle.bk_messages.specs.Kinds.{command_word};
ghost use Rattle.bk_messages.specs.Ways.{way_of, way_text};

use crate::dead::{DeadFault, LineEnd};
use crate::fault::{CommandFault, way_on};
use crate::kinds::kind_of;
use bk_disk::{FileFault, FolderFault};
use bk_ledgers::ReadFault;
use bk_offline_gc::SweepFault;
use bk_store::{OpenFault, StepFault};
use serde::Serialize;
use std::alloc::{AllocError, Global};

/// The object of a fault: its word, what it is about, the rest of its text, and the way on.
#[derive(Drop, Serialize)]
pub(crate) struct FaultRow<'a> {
    fault: &'a str,
    #[serde(skip_serializing_if = "Option::is_none")]
    log: Option<u32>,
    #[serde(skip_serializing_if = "Option::is_none")]
    folder: Option<&'a str>,
    #[serde(skip_serializing_if = "Option::is_none")]
    file: Option<&'a str>,
    #[serde(skip_serializing_if = "Option::is_none")]
    line: Option<u64>,
    #[serde(skip_serializing_if = "Option::is_none")]
    operation: Option<String>,
    #[serde(skip_serializing_if = "Option::is_none")]
    reason: Option<String>,
    #[serde(skip_serializing_if = "Option::is_none")]
    help: Option<String>,
}

/// Returns the object of a fault that has a word only.
fn named(fault: &str) -> FaultRow<'_>
    ensures { result.fault.now ≡ fault.now }
{
    FaultRow {
        fault,
        log: None,
        folder: None,
        file: None,
        line: None,
        operation: None,
        reason: None,
        help: None,
    }
}

/// Returns the object of a fault with this text, of which a failed call of the system may be the
/// reason. It has the way on if there is one.
pub(crate) fn object_of<'f>(
    alloc: Global,
    fault: &'f CommandFault,
    call: &'f Option<FileFault>,
    text: &'f str,
) -> Result<FaultRow<'f>, AllocError>
    ensures word { IfOk result (λ row. row.fault.now ≡ command_word fault.now text.now) }
    ensures help { IfOk result (λ row. option_map string_bytes row.help ≡ option_map way_text (way_of fault.now)) }
{
    let help = help_of(alloc, fault)?;
    let word = kind_of(fault, text);
    let row = match call {
        Some(call) => call_row(alloc, word, call)?,
        None => row_of(alloc, fault, word, text)?,
    };
    Ok(FaultRow { help, ..row })
}

/// Returns the text of the way on after a fault, if there is one.
fn help_of(alloc: Global, fault: &CommandFault) -> Result<Option<String>, AllocError>
    ensures { IfOk result (λ help. option_map string_bytes help ≡ option_map way_text (way_of fault.now)) }
{
    match way_on(fault) {
        Some(way_on) => Ok(Some(way_on.to_string(alloc)?)),
        None => Ok(None),
    }
}

/// Returns the object of a fault of which a failed call of the system is the reason.
fn call_row<'f>(
    alloc: Global,
    word: &'f str,
    call: &'f FileFault,
) -> Result<FaultRow<'f>, AllocError>
    ensures { IfOk result (λ row. row.fault.now ≡ word.now) }
{
    Ok(FaultRow {
        file: Some(call.path()),
        operation: Some(call.operation().to_string(alloc)?),
        reason: Some(call.reason().to_string(alloc)?),
        ..named(word)
    })
}

/// Returns the object of a fault with this text, without the way on.
fn row_of<'f>(
    alloc: Global,
    fault: &'f CommandFault,
    word: &'f str,
    text: &str,
) -> Result<FaultRow<'f>, AllocError>
    ensures { IfOk result (λ row. row.fault.now ≡ word.now) }
{
    match fault {
        CommandFault::Folder(fault) => folder_row(alloc, fault, word),
        CommandFault::Dead(fault) => dead_row(alloc, fault, word),
        CommandFault::Unread(fault) => read_row(alloc, fault, word),
        CommandFault::Name { path, reason } => Ok(FaultRow {
            file: Some(path),
            reason: Some(reason.to_string(alloc)?),
            ..named(word)
        }),
        CommandFault::Index(file) => Ok(FaultRow {
            file: Some(file),
            ..named(word)
        }),
        CommandFault::Sweep(SweepFault::Open(OpenFault::Log { id, cause })) => Ok(FaultRow {
            log: Some(*id),
            reason: Some(cause.to_string(alloc)?),
            ..named(word)
        }),
        CommandFault::Sweep(SweepFault::Open(OpenFault::TooLong(log))) => Ok(FaultRow {
            log: Some(*log),
            ..named(word)
        }),
        CommandFault::Book(_)
        | CommandFault::Logs(_)
        | CommandFault::Sweep(SweepFault::Step(StepFault::Memory { .. })) => Ok(FaultRow {
            reason: Some(String::from_str(alloc, text)?),
            ..named(word)
        }),
        CommandFault::Disk(_)
        | CommandFault::Sweep(_)
        | CommandFault::Reported
        | CommandFault::Memory
        | CommandFault::Output(_) => Ok(named(word)),
    }
}

/// Returns the object of a directory that cannot be opened, or that another program writes to.
fn folder_row<'f>(
    alloc: Global,
    fault: &'f FolderFault,
    word: &'f str,
) -> Result<FaultRow<'f>, AllocError>
    ensures { IfOk result (λ row. row.fault.now ≡ word.now) }
{
    Ok(match fault {
        FolderFault::InUse { .. } => FaultRow {
            reason: Some(fault.to_string(alloc)?),
            ..named(word)
        },
        FolderFault::Refused { path, reason } => FaultRow {
            folder: Some(path),
            reason: Some(reason.to_string(alloc)?),
            ..named(word)
        },
        FolderFault::Memory => named(word),
    })
}

/// Returns the object of a manifest that cannot be read.
fn read_row<'f>(
    alloc: Global,
    fault: &'f ReadFault,
    word: &'f str,
) -> Result<FaultRow<'f>, AllocError>
    ensures { IfOk result (λ row. row.fault.now ≡ word.now) }
{
    Ok(match fault {
        ReadFault::Unread { path, reason } => FaultRow {
            file: Some(path),
            reason: Some(reason.to_string(alloc)?),
            ..named(word)
        },
        ReadFault::NotPlain { path } => FaultRow {
            file: Some(path),
            reason: Some(String::from_str(alloc, "no plain file")?),
            ..named(word)
        },
        ReadFault::Bad { .. } => FaultRow {
            reason: Some(fault.to_string(alloc)?),
            ..named(word)
        },
        ReadFault::Memory => named(word),
    })
}

/// Returns the object of a file that does not name deleted ledgers.
fn dead_row<'f>(
    alloc: Global,
    fault: &'f DeadFault,
    word: &'f str,
) -> Result<FaultRow<'f>, AllocError>
    ensures { IfOk result (λ row. row.fault.now ≡ word.now) }
{
    match fault {
        DeadFault::Unread { path, reason } => Ok(FaultRow {
            file: Some(path),
            reason: Some(reason.to_string(alloc)?),
            ..named(word)
        }),
        DeadFault::Line { path, number, end } => Ok(FaultRow {
            file: Some(path),
            line: Some(*number),
            reason: match end {
                LineEnd::Plain => None,
                LineEnd::Return => Some(LineEnd::Return.to_string(alloc)?),
            },
            ..named(word)
        }),
        DeadFault::Manifest(fault) => read_row(alloc, fault, word),
        DeadFault::NoneLive | DeadFault::Logs | DeadFault::Memory => Ok(named(word)),
    }
}
