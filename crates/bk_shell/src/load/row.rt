//! The report of a load, as lines or as one JSON object, and why a load stopped early.

use bk_commands::OpeningFault;
use bk_inspect::Form;
use bk_load::Report;
use serde::Serialize;
use std::alloc::{AllocError, Global};
use std::io;
use std::io::Write;
use thiserror::Error;

/// Why a load stopped early. Its text is what the program reports.
#[derive(Debug, Error, Drop)]
pub(super) enum LoadFault {
    /// The directory could not be opened.
    #[error("{0}")]
    Folder(OpeningFault),
    /// There is no report.
    #[error("{0}")]
    Load(bk_load::LoadFault),
    /// Out of memory.
    #[error("memory")]
    Memory,
    /// The output could not be written.
    #[error("output")]
    Output(io::Error),
}

impl From<OpeningFault> for LoadFault {
    fn from(fault: OpeningFault) -> LoadFault {
        LoadFault::Folder(fault)
    }
}

impl From<AllocError> for LoadFault {
    fn from(_: AllocError) -> LoadFault {
        LoadFault::Memory
    }
}

impl From<io::Error> for LoadFault {
    fn from(error: io::Error) -> LoadFault {
        LoadFault::Output(error)
    }
}

/// JSON object of a report, composed of its parts.
#[derive(Clone, Copy, Serialize)]
struct ReportRow {
    good: bool,
    #[serde(flatten)]
    adds: AddsRow,
    #[serde(flatten)]
    takes: TakesRow,
    #[serde(flatten)]
    logs: LogsRow,
    #[serde(flatten)]
    works: WorksRow,
    #[serde(flatten)]
    latencies: LatenciesRow,
    #[serde(flatten)]
    files: FilesRow,
}

/// The part on adds.
#[derive(Clone, Copy, Serialize)]
struct AddsRow {
    adds: u64,
    receipts: u64,
    bytes: u64,
    held: u64,
    refused: u64,
    milliseconds: u64,
}

/// The part on takes and deletions.
#[derive(Clone, Copy, Serialize)]
struct TakesRow {
    takes: u64,
    wrong: u64,
    deletes: u64,
}

/// The part on logs.
#[derive(Clone, Copy, Serialize)]
struct LogsRow {
    made: u64,
    compacted: u64,
    removed: u64,
}

/// The part on the workers.
#[derive(Clone, Copy, Serialize)]
struct WorksRow {
    works: u64,
    faults: u64,
}

/// The part on the latencies of adds.
#[derive(Clone, Copy, Serialize)]
struct LatenciesRow {
    at_500: u32,
    at_990: u32,
    at_999: u32,
}

/// The part on the files at the end.
#[derive(Clone, Copy, Serialize)]
struct FilesRow {
    found: u64,
    deleted: u64,
    lost: u64,
    unknown: u64,
    kept: u64,
    earlier: u64,
}

/// JSON object of a fault.
#[derive(Clone, Copy, Serialize)]
struct FaultRow<'a> {
    fault: &'a str,
}

/// Returns the JSON object of a report.
fn row_of(report: &Report) -> ReportRow {
    ReportRow {
        good: report.is_good(),
        adds: AddsRow {
            adds: report.adds,
            receipts: report.receipts,
            bytes: report.bytes,
            held: report.held,
            refused: report.refused,
            milliseconds: report.milliseconds,
        },
        takes: TakesRow {
            takes: report.takes,
            wrong: report.wrong,
            deletes: report.deletes,
        },
        logs: LogsRow {
            made: report.logs.made,
            compacted: report.logs.compacted,
            removed: report.logs.removed,
        },
        works: WorksRow {
            works: report.works.answered,
            faults: report.works.faults,
        },
        latencies: LatenciesRow {
            at_500: report.latencies.at_500,
            at_990: report.latencies.at_990,
            at_999: report.latencies.at_999,
        },
        files: files_row(report),
    }
}

fn files_row(report: &Report) -> FilesRow {
    FilesRow {
        found: report.checked.found,
        deleted: report.checked.deleted,
        lost: report.checked.lost,
        unknown: report.checked.unknown,
        kept: report.checked.kept,
        earlier: report.earlier,
    }
}

/// Writes a report and flushes.
pub(super) fn write_report<W: Write>(
    alloc: Global,
    form: Form,
    report: &Report,
    writer: &mut W,
) -> Result<(), LoadFault> {
    match form {
        Form::Text => {
            let verdict = if report.is_good() { "good" } else { "bad" };
            writeln!(writer, "{report}\n{verdict}")?;
        }
        Form::Json => write_object(alloc, &row_of(report), writer)?,
    }
    writer.flush()?;
    Ok(())
}

/// Reports on the error stream why a load stopped early. A failed write is ignored.
pub(super) fn tell_fault<E: Write>(alloc: Global, form: Form, fault: &LoadFault, errors: &mut E) {
    let _ = match form {
        Form::Text => writeln!(errors, "fault {fault}").map_err(LoadFault::Output),
        Form::Json => tell_object(alloc, fault, errors),
    };
}

/// Reports it as a JSON object.
fn tell_object<E: Write>(
    alloc: Global,
    fault: &LoadFault,
    errors: &mut E,
) -> Result<(), LoadFault> {
    let Ok(text) = fault.to_string(alloc) else {
        return Err(LoadFault::Memory);
    };
    write_object(alloc, &FaultRow { fault: &text }, errors)
}

/// Writes a JSON object and a line feed. Writes nothing if an allocation fails.
fn write_object<R: Serialize, W: Write>(
    alloc: Global,
    row: &R,
    writer: &mut W,
) -> Result<(), LoadFault> {
    let Ok(object) = serde_json::to_string(alloc, row) else {
        return Err(LoadFault::Memory);
    };
    writeln!(writer, "{object}")?;
    Ok(())
}
