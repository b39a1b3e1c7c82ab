//! Notes on the logs of a directory: bytes that are ignored, durable bytes that are missing, and hints
//! that are not used.

use crate::Form;
use crate::form::write_row;
use bk_disk::DiskFault;
use bk_hint_disk::Unused;
use bk_manifest_disk::{Cause, Lack, ReadFault, Report};
use serde::Serialize;
use std::alloc::Global;
use std::collections::BTreeSet;
use std::fmt;
use std::fmt::{Display, Formatter};
use std::io::Write;

/// The row of a log whose end is ignored.
#[derive(Clone, Copy, Serialize)]
struct IgnoredRow {
    note: &'static str,
    log: u32,
    /// Position of the first ignored byte.
    from: u64,
    bytes: u64,
    #[serde(skip)]
    text: Report,
}

impl Display for IgnoredRow {
    fn fmt<W: fmt::Write>(&self, f: &mut Formatter<W>) -> fmt::Result {
        write!(f, "note {}", self.text)
    }
}

/// Returns the name of a cause.
fn name_of(cause: Cause) -> &'static str {
    match cause {
        Cause::NotDurable => "not durable",
        Cause::NeverDurable => "log never durable",
        Cause::Back => "removed log is back",
    }
}

/// Notes on the error stream what is ignored of logs, in a line each. A failed write is ignored.
pub fn tell_ignored<E: Write>(alloc: Global, form: Form, reports: &[Report], errors: &mut E) {
    for report in reports {
        let row = IgnoredRow {
            note: name_of(report.cause),
            log: report.log,
            from: report.from,
            bytes: report.bytes,
            text: *report,
        };
        let _ = write_row(alloc, form, &row, errors);
    }
}

/// The row of a log whose durable bytes are not all there.
#[derive(Clone, Copy, Serialize)]
struct LackRow {
    note: &'static str,
    log: u32,
    durable: u64,
    /// Number of bytes of its file; none if it has no file.
    #[serde(skip_serializing_if = "Option::is_none")]
    length: Option<u64>,
    #[serde(skip)]
    text: Lack,
}

impl Display for LackRow {
    fn fmt<W: fmt::Write>(&self, f: &mut Formatter<W>) -> fmt::Result {
        write!(f, "note {}: {}", self.note, self.text)
    }
}

/// Notes on the error stream that durable bytes of a log are missing. A failed write is ignored.
pub(crate) fn tell_lack<E: Write>(alloc: Global, form: Form, lack: Lack, errors: &mut E) {
    let (log, durable, length) = match lack {
        Lack::Shorter {
            log,
            durable,
            length,
        } => (log, durable, Some(length)),
        Lack::Missing { log, durable } => (log, durable, None),
    };
    let row = LackRow {
        note: "durable bytes missing",
        log,
        durable,
        length,
        text: lack,
    };
    let _ = write_row(alloc, form, &row, errors);
}

/// Why the durable bytes of logs are not known.
const NOT_COMPARED: &str = "not compared with the manifest";

/// The row of what cannot be read.
#[derive(Drop, Serialize)]
struct UnreadRow {
    note: &'static str,
    reason: String,
}

impl Display for UnreadRow {
    fn fmt<W: fmt::Write>(&self, f: &mut Formatter<W>) -> fmt::Result {
        write!(f, "note {}: {}", self.note, self.reason)
    }
}

/// Notes on the error stream that the manifest of the logs cannot be read. A failed write is ignored.
pub(crate) fn tell_unread_manifest<E: Write>(
    alloc: Global,
    form: Form,
    fault: &ReadFault,
    errors: &mut E,
) {
    if let Ok(reason) = format!(in alloc; "{fault}") {
        let row = UnreadRow {
            note: "logs are read to their ends",
            reason,
        };
        let _ = write_row(alloc, form, &row, errors);
    }
}

/// Notes on the error stream that logs are not compared with their manifest. A failed write is
/// ignored.
pub(crate) fn tell_not_compared<F: Display, E: Write>(
    alloc: Global,
    form: Form,
    fault: &F,
    errors: &mut E,
) {
    if let Ok(reason) = format!(in alloc; "{fault}") {
        let row = UnreadRow {
            note: NOT_COMPARED,
            reason,
        };
        let _ = write_row(alloc, form, &row, errors);
    }
}

/// Notes on the error stream that a log is not compared with its manifest, since its length cannot be
/// read. A failed write is ignored.
pub(crate) fn tell_unread_length<E: Write>(
    alloc: Global,
    form: Form,
    log: u32,
    fault: DiskFault,
    errors: &mut E,
) {
    if let Ok(why) = format!(in alloc; "{fault}") {
        let row = UnusedRow {
            note: NOT_COMPARED,
            log,
            why,
        };
        let _ = write_row(alloc, form, &row, errors);
    }
}

/// The row of what is not used of a log: its hint, or its records in the manifest.
#[derive(Drop, Serialize)]
struct UnusedRow {
    note: &'static str,
    log: u32,
    why: String,
}

impl Display for UnusedRow {
    fn fmt<W: fmt::Write>(&self, f: &mut Formatter<W>) -> fmt::Result {
        write!(f, "note {}: log {}: {}", self.note, self.log, self.why)
    }
}

/// Notes on the error stream the hints that are not used, in a line each: of each log the first. A
/// failed write is ignored.
pub fn tell_unused<E: Write>(alloc: Global, form: Form, unused: &[Unused], errors: &mut E) {
    let mut told = BTreeSet::new(alloc);
    for one in unused {
        if let Ok(false) = told.insert(one.log) {
            continue;
        }
        if let Ok(why) = one.why.to_string(alloc) {
            let row = UnusedRow {
                note: "hint not used",
                log: one.log,
                why,
            };
            let _ = write_row(alloc, form, &row, errors);
        }
    }
}
