//! The disk of a directory of the system whose list leaves out the logs that cannot be opened.

ghost use Rattle.std.specs.Prelude.{false};
ghost use Rattle.std.specs.FinMap as map;

use crate::fault::tell_fault;
use crate::form::{write_object, write_row};
use crate::survey::{Unread, look_over};
use crate::{DirFault, Form};
use bk_disk::{DiskFault, LogDisk};
use serde::Serialize;
use std::alloc::Global;
use std::fmt;
use std::fmt::{Display, Formatter};
use std::io::Write;

/// The disk of a directory whose list leaves out the logs that cannot be opened, and remembers
/// them.
#[derive(Drop)]
pub(crate) struct Folder<'a, D: LogDisk> {
    rt: HostRuntime,
    path: &'a str,
    disk: D,
    /// The logs that cannot be opened.
    pub(crate) unread: Vec<Unread>,
    is_empty: bool,
    /// Whether each listing ended with an unchanged directory.
    is_steady: bool,
}

impl<'a, D: LogDisk> Folder<'a, D> {
    /// Returns the disk of the directory at a path, not listed yet.
    pub(crate) fn new(rt: &HostRuntime, path: &'a str, disk: D) -> Folder<'a, D> {
        Folder {
            rt: *rt,
            path,
            disk,
            unread: Vec::new(rt.alloc()),
            is_empty: false,
            is_steady: true,
        }
    }

    /// Reports each log that cannot be opened, that the directory changed at each listing, or that
    /// there is no log. Returns whether a log may be left out.
    pub(crate) fn tell<E: Write>(&self, form: Form, errors: &mut E) -> bool {
        let alloc = self.rt.alloc();
        for unread in self.unread.as_slice() {
            let _ = tell_unread(alloc, form, unread, errors);
        }
        if !self.is_steady {
            tell_fault(alloc, form, None, DirFault::Unsteady, errors);
        }
        if self.is_empty {
            let row = EmptyRow {
                note: "no log found",
                folder: self.path,
            };
            let _ = write_row(alloc, form, &row, errors);
        }
        !self.unread.is_empty() || !self.is_steady
    }
}

/// The object of a log that cannot be opened.
#[derive(Drop, Serialize)]
struct UnreadRow {
    fault: &'static str,
    log: u32,
    reason: String,
}

/// Reports a log that cannot be opened, with the reason.
fn tell_unread<E: Write>(
    alloc: Global,
    form: Form,
    unread: &Unread,
    errors: &mut E,
) -> Result<(), DirFault> {
    let Unread { log, reason } = unread;
    match form {
        Form::Text => writeln!(errors, "fault log {log}: disk: {reason}")?,
        Form::Json => {
            let row = UnreadRow {
                fault: "disk",
                log: *log,
                reason: reason.to_string(alloc).map_err(|_| DirFault::Memory)?,
            };
            write_object(alloc, &row, errors)?;
        }
    }
    Ok(())
}

/// The row of a directory without logs.
#[derive(Clone, Copy, Serialize)]
struct EmptyRow<'a> {
    note: &'static str,
    folder: &'a str,
}

impl Display for EmptyRow<'_> {
    fn fmt<W: fmt::Write>(&self, f: &mut Formatter<W>) -> fmt::Result {
        write!(
            f,
            "{} in {}: a log is a file named by its id in hexadecimal, such as 1f.log",
            self.note, self.folder
        )
    }
}

impl<'a, D: LogDisk> LogDisk for Folder<'a, D> {
    type View = D::View;

    ghost files = { λ _. map.empty };

    ghost synced = { λ _. map.empty };

    ghost gone = { λ _. map.empty };

    ghost honest = { λ _. false };

    ghost failures = { λ folder. D.failures folder.disk };

    fn bounds(&self) {}

    fn is_lost(&self, log: u32) -> bool {
        self.disk.is_lost(log)
    }

    fn is_kept(&self, log: u32) -> bool {
        self.disk.is_kept(log)
    }

    fn count_failures(&self) -> u64 {
        self.disk.count_failures()
    }

    fn list(&mut self, alloc: Global) -> Result<Vec<u32>, DiskFault> {
        match look_over(&self.rt, alloc, self.path) {
            Ok(Some(found)) => {
                self.is_empty = found.ids.is_empty() && found.unread.is_empty();
                self.is_steady = self.is_steady && found.is_steady;
                self.unread = found.unread;
                Ok(found.ids)
            }
            Ok(None) => self.disk.list(alloc),
            Err(_) => Err(DiskFault::Memory),
        }
    }

    fn length(&mut self, alloc: Global, log: u32) -> Result<u64, DiskFault> {
        self.disk.length(alloc, log)
    }

    fn create(&mut self, alloc: Global, log: u32) -> Result<(), DiskFault> {
        self.disk.create(alloc, log)
    }

    fn append(&mut self, alloc: Global, log: u32, bytes: &[u8]) -> Result<(), DiskFault> {
        self.disk.append(alloc, log, bytes)
    }

    fn patch(&mut self, alloc: Global, log: u32, bytes: &[u8; 12]) -> Result<(), DiskFault> {
        self.disk.patch(alloc, log, bytes)
    }

    fn sync(&mut self, alloc: Global, log: u32) -> Result<(), DiskFault> {
        self.disk.sync(alloc, log)
    }

    fn read_at(&mut self, alloc: Global, log: u32, at: u64, n: u64) -> Result<Vec<u8>, DiskFault> {
        self.disk.read_at(alloc, log, at, n)
    }

    fn view(&mut self, alloc: Global, log: u32) -> Result<D::View, DiskFault> {
        self.disk.view(alloc, log)
    }

    fn remove(&mut self, alloc: Global, log: u32) -> Result<(), DiskFault> {
        self.disk.remove(alloc, log)
    }
}
