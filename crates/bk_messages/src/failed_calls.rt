//! The calls of the system on a directory that failed, for the report of a command.

use bk_disk::{DirDisk, DiskFault, FaultWatch, FileFault};
use bk_inspect::Form;
use serde::Serialize;
use std::alloc::{AllocError, Global};
use std::io;
use std::io::Write;
use std::sync::{Arc, Mutex};

/// The largest number of failed calls that are kept.
const MOST: usize = 16;

/// The calls of the system that failed on a directory, also after its `OpeningDisk` was dropped.
///
/// A call is kept if the disk or one of its views failed for it: with `Disk`, or with `Exists`,
/// since a store creates no log twice. Calls that failed on the same file, in the same operation
/// and for the same reason count as one. The first 16 are kept, in order.
#[derive(Drop)]
pub struct FailedCalls {
    shared: Arc<Shared>,
}

/// What the disk, its views and the command share.
#[derive(Drop)]
struct Shared {
    alloc: Global,
    watch: FaultWatch,
    calls: Mutex<Vec<FileFault>>,
}

impl FailedCalls {
    /// Returns that no call on a disk has failed. Fails if memory is refused.
    pub fn on(alloc: Global, disk: &DirDisk) -> Result<FailedCalls, AllocError> {
        let calls: Vec<FileFault> = Vec::new(alloc);
        let shared = Shared {
            alloc,
            watch: disk.fault_watch(alloc)?,
            calls: Mutex::new(calls),
        };
        Ok(FailedCalls {
            shared: Arc::new(alloc, shared)?,
        })
    }

    /// Returns the same calls for another holder. Fails if memory is refused.
    pub fn share(&self) -> Result<FailedCalls, AllocError> {
        Ok(FailedCalls {
            shared: Arc::try_clone(&self.shared)?,
        })
    }

    /// Keeps the last call that failed if a result of the disk or of a view is due to it.
    pub fn see<T>(&self, answer: &Result<T, DiskFault>) {
        if let Err(DiskFault::Disk | DiskFault::Exists) = answer {
            self.keep_last();
        }
    }

    /// Keeps the last call that failed, unless one that failed alike is kept, or memory is refused.
    fn keep_last(&self) {
        let Ok(Some(last)) = self.shared.watch.last(self.shared.alloc) else {
            return;
        };
        // Only another thread can have the lock, which keeps a call too.
        let Some(mut calls) = self.shared.calls.try_lock() else {
            return;
        };
        if calls.len() < MOST && !calls.iter().any(|call| is_alike(call, &last)) {
            let _ = calls.push(last);
        }
    }

    /// Reports each call on the error stream: `FILE: OPERATION: REASON`, or an object. A failed
    /// write is ignored.
    pub fn tell<E: Write>(&self, form: Form, errors: &mut E) {
        if let Some(calls) = self.shared.calls.try_lock() {
            for call in calls.iter() {
                let _ = tell_call(self.shared.alloc, form, call, errors);
            }
        }
    }
}

/// Returns whether two calls failed on the same file, in the same operation and for the same reason.
fn is_alike(one: &FileFault, other: &FileFault) -> bool {
    one.path() == other.path()
        && one.operation() == other.operation()
        && one.reason().kind() == other.reason().kind()
        && one.reason().raw_os_error() == other.reason().raw_os_error()
}

/// The object of a failed call.
#[derive(Drop, Serialize)]
struct CallRow<'a> {
    fault: &'static str,
    file: &'a str,
    operation: String,
    reason: String,
}

/// Reports a failed call. Writes nothing if memory is refused.
fn tell_call<E: Write>(
    alloc: Global,
    form: Form,
    call: &FileFault,
    errors: &mut E,
) -> io::Result<()> {
    match form {
        Form::Text => writeln!(errors, "{call}"),
        Form::Json => match object_of(alloc, call) {
            Ok(object) => writeln!(errors, "{object}"),
            Err(_) => Ok(()),
        },
    }
}

/// Returns the object of a failed call.
fn object_of(alloc: Global, call: &FileFault) -> Result<String, AllocError> {
    let row = CallRow {
        fault: "disk",
        file: call.path(),
        operation: call.operation().to_string(alloc)?,
        reason: call.reason().to_string(alloc)?,
    };
    serde_json::to_string(alloc, &row).map_err(|_| AllocError)
}
