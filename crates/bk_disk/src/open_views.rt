//! The number of views of a directory that keep their file open, and the last failed read of a
//! view.
//!
//! Threads read views without a lock, so the views share two atomic words.

use crate::file_fault::{Failed, Operation};
use crate::reason::{Finding, Reason};
use std::alloc::{AllocError, Global};
use std::sync::Arc;
use std::sync::atomic::{AtomicU64, Ordering};
use std::{fs, io};

/// The number of views that keep their file open if the limit of the process is unknown.
const DEFAULT_MOST: u64 = 512;

/// The bit of a fault's word that says that there is one.
const FAILED: u64 = 1 << 63;

/// What the views of a directory share.
#[derive(Drop)]
pub(crate) struct OpenViews {
    /// The number of views that keep their file open.
    open: AtomicU64,
    /// The last read that failed: 0 if none did, else the top bit, the log, and in the low 32 bits
    /// the system's number of the reason, or 0 if the file ended early.
    fault: AtomicU64,
}

impl OpenViews {
    /// Returns that no view keeps a file open, and none failed.
    pub(crate) fn new(alloc: Global) -> Result<Arc<OpenViews>, AllocError> {
        let views = OpenViews {
            open: AtomicU64::new(0),
            fault: AtomicU64::new(0),
        };
        Ok(Arc::new(alloc, views)?)
    }

    /// Notes why a read of a view of a log failed.
    pub(crate) fn note(&self, log: u32, reason: io::Error) {
        let code = reason.raw_os_error().unwrap_or(0).cast_unsigned();
        let word = FAILED | (u64::from(log) << 32) | u64::from(code);
        self.fault.store(word, Ordering::SeqCst);
    }

    /// Forgets the last read that failed, since another call did later.
    pub(crate) fn forget(&self) {
        self.fault.store(0, Ordering::SeqCst);
    }

    /// Returns the log of the last read that failed, and the reason; `None` if none did.
    pub(crate) fn fault(&self) -> Option<(u32, Failed)> {
        let word = self.fault.load(Ordering::SeqCst);
        if word & FAILED == 0 {
            return None;
        }
        let log = ((word & !FAILED) >> 32) as u32;
        let code = (word & 0xffff_ffff) as u32;
        let reason = if code == 0 {
            Reason::Found(Finding::Shorter)
        } else {
            Reason::System(code.cast_signed())
        };
        Some((log, Failed::by(Operation::Read, reason)))
    }
}

/// The right of one view to keep its file open, which is returned when this is dropped.
pub(crate) struct OpenView {
    views: Arc<OpenViews>,
}

impl OpenView {
    /// Takes the right, unless `most` views have it.
    pub(crate) fn take(views: &Arc<OpenViews>, most: u64) -> Result<Option<OpenView>, AllocError> {
        let taken = OpenView {
            views: Arc::try_clone(views)?,
        };
        if views.open.fetch_add(1, Ordering::SeqCst) < most {
            return Ok(Some(taken));
        }
        // This returns the right.
        drop(taken);
        Ok(None)
    }
}

impl Drop for OpenView {
    fn drop(self) {
        self.views.open.fetch_sub(1, Ordering::SeqCst);
        let OpenView { views: _ } = self;
    }
}

/// Returns how many views may keep their file open: half as many as this process may have files
/// open.
pub(crate) fn most_open_views(rt: &HostRuntime) -> u64 {
    let Ok(limits) = fs::read_to_string(rt, "/proc/self/limits") else {
        return DEFAULT_MOST;
    };
    for line in limits.lines() {
        if let Some(rest) = line.strip_prefix("Max open files") {
            return half_of_first(rest).unwrap_or(DEFAULT_MOST);
        }
    }
    DEFAULT_MOST
}

/// Returns half of the number that is the first word of a text.
fn half_of_first(text: &str) -> Option<u64> {
    let word = text.split_ascii_whitespace().next()?;
    Some(word.parse::<u64>().ok()? / 2)
}
