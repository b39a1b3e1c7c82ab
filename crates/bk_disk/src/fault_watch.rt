//! The last call of the system that failed for a disk, also after the disk was dropped.

use crate::file_fault::{Failed, FileFault};
use crate::name_of;
use crate::open_views::OpenViews;
use std::alloc::{AllocError, Global};
use std::sync::{Arc, Mutex};

/// Reports the last call of the system that failed for a `DirDisk` or one of its views, also after
/// the disk was moved or dropped.
#[derive(Drop)]
pub struct FaultWatch {
    folder: String,
    views: Arc<OpenViews>,
    last: Arc<Mutex<Option<FileFault>>>,
}

impl FaultWatch {
    /// Returns a watch of the directory at a path, for which no call has failed.
    pub(crate) fn new(alloc: Global, folder: &str) -> Result<FaultWatch, AllocError> {
        let last: Option<FileFault> = None;
        Ok(FaultWatch {
            folder: String::from_str(alloc, folder)?,
            views: OpenViews::new(alloc)?,
            last: Arc::new(alloc, Mutex::new(last))?,
        })
    }

    /// Returns another watch of the same.
    pub(crate) fn share(&self, alloc: Global) -> Result<FaultWatch, AllocError> {
        Ok(FaultWatch {
            folder: String::from_str(alloc, &self.folder)?,
            views: Arc::try_clone(&self.views)?,
            last: Arc::try_clone(&self.last)?,
        })
    }

    /// Returns what the views of the directory share.
    pub(crate) fn views(&self) -> &Arc<OpenViews> {
        &self.views
    }

    /// Notes the call that failed last; `None` if memory for it was refused.
    pub(crate) fn note(&self, fault: Option<FileFault>) {
        // Only `last` can have the lock, in another thread; then its report is the older one.
        if let Some(mut last) = self.last.try_lock() {
            *last = fault;
        }
        self.views.forget();
    }

    /// Returns the last call that failed, of the disk or of a view. `None` if none has failed, or
    /// memory for its path was refused. Fails if memory for the path is refused now.
    pub fn last(&self, alloc: Global) -> Result<Option<FileFault>, AllocError> {
        if let Some((log, failed)) = self.views.fault() {
            return Ok(Some(self.fault_of(alloc, log, failed)?));
        }
        let Some(last) = self.last.try_lock() else {
            return Ok(None);
        };
        match &*last {
            Some(fault) => Ok(Some(fault.copy(alloc)?)),
            None => Ok(None),
        }
    }

    // The failed read of a view of a log.
    fn fault_of(&self, alloc: Global, log: u32, failed: Failed) -> Result<FileFault, AllocError> {
        let name = name_of(alloc, log)?;
        let path = format!(in alloc; "{}/{}", self.folder, name)?;
        Ok(FileFault::new(path, failed))
    }
}
