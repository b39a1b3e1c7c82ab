//! The hints that were not used, also after the disk was moved.

use crate::Unused;
use std::alloc::{AllocError, Global};
use std::sync::{Arc, Mutex};

/// Lists the hints that a `HintedDisk` found and did not use, also after the disk was moved or
/// dropped, as into a store.
#[derive(Drop)]
pub struct UnusedWatch {
    unused: Arc<Mutex<Vec<Unused>>>,
}

impl UnusedWatch {
    /// Returns a watch of a disk that has used each hint.
    pub(crate) fn new(alloc: Global) -> Result<UnusedWatch, AllocError> {
        let unused: Vec<Unused> = Vec::new(alloc);
        Ok(UnusedWatch {
            unused: Arc::new(alloc, Mutex::new(unused))?,
        })
    }

    /// Returns another watch of the same disk.
    ///
    /// # Errors
    ///
    /// - `AllocError` if no further watch can be counted.
    pub fn share(&self) -> Result<UnusedWatch, AllocError> {
        Ok(UnusedWatch {
            unused: Arc::try_clone(&self.unused)?,
        })
    }

    /// Notes a hint that is not used.
    pub(crate) fn note(&self, unused: Unused) {
        // Only `list` can have the lock, in another thread; then this hint is missing.
        if let Some(mut noted) = self.unused.try_lock() {
            let _ = noted.push(unused);
        }
    }

    /// Returns the hints that were there and not used, each with the reason, in the order of the
    /// views. One is missing if memory for it was refused, or if another thread listed when it was
    /// found; all are, if one is found at this moment.
    ///
    /// # Errors
    ///
    /// - `AllocError` if an allocation is refused.
    pub fn list(&self, alloc: Global) -> Result<Vec<Unused>, AllocError> {
        match self.unused.try_lock() {
            Some(noted) => noted.to_vec(alloc),
            None => Ok(Vec::new(alloc)),
        }
    }
}
