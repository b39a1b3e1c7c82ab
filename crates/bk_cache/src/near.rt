//! Search hint for the next entry of a flush.

/// Place of the entry that the last search found. The next one is looked for beside it.
#[derive(Clone, Copy, Debug)]
pub struct CacheNear {
    pub(crate) place: usize,
}

impl CacheNear {
    /// Returns the hint for the first entry.
    pub fn start() -> CacheNear {
        CacheNear { place: 0 }
    }
}
