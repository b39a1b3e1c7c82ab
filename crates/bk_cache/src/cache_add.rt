//! Result of an add.

/// Result of `Caches::add` and `Caches::put`.
#[derive(Clone, Copy, Debug, PartialEq, Eq)]
pub enum CacheAdd {
    /// The payload is in the active cache.
    Taken,
    /// A write cache has the key; nothing changed.
    Held,
}
