//! Result of a swap.

/// Result of `Caches::swap`.
#[derive(Clone, Copy, Debug, PartialEq, Eq)]
pub enum Swap {
    /// The entries of the active cache, this many, are now those of a flush.
    Swapped(u64),
    /// A flush runs; nothing changed.
    Running,
    /// The active cache is empty; nothing changed.
    Nothing,
}
