//! Search hint for the next of several keys.

/// Place after the key that the last search found, in its page. The next key is searched there
/// first.
#[derive(Clone, Copy, Debug)]
pub struct Near {
    pub(crate) page: usize,
    pub(crate) place: usize,
}

impl Near {
    /// Returns the hint for the first key.
    pub fn start() -> Near {
        Near { page: 0, place: 0 }
    }
}
