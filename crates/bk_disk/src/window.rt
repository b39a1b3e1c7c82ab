//! Bytes that were appended to a log and are not in its file yet.
//!
//! The pieces of many appends are gathered here, so that one call of the system writes them.

ghost use Rattle.std.specs.Prelude.{◌≡◌, ◌+◌, ◌≤◌, [], ◌++◌, false, length, IsTrue};

use std::alloc::Global;
use std::marker::Model;

/// The most bytes that are gathered.
const WINDOW: usize = 65_536;

/// Bytes of a log that are not written yet, at most 65,536. Its memory is taken with the first
/// piece, and kept.
#[derive(Drop)]
pub(crate) struct Window {
    bytes: Vec<u8>,
}

impl Model for Window {
    ghost use Rattle.std.specs.Prelude.{ℕ, List, ◌≤◌, length};

    ghost Value = { List ℕ };

    ghost view = { λ window. window.bytes.items };

    ghost invariant = { λ window. length window.bytes.items ≤ 65536 };
}

impl Window {
    /// Returns an empty window, which has no memory yet.
    pub(crate) fn new(alloc: Global) -> Window
        ensures { result ≡ [] }
    {
        Window {
            bytes: Vec::new(alloc),
        }
    }

    /// Returns the bytes.
    pub(crate) fn bytes(&self) -> &[u8]
        ensures value { result.now ≡ self.now }
        ensures bound { length result.now ≤ 65536 }
    {
        &self.bytes
    }

    /// Adds a piece behind the bytes. Returns whether it did: not if the piece does not fit, or if
    /// memory for the window is refused.
    pub(crate) fn gather(&mut self, piece: &[u8]) -> bool
        ensures added { IsTrue result → self.new ≡ self.old ++ piece.now }
        ensures stays { result ≡ false → self.new ≡ self.old }
    {
        if WINDOW - self.bytes.len() < piece.len() {
            return false;
        }
        if self.bytes.capacity() < WINDOW && self.bytes.reserve_exact(WINDOW).is_err() {
            return false;
        }
        self.bytes.extend_from_slice(piece).is_ok()
    }

    /// Drops the bytes, and keeps the memory.
    pub(crate) fn clear(&mut self)
        ensures { self.new ≡ [] }
    {
        self.bytes.clear();
    }
}
