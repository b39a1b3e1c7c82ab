//! View of a log in memory: the blocks of the log as they were, shared with it.

ghost use Rattle.std.specs.Prelude.{◌≡◌, ◌<◌, ◌^◌, true};
ghost use Rattle.std.specs.List.{All};

use crate::blocks::Blocks;
use crate::disk::HEADER;
use crate::{DiskFault, LogView};
use std::alloc::Global;
use std::marker::Model;

/// A view of a log of a `MemDisk`. It is sound, and its bytes stay while the log changes or is
/// removed.
#[derive(Drop)]
pub struct MemView {
    bytes: Blocks,
}

impl Model for MemView {
    ghost use Rattle.std.specs.Prelude.{ℕ, List, ◌<◌, ◌^◌};
    ghost use Rattle.std.specs.List.{All};

    ghost Value = { List ℕ };

    ghost view = { λ view. view.bytes };

    ghost invariant = { λ view. All (λ b. b < 2 ^ 8) view.bytes };
}

impl MemView {
    pub(crate) fn new(bytes: Blocks) -> Self
        requires { All (λ b. b < 2 ^ 8) bytes }
        ensures { result ≡ bytes }
    {
        MemView { bytes }
    }
}

impl LogView for MemView {
    ghost bytes = { λ view. view };

    ghost honest = { λ _. true };

    ghost sound = { λ _. true };

    fn bounds(&self) {
        let _ = &self.bytes;
    }

    fn end(&self) -> u64 {
        self.bytes.len().max(HEADER)
    }

    fn lend(&self, at: u64) -> &[u8] {
        self.bytes.rest_of_block(at)
    }

    fn read_into(&self, at: u64, out: &mut [u8]) -> Result<(), DiskFault> {
        let end = self.end();
        if at < HEADER || end < at || end - at < out.len() as u64 {
            return Err(DiskFault::PastEnd);
        }
        if !out.is_empty() {
            self.bytes.read_into(at as usize, out);
        }
        Ok(())
    }
}
