//! The first bytes of a log, as a view of their own: what a cut is to leave.

ghost use Rattle.std.specs.Prelude.{◌≡◌, take};

use crate::header::HEADER;
use bk_disk::{DiskFault, LogView};

/// The view of a log as it will be once it is cut at `end`.
#[derive(Drop)]
pub(crate) struct Front<V: LogView> {
    pub(crate) inner: V,
    pub(crate) end: u64,
}

impl<V: LogView> LogView for Front<V> {
    ghost bytes = { λ front. take front.end (V.bytes front.inner) };

    ghost honest = { λ front. V.honest front.inner };

    ghost sound = { λ front. V.sound front.inner };

    fn bounds(&self) {
        self.inner.bounds()
    }

    fn end(&self) -> u64 {
        self.end.min(self.inner.end()).max(HEADER)
    }

    fn read_into(&self, at: u64, out: &mut [u8]) -> Result<(), DiskFault> {
        let end = self.end();
        if end < at || end - at < out.len() as u64 {
            return Err(DiskFault::PastEnd);
        }
        self.inner.read_into(at, out)
    }
}
