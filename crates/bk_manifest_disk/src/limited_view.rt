//! A view of the first bytes of a log.

ghost use Rattle.std.specs.Prelude.{◌≡◌};

use bk_disk::{DiskFault, LogView};
use bk_record::HEADER_LENGTH;
use std::marker::Model;

/// A view that ends at a limit: it has the bytes of another view before that position. It is
/// honest and sound if the other view is.
#[derive(Drop)]
pub struct LimitedView<V: LogView> {
    pub(crate) inner: V,
    /// In bytes; all bytes are shown if there is none.
    pub(crate) limit: Option<u64>,
}

impl<V: LogView> Model for LimitedView<V> {
    ghost use Rattle.bk_manifest_disk.specs.Limiting.{ShownView, shown_view_code};

    ghost Value = { ShownView };

    ghost coded = { shown_view_code };

    ghost view = { λ view. record {
      bytes = V.bytes view.inner;
      honest = V.honest view.inner;
      sound = V.sound view.inner;
      limit = view.limit;
    } };
}

impl<V: LogView> LogView for LimitedView<V> {
    ghost use Rattle.bk_manifest_disk.specs.Limiting.{shown};

    ghost bytes = { λ view. shown view.limit view.bytes };

    ghost honest = { λ view. view.honest };

    ghost sound = { λ view. view.sound };

    fn bounds(&self) {
        self.inner.bounds()
    }

    fn end(&self) -> u64 {
        let end = self.inner.end();
        match self.limit {
            Some(limit) => end.min(limit.max(HEADER_LENGTH as u64)),
            None => end,
        }
    }

    fn read_into(&self, at: u64, out: &mut [u8]) -> Result<(), DiskFault> {
        let end = self.end();
        if end < at || end - at < out.len() as u64 {
            return Err(DiskFault::PastEnd);
        }
        self.inner.read_into(at, out)
    }
}
