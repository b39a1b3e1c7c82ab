//! A view that has the records of a log in memory.

ghost use Rattle.std.specs.Prelude.{◌≡◌, ◌&&◌, IsTrue};
ghost use Rattle.bk_hint_view.specs.Showing.{has_true_table};

use crate::Table;
use bk_disk::{DiskFault, LogView, RecordRun};
use std::alloc::Global;
use std::marker::Model;

/// A view of a log, and a table of its records. It has the bytes of the inner view, and is sound if
/// that is. It lends the runs of the table, so a scan of the log reads no record of the table.
///
/// It is honest if the inner view is and the table is true of the log: the table is trusted.
#[derive(Drop)]
pub struct HintedView<V: LogView> {
    pub inner: V,
    pub table: Option<Table>,
}

impl<V: LogView> Model for HintedView<V> {
    ghost use Rattle.bk_hint_view.specs.Showing.{HintedBytes};

    ghost Value = { HintedBytes };

    ghost view = { λ view. record {
      bytes = V.bytes view.inner;
      inner = V.honest view.inner;
      sound = V.sound view.inner;
      table = view.table;
    } };
}

impl<V: LogView> HintedView<V> {
    /// Returns the view with a table, or without one.
    pub fn new(inner: V, table: Option<Table>) -> HintedView<V>
        ensures { result ≡ record { bytes = V.bytes inner; inner = V.honest inner; sound = V.sound inner; table = table } }
    {
        HintedView { inner, table }
    }
}

impl<V: LogView> LogView for HintedView<V> {
    ghost use Rattle.std.specs.Prelude.{◌&&◌};
    ghost use Rattle.bk_hint_view.specs.Showing.{has_true_table};

    ghost bytes = { λ view. view.bytes };

    ghost honest = { λ view. view.inner && has_true_table view.table view.bytes };

    ghost sound = { λ view. view.sound };

    fn bounds(&self) {
        self.inner.bounds()
    }

    fn end(&self) -> u64 {
        self.inner.end()
    }

    fn read_into(&self, at: u64, out: &mut [u8]) -> Result<(), DiskFault> {
        self.inner.read_into(at, out)
    }

    fn lend(&self, at: u64) -> &[u8] {
        self.inner.lend(at)
    }

    /// Returns the records at this position that are in one run of the table, else what the inner
    /// view knows.
    fn lend_run(&self, at: u64) -> Option<RecordRun> {
        match &self.table {
            Some(table) => match table.run_at(at) {
                Some(run) => Some(run),
                None => self.inner.lend_run(at),
            },
            None => self.inner.lend_run(at),
        }
    }

    fn read_at(&self, alloc: Global, at: u64, n: u64) -> Result<Vec<u8>, DiskFault> {
        self.inner.read_at(alloc, at, n)
    }
}
