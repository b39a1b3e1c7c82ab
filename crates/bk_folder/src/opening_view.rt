//! A view of a log of an `OpeningDisk`, whose failed reads are reported too.

ghost use Rattle.std.specs.Prelude.{[], false};

use crate::folder_disk::FolderView;
use bk_disk::{DiskFault, LogView, RecordRun};
use bk_messages::FailedCalls;

/// A view of a log of an `OpeningDisk`: one of a `FolderDisk`, whose failed reads are among the
/// `FailedCalls` of the disk. It is not honest, as a `DirView`.
#[derive(Drop)]
pub struct OpeningView {
    pub(crate) view: FolderView,
    pub(crate) failed: FailedCalls,
}

impl LogView for OpeningView {
    ghost bytes = { λ _. [] };

    ghost honest = { λ _. false };

    ghost sound = { λ _. false };

    fn bounds(&self) {}

    fn end(&self) -> u64 {
        self.view.end()
    }

    fn read_into(&self, at: u64, out: &mut [u8]) -> Result<(), DiskFault> {
        let answer = self.view.read_into(at, out);
        self.failed.see(&answer);
        answer
    }

    fn lend(&self, at: u64) -> &[u8] {
        self.view.lend(at)
    }

    fn lend_run(&self, at: u64) -> Option<RecordRun> {
        self.view.lend_run(at)
    }
}
