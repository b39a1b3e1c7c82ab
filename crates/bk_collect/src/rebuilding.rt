//! Rebuilding the index from the published parts of the logs.
//!
//! Reads the views of all open logs by rising id, each from its header to its end, so a later
//! record of a key replaces an earlier one. The store gets the new index only after all logs were
//! read.

ghost use Rattle.std.specs.Prelude.{◌≡◌, IsTrue, IsErrOf, IfOk, IfErr, OnOk, Some, option_map};
ghost use Rattle.bk_disk.specs.Disk.{AreSound};
ghost use Rattle.bk_store.specs.Primitives.{CanReplaceIndex};
ghost use Rattle.bk_store.specs.Logs.{view_of};
ghost use Rattle.bk_store.specs.Contents.{SameContents};
ghost use Rattle.bk_store.specs.Frame.{FrameUnchanged};
ghost use Rattle.bk_collect.specs.Collecting.{RebuildFails, RebuildTransition, open_view};

use crate::CollectFault;
use crate::scanning::take_in;
use bk_disk::LogDisk;
use bk_index::Index;
use bk_store::{LogState, Store};
use std::sync::Arc;

/// Rebuilds the index from the published parts of all logs that are neither Retired nor Closed,
/// without the deleted ledgers. Returns the number of its keys.
///
/// If a key has several records, the last one wins, by log id, then position (this project's rule).
/// The count of index entries of each log is that of the new index.
///
/// # Errors
///
/// The store is unchanged after every error. They can occur at any point:
///
/// - `Memory`: an allocation failed.
/// - `Disk`: a view could not be read.
/// - `Log`, `Odd`: the disk is not honest.
pub fn rebuild<D: LogDisk>(store: &mut Store<D>) -> Result<u64, CollectFault>
    ensures transition { RebuildTransition store.old result store.new }
    ensures frame { FrameUnchanged store.old store.new × (store.new.failures ≡ store.old.failures) }
    ensures sound { AreSound D.View.sound → ¬ (IsErrOf result CollectFault.Disk) }
    ensures honest { store.new.honest ≡ store.old.honest }
    ensures contents { IsTrue store.old.honest → SameContents store.old store.new }
{
    let index = read_logs(store)?;
    let keys = index.len() as u64;
    store.replace_index(index);
    Ok(keys)
}

/// Returns the index of the published parts of all open logs.
fn read_logs<D: LogDisk>(store: &Store<D>) -> Result<Index, CollectFault>
    ensures made { IfOk result (λ index. CanReplaceIndex store.now index) }
    ensures fails { IfErr result (λ fault. RebuildFails store.now fault) }
    ensures sound { AreSound D.View.sound → ¬ (IsErrOf result CollectFault.Disk) }
{
    store.reveal_invariant();
    let mut index = Index::new(store.alloc());
    let mut from = 0;
    while let Some(log) = store.log_from(from) {
        if let Some(view) = shown(store, log) {
            take_in(store, log, view, &mut index)?;
        }
        from = log + 1;
    }
    Ok(index)
}

/// Returns the last view of a log if the log is open, that is, neither Retired nor Closed.
fn shown<D: LogDisk>(store: &Store<D>, log: u32) -> Option<&Arc<D::View>>
    ensures { option_map (λ view. view_of D.View.bytes D.View.honest D.View.sound view.now.value) result ≡ open_view store.now.logs log }
{
    match store.log_state(log)? {
        LogState::Retired | LogState::Closed => None,
        LogState::Writing | LogState::Filled | LogState::Copying | LogState::Readable => {
            store.log_view(log)
        }
    }
}
