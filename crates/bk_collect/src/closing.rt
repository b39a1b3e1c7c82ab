//! Closing a retired log to leases, so that its file can be removed.

ghost use Rattle.std.specs.Prelude.{◌≡◌, IsTrue};
ghost use Rattle.bk_store.specs.Contents.{SameContents};
ghost use Rattle.bk_store.specs.Frame.{CoreUnchanged, CachesUnchanged, SlotsUnchanged};
ghost use Rattle.bk_collect.specs.Collecting.{CloseTransition};

use crate::CloseAnswer;
use bk_disk::LogDisk;
use bk_store::{LogState, Store};

/// Closes a retired log if no lease of it is out.
///
/// Returns `Closed` for a log that is closed already, before any lease is counted. A leased log is
/// unchanged. Does not allocate and does not use the device.
pub fn close<D: LogDisk>(store: &mut Store<D>, log: u32) -> CloseAnswer
    ensures transition { CloseTransition store.old log result store.new }
    ensures frame { CoreUnchanged store.old store.new × CachesUnchanged store.old store.new
        × (¬ (result ≡ CloseAnswer.Closed) → SlotsUnchanged store.old.keeper store.new.keeper)
        × (store.new.failures ≡ store.old.failures) }
    ensures honest { store.new.honest ≡ store.old.honest }
    ensures contents { IsTrue store.old.honest → SameContents store.old store.new }
{
    let Some(state) = store.log_state(log) else {
        return CloseAnswer::NoLog;
    };
    match state {
        LogState::Writing | LogState::Filled | LogState::Copying | LogState::Readable => {
            CloseAnswer::NotRetired
        }
        LogState::Closed => CloseAnswer::Closed,
        LogState::Retired => match store.close_log(log) {
            Ok(()) => CloseAnswer::Closed,
            Err(leased) => CloseAnswer::Leased(leased.count),
        },
    }
}
