//! Questions of a scenario to the store between two steps.

use crate::numbers::small_number;
use bk_disk::LogDisk;
use bk_drive::Store;
use bk_store::{LogState, Mark};
use std::alloc::{AllocError, Global};

/// A question to the store after N steps.
#[derive(Clone, Copy)]
pub(crate) struct Asked {
    /// The number of steps.
    pub after: usize,
    pub what: What,
}

/// The question.
#[derive(Clone, Copy)]
pub(crate) enum What {
    /// The state of a log.
    State(u32),
    /// Number of index entries that point into a log.
    Named(u32),
    /// Share of a log's records that belong to live ledgers, in thousandths.
    Live(u32),
    /// Whether a log has a view.
    View(u32),
    /// Number of keys in the index.
    Keys,
    /// The mark with this number in the trail.
    Mark(u32),
}

impl Asked {
    /// Parses a line `AFTER NAME LOG ANSWER`, `AFTER mark NUMBER ANSWER` or `AFTER keys ANSWER`.
    pub(crate) fn of(line: &str) -> Option<Asked> {
        let (after, rest) = line.split_once(' ')?;
        let after = small_number(after)? as usize;
        let (name, rest) = rest.split_once(' ')?;
        let what = match name {
            "keys" => What::Keys,
            _ => of_number(name, rest)?,
        };
        Some(Asked { after, what })
    }
}

/// Parses a question about a log or a mark, whose number is at the start of `rest`.
fn of_number(name: &str, rest: &str) -> Option<What> {
    let (number, _) = rest.split_once(' ')?;
    let number = small_number(number)?;
    match name {
        "state" => Some(What::State(number)),
        "named" => Some(What::Named(number)),
        "live" => Some(What::Live(number)),
        "view" => Some(What::View(number)),
        "mark" => Some(What::Mark(number)),
        _ => None,
    }
}

/// Returns the line with the store's reply.
pub(crate) fn told<D: LogDisk>(
    alloc: Global,
    store: &Store<D>,
    after: usize,
    what: What,
) -> Result<String, AllocError> {
    match what {
        What::State(log) => format!(in alloc; "{after} state {log} {}", state_of(store, log)),
        What::Named(log) => match store.named(log) {
            Some(keys) => format!(in alloc; "{after} named {log} {keys}"),
            None => format!(in alloc; "{after} named {log} no log"),
        },
        What::Live(log) => match live_part(store, log) {
            Some(share) => format!(in alloc; "{after} live {log} {share}"),
            None => format!(in alloc; "{after} live {log} no log"),
        },
        What::View(log) => match store.log_view(log) {
            Some(_) => format!(in alloc; "{after} view {log} yes"),
            None => format!(in alloc; "{after} view {log} no"),
        },
        What::Keys => format!(in alloc; "{after} keys {}", store.index().len()),
        What::Mark(number) => {
            let text = mark_text(alloc, store.trail().get(number as usize))?;
            format!(in alloc; "{after} mark {number} {text}")
        }
    }
}

fn mark_text(alloc: Global, mark: Option<&Mark>) -> Result<String, AllocError> {
    match mark {
        Some(Mark::Add { key, digest }) => {
            let digits = hex::encode(alloc, digest)?;
            format!(in alloc; "add {} {} {digits}", key.ledger(), key.entry())
        }
        Some(Mark::Delete { ledger }) => format!(in alloc; "delete {ledger}"),
        Some(Mark::Fence { ledger }) => format!(in alloc; "fence {ledger}"),
        None => format!(in alloc; "none"),
    }
}

fn state_of<D: LogDisk>(store: &Store<D>, log: u32) -> &'static str {
    match store.log_state(log) {
        Some(LogState::Writing) => "writing",
        Some(LogState::Filled) => "filled",
        Some(LogState::Copying) => "copying",
        Some(LogState::Readable) => "readable",
        Some(LogState::Retired) => "retired",
        Some(LogState::Closed) => "closed",
        None => "no log",
    }
}

/// Returns the lowest threshold at which a compaction does not choose the log, or `None` if the
/// store does not have it.
fn live_part<D: LogDisk>(store: &Store<D>, log: u32) -> Option<u32> {
    for share in 0..=1000 {
        if is_below(store, log, share + 1) {
            return Some(share);
        }
    }
    None
}

fn is_below<D: LogDisk>(store: &Store<D>, log: u32, threshold: u32) -> bool {
    match store.log_state(log) {
        Some(_) => store.least_used(threshold, &[log]).is_some(),
        None => false,
    }
}
