//! What a call of `compact` asks for.

use bk_cli::words::{BELOW, DRY_RUN, INDEX_IS_REBUILT, MINOR, NO_HINTS};
use bk_cli::{DEFAULTS, FolderCall};
use bk_deleted::DeletedAsk;
use bk_inspect::Hints;
use std::alloc::{AllocError, Global};

/// What a call of `compact` asks for.
#[derive(Debug, PartialEq, Eq, Drop)]
pub struct CompactAsk<'a> {
    /// Below how many thousandths of live bytes a log is compacted: 0 to 1000.
    pub below: u32,
    /// Which ledgers are deleted.
    pub deleted: DeletedAsk<'a>,
    /// Whether hints are used.
    pub hints: Hints,
    /// Whether the effect is shown only.
    pub is_dry: bool,
    /// Whether the operator rebuilds a bookie's index that is in the directory.
    pub index_is_rebuilt: bool,
}

impl<'a> CompactAsk<'a> {
    /// Returns what a call of `compact` asks for.
    pub fn of(alloc: Global, call: &FolderCall<'a>) -> Result<CompactAsk<'a>, AllocError> {
        let below = match call.number(&BELOW) {
            Some(below) => u32::try_from(below).unwrap_or(DEFAULTS.major),
            None if call.has(&MINOR) => DEFAULTS.minor,
            None => DEFAULTS.major,
        };
        Ok(CompactAsk {
            below,
            deleted: DeletedAsk::of(alloc, call)?,
            hints: if call.has(&NO_HINTS) {
                Hints::Ignored
            } else {
                Hints::Used
            },
            is_dry: call.has(&DRY_RUN),
            index_is_rebuilt: call.has(&INDEX_IS_REBUILT),
        })
    }
}
