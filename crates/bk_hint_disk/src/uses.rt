//! Which hints are to be used, and which were not.

ghost use Rattle.std.specs.Prelude.{◌≡◌, IfOk, IfSome, IsNone};
ghost use Rattle.bk_hint.specs.Runs.{entries_of_runs};
ghost use Rattle.bk_hint_disk.specs.Truth.{HasHint};

use crate::checking::{Front, check_front, check_map};
use crate::{HintStoreFault, Unused, UnusedWatch, WhyNot};
use bk_disk::DiskFault;
use bk_hint::HintFault;
use bk_hint_view::Table;
use std::alloc::{AllocError, Global};

/// The logs whose next view gets its hint, and the hints that were not used.
#[derive(Drop)]
pub(crate) struct Uses {
    /// By rising id, with whether the log's next view gets its hint.
    armed: Vec<(u32, bool)>,
    unused: Vec<Unused>,
    /// `None` if memory for it was refused.
    watch: Option<UnusedWatch>,
}

impl Uses {
    pub(crate) fn new(alloc: Global) -> Uses {
        Uses {
            armed: Vec::new(alloc),
            unused: Vec::new(alloc),
            watch: UnusedWatch::new(alloc).ok(),
        }
    }

    /// Returns the hints that were not used.
    pub(crate) fn unused(&self) -> &[Unused] {
        &self.unused
    }

    /// Returns a watch of the hints that are not used.
    pub(crate) fn watch(&self) -> Result<UnusedWatch, AllocError> {
        match &self.watch {
            Some(watch) => watch.share(),
            None => Err(AllocError),
        }
    }

    /// Has the next view of each of these logs get its hint; none of them if memory is refused.
    pub(crate) fn arm(&mut self, alloc: Global, logs: &[u32]) {
        self.armed = Vec::new(alloc);
        for log in logs {
            if self.armed.push((*log, true)).is_err() {
                self.armed = Vec::new(alloc);
                return;
            }
        }
    }

    /// Returns whether a view of the log gets its hint. The next one does not.
    pub(crate) fn take(&mut self, log: u32) -> bool {
        match self.armed.binary_search_by_key(&log, |armed| armed.0) {
            Ok(place) => {
                let is_armed = self.armed[place].1;
                self.armed[place].1 = false;
                is_armed
            }
            Err(_) => false,
        }
    }

    /// Returns a hint that was found, if its facts are those of the log of this id, length and
    /// header; else notes why it is not used.
    pub(crate) fn front(
        &mut self,
        alloc: Global,
        log: u32,
        found: &Result<Option<Vec<u8>>, HintStoreFault>,
        header: &[u8],
        length: u64,
    ) -> Option<Front>
        ensures { IfSome result (λ front. HasHint found.now log front.contents) }
    {
        let hint = match found {
            Ok(Some(hint)) => hint,
            Ok(None) => return None,
            Err(fault) => return self.refuse(log, why_unfound(*fault)),
        };
        match check_front(alloc, hint, log, header, length) {
            Ok(front) => Some(front),
            Err(why) => self.refuse(log, why),
        }
    }

    /// Returns the table of a hint, if the ledgers map of its log fits, `tail`, and the records that
    /// were compared do; else notes why it is not used.
    pub(crate) fn table(
        &mut self,
        alloc: Global,
        log: u32,
        front: &Front,
        header: &[u8],
        tail: Result<Vec<u8>, DiskFault>,
        compared: Result<(), WhyNot>,
    ) -> Option<Table>
        ensures { IfSome result (λ table. entries_of_runs table ≡ front.now.contents) }
    {
        match table_of(alloc, front, header, tail, compared) {
            Ok(table) => Some(table),
            Err(why) => {
                self.note(log, why);
                None
            }
        }
    }

    /// Notes that a hint is not used. Returns `None`.
    fn refuse(&mut self, log: u32, why: WhyNot) -> Option<Front>
        ensures { IsNone result }
    {
        self.note(log, why);
        None
    }

    /// Notes that a hint is not used.
    fn note(&mut self, log: u32, why: WhyNot) {
        let unused = Unused { log, why };
        if let Some(watch) = &self.watch {
            watch.note(unused);
        }
        let _ = self.unused.push(unused);
    }
}

/// Returns the table of a hint, if the ledgers map of its log fits, `tail`, and the records that were
/// compared do.
fn table_of(
    alloc: Global,
    front: &Front,
    header: &[u8],
    tail: Result<Vec<u8>, DiskFault>,
    compared: Result<(), WhyNot>,
) -> Result<Table, WhyNot>
    ensures { IfOk result (λ table. entries_of_runs table ≡ front.now.contents) }
{
    let tail = match tail {
        Ok(tail) => tail,
        Err(fault) => return Err(WhyNot::unread(fault)),
    };
    check_map(alloc, front, header, &tail)?;
    compared?;
    match Table::of(alloc, &front.contents) {
        Ok(table) => Ok(table),
        Err(_) => Err(WhyNot::Memory),
    }
}

/// Returns why a hint is not used if it could not be read.
fn why_unfound(fault: HintStoreFault) -> WhyNot {
    match fault {
        HintStoreFault::Memory => WhyNot::Memory,
        HintStoreFault::Disk => WhyNot::Disk,
        HintStoreFault::NotPlain => WhyNot::NotPlain,
        HintStoreFault::TooLong(length) => WhyNot::Damaged(HintFault::Length(length)),
    }
}
