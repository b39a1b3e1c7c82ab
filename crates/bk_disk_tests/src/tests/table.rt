//! Calls as a table: each with what it is to answer.

use bk_disk::{DiskFault, LogDisk, LogView};
use std::alloc::Global;
use std::process::Abort;

/// A call on a disk. Logs are named by small ids.
#[derive(Clone, Copy)]
pub(super) enum Call<'a> {
    List,
    Length(u16),
    Create(u16),
    Append(u16, &'a [u8]),
    Patch(u16, &'a [u8; 12]),
    Sync(u16),
    /// So many bytes of a log from a position on: log, position, number.
    Read(u16, u64, u64),
    /// What a new view of a log has, from byte 1024 to its end.
    View(u16),
    Remove(u16),
}

/// What a call answered.
#[derive(Drop)]
pub(super) enum Answer {
    Done(Result<(), DiskFault>),
    Number(Result<u64, DiskFault>),
    Ids(Result<Vec<u32>, DiskFault>),
    Bytes(Result<Vec<u8>, DiskFault>),
}

impl Answer {
    pub(super) fn fault(&self) -> Option<DiskFault> {
        match self {
            Answer::Done(Err(fault)) => Some(*fault),
            Answer::Number(Err(fault)) => Some(*fault),
            Answer::Ids(Err(fault)) => Some(*fault),
            Answer::Bytes(Err(fault)) => Some(*fault),
            _ => None,
        }
    }
}

/// What a call is to answer.
#[derive(Clone, Copy)]
pub(super) enum Want<'a> {
    Done,
    Number(u64),
    Ids(&'a [u32]),
    Bytes(&'a [u8]),
    Fault(DiskFault),
}

/// Makes a call.
pub(super) fn make<D: LogDisk>(alloc: Global, disk: &mut D, call: Call<'_>) -> Answer {
    match call {
        Call::List => Answer::Ids(disk.list(alloc)),
        Call::Length(log) => Answer::Number(disk.length(alloc, u32::from(log))),
        Call::Create(log) => Answer::Done(disk.create(alloc, u32::from(log))),
        Call::Append(log, bytes) => Answer::Done(disk.append(alloc, u32::from(log), bytes)),
        Call::Patch(log, bytes) => Answer::Done(disk.patch(alloc, u32::from(log), bytes)),
        Call::Sync(log) => Answer::Done(disk.sync(alloc, u32::from(log))),
        Call::Read(log, at, n) => Answer::Bytes(disk.read_at(alloc, u32::from(log), at, n)),
        Call::View(log) => Answer::Bytes(view_all(alloc, disk, u32::from(log))),
        Call::Remove(log) => Answer::Done(disk.remove(alloc, u32::from(log))),
    }
}

// All that a new view of a log has.
fn view_all<D: LogDisk>(alloc: Global, disk: &mut D, log: u32) -> Result<Vec<u8>, DiskFault> {
    match disk.view(alloc, log) {
        Ok(view) => view.read_at(alloc, 1024, view.end().saturating_sub(1024)),
        Err(fault) => Err(fault),
    }
}

/// A row of a table: a call, and what it is to answer.
pub(super) type Row = (Call<'static>, Want<'static>);

/// Whether an answer is the one that is wanted.
pub(super) fn is_wanted(answer: &Answer, want: Want<'_>) -> bool {
    match want {
        Want::Done => matches!(answer, Answer::Done(Ok(()))),
        Want::Number(number) => is_number(answer, number),
        Want::Ids(ids) => has_ids(answer, ids),
        Want::Bytes(bytes) => has_bytes(answer, bytes),
        Want::Fault(told) => answer.fault() == Some(told),
    }
}

fn is_number(answer: &Answer, wanted: u64) -> bool {
    match answer {
        Answer::Number(Ok(number)) => *number == wanted,
        _ => false,
    }
}

fn has_ids(answer: &Answer, wanted: &[u32]) -> bool {
    match answer {
        Answer::Ids(Ok(ids)) => ids.as_slice() == wanted,
        _ => false,
    }
}

fn has_bytes(answer: &Answer, wanted: &[u8]) -> bool {
    match answer {
        Answer::Bytes(Ok(bytes)) => bytes.as_slice() == wanted,
        _ => false,
    }
}

/// An answer is the one that is wanted of this row of a table.
pub(super) fn check_answer(rt: &impl Abort, row: usize, answer: &Answer, want: Want<'_>) {
    let fault = answer.fault();
    assert!(rt;
        is_wanted(answer, want),
        "row {row}: another answer, fault {fault:?}"
    );
}

/// Makes each call of a table.
pub(super) fn check<D: LogDisk>(
    rt: &impl Abort,
    alloc: Global,
    disk: &mut D,
    table: &[(Call<'_>, Want<'_>)],
) {
    for (row, (call, want)) in table.iter().enumerate() {
        check_answer(rt, row, &make(alloc, disk, *call), *want);
    }
}
