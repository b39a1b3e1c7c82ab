//! Memory refused once, in any of a run's calls: the files are then as they were, and the call can be made again.
//!
//! In a plain run nothing is refused. `rt try --test --fail-alloc N` refuses the Nth allocation of each test.

use super::listing::two_files;
use super::table::{Answer, Call, Want, check_answer, make};
use bk_disk::{DiskFault, MemDisk};
use std::alloc::{AllocError, Global};
use std::process::Abort;

static SEVENS: [u8; 70_000] = [7; 70_000];

const PATCHED: &[u8; 20] = b"\x07\x07\x07\x07\x07\x07\x07\x07twelve bytes";

// What log 1 is after a call: none, or so many sevens, with a patch over them or without.
#[derive(Clone, Copy)]
enum State {
    Gone,
    Sevens(usize),
    Patched(usize),
}

// A call, made again where memory is refused.
fn make_again(alloc: Global, disk: &mut MemDisk, call: Call<'_>) -> Answer {
    let answer = make(alloc, disk, call);
    if answer.fault() == Some(DiskFault::Memory) {
        return make(alloc, disk, call);
    }
    answer
}

fn check(rt: &impl Abort, alloc: Global, disk: &mut MemDisk, call: Call<'_>, want: Want<'_>) {
    check_answer(rt, 0, &make_again(alloc, disk, call), want);
}

// Log 1 has so many bytes, and from byte `from` on they are sevens.
fn check_sevens(rt: &impl Abort, alloc: Global, disk: &mut MemDisk, from: usize, n: usize) {
    let sevens = SEVENS.get(from..n).expect(rt, "a range");
    let read = Call::Read(1, from as u64, sevens.len() as u64);
    check(rt, alloc, disk, Call::Length(1), Want::Number(n as u64));
    check(rt, alloc, disk, read, Want::Bytes(sevens));
}

fn check_state(rt: &impl Abort, alloc: Global, disk: &mut MemDisk, state: State) {
    match state {
        State::Gone => check(
            rt,
            alloc,
            disk,
            Call::Length(1),
            Want::Fault(DiskFault::NoLog),
        ),
        State::Sevens(n) => check_sevens(rt, alloc, disk, 0, n),
        State::Patched(n) => {
            check(rt, alloc, disk, Call::Read(1, 0, 20), Want::Bytes(PATCHED));
            check_sevens(rt, alloc, disk, 20, n);
        }
    }
}

// An append of so many sevens to log 1, or another call.
#[derive(Clone, Copy)]
enum Act {
    Append(usize),
    Do(Call<'static>),
}

fn call_of(act: Act) -> Call<'static> {
    match act {
        Act::Append(n) => Call::Append(1, SEVENS.get(..n).unwrap_or(&[])),
        Act::Do(call) => call,
    }
}

const PATCH: Act = Act::Do(Call::Patch(1, b"twelve bytes"));

// Each call, and what log 1 is after it.
const ACTS: [(Act, State); 10] = [
    (Act::Do(Call::Create(1)), State::Sevens(0)),
    (Act::Append(100), State::Sevens(100)),
    (PATCH, State::Patched(100)),
    (Act::Append(69_000), State::Patched(69_100)),
    (Act::Do(Call::List), State::Patched(69_100)),
    (Act::Append(900), State::Patched(70_000)),
    (Act::Do(Call::View(1)), State::Patched(70_000)),
    (PATCH, State::Patched(70_000)),
    (Act::Do(Call::Read(1, 0, 70_000)), State::Patched(70_000)),
    (Act::Do(Call::Remove(1)), State::Gone),
];

// Makes a call, and where memory is refused looks at the files, which are as before, and makes it again.
fn check_call(rt: &impl Abort, alloc: Global, disk: &mut MemDisk, call: Call<'_>, before: State) {
    if let Some(fault) = make(alloc, disk, call).fault() {
        assert!(rt; fault == DiskFault::Memory);
        check_state(rt, alloc, disk, before);
        assert!(rt; make(alloc, disk, call).fault().is_none());
    }
}

#[test]
fn a_call_without_memory_leaves_the_files(rt: HostRuntime) {
    let mut disk = MemDisk::new(rt.alloc());
    let mut state = State::Gone;
    for (act, after) in &ACTS {
        check_call(&rt, rt.alloc(), &mut disk, call_of(*act), state);
        check_state(&rt, rt.alloc(), &mut disk, *after);
        state = *after;
    }
}

// A disk of two files, made again where memory is refused.
fn two_files_again(alloc: Global) -> Result<MemDisk, AllocError> {
    match two_files(alloc, &SEVENS, PATCHED) {
        Ok(disk) => Ok(disk),
        Err(_) => two_files(alloc, &SEVENS, PATCHED),
    }
}

#[test]
fn a_disk_of_files_without_memory_is_none(rt: HostRuntime) {
    let alloc = rt.alloc();
    let mut disk = two_files_again(alloc).expect(&rt, "a disk");
    check_state(&rt, alloc, &mut disk, State::Sevens(70_000));
    check(
        &rt,
        alloc,
        &mut disk,
        Call::Read(0, 0, 20),
        Want::Bytes(PATCHED),
    );
}
