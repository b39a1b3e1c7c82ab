//! Random lives: a store performs steps until its power fails, opens on what is left, and
//! continues.

use super::chance::Chance;
use super::finding::compare;
use super::life::live;
use super::owed::Owed;
use super::powered::{Bare, Calls, Kept, KeptLogs, Left, Powered, nothing};
use super::steps::{add_of, push_step};
use super::stop::Stop;
use super::test_file::Failing;
use bk_crash::{Choices, PowerDisk};
use bk_disk::{LogDisk, MemDisk};
use bk_drive::{Kind, Step, Work};
use std::alloc::{AllocError, Global};
use std::process::Abort;

/// Returns a random step. Half of them are adds and writes.
fn step(alloc: Global, chance: &mut Chance) -> Result<Step, AllocError> {
    let kind = chance.up_to(39);
    let number = chance.up_to(9) as u64;
    let log = chance.up_to(12) as u32;
    let ledger = u64::from(log % 4);
    if kind < 10 {
        let entry = chance.up_to(40) as u64;
        return add_of(alloc, ledger, entry, chance.up_to(300), number as u8);
    }
    if kind == 10 && number == 0 {
        return Ok(Step::Delete(ledger));
    }
    Ok(Step::Work(work_of(kind, number, log)))
}

/// Returns a step of the store alone for a number from 10 to 39.
fn work_of(kind: usize, number: u64, log: u32) -> Work {
    match kind {
        0..=12 => Work::Swap,
        13..=21 => Work::WriteOne,
        22..=24 => Work::Publish,
        25 => Work::Roll,
        26 => Work::Begin(Kind::Minor),
        27 => Work::Begin(Kind::Major),
        28..=30 => Work::Copy(number),
        31 | 32 => Work::EndCopy,
        33 => Work::Switch(number),
        34 => Work::Finish,
        35 => Work::Retire(log),
        36 => Work::Close(log),
        37 => Work::Remove(log),
        38 => Work::Rebuild,
        _ => Work::GiveUp,
    }
}

/// Returns the steps of a life.
fn steps_of(alloc: Global, chance: &mut Chance) -> Result<Vec<Step>, AllocError> {
    let mut steps = Vec::new(alloc);
    for _ in 0..120 {
        push_step(&mut steps, step(alloc, chance)?)?;
    }
    Ok(steps)
}

/// Returns when calls fail in a life: those on the logs, and maybe those on their manifest, or one
/// of these.
fn calls_of(chance: &mut Chance) -> Calls {
    let disk = chance.up_to(120) as u64;
    let calls = chance.up_to(40) as u64;
    let file = match chance.up_to(2) {
        0 => Failing::Power(calls),
        1 => Failing::Once(calls),
        _ => Failing::Power(u64::MAX),
    };
    Calls { disk, file }
}

/// Runs a life on what a crash left. Returns what its own crash left.
fn life<D: LogDisk, P: Powered<D>>(
    alloc: Global,
    owed: &mut Owed,
    left: Left,
    chance: &mut Chance,
) -> Result<Left, Stop> {
    let steps = steps_of(alloc, chance)?;
    let calls = calls_of(chance);
    let (left, _) = live::<D, P>(alloc, owed, left, &steps, calls, chance)?;
    compare::<D, P>(alloc, owed, left, chance)
}

/// Runs N lives of one store, each on what the crash before it left.
fn lives<D: LogDisk, P: Powered<D>>(alloc: Global, seed: u64, count: u32) -> Result<(), Stop> {
    let mut chance = Chance::new(seed);
    let mut owed = Owed::new(alloc);
    let mut left = nothing(alloc);
    for _ in 0..count {
        left = life::<D, P>(alloc, &mut owed, left, &mut chance)?;
    }
    Ok(())
}

/// Eighty stores survive many crashes.
fn all_live<D: LogDisk, P: Powered<D>>(rt: &impl Abort, alloc: Global) {
    for seed in 0..80 {
        if let Err(stop) = lives::<D, P>(alloc, seed, 20) {
            assert!(rt;
                false,
                "seed {seed}: {} {} {}",
                stop.what, stop.ledger, stop.number
            );
        }
    }
}

#[test]
fn a_store_lives_on_through_many_crashes(rt: HostRuntime) {
    all_live::<PowerDisk<MemDisk>, Bare>(&rt, rt.alloc());
}

#[test]
fn a_store_with_a_manifest_lives_on_through_crashes_that_leave_damage(rt: HostRuntime) {
    all_live::<KeptLogs, Kept>(&rt, rt.alloc());
}
