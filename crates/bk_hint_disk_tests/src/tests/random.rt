//! Random damages of a hint: each is noticed.

use super::logs::{hint_of, mixed, write};
use bk_disk::{LogDisk, MemDisk};
use bk_hint_disk::{WhyNot, check_hint};
use std::alloc::Global;
use std::process::Abort;
use std::test::Fail;

/// The number of damages.
const DAMAGES: u64 = 1000;

/// Returns the next number of a sequence.
fn next(state: u64) -> u64 {
    state
        .wrapping_mul(6_364_136_223_846_793_005)
        .wrapping_add(1_442_695_040_888_963_407)
}

/// Returns a hint of which up to four bits are flipped.
fn damaged(alloc: Global, hint: &[u8], seed: u64) -> Option<Vec<u8>> {
    let mut bytes = hint.to_vec(alloc).ok()?;
    let length = (hint.len() as u64).max(1);
    let mut state = next(seed);
    for _ in 0..=state % 4 {
        state = next(state);
        let byte = bytes.get_mut(((state >> 33) % length) as usize)?;
        *byte ^= 1u8.rotate_left(((state >> 20) % 8) as u32);
    }
    Some(bytes)
}

#[test]
fn random_damages_are_noticed(rt: HostRuntime) -> Result<(), Fail> {
    let alloc = rt.alloc();
    let mut disk = MemDisk::new(alloc);
    let entries = mixed(alloc, 2).expect(&rt, "entries");
    assert!(rt; write(alloc, &mut disk, 2, &entries, true).is_some());
    let hint = hint_of(alloc, &mut disk, 2).expect(&rt, "a hint");
    let header = disk.read_at(alloc, 2, 0, 1024).expect(&rt, "a header");
    let view = disk.view(alloc, 2).expect(&rt, "a view");
    let mut same: u64 = 0;
    for seed in 0..DAMAGES {
        let bytes = damaged(alloc, &hint, seed).expect(&rt, "bytes");
        match check_hint(alloc, &bytes, 2, &header, &view) {
            Err(WhyNot::Damaged(_)) => {}
            Ok(_) if bytes.as_slice() == hint.as_slice() => same = same.wrapping_add(1),
            _ => panic!(rt; "damage {seed}"),
        }
    }
    // Two flips of one bit undo each other.
    assert!(rt; same < DAMAGES / 100, "{same} without a damage");
    Ok(())
}
