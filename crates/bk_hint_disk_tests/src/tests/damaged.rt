//! Damaged hints: each answer is that of the log, and the damage is reported.

use super::logs::{Opened, SMALL, SMALL_LOG, hint_of, open_with, small_hint, write};
use bk_disk::MemDisk;
use bk_hint::HintFault;
use bk_hint_disk::WhyNot;
use std::alloc::Global;
use std::process::Abort;
use std::test::Fail;

/// Returns bytes of which one has a bit flipped.
fn flipped(alloc: Global, bytes: &[u8], at: usize, bit: u8) -> Option<Vec<u8>> {
    let mut bytes = bytes.to_vec(alloc).ok()?;
    let byte = bytes.get_mut(at)?;
    *byte ^= bit;
    Some(bytes)
}

/// Returns the first byte of a hint whose damage is not noticed, if a bit of each is flipped.
fn first_unnoticed(alloc: Global, hint: &[u8], bit: u8) -> Option<usize> {
    for at in 0..hint.len() {
        let Some(bytes) = flipped(alloc, hint, at, bit) else {
            return Some(at);
        };
        match open_with(alloc, &bytes) {
            Opened::Without(WhyNot::Damaged(_)) => {}
            _ => return Some(at),
        }
    }
    None
}

#[test]
fn each_flipped_bit_is_noticed(rt: HostRuntime) -> Result<(), Fail> {
    let alloc = rt.alloc();
    let hint = small_hint(alloc, &SMALL).expect(&rt, "a hint");
    assert_eq!(rt; hint.len(), 96);
    assert_eq!(rt; open_with(alloc, &hint), Opened::ByHint);
    for bit in [1u8, 2, 4, 8, 16, 32, 64, 128] {
        assert_eq!(rt; first_unnoticed(alloc, &hint, bit), None, "bit {bit}");
    }
    Ok(())
}

/// Returns the length of the first front of a hint that is not noticed as one.
fn first_front(alloc: Global, hint: &[u8]) -> Option<usize> {
    for end in 0..hint.len() {
        let front = hint.get(..end).unwrap_or(hint);
        match open_with(alloc, front) {
            Opened::Without(WhyNot::Damaged(_)) => {}
            _ => return Some(end),
        }
    }
    None
}

#[test]
fn each_cut_is_noticed(rt: HostRuntime) -> Result<(), Fail> {
    let alloc = rt.alloc();
    let hint = small_hint(alloc, &SMALL).expect(&rt, "a hint");
    assert_eq!(rt; first_front(alloc, &hint), None);
    assert_eq!(rt;
        open_with(alloc, b""),
        Opened::Without(WhyNot::Damaged(HintFault::Short(0)))
    );
    let mut longer = hint.to_vec(alloc)?;
    longer.push(0)?;
    assert_eq!(rt;
        open_with(alloc, &longer),
        Opened::Without(WhyNot::Damaged(HintFault::Length(97)))
    );
    Ok(())
}

#[test]
fn hints_of_other_logs_are_refused(rt: HostRuntime) -> Result<(), Fail> {
    let alloc = rt.alloc();
    // Logs with the same entries, of other ids.
    for log in [0u8, 1, 8, 255] {
        let mut disk = MemDisk::new(alloc);
        assert!(rt; write(alloc, &mut disk, log, &SMALL, true).is_some());
        let hint = hint_of(alloc, &mut disk, log).expect(&rt, "a hint");
        assert_eq!(rt;
            open_with(alloc, &hint),
            Opened::Without(WhyNot::OtherLog(u32::from(log)))
        );
    }
    // A log that is not sealed has no hint.
    let mut disk = MemDisk::new(alloc);
    assert!(rt; write(alloc, &mut disk, SMALL_LOG, &SMALL, false).is_some());
    assert_eq!(rt; hint_of(alloc, &mut disk, SMALL_LOG), None);
    Ok(())
}
