//! Damaged hints are refused, or say the same.

use super::listed;
use super::writer::Writer;
use bk_hint::{HintFault, Listed, LogFacts, decode, encode};
use std::alloc::{AllocError, Global};
use std::test::Fail;

/// A hint, and what it says.
#[derive(Drop)]
struct Hint {
    facts: LogFacts,
    entries: Vec<Listed>,
    bytes: Vec<u8>,
}

/// Returns a random hint.
fn random_hint(alloc: Global, seed: u64) -> Result<Hint, AllocError> {
    let (contents, entries) = Writer::new(seed).write(alloc, 40)?;
    let facts = LogFacts {
        log: 31,
        length: 100_000,
        checksum: 0x0102_0304,
    };
    let bytes = encode(alloc, &contents, &facts)?;
    Ok(Hint {
        facts,
        entries,
        bytes,
    })
}

/// Returns whether bytes are refused, or say the same as the hint.
fn is_refused_or_same(alloc: Global, hint: &Hint, bytes: &[u8]) -> Result<bool, AllocError> {
    match decode(alloc, bytes) {
        Ok((contents, facts)) => {
            let entries = listed(alloc, &contents)?;
            Ok(facts == hint.facts && entries.as_slice() == hint.entries.as_slice())
        }
        Err(fault) => Ok(fault != HintFault::Memory),
    }
}

#[test]
fn a_flipped_bit_is_refused(rt: HostRuntime) -> Result<(), Fail> {
    let alloc = rt.alloc();
    let mut tried: u64 = 0;
    for seed in 0..8 {
        let mut hint = random_hint(alloc, seed)?;
        for at in 0..hint.bytes.len() {
            for bit in [1, 2, 4, 8, 16, 32, 64, 128] {
                if let Some(byte) = hint.bytes.get_mut(at) {
                    *byte ^= bit;
                }
                assert!(rt; decode(alloc, &hint.bytes).is_err(), "seed {seed}, at {at}");
                if let Some(byte) = hint.bytes.get_mut(at) {
                    *byte ^= bit;
                }
                tried = tried.wrapping_add(1);
            }
        }
        assert!(rt; decode(alloc, &hint.bytes).is_ok(), "seed {seed}");
    }
    assert!(rt; tried > 10_000, "{tried}");
    Ok(())
}

#[test]
fn a_cut_is_refused(rt: HostRuntime) -> Result<(), Fail> {
    let alloc = rt.alloc();
    for seed in 0..8 {
        let hint = random_hint(alloc, seed)?;
        for end in 0..hint.bytes.len() {
            let cut = hint.bytes.get(..end).ok_or("cut")?;
            assert!(rt; decode(alloc, cut).is_err(), "seed {seed}, end {end}");
        }
        let mut longer = Vec::from_slice(alloc, &hint.bytes)?;
        longer.push(0)?;
        assert!(rt; decode(alloc, &longer).is_err(), "seed {seed}");
    }
    Ok(())
}

#[test]
fn exchanged_parts_are_refused_or_the_same(rt: HostRuntime) -> Result<(), Fail> {
    let alloc = rt.alloc();
    for seed in 0..8 {
        let one = random_hint(alloc, seed)?;
        let other = random_hint(alloc, seed + 100)?;
        for at in 0..one.bytes.len() {
            let front = one.bytes.get(..at).ok_or("front")?;
            if let Some(back) = other.bytes.get(at..) {
                let mut both = Vec::from_slice(alloc, front)?;
                both.extend_from_slice(back)?;
                let same = is_refused_or_same(alloc, &one, &both)?;
                let whole = is_refused_or_same(alloc, &other, &both)?;
                assert!(rt; same || whole, "seed {seed}, at {at}");
            }
        }
    }
    Ok(())
}
