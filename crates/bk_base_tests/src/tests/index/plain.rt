//! The same calls on an index and on a plain list.

ghost use Rattle.std.specs.Prelude.{◌<◌, ◌^◌};

use super::{key, place};
use bk_index::Index;
use bk_record::{Key, Location};
use std::alloc::AllocError;
use std::process::Abort;
use std::test::Fail;

// Pseudo-random numbers, the same at each run.
#[derive(Drop)]
struct Numbers(u64);

impl Numbers {
    fn below(&mut self, bound: u32) -> u32
        ensures { result < 2 ^ 31 }
    {
        self.0 = self
            .0
            .wrapping_mul(6_364_136_223_846_793_005)
            .wrapping_add(1_442_695_040_888_963_407);
        (self.0 >> 33) as u32 % bound.max(1)
    }

    fn key(&mut self) -> Key {
        // Few ledgers with many entries, so that a ledger spans pages.
        key(u64::from(self.below(4)), u64::from(self.below(400)))
    }

    fn place(&mut self) -> Location {
        place(self.below(3), 1028 + self.below(4))
    }
}

// The same map as a list, in the order of insertion.
#[derive(Drop)]
struct Plain {
    pairs: Vec<(Key, Location)>,
}

impl Plain {
    fn get(&self, key: &Key) -> Option<Location> {
        for (held, location) in &self.pairs {
            if held == key {
                return Some(*location);
            }
        }
        None
    }

    fn insert(&mut self, key: Key, location: Location) -> Result<(), AllocError> {
        self.pairs.retain(|(held, _)| *held != key);
        self.pairs.push((key, location))?;
        Ok(())
    }

    fn drop_ledger(&mut self, ledger: u64) -> u64 {
        let before = self.pairs.len() as u64;
        self.pairs.retain(|(key, _)| key.ledger() != ledger);
        before.saturating_sub(self.pairs.len() as u64)
    }

    fn count_in(&self, log: u32) -> u64 {
        let mut count = 0u64;
        for (_, location) in &self.pairs {
            if location.log() == log {
                count = count.saturating_add(1);
            }
        }
        count
    }
}

// Inserts again if memory was refused once, after a check that the refusal changed nothing.
fn insert_both(
    rt: &impl Abort,
    index: &mut Index,
    plain: &mut Plain,
    key: Key,
    to: Location,
) -> Result<(), AllocError> {
    let before = plain.get(&key);
    let len = index.len();
    let answer = match index.insert(key, to) {
        Ok(answer) => answer,
        Err(AllocError) => {
            assert_eq!(rt; index.get(&key), before);
            assert_eq!(rt; index.len(), len);
            index.insert(key, to)?
        }
    };
    assert_eq!(rt; answer, before);
    if plain.insert(key, to).is_err() {
        plain.insert(key, to)?;
    }
    Ok(())
}

fn same_map(rt: &impl Abort, index: &Index, plain: &Plain) {
    assert_eq!(rt; index.len(), plain.pairs.len());
    let mut last = None;
    for (key, location) in index.walk() {
        assert_eq!(rt; plain.get(&key), Some(location));
        if let Some(before) = last {
            assert!(rt; before < key);
        }
        last = Some(key);
    }
    for (key, location) in &plain.pairs {
        assert_eq!(rt; index.get(key), Some(*location));
    }
}

// The walk of a ledger has exactly its keys of the whole walk.
fn same_ledger(rt: &impl Abort, index: &Index, ledger: u64) {
    let mut of_ledger = index.walk_ledger(ledger);
    for (key, location) in index.walk() {
        if key.ledger() == ledger {
            assert_eq!(rt; of_ledger.next(), Some((key, location)));
        }
    }
    assert_eq!(rt; of_ledger.next(), None);
}

fn mixed_call(
    rt: &impl Abort,
    numbers: &mut Numbers,
    index: &mut Index,
    plain: &mut Plain,
) -> Result<(), AllocError> {
    let key = numbers.key();
    let to = numbers.place();
    match numbers.below(400) {
        0 => {
            let ledger = u64::from(numbers.below(5));
            assert_eq!(rt; index.drop_ledger(ledger), plain.drop_ledger(ledger));
        }
        1..=80 => {
            let from = numbers.place();
            let moves = plain.get(&key) == Some(from);
            assert_eq!(rt; index.replace_if(&key, from, to), moves);
            if moves {
                plain.insert(key, to)?;
            }
        }
        _ => insert_both(rt, index, plain, key, to)?,
    }
    Ok(())
}

#[test]
fn mixed_calls_answer_as_a_plain_list(rt: HostRuntime) -> Result<(), Fail> {
    let mut numbers = Numbers(1);
    let mut index = Index::new(rt.alloc());
    let mut plain = Plain {
        pairs: Vec::new(rt.alloc()),
    };
    for _ in 0..40 {
        for _ in 0..100 {
            mixed_call(&rt, &mut numbers, &mut index, &mut plain)?;
        }
        same_map(&rt, &index, &plain);
        for ledger in 0..5 {
            same_ledger(&rt, &index, ledger);
        }
        let log = numbers.below(4);
        assert_eq!(rt; index.count_in(log), plain.count_in(log));
    }
    Ok(())
}
