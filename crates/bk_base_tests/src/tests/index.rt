//! The index compared with a plain list, its pages, and a large index.

ghost use Rattle.std.specs.Prelude.{◌≡◌, ◌<◌, ◌≤◌, ◌^◌};

use bk_index::Index;
use bk_record::{Key, Location};
use std::alloc::AllocError;
use std::process::Abort;
use std::test::Fail;

mod builder;
mod pages;
mod plain;
mod runs;

fn key(ledger: u64, entry: u64) -> Key
    requires ledger { ledger < 2 ^ 63 }
    requires entry { entry < 2 ^ 63 }
    ensures { result ≡ record { ledger = ledger; entry = entry } }
{
    Key::new(ledger, entry).unwrap()
}

fn place(log: u32, at: u32) -> Location
    requires log { log < 2 ^ 31 }
    requires at { 1028 ≤ at }
    ensures { result ≡ record { log = log; at = at } }
{
    Location::pack(log, at).unwrap()
}

#[test]
fn keys_are_found_replaced_and_dropped(rt: HostRuntime) -> Result<(), Fail> {
    let mut index = Index::new(rt.alloc());
    assert!(rt; index.is_empty());
    let (old, new, third) = (place(0, 1053), place(1, 2000), place(2, 1028));
    let (first, second) = (key(1, 5), key(2, 0));
    let before = insert_three(&mut index, [(second, old), (first, old), (first, new)])?;
    assert_eq!(rt; before, [None, None, Some(old)]);
    assert_eq!(rt; index.len(), 2);
    assert_eq!(rt; index.get(&key(1, 4)), None);
    let replaced = [
        index.replace_if(&first, old, third),
        index.replace_if(&first, new, third),
        index.replace_if(&key(3, 0), new, third),
    ];
    assert_eq!(rt; (replaced, index.count_in(2)), ([false, true, false], 1));

    let walked: Vec<(Key, Location)> = index.walk().collect(rt.alloc())?;
    assert_eq!(rt;
        walked.as_slice(),
        [(first, third), (second, old)].as_slice()
    );

    let dropped = (index.drop_ledger(1), index.drop_ledger(u64::MAX));
    assert_eq!(rt; dropped, (1, 0));
    assert_eq!(rt; (index.get(&first), index.get(&second)), (None, Some(old)));
    Ok(())
}

/// Inserts three pairs and returns the location of each key before.
fn insert_three(
    index: &mut Index,
    [first, second, third]: [(Key, Location); 3],
) -> Result<[Option<Location>; 3], AllocError> {
    Ok([
        index.insert(first.0, first.1)?,
        index.insert(second.0, second.1)?,
        index.insert(third.0, third.1)?,
    ])
}
