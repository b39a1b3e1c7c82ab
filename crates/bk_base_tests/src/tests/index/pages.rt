//! Entries in pages: a small example, and an index of thousands of keys.

use super::{key, place};
use bk_index::Index;
use std::alloc::AllocError;
use std::process::Abort;
use std::test::Fail;

// Whether the pages have exactly these lengths, in this order.
fn has_pages(index: &Index, lens: &[usize]) -> bool {
    let pages = index.as_pages();
    if pages.len() != lens.len() {
        return false;
    }
    for (number, len) in lens.iter().enumerate() {
        if pages.page_len(number) != Some(*len) {
            return false;
        }
    }
    pages.page_len(lens.len()).is_none()
}

// Inserts 256 entries of ledger 1.
fn fill_page(index: &mut Index) -> Result<(), AllocError> {
    for entry in 0..256 {
        index.insert(key(1, entry), place(0, 1028))?;
    }
    Ok(())
}

#[test]
fn full_pages_are_split_and_empty_ones_go(rt: HostRuntime) -> Result<(), Fail> {
    let mut index = Index::new(rt.alloc());
    assert!(rt; has_pages(&index, &[]));
    fill_page(&mut index)?;
    assert!(rt; has_pages(&index, &[256]));
    index.insert(key(1, 256), place(0, 1028))?;
    assert!(rt; has_pages(&index, &[128, 129]));
    index.insert(key(0, 5), place(0, 1028))?;
    assert!(rt; has_pages(&index, &[129, 129]));
    assert_eq!(rt; index.drop_ledger(1), 257);
    assert!(rt; has_pages(&index, &[1]));
    assert_eq!(rt; index.drop_ledger(0), 1);
    assert!(rt; has_pages(&index, &[]));
    assert_eq!(rt; index.get(&key(1, 0)), None);
    Ok(())
}

// Greatest id: the large index has nine ledgers, the last with this id, and entries from this id
// downwards.
const LAST_ID: u64 = (1 << 63) - 1;

const LEDGERS: u64 = 9;

const ENTRIES: u64 = 1000;

fn fill(index: &mut Index) -> Result<(), AllocError> {
    for entry in 0..ENTRIES {
        for ledger in 0..LEDGERS {
            let to = place((ledger % 3) as u32, u32::MAX);
            index.insert(key(LAST_ID - ledger, LAST_ID - entry), to)?;
        }
    }
    Ok(())
}

fn entries_in_pages(index: &Index) -> usize {
    let pages = index.as_pages();
    let mut entries = 0usize;
    for number in 0..pages.len() {
        entries = entries.saturating_add(pages.page_len(number).unwrap_or(0));
    }
    entries
}

// Pages become empty in the middle, then at both ends.
const DROPPED: [u64; 4] = [LAST_ID - 4, LAST_ID - 3, LAST_ID - 8, LAST_ID];

// Whether each of these ledgers had all its entries.
fn drops_all(index: &mut Index) -> bool {
    for ledger in &DROPPED {
        if index.drop_ledger(*ledger) != ENTRIES {
            return false;
        }
    }
    true
}

#[test]
fn thousands_of_keys_are_held_and_dropped(rt: HostRuntime) -> Result<(), Fail> {
    let mut index = Index::new(rt.alloc());
    fill(&mut index)?;
    let counts = (index.len(), entries_in_pages(&index), index.count_in(1));
    assert_eq!(rt; counts, (9000, 9000, 3000));
    assert!(rt; drops_all(&mut index));
    assert_eq!(rt; (index.len(), entries_in_pages(&index)), (5000, 5000));
    let held = index.get(&key(LAST_ID - 1, LAST_ID - 999));
    assert_eq!(rt; held, Some(place(1, u32::MAX)));
    assert_eq!(rt; index.get(&key(LAST_ID - 3, LAST_ID)), None);
    Ok(())
}
