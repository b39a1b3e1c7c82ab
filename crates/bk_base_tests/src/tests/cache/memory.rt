//! A refused add leaves the caches unchanged and can be made again.
//!
//! Run with one allocation refused, this test meets `Memory` once; run without, never.

use super::Answer::{Count, Memory, Nothing, Taken};
use super::Call::{Add, Find, Used};
use super::make;
use bk_cache::Caches;
use std::alloc::Global;
use std::test::Fail;

/// Adds an entry, again if memory was refused once, after a check that the refusal changed nothing.
/// Returns whether it is taken.
fn is_taken(alloc: Global, caches: &mut Caches, entry: u64) -> bool {
    let used = make(alloc, caches, Used);
    let added = make(alloc, caches, Add(1, entry, 9, 100));
    if added != Memory {
        return added == Taken;
    }
    make(alloc, caches, Used) == used
        && make(alloc, caches, Find(1, entry)) == Nothing
        && make(alloc, caches, Add(1, entry, 9, 100)) == Taken
}

#[test]
fn a_refused_allocation_leaves_the_caches_as_they_were(rt: HostRuntime) -> Result<(), Fail> {
    let mut caches = match Caches::new(rt.alloc(), 4000, 3) {
        Ok(caches) => caches,
        Err(_) => Caches::new(rt.alloc(), 4000, 3)?,
    };
    for entry in 0..40 {
        assert!(rt; is_taken(rt.alloc(), &mut caches, entry), "entry {entry}");
    }
    assert!(rt; make(rt.alloc(), &mut caches, Used) == Count(4000));
    Ok(())
}
