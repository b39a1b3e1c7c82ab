//! Fetches of one entry.

use super::{HEAD, HELLO, HELLO_RECORD, key, log_of, place, view_of};
use bk_log::{FetchFault, fetch};
use std::process::Abort;

/// Places and ids of entries that are not there.
static MISSED: [(u32, u64); 6] = [
    (1028, 1),
    (1029, 0),
    (1032, 0),
    (1049, 0),
    (1053, 0),
    (4_294_967_295, 0),
];

#[test]
fn an_entry_is_fetched_by_its_place_and_key(rt: HostRuntime) {
    let alloc = rt.alloc();
    let view = view_of(&rt, alloc, &log_of(&rt, alloc, &HEAD, &HELLO_RECORD));
    let payload = fetch(&view, alloc, place(&rt, 1028), key(&rt, 1, 0)).expect(&rt, "an entry");
    assert_eq!(rt; payload.as_slice(), HELLO.as_slice());
    for (at, entry) in &MISSED {
        let missed = fetch(&view, alloc, place(&rt, *at), key(&rt, 1, *entry));
        assert_eq!(rt; missed.err(), Some(FetchFault::NotThere), "{at} {entry}");
    }
}
