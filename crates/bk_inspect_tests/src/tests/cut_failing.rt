//! Logs in memory whose torn end is cut while a call of a device fails.

use super::cut::{CUT_AND_SEALED, ENDS, is_kept};
use super::cut_mem::{Failing, Left, NONE, cut, file_of};
use super::{HELLO, HELLO_AND_MAP, OPEN, SEALED};
use std::test::Fail;

/// Whether a cut that a failing device ended has lost nothing: up to the cut the log has its bytes, and from the cut on its copy
/// has them, which was synced.
fn is_all_there(left: &Left, before: &[u8]) -> bool {
    let is_asked_for_a_cut = left.on_disk.contains("cut");
    left.status == 1
        && left.told.ends_with(b"fault disk\n")
        && if is_asked_for_a_cut {
            is_kept(left, before)
        } else {
            left.log.as_slice() == before
        }
}

/// Both kinds of a call that fails.
const KINDS: [bool; 2] = [false, true];

/// How many calls those of `CUT_AND_SEALED` are; the log is cut by the fifth.
const DISK_CALLS: u8 = 13;

#[test]
fn a_disk_of_which_a_call_fails_loses_nothing(rt: HostRuntime) -> Result<(), Fail> {
    let alloc = rt.alloc();
    for end in &ENDS {
        let before = file_of(alloc, OPEN, HELLO, end)?;
        for is_done in KINDS {
            for call in 1..=DISK_CALLS {
                let left = cut(alloc, &before, Failing { call, is_done }, NONE)?;
                assert!(rt;
                    is_all_there(&left, &before),
                    "{end:?}, call {call}, {is_done}"
                );
                assert!(rt; left.on_disk.contains("cut") == (call > 4), "call {call}");
            }
        }
    }
    Ok(())
}

/// The calls of a disk on which the header is cleared too.
const CLEARED_AND_SEALED: &str =
    "length read_at view read_at cut patch sync length read_at view append sync length patch sync ";

#[test]
fn a_disk_of_which_a_call_fails_while_a_header_is_cleared_loses_nothing(
    rt: HostRuntime,
) -> Result<(), Fail> {
    let alloc = rt.alloc();
    let before = file_of(alloc, SEALED, HELLO, &[0; 40])?;
    let left = cut(alloc, &before, NONE, NONE)?;
    assert!(rt; left.status == 0 && is_kept(&left, &before));
    assert!(rt; left.on_disk.as_str() == CLEARED_AND_SEALED);
    assert!(rt; left.log == file_of(alloc, SEALED, HELLO_AND_MAP, b"")?);
    for is_done in KINDS {
        for call in 1..=DISK_CALLS + 2 {
            let left = cut(alloc, &before, Failing { call, is_done }, NONE)?;
            assert!(rt; is_all_there(&left, &before), "call {call}, {is_done}");
        }
    }
    Ok(())
}

/// The calls of a place of which one fails: a copy that is looked for, a draft that is begun, that gets its bytes, that is kept. A
/// part of it is removed.
const ASIDE_CALLS: [(u8, &str); 4] = [
    (1, "length "),
    (2, "length begin "),
    (3, "length begin append discard "),
    (4, "length begin append keep discard "),
];

#[test]
fn a_copy_that_is_not_kept_is_removed_and_the_log_is_not_cut(rt: HostRuntime) -> Result<(), Fail> {
    let alloc = rt.alloc();
    for end in &ENDS {
        let before = file_of(alloc, OPEN, HELLO, end)?;
        for is_done in KINDS {
            for (call, names) in &ASIDE_CALLS {
                let failing = Failing {
                    call: *call,
                    is_done,
                };
                let left = cut(alloc, &before, NONE, failing)?;
                assert!(rt;
                    is_all_there(&left, &before),
                    "{end:?}, call {call}, {is_done}"
                );
                assert!(rt;
                    !left.on_disk.contains("cut"),
                    "{end:?}, call {call}, {is_done}"
                );
                assert!(rt;
                    left.on_aside.as_str() == *names,
                    "{end:?}, call {call}, {is_done}"
                );
                // A draft whose keeping is done all the same is a whole copy, and one that was begun all the same is empty.
                let is_kept = *call == 4 && is_done;
                let is_begun = *call == 2 && is_done;
                assert!(rt; left.copy.is_empty() != is_kept, "{end:?}, call {call}");
                assert!(rt; left.is_drafted == is_begun, "{end:?}, call {call}");
            }
        }
    }
    Ok(())
}

#[test]
fn a_cut_that_is_told_as_failed_can_be_gone_on_with(rt: HostRuntime) -> Result<(), Fail> {
    let alloc = rt.alloc();
    let before = file_of(alloc, OPEN, HELLO, b"\0\0")?;
    let failing = Failing {
        call: 5,
        is_done: true,
    };
    let left = cut(alloc, &before, failing, NONE)?;
    assert!(rt; left.status == 1 && is_kept(&left, &before));
    let again = cut(alloc, &left.log, NONE, NONE)?;
    assert!(rt; again.status == 0 && again.on_aside.is_empty());
    assert!(rt; again.log == file_of(alloc, SEALED, HELLO_AND_MAP, b"")?);
    Ok(())
}
