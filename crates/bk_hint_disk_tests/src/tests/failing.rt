//! A store of hints whose calls fail in turn: the answers are those of the logs, and after a drop
//! that failed no hint is believed.

use super::logs::{SETTINGS, has_made, hint, make};
use super::loose::LooseHints;
use bk_disk::{LogDisk, MemDisk};
use bk_hint_disk::{HintStoreFault, HintedDisk};
use bk_store::Store;
use std::alloc::Global;
use std::process::Abort;
use std::test::Fail;

/// A disk with the logs of `make` and their hints, on which a call on the store of hints failed, or
/// is to fail.
fn made(
    alloc: Global,
    call: u64,
    fault: HintStoreFault,
) -> Option<HintedDisk<MemDisk, LooseHints>> {
    let mut hints = LooseHints::new(alloc);
    hints.fail(call, fault);
    let mut disk = HintedDisk::new(alloc, MemDisk::new(alloc), hints);
    make(alloc, &mut disk)?;
    let _ = hint(alloc, &mut disk);
    Some(disk)
}

/// Opens a store on these logs. Returns whether it has each entry.
fn opened(alloc: Global, call: u64, fault: HintStoreFault) -> Option<bool> {
    let disk = made(alloc, call, fault)?;
    let mut store = Store::open(alloc, disk, SETTINGS, &[]).ok()?;
    Some(has_made(alloc, &mut store))
}

#[test]
fn each_call_may_fail(rt: HostRuntime) -> Result<(), Fail> {
    let alloc = rt.alloc();
    for call in [0u64, 1, 4, 5, 7, 8, 9, 10, 11] {
        for fault in [HintStoreFault::Disk, HintStoreFault::Memory] {
            assert_eq!(rt; opened(alloc, call, fault), Some(true), "call {call}");
        }
    }
    Ok(())
}

/// Returns which of logs 1, 2 and 3 have a table, after log 5 was removed.
fn tables(alloc: Global, call: u64) -> Option<(bool, bool, bool)> {
    let mut disk = made(alloc, call, HintStoreFault::Disk)?;
    disk.remove(alloc, 5).ok()?;
    disk.list(alloc).ok()?;
    let one = disk.view(alloc, 1).ok()?.table.is_some();
    let two = disk.view(alloc, 2).ok()?.table.is_some();
    let three = disk.view(alloc, 3).ok()?.table.is_some();
    // Only the first view after a list has a table.
    if disk.view(alloc, 1).ok()?.table.is_some() {
        return None;
    }
    Some((one, two, three))
}

/// The call on the store of hints that fails, and which logs have a table then. Calls 1 to 4 drop the
/// hints of the logs that are made, 5 to 7 put hints, 8 drops that of the log that is removed, and 9
/// to 11 get hints.
const TABLES: [(u64, (bool, bool, bool)); 12] = [
    (0, (true, true, true)),
    (1, (false, false, false)),
    (2, (false, false, false)),
    (3, (false, false, false)),
    (4, (false, false, false)),
    // `hint` ends with the first put that fails.
    (5, (false, false, false)),
    (6, (true, false, false)),
    (7, (true, true, false)),
    (8, (false, false, false)),
    (9, (false, true, true)),
    (10, (true, false, true)),
    (11, (true, true, false)),
];

#[test]
fn after_a_failed_drop_no_hint_is_believed(rt: HostRuntime) -> Result<(), Fail> {
    let alloc = rt.alloc();
    for (call, expected) in TABLES {
        assert_eq!(rt; tables(alloc, call), Some(expected), "call {call}");
    }
    Ok(())
}
