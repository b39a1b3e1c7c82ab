//! Hints of logs in memory.

use super::logs::{HINT, make, write};
use bk_disk::{FaultDisk, LogDisk, MemDisk};
use bk_hint_disk::{Hints, MakeFault, MemHints, WhyNot};
use bk_hint_folder::{HintState, Outcome, WrongHint, compare_hint, hint_log};
use std::alloc::Global;
use std::process::Abort;
use std::test::Fail;

#[test]
fn hints_are_made_once(rt: HostRuntime) -> Result<(), Fail> {
    let alloc = rt.alloc();
    let mut disk = MemDisk::new(alloc);
    assert!(rt; make(alloc, &mut disk).is_some());
    let mut hints = MemHints::new(alloc);
    static CASES: [(u32, Outcome, Outcome); 5] = [
        (1, Outcome::Made { bytes: HINT }, Outcome::Kept),
        (2, Outcome::Unsealed, Outcome::Unsealed),
        (3, Outcome::Made { bytes: HINT }, Outcome::Kept),
        (4, Outcome::Unsealed, Outcome::Unsealed),
        (5, Outcome::NoLog, Outcome::NoLog),
    ];
    for (log, first, then) in &CASES {
        assert_eq!(rt; hint_log(alloc, &mut disk, &mut hints, *log), Ok(*first));
        assert_eq!(rt; hint_log(alloc, &mut disk, &mut hints, *log), Ok(*then));
    }
    Ok(())
}

#[test]
fn states_of_hints(rt: HostRuntime) -> Result<(), Fail> {
    let alloc = rt.alloc();
    let mut disk = MemDisk::new(alloc);
    assert!(rt; make(alloc, &mut disk).is_some());
    let mut hints = MemHints::new(alloc);
    static BEFORE: [(u32, HintState); 4] = [
        (1, HintState::Missing),
        (2, HintState::Unsealed),
        (4, HintState::Unsealed),
        (5, HintState::NoLog),
    ];
    for (log, state) in &BEFORE {
        assert_eq!(rt;
            compare_hint(alloc, &mut disk, &mut hints, *log),
            Ok(*state)
        );
    }
    assert!(rt; hint_log(alloc, &mut disk, &mut hints, 1).is_ok());
    assert_eq!(rt;
        compare_hint(alloc, &mut disk, &mut hints, 1),
        Ok(HintState::Right)
    );
    // The hint of one log at another, at one that is open, and at one that is short.
    let hint = hints.get(alloc, 1).ok().flatten().expect(&rt, "a hint");
    for log in 2..5u32 {
        assert!(rt; hints.put(alloc, log, &hint).is_ok());
        assert_eq!(rt;
            compare_hint(alloc, &mut disk, &mut hints, log),
            Ok(HintState::Wrong(WrongHint::NotUsed(WhyNot::OtherLog(1))))
        );
    }
    // Such a hint is replaced where a log is sealed, and stays else.
    assert_eq!(rt;
        hint_log(alloc, &mut disk, &mut hints, 3),
        Ok(Outcome::Made { bytes: HINT })
    );
    assert_eq!(rt;
        hint_log(alloc, &mut disk, &mut hints, 2),
        Ok(Outcome::Unsealed)
    );
    assert_eq!(rt;
        compare_hint(alloc, &mut disk, &mut hints, 3),
        Ok(HintState::Right)
    );
    Ok(())
}

/// Returns the hints that are left if the call of this number of the disk fails while log 1 gets its
/// hint; and the answer.
fn failing(alloc: Global, call: u64) -> Option<(Result<Outcome, MakeFault>, bool)> {
    let mut disk = MemDisk::new(alloc);
    write(alloc, &mut disk, 1, 1, true)?;
    let mut disk = FaultDisk::new(disk, call, 0);
    let mut hints = MemHints::new(alloc);
    let answer = hint_log(alloc, &mut disk, &mut hints, 1);
    Some((answer, hints.get(alloc, 1).ok()?.is_some()))
}

#[test]
fn no_hint_before_the_log_is_synced(rt: HostRuntime) -> Result<(), Fail> {
    let alloc = rt.alloc();
    // The calls are: the read of the header, the view, and the sync.
    for call in 1..4u64 {
        assert_eq!(rt; failing(alloc, call), Some((Err(MakeFault::Disk), false)));
    }
    assert_eq!(rt;
        failing(alloc, 4),
        Some((Ok(Outcome::Made { bytes: HINT }), true))
    );
    Ok(())
}
