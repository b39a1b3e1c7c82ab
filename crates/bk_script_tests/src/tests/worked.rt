//! Scripts with the answer of each line, written by hand.

use super::{DEFAULTS, is_shown, run_from};
use bk_drive::Settings;
use std::alloc::{AllocError, Global};
use std::test::Fail;

/// The lines of a script with their answers.
type Worked = &'static [(&'static str, &'static str)];

/// An entry is read from the cache, then from its log.
const READ: Worked = &[
    ("add 1 0 hello", "accepted"),
    ("take 0 1 0", "cached 68656c6c6f"),
    ("swap", "swapped 1"),
    ("write", "wrote 1028"),
    ("publish", "published 1"),
    ("take 0 1 0", "leased 1028"),
    ("fetch 0", "bytes 68656c6c6f"),
    ("fetch 0", "bytes 68656c6c6f"),
    ("release 0", "released"),
    ("roll", "sealed 0"),
    ("roll", "nothing open"),
    ("take 0 1 0", "leased 1028"),
    ("fetch 0", "bytes 68656c6c6f"),
];

/// A key is held in the cache, in the flush and in its log.
const HELD: Worked = &[
    ("add 1 0 a", "accepted"),
    ("add 1 0 b", "held"),
    ("pad 2 0 80", "accepted"),
    ("swap", "swapped 2"),
    ("add 1 0 b", "held"),
    ("write", "wrote 1028"),
    ("write", "wrote 1049"),
    ("write", "all written"),
    ("publish", "published 2"),
    ("add 1 0 b", "held"),
    ("roll", "sealed 0"),
    ("pad 1 0 1", "held"),
];

/// A running flush keeps its entries cached and its log open.
const FLUSHING: Worked = &[
    ("add 1 0 a", "accepted"),
    ("add 1 1 b", "accepted"),
    ("swap", "swapped 2"),
    ("write", "wrote 1028"),
    ("take 0 1 0", "cached 61"),
    ("take 0 1 1", "cached 62"),
    ("swap", "running"),
    ("roll", "flush running"),
    ("publish", "not all written"),
    ("take 0 9 9", "not held"),
];

/// A payload has at most 5,000,000 bytes.
const LONGEST: Worked = &[
    ("pad 1 0 1048560", "accepted"),
    ("pad 1 1 1048561", "accepted"),
    ("pad 1 2 4999984", "accepted"),
    ("pad 1 3 4999985", "fault too long 5000001"),
    ("take 0 1 3", "not held"),
    ("pad 1 3 0", "accepted"),
];

/// Each reader holds its own lease.
const READERS: Worked = &[
    ("add 1 0 hello", "accepted"),
    ("swap", "swapped 1"),
    ("write", "wrote 1028"),
    ("publish", "published 1"),
    ("fetch 0", "no lease"),
    ("release 0", "no lease"),
    ("take 3 1 0", "leased 1028"),
    ("fetch 0", "no lease"),
    ("release 0", "no lease"),
    ("take 3 1 0", "reader busy"),
    ("take 2 1 0", "leased 1028"),
    ("release 3", "released"),
    ("release 3", "no lease"),
    ("fetch 3", "no lease"),
    ("fetch 2", "bytes 68656c6c6f"),
    ("take 3 1 0", "leased 1028"),
];

/// A fetch returns the data after the ids.
const DATA: Worked = &[
    ("add 1 0", "accepted"),
    ("pad 1 1 2", "accepted"),
    ("swap", "swapped 2"),
    ("write", "wrote 1028"),
    ("write", "wrote 1048"),
    ("publish", "published 2"),
    ("take 0 1 0", "leased 1028"),
    ("take 1 1 1", "leased 1048"),
    ("fetch 0", "bytes -"),
    ("fetch 1", "bytes 0000"),
];

/// A deletion removes a ledger from the cache, from a flush and from the logs. The ledger stays
/// deleted.
const DELETED: Worked = &[
    ("add 1 0 hello", "accepted"),
    ("swap", "swapped 1"),
    ("write", "wrote 1028"),
    ("delete 1", "dropped 1"),
    ("take 0 1 0", "deleted"),
    ("publish", "published 0"),
    ("delete 1", "fault already deleted"),
    ("add 1 1 x", "fault deleted"),
    ("publish", "no flush"),
];

/// A lease granted before a deletion still reads.
const DELETED_UNDER_A_LEASE: Worked = &[
    ("add 1 0 hello", "accepted"),
    ("swap", "swapped 1"),
    ("write", "wrote 1028"),
    ("publish", "published 1"),
    ("take 0 1 0", "leased 1028"),
    ("delete 1", "dropped 1"),
    ("fetch 0", "bytes 68656c6c6f"),
    ("take 0 1 0", "reader busy"),
    ("take 1 1 0", "deleted"),
    ("release 0", "released"),
    ("fetch 0", "no lease"),
];

/// A deletion counts each entry of its ledger once and leaves other ledgers unchanged.
const DELETED_EVERYWHERE: Worked = &[
    ("add 1 0 a", "accepted"),
    ("add 2 0 b", "accepted"),
    ("swap", "swapped 2"),
    ("write", "wrote 1028"),
    ("write", "wrote 1049"),
    ("publish", "published 2"),
    ("add 1 1 c", "accepted"),
    ("swap", "swapped 1"),
    ("add 1 2 d", "accepted"),
    ("delete 1", "dropped 3"),
    ("take 0 1 2", "deleted"),
    ("take 0 2 0", "leased 1049"),
    ("delete 9223372036854775807", "dropped 0"),
    ("take 1 9223372036854775807 0", "deleted"),
];

/// The active cache has room for 100 payload bytes. A held entry needs no room.
const FULL_CACHE: Worked = &[
    ("pad 1 0 44", "accepted"),
    ("pad 1 1 24", "accepted"),
    ("add 1 2", "fault full 100 100"),
    ("pad 1 0 9", "held"),
    ("swap", "swapped 2"),
    ("add 1 2", "accepted"),
];

/// The entry flushed last is read from memory, the one before it from its log.
const RECENT: Worked = &[
    ("add 1 0 a", "accepted"),
    ("add 1 1 b", "accepted"),
    ("swap", "swapped 2"),
    ("write", "wrote 1028"),
    ("write", "wrote 1049"),
    ("publish", "published 2"),
    ("take 0 1 1", "cached 62"),
    ("take 0 1 0", "leased 1028"),
];

/// Ledger 9 was deleted before the first step.
const DEAD_FROM_THE_START: Worked = &[
    ("add 9 0 x", "fault deleted"),
    ("take 0 9 0", "deleted"),
    ("delete 9", "fault already deleted"),
    ("add 8 0 x", "accepted"),
    ("take 0 8 0", "cached 78"),
];

/// Steps of a flush without a flush.
const NO_FLUSH: Worked = &[
    ("publish", "no flush"),
    ("write", "no flush"),
    ("swap", "nothing"),
    ("roll", "nothing open"),
];

/// A second log is refused, and its entry stays cached.
const NO_SECOND_LOG: Worked = &[
    ("add 1 0 hello", "accepted"),
    ("swap", "swapped 1"),
    ("write", "wrote 1028"),
    ("publish", "published 1"),
    ("roll", "sealed 0"),
    ("add 1 1 b", "accepted"),
    ("swap", "swapped 1"),
    ("write", "fault logs full"),
    ("take 0 1 1", "cached 62"),
    ("write", "fault logs full"),
    ("publish", "not all written"),
    ("take 0 1 0", "leased 1028"),
    ("fetch 0", "bytes 68656c6c6f"),
];

/// A record past the log limit goes to the next log. Two records of 500 bytes fill a log to 2024
/// bytes.
const NEXT_LOG: Worked = &[
    ("pad 1 0 480", "accepted"),
    ("pad 1 1 480", "accepted"),
    ("pad 1 2 480", "accepted"),
    ("swap", "swapped 3"),
    ("write", "wrote 1028"),
    ("write", "wrote 1528"),
    ("write", "wrote 4294968324"),
    ("retire 0", "in use"),
    ("retire 1", "in use"),
    ("retire 2", "no log"),
    ("publish", "published 3"),
    ("retire 0", "still named 2"),
    ("take 0 1 1", "leased 1528"),
    ("take 1 1 2", "leased 4294968324"),
    ("roll", "sealed 1"),
    ("roll", "nothing open"),
];

/// A key is read from where it was published, also after a rebuild. Entries that are written but
/// not published are read from the flush.
const REBUILT: Worked = &[
    ("add 1 0 a", "accepted"),
    ("add 1 1 b", "accepted"),
    ("swap", "swapped 2"),
    ("write", "wrote 1028"),
    ("rebuild", "rebuilt 0"),
    ("take 0 1 0", "cached 61"),
    ("write", "wrote 1049"),
    ("publish", "published 2"),
    ("rebuild", "rebuilt 2"),
    ("take 0 1 1", "leased 1049"),
    ("roll", "sealed 0"),
    ("retire 0", "still named 2"),
    ("delete 1", "dropped 2"),
    ("retire 0", "retired 0"),
    ("retire 0", "retired 0"),
    ("rebuild", "rebuilt 0"),
    ("fetch 0", "bytes 62"),
];

/// A leased log is not closed, and a closed log stays closed.
const CLOSED: Worked = &[
    ("add 1 0 hello", "accepted"),
    ("swap", "swapped 1"),
    ("write", "wrote 1028"),
    ("publish", "published 1"),
    ("take 0 1 0", "leased 1028"),
    ("take 1 1 0", "leased 1028"),
    ("roll", "sealed 0"),
    ("close 0", "not retired"),
    ("close 1", "no log"),
    ("delete 1", "dropped 1"),
    ("retire 0", "retired 0"),
    ("close 0", "leased 2"),
    ("release 1", "released"),
    ("close 0", "leased 1"),
    ("fetch 0", "bytes 68656c6c6f"),
    ("release 0", "released"),
    ("close 0", "closed"),
    ("close 0", "closed"),
    ("retire 0", "retired 0"),
    ("rebuild", "rebuilt 0"),
];

/// The log has at most one lease at a time.
const LEASED_ONCE: Worked = &[
    ("add 1 0 hello", "accepted"),
    ("swap", "swapped 1"),
    ("write", "wrote 1028"),
    ("publish", "published 1"),
    ("take 0 1 0", "leased 1028"),
    ("take 1 1 0", "fault too many leases"),
    ("take 1 9 9", "not held"),
    ("release 0", "released"),
    ("take 1 1 0", "leased 1028"),
];

/// A log may reach the log limit exactly. The first record fills it to 1524 bytes, the second to
/// 2048; the third alone exceeds the limit.
const FULL_LOG: Worked = &[
    ("pad 1 0 480", "accepted"),
    ("pad 1 1 504", "accepted"),
    ("pad 1 2 2000", "accepted"),
    ("pad 1 3 0", "accepted"),
    ("swap", "swapped 4"),
    ("write", "wrote 1028"),
    ("write", "wrote 1528"),
    ("write", "wrote 4294968324"),
    ("write", "wrote 8589935620"),
    ("publish", "published 4"),
];

/// Returns whether each of these lines has its answer, on a store with these settings and deleted
/// ledgers.
fn are_answered(
    alloc: Global,
    settings: Settings,
    dead: &[u64],
    steps: &[(&str, &str)],
) -> Result<bool, AllocError> {
    let (script, output) = texts_of(alloc, steps)?;
    let shown = run_from(alloc, settings, dead, &mut script.as_bytes());
    Ok(is_shown(&shown, 0, &output, ""))
}

/// Returns the script of these lines and its output.
pub(super) fn texts_of(
    alloc: Global,
    steps: &[(&str, &str)],
) -> Result<(String, String), AllocError> {
    let mut script = String::new(alloc);
    let mut output = String::new(alloc);
    for (line, answer) in steps {
        push_line(&mut script, line)?;
        push_line(&mut output, answer)?;
    }
    Ok((script, output))
}

/// Appends a line to a text.
pub(super) fn push_line(text: &mut String, line: &str) -> Result<(), AllocError> {
    text.push_str(line)?;
    text.push('\n')?;
    Ok(())
}

/// One slot, so one log.
const ONE_SLOT: Settings = Settings {
    slots: 1,
    ..DEFAULTS
};

const SHORT_LOGS: Settings = Settings {
    log_limit: 2048,
    ..DEFAULTS
};

const SMALL_CACHE: Settings = Settings {
    cache_limit: 100,
    ..DEFAULTS
};

/// One lease per log.
const ONE_LEASE: Settings = Settings {
    leases: 1,
    ..DEFAULTS
};

/// The entry flushed last is kept in memory.
const ONE_RECENT: Settings = Settings {
    recent: 1,
    ..DEFAULTS
};

/// Scripts, with the settings of their stores and the ledgers deleted earlier.
pub(super) static SCRIPTS: [(Settings, &[u64], Worked); 20] = [
    (DEFAULTS, &[], READ),
    (DEFAULTS, &[], HELD),
    (DEFAULTS, &[], FLUSHING),
    (DEFAULTS, &[], LONGEST),
    (DEFAULTS, &[], READERS),
    (DEFAULTS, &[], DATA),
    (DEFAULTS, &[], DELETED),
    (DEFAULTS, &[], DELETED_UNDER_A_LEASE),
    (DEFAULTS, &[], DELETED_EVERYWHERE),
    (DEFAULTS, &[], NO_FLUSH),
    (DEFAULTS, &[], REBUILT),
    (DEFAULTS, &[], CLOSED),
    (ONE_LEASE, &[], LEASED_ONCE),
    (ONE_SLOT, &[], NO_SECOND_LOG),
    (SHORT_LOGS, &[], NEXT_LOG),
    (SHORT_LOGS, &[], FULL_LOG),
    (SMALL_CACHE, &[], FULL_CACHE),
    (ONE_RECENT, &[], RECENT),
    (DEFAULTS, &[9, 9], DEAD_FROM_THE_START),
    (DEFAULTS, &[7, 9], DEAD_FROM_THE_START),
];

#[test]
fn scripts_are_answered_as_written(rt: HostRuntime) -> Result<(), Fail> {
    for (number, (settings, dead, steps)) in SCRIPTS.iter().enumerate() {
        let answered = are_answered(rt.alloc(), *settings, dead, steps)?;
        assert!(rt; answered, "script {number}");
    }
    Ok(())
}
