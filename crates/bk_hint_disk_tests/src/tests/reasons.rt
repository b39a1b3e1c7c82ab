//! Each reason against a hint: hints with a good checksum that are not those of the log, faults of
//! the store, and the text of each reason.

use super::logs::{Opened, SMALL, SMALL_LOG, open_small, small_hint};
use super::loose::LooseHints;
use bk_hint::{Contents, HintFault, LogFacts, decode, encode};
use bk_hint_disk::{HintStoreFault, Hints, Unused, WhyNot};
use bk_record::Key;
use std::alloc::Global;
use std::process::Abort;
use std::test::Fail;

/// An entry as a hint lists it: ledger id, entry id, position of the payload, size of the record.
type Listing = (u64, u64, u64, u32);

/// The entries of the small log.
const TRUE: [Listing; 3] = [(1, 0, 1028, 24), (1, 1, 1052, 24), (2, 9, 1076, 20)];

/// A hint of the small log, and what comes of it.
#[derive(Clone, Copy)]
struct Row {
    log: u32,
    length: u64,
    /// Bits of the checksum of header and ledgers map that are flipped.
    flip: u32,
    entries: &'static [Listing],
    is_sealed: bool,
    opened: Opened,
}

/// The hint of the small log.
const GOOD: Row = Row {
    log: 7,
    length: 1148,
    flip: 0,
    entries: &TRUE,
    is_sealed: true,
    opened: Opened::ByHint,
};

/// Hints with these entries that have the log's ledgers map, and are refused for its records.
const OTHER_RECORDS: [&[Listing]; 5] = [
    &[(1, 5, 1028, 24), (1, 1, 1052, 24), (2, 9, 1076, 20)],
    &[(1, 0, 1028, 24), (1, 1, 1052, 24), (2, 8, 1076, 20)],
    &[(1, 1, 1028, 24), (1, 0, 1052, 24), (2, 9, 1076, 20)],
    &[(2, 9, 1028, 20), (1, 0, 1048, 24), (1, 1, 1072, 24)],
    &[(1, 0, 1028, 20), (1, 1, 1048, 28), (2, 9, 1076, 20)],
];

/// Hints with these entries that are not those of the ledgers map.
const OTHER_MAP: [&[Listing]; 5] = [
    &[],
    &[(1, 0, 1028, 24), (1, 1, 1052, 24)],
    &[(1, 0, 1028, 24), (2, 9, 1076, 20)],
    &[(1, 0, 1028, 24), (1, 1, 1052, 24), (3, 9, 1076, 20)],
    &[(1, 0, 1028, 24), (1, 1, 1052, 20), (2, 9, 1076, 20)],
];

/// Hints with other facts, or with entries behind the ledgers map.
const OTHER_FACTS: [Row; 7] = [
    GOOD,
    Row {
        log: 8,
        opened: Opened::Without(WhyNot::OtherLog(8)),
        ..GOOD
    },
    Row {
        length: 1149,
        opened: Opened::Without(WhyNot::OtherLength(1149)),
        ..GOOD
    },
    Row {
        flip: 1,
        opened: Opened::Without(WhyNot::OtherChecksum),
        ..GOOD
    },
    Row {
        length: 1092,
        is_sealed: false,
        opened: Opened::Without(WhyNot::NotSealed),
        ..GOOD
    },
    Row {
        entries: &[
            (1, 0, 1028, 24),
            (1, 1, 1052, 24),
            (2, 9, 1076, 20),
            (2, 10, 1096, 20),
        ],
        opened: Opened::Without(WhyNot::PastMap),
        ..GOOD
    },
    Row {
        entries: &[(1, 0, 1028, 24), (1, 1, 1052, 24), (2, 9, 1077, 20)],
        opened: Opened::Without(WhyNot::PastMap),
        ..GOOD
    },
];

/// Returns the hint of a row. The checksum of header and ledgers map is the log's.
fn encoded(alloc: Global, row: &Row) -> Option<Vec<u8>> {
    let (_, facts) = decode(alloc, &small_hint(alloc, &SMALL)?).ok()?;
    let mut contents = Contents::new(alloc);
    for (ledger, id, at, size) in row.entries {
        let key = Key::new(*ledger, *id)?;
        if !contents.can_push(*at, *size) {
            return None;
        }
        contents.push(key, *at, *size).ok()?;
    }
    let facts = LogFacts {
        log: row.log,
        length: row.length,
        checksum: facts.checksum ^ row.flip,
    };
    encode(alloc, &contents, &facts).ok()
}

/// Opens the small log with the hint of a row.
fn opened(alloc: Global, row: &Row) -> Opened {
    let mut hints = LooseHints::new(alloc);
    let Some(hint) = encoded(alloc, row) else {
        return Opened::Wrong;
    };
    match hints.put(alloc, u32::from(SMALL_LOG), &hint) {
        Ok(()) => open_small(alloc, hints, row.is_sealed),
        Err(_) => Opened::Wrong,
    }
}

#[test]
fn each_hint_is_refused_for_its_reason(rt: HostRuntime) -> Result<(), Fail> {
    let alloc = rt.alloc();
    for (number, row) in OTHER_FACTS.iter().enumerate() {
        assert_eq!(rt; opened(alloc, row), row.opened, "facts {number}");
    }
    for (number, entries) in OTHER_MAP.iter().enumerate() {
        let row = Row {
            entries: *entries,
            ..GOOD
        };
        assert_eq!(rt;
            opened(alloc, &row),
            Opened::Without(WhyNot::OtherMap),
            "map {number}"
        );
    }
    for (number, entries) in OTHER_RECORDS.iter().enumerate() {
        let row = Row {
            entries: *entries,
            ..GOOD
        };
        assert_eq!(rt;
            opened(alloc, &row),
            Opened::Without(WhyNot::OtherRecords),
            "records {number}"
        );
    }
    Ok(())
}

/// The longest file that is no hint of a log for its length.
const TOO_LONG: u64 = 7_000_000_000;

/// Faults of a store of hints, and the reasons that they are.
const FAULTS: [(HintStoreFault, WhyNot); 4] = [
    (HintStoreFault::Memory, WhyNot::Memory),
    (HintStoreFault::Disk, WhyNot::Disk),
    (HintStoreFault::NotPlain, WhyNot::NotPlain),
    (
        HintStoreFault::TooLong(TOO_LONG),
        WhyNot::Damaged(HintFault::Length(TOO_LONG)),
    ),
];

#[test]
fn a_hint_that_cannot_be_read_is_reported(rt: HostRuntime) -> Result<(), Fail> {
    let alloc = rt.alloc();
    for (fault, why) in FAULTS {
        let mut hints = LooseHints::new(alloc);
        hints.fail(1, fault);
        assert_eq!(rt; open_small(alloc, hints, true), Opened::Without(why));
    }
    Ok(())
}

/// Reasons, and what is printed of a hint of log 5.
const TEXTS: [(WhyNot, &str); 11] = [
    (
        WhyNot::Damaged(HintFault::Checksum),
        "hint of log 5 not used: bad hint checksum",
    ),
    (
        WhyNot::OtherLog(31),
        "hint of log 5 not used: hint of log 31",
    ),
    (
        WhyNot::OtherLength(123),
        "hint of log 5 not used: hint of a log of 123 bytes",
    ),
    (
        WhyNot::OtherChecksum,
        "hint of log 5 not used: hint of another header or ledgers map",
    ),
    (WhyNot::NotSealed, "hint of log 5 not used: log not sealed"),
    (
        WhyNot::PastMap,
        "hint of log 5 not used: hint past the ledgers map",
    ),
    (
        WhyNot::OtherMap,
        "hint of log 5 not used: hint of another ledgers map",
    ),
    (
        WhyNot::OtherRecords,
        "hint of log 5 not used: hint of other records",
    ),
    (
        WhyNot::NotPlain,
        "hint of log 5 not used: hint is no plain file",
    ),
    (WhyNot::Memory, "hint of log 5 not used: memory"),
    (WhyNot::Disk, "hint of log 5 not used: disk"),
];

#[test]
fn each_reason_is_printed(rt: HostRuntime) -> Result<(), Fail> {
    for (why, text) in TEXTS {
        let unused = Unused { log: 5, why };
        let printed = format!(in rt.alloc(); "{unused}")?;
        assert_eq!(rt; printed.as_str(), text);
    }
    Ok(())
}
