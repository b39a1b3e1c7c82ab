//! Every prefix and every changed byte of a sealed log of three records is read to its end, with
//! one of the listed outcomes.

ghost use Rattle.std.specs.Prelude.{◌<◌};

use super::{HEAD, log_of, place, view_of};
use bk_disk::{LogView, MemView};
use bk_log::{ScanFault, Scanner, fetch};
use std::alloc::Global;
use std::process::Abort;

/// Three records, of 25, 20 and 24 bytes, which end at 1049, 1069 and 1093, and a map of two
/// ledgers, which ends at 1149.
const RECORDS: [u8; 125] = *b"\0\0\0\x15\0\0\0\0\0\0\0\x01\0\0\0\0\0\0\0\0hello\
\0\0\0\x10\0\0\0\0\0\0\0\x02\0\0\0\0\0\0\0\0\
\0\0\0\x14\0\0\0\0\0\0\0\x01\0\0\0\0\0\0\0\x01abcd\
\0\0\0\x34\xff\xff\xff\xff\xff\xff\xff\xff\xff\xff\xff\xff\xff\xff\xff\xfe\0\0\0\x02\
\0\0\0\0\0\0\0\x01\0\0\0\0\0\0\0\x31\0\0\0\0\0\0\0\x02\0\0\0\0\0\0\0\x14";

/// Outcome of a scan of a whole view.
#[derive(Clone, Copy, Debug, PartialEq, Eq)]
pub(super) struct Scanned {
    pub(super) entries: u32,
    pub(super) foreign: u64,
    pub(super) torn: u64,
    pub(super) fault: Option<ScanFault>,
}

/// Scans a view to its end or to an error, and fetches every entry that it finds.
pub(super) fn scan(rt: &impl Abort, alloc: Global, view: &MemView) -> Scanned {
    let mut scanner = Scanner::new(view, alloc, 1024, view.end());
    let mut entries = 0u32;
    while let Ok(Some(entry)) = scanner.next() {
        let at = u32::try_from(entry.at).expect(rt, "a place");
        let payload = fetch(view, alloc, place(rt, at), entry.key).expect(rt, "an entry");
        assert_eq!(rt; payload.len().saturating_add(4), entry.size as usize);
        entries = entries.saturating_add(1);
    }
    Scanned {
        entries,
        foreign: scanner.foreign(),
        torn: scanner.torn(),
        fault: scanner.next().err(),
    }
}

/// How a byte is changed, and how many changes of the 125 bytes after the header have each outcome:
/// three entries and one foreign record; an entry that became foreign; torn bytes; a length below
/// 16.
#[derive(Clone, Copy)]
struct Change {
    kept: u8,
    flipped: u8,
    counts: [u32; 4],
}

/// The highest bit of a length makes it negative, and any other that the two changes set makes it
/// too great; the highest bit of an entry's id makes the record foreign. The lowest bit of a length
/// makes the next record begin too early or too late.
static CHANGES: [Change; 3] = [
    Change {
        kept: 0xff,
        flipped: 0x80,
        counts: [103, 6, 12, 4],
    },
    Change {
        kept: 0,
        flipped: 0xff,
        counts: [103, 6, 12, 4],
    },
    Change {
        kept: 0xff,
        flipped: 1,
        counts: [109, 0, 16, 0],
    },
];

/// Index of a scan's outcome in that list, 4 if it has none of these.
fn outcome_of(scanned: Scanned) -> usize
    ensures { result < 5 }
{
    match (scanned.fault, scanned.entries, scanned.foreign) {
        (None, 3, 1) if scanned.torn == 0 => 0,
        (None, 2, 2) if scanned.torn == 0 => 1,
        (None, _, _) if scanned.torn > 0 => 2,
        (Some(ScanFault::BadLength { .. }), _, _) => 3,
        _ => 4,
    }
}

#[test]
fn every_prefix_is_read_to_its_end(rt: HostRuntime) {
    let log = log_of(&rt, rt.alloc(), &HEAD, &RECORDS);
    for length in 0..1150 {
        let (entries, end) = match length {
            0..1024 => (0, length),
            1024..1049 => (0, 1024),
            1049..1069 => (1, 1049),
            1069..1093 => (2, 1069),
            1093..1149 => (3, 1093),
            _ => (3, 1149),
        };
        let bytes = log.get(..length).expect(&rt, "a shorter log");
        let want = Scanned {
            entries,
            foreign: u64::from(length == 1149),
            torn: (length - end) as u64,
            fault: None,
        };
        assert_eq!(rt;
            scan(&rt, rt.alloc(), &view_of(&rt, rt.alloc(), bytes)),
            want
        );
    }
}

#[test]
fn every_changed_byte_has_an_outcome(rt: HostRuntime) {
    for change in &CHANGES {
        let mut counts = [0u32; 5];
        for at in 0..125 {
            let mut records = RECORDS;
            records[at] = (records[at] & change.kept) ^ change.flipped;
            let log = log_of(&rt, rt.alloc(), &HEAD, &records);
            let scanned = scan(&rt, rt.alloc(), &view_of(&rt, rt.alloc(), &log));
            let count = &mut counts[outcome_of(scanned)];
            *count = count.saturating_add(1);
        }
        assert_eq!(rt; counts[..4], change.counts[..]);
    }
}
