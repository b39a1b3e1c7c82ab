//! Scans of a view that knows the heads of records that stand one behind another.

use super::{HEAD, key, log_of, view_of};
use bk_disk::{DiskFault, LogView, MemView, RecordRun};
use bk_log::{Found, FoundRun, Scanner};
use bk_record::Key;
use std::alloc::Global;
use std::process::Abort;

/// A record: ledger id, entry id, number of bytes of data.
type Piece = (u64, u64, u32);

/// What a view says: position, ledger id, entry id, number of records, size of each in bytes.
type Said = (u64, u64, u64, u32, u32);

/// The greatest entry id.
const LAST: u64 = 0x7fff_ffff_ffff_ffff;

/// Entries of two ledgers, a record with a negative entry id, and two entries behind it.
static PIECES: [Piece; 12] = [
    (1, 0, 5),
    (1, 1, 5),
    (1, 2, 5),
    (1, 3, 5),
    (2, 7, 10),
    (2, 8, 10),
    (2, 9, 10),
    (1, 4, 5),
    (1, 5, 5),
    (1, u64::MAX, 0),
    (2, 10, 0),
    (2, 11, 0),
];

/// Runs of these records, from some positions.
static TRUE: [Said; 5] = [
    (1024, 1, 0, 4, 25),
    (1049, 1, 1, 3, 25),
    (1124, 2, 7, 3, 30),
    (1284, 2, 10, 2, 20),
    (1304, 2, 11, 1, 20),
];

/// Runs of the first seven records, from every position.
static ALL: [Said; 7] = [
    (1024, 1, 0, 4, 25),
    (1049, 1, 1, 3, 25),
    (1074, 1, 2, 2, 25),
    (1099, 1, 3, 1, 25),
    (1124, 2, 7, 3, 30),
    (1154, 2, 8, 2, 30),
    (1184, 2, 9, 1, 30),
];

/// The last entries of a ledger, and one of another ledger.
static ENDS: [Piece; 4] = [(1, LAST - 2, 5), (1, LAST - 1, 5), (1, LAST, 5), (2, 0, 5)];

/// Runs of no records, of too short and too long records, past the end of the part, and with an
/// entry id that is too great.
static FALSE: [Said; 9] = [
    (1049, 1, LAST - 1, 0, 25),
    (1049, 1, LAST - 1, 1, 0),
    (1049, 1, LAST - 1, 1, 3),
    (1049, 1, LAST - 1, 1, 19),
    (1049, 1, LAST - 1, 1, 0x8000_0004),
    (1049, 1, LAST - 1, u32::MAX, u32::MAX),
    (1049, 1, LAST - 1, 3, 25),
    (1099, 2, 0, 2, 25),
    (1099, 2, 0, u32::MAX, 25),
];

/// A view that knows what it is told, true or false, and fails every read unless `reads`.
#[derive(Drop)]
struct Knowing<'a> {
    whole: MemView,
    said: &'a [Said],
    reads: bool,
}

impl<'a> LogView for Knowing<'a> {
    ghost use Rattle.std.specs.Prelude.{false, []};

    ghost bytes = { λ _. [] };

    ghost honest = { λ _. false };

    ghost sound = { λ _. false };

    fn bounds(&self) {}

    fn end(&self) -> u64 {
        self.whole.end()
    }

    fn read_into(&self, at: u64, out: &mut [u8]) -> Result<(), DiskFault> {
        if !self.reads {
            return Err(DiskFault::Disk);
        }
        self.whole.read_into(at, out)
    }

    fn lend_run(&self, at: u64) -> Option<RecordRun> {
        for (place, ledger, entry, count, size) in self.said {
            if *place == at {
                return Some(RecordRun {
                    first: Key::new(*ledger, *entry)?,
                    count: *count,
                    size: *size,
                });
            }
        }
        None
    }
}

/// What a scan gave: the entries, the position and number of each run, and the counts.
#[derive(Drop)]
struct Seen {
    founds: Vec<Found>,
    runs: Vec<(u64, u32)>,
    foreign: u64,
    torn: u64,
}

impl Seen {
    fn add_run(&mut self, rt: &impl Abort, run: &FoundRun) {
        self.runs
            .push((run.first.at, run.count))
            .expect(rt, "memory");
        for place in 0..run.count {
            let behind = u64::from(place);
            let before = u64::from(run.first.size).saturating_mul(behind);
            let found = Found {
                key: key(
                    rt,
                    run.first.key.ledger(),
                    run.first.key.entry().saturating_add(behind),
                ),
                at: run.first.at.saturating_add(before),
                size: run.first.size,
            };
            self.founds.push(found).expect(rt, "memory");
        }
    }
}

/// Scans a log to its end, by `next` alone or by `next_run` first.
fn scan<V: LogView>(rt: &impl Abort, alloc: Global, view: &V, by_runs: bool) -> Seen {
    let mut seen = Seen {
        founds: Vec::new(alloc),
        runs: Vec::new(alloc),
        foreign: 0,
        torn: 0,
    };
    let mut scanner = Scanner::new(view, alloc, 1024, view.end().max(1024));
    for _ in 0..100 {
        if by_runs {
            if let Some(run) = scanner.next_run() {
                seen.add_run(rt, &run);
                continue;
            }
        }
        match scanner.next() {
            Ok(Some(found)) => seen.founds.push(found).expect(rt, "memory"),
            end => {
                assert_eq!(rt; end, Ok(None));
                break;
            }
        }
    }
    assert_eq!(rt; scanner.next_run(), None);
    seen.foreign = scanner.foreign();
    seen.torn = scanner.torn();
    seen
}

/// A log of these records, with `torn` behind them.
fn log_with(rt: &impl Abort, alloc: Global, pieces: &[Piece], torn: &[u8]) -> Vec<u8> {
    let mut bytes = log_of(rt, alloc, &HEAD, &[]);
    for (ledger, entry, data) in pieces {
        let length = data.saturating_add(16).to_be_bytes();
        for part in &[
            length.as_slice(),
            &ledger.to_be_bytes(),
            &entry.to_be_bytes(),
        ] {
            bytes.extend_from_slice(part).expect(rt, "memory");
        }
        let end = bytes.len().saturating_add(*data as usize);
        bytes.resize(end, b'x').expect(rt, "memory");
    }
    bytes.extend_from_slice(torn).expect(rt, "memory");
    bytes
}

/// A scan by runs gives the same as one of a view that knows nothing. Returns it.
fn same(rt: &impl Abort, alloc: Global, log: &[u8], said: &[Said], reads: bool) -> Seen {
    let plain = scan(rt, alloc, &view_of(rt, alloc, log), true);
    assert!(rt; plain.runs.is_empty());
    for by_runs in [false, true] {
        let view = Knowing {
            whole: view_of(rt, alloc, log),
            said,
            reads,
        };
        let seen = scan(rt, alloc, &view, by_runs);
        assert_eq!(rt; seen.founds.as_slice(), plain.founds.as_slice());
        assert_eq!(rt; (seen.foreign, seen.torn), (plain.foreign, plain.torn));
        if by_runs {
            return seen;
        }
        assert!(rt; seen.runs.is_empty());
    }
    plain
}

#[test]
fn runs_are_the_entries_that_next_gives(rt: HostRuntime) {
    let alloc = rt.alloc();
    let log = log_with(&rt, alloc, &PIECES, b"\0\0\0\x10\0\0\0");
    let seen = same(&rt, alloc, &log, &TRUE, true);
    assert_eq!(rt;
        seen.runs.as_slice(),
        [(1053, 3), (1128, 3), (1308, 1)].as_slice()
    );
    assert_eq!(rt; (seen.founds.len(), seen.foreign, seen.torn), (11, 1, 7));
}

#[test]
fn records_whose_heads_are_known_are_not_read(rt: HostRuntime) {
    let alloc = rt.alloc();
    let log = log_with(&rt, alloc, &PIECES[..7], b"");
    let seen = same(&rt, alloc, &log, &ALL, false);
    assert_eq!(rt; seen.runs.as_slice(), [(1053, 3), (1128, 3)].as_slice());
}

#[test]
fn runs_that_cannot_be_are_ignored(rt: HostRuntime) {
    let alloc = rt.alloc();
    let log = log_with(&rt, alloc, &ENDS, b"");
    for said in &FALSE {
        let seen = same(&rt, alloc, &log, &[*said], true);
        assert!(rt; seen.runs.is_empty(), "{said:?}");
        assert_eq!(rt; seen.founds.len(), 4);
    }
    let most = [(1049, 1, LAST - 1, 2, 25), (1099, 2, 0, 1, 25)];
    let seen = same(&rt, alloc, &log, &most, true);
    assert_eq!(rt; seen.runs.as_slice(), [(1053, 2), (1103, 1)].as_slice());
}
