//! Scans of small logs.

use super::{HEAD, HELLO_RECORD, key, log_of, view_of};
use bk_disk::LogView;
use bk_log::{Found, ScanFault, Scanner};
use std::alloc::Global;
use std::process::Abort;

/// Bytes after a log's header, and the result of a scan: the entry of ledger 1, id 0, of 25 bytes
/// at 1028, if there is one, the numbers of foreign records and torn bytes, and the end.
struct Case<'a> {
    behind: &'a [u8],
    entry: bool,
    foreign: u64,
    torn: u64,
    end: Result<Option<Found>, ScanFault>,
}

const CASES: [Case<'static>; 6] = [
    Case {
        behind: b"",
        entry: false,
        foreign: 0,
        torn: 0,
        end: Ok(None),
    },
    Case {
        behind: &HELLO_RECORD,
        entry: true,
        foreign: 0,
        torn: 0,
        end: Ok(None),
    },
    Case {
        behind: b"\0\0\0\x15\0\0\0\0\0\0\0\x01\0\0\0\0\0\0\0\0hello\0\0\0\x15\0\0\0\0\0\0",
        entry: true,
        foreign: 0,
        torn: 10,
        end: Ok(None),
    },
    Case {
        behind: b"\0\0\0\x15\0\0\0\0\0\0\0\x01\0\0\0\0\0\0\0\0hello\0\0\0\x07\0\0\0\0\0\0\0\0\0\0\0\0",
        entry: true,
        foreign: 0,
        torn: 0,
        end: Err(ScanFault::BadLength {
            at: 1049,
            length: 7,
        }),
    },
    Case {
        behind: b"\xff\xff\xff\xfe",
        entry: false,
        foreign: 0,
        torn: 0,
        end: Err(ScanFault::BadLength {
            at: 1024,
            length: -2,
        }),
    },
    Case {
        behind: b"\0\0\0\x15\0\0\0\0\0\0\0\x01\0\0\0\0\0\0\0\0hello\
\0\0\0\x24\xff\xff\xff\xff\xff\xff\xff\xff\xff\xff\xff\xff\xff\xff\xff\xfe\0\0\0\x01\0\0\0\0\0\0\0\x01\0\0\0\0\0\0\0\x19",
        entry: true,
        foreign: 1,
        torn: 0,
        end: Ok(None),
    },
];

fn check(rt: &impl Abort, alloc: Global, case: &Case<'_>) {
    let view = view_of(rt, alloc, &log_of(rt, alloc, &HEAD, case.behind));
    let mut scanner = Scanner::new(&view, alloc, 1024, view.end());
    if case.entry {
        let found = Found {
            key: key(rt, 1, 0),
            at: 1028,
            size: 25,
        };
        assert_eq!(rt; scanner.next(), Ok(Some(found)));
    }
    for _ in 0..2 {
        assert_eq!(rt; scanner.next(), case.end);
    }
    assert_eq!(rt;
        (scanner.foreign(), scanner.torn()),
        (case.foreign, case.torn)
    );
}

#[test]
fn a_scan_gives_what_stands_there(rt: HostRuntime) {
    for case in &CASES {
        check(&rt, rt.alloc(), case);
    }
}

#[test]
fn a_log_without_a_whole_header_has_no_entry(rt: HostRuntime) {
    for bytes in [b"".as_slice(), b"BKLO\0\0\0\x01\0\0\0\x15".as_slice()] {
        let view = view_of(&rt, rt.alloc(), bytes);
        let mut scanner = Scanner::new(&view, rt.alloc(), 1024, view.end());
        assert_eq!(rt; scanner.next(), Ok(None));
        assert_eq!(rt; scanner.torn(), 0);
    }
}
