//! How much stands in logs, by log, by ledger and by entry, and scans of a part.

use super::{File, HELLO, OPEN, Row, SEALED_LOG, Shown, check, disk_of, done, run};
use bk_disk::MemDisk;
use bk_inspect::{DirCommand, EntryRange, ScanChoice, run_stat};
use std::alloc::Global;
use std::test::Fail;

/// A log with entry 5 of ledger 2, of two bytes, and the entries 0 and 2 of ledger 1, of one byte and of none.
const MIXED_LOG: File<'static> = File {
    log: 3,
    head: OPEN,
    behind: b"\0\0\0\x12\0\0\0\0\0\0\0\x02\0\0\0\0\0\0\0\x05\x00\xff\
\0\0\0\x11\0\0\0\0\0\0\0\x01\0\0\0\0\0\0\0\0x\
\0\0\0\x10\0\0\0\0\0\0\0\x01\0\0\0\0\0\0\0\x02",
    length: 1087,
};

/// A log whose second record has a length below 16.
const BAD_LOG: File<'static> = File {
    log: 4,
    head: OPEN,
    behind: b"\0\0\0\x15\0\0\0\0\0\0\0\x01\0\0\0\0\0\0\0\0hello\
\0\0\0\x07\0\0\0\0\0\0\0\0\0\0\0\0\0\0\0\0\0\0\0\0",
    length: 1073,
};

/// The scan of these entries of the mixed log.
fn part(ledger: Option<u64>, from: u64, data: bool) -> DirCommand {
    DirCommand::ScanPart(3, ScanChoice { ledger, from, data })
}

/// These entries of ledger 1.
fn range(first: u64, last: u64) -> DirCommand {
    DirCommand::Entries(EntryRange {
        ledger: 1,
        first,
        last,
    })
}

#[test]
fn entries_that_are_asked_for(rt: HostRuntime) -> Result<(), Fail> {
    let rows = [
        done(
            part(None, 0, false),
            "1028 2 5 22\n1050 1 0 21\n1071 1 2 20\nentries 3 foreign 0 torn 0\n",
        ),
        done(
            part(Some(1), 0, false),
            "1050 1 0 21\n1071 1 2 20\nentries 2 foreign 0 torn 0\n",
        ),
        done(
            part(Some(1), 1051, false),
            "1071 1 2 20\nentries 1 foreign 0 torn 0\n",
        ),
        done(
            part(None, 1050, true),
            "1050 1 0 21 78\n1071 1 2 20 -\nentries 2 foreign 0 torn 0\n",
        ),
        done(part(Some(9), 0, true), "entries 0 foreign 0 torn 0\n"),
        done(range(0, 9), "0 3 1050 21\n2 3 1071 20\n"),
        done(range(2, 2), "2 3 1071 20\n"),
        done(range(1, 1), ""),
        done(DirCommand::Ledgers, "1 3 66 0 2 2\n2 1 22 5 5 1\n"),
    ];
    let mut disk = disk_of(rt.alloc(), &[SEALED_LOG, MIXED_LOG])?;
    check(&rt, rt.alloc(), &mut disk, &rows, "two logs");
    Ok(())
}

/// A log with entry 9 of ledger 1, entry 4, entry 9 again, a record without a key, and a torn end.
const FALLING_LOG: File<'static> = File {
    log: 3,
    head: OPEN,
    behind: b"\0\0\0\x11\0\0\0\0\0\0\0\x01\0\0\0\0\0\0\0\x09a\
\0\0\0\x10\0\0\0\0\0\0\0\x01\0\0\0\0\0\0\0\x04\
\0\0\0\x12\0\0\0\0\0\0\0\x01\0\0\0\0\0\0\0\x09bc\
\0\0\0\x10\0\0\0\0\0\0\0\x01\xff\xff\xff\xff\xff\xff\xf0\0\
\0\0\0",
    length: 1110,
};

#[test]
fn entries_that_fall_and_stand_twice(rt: HostRuntime) -> Result<(), Fail> {
    let rows = [
        done(
            part(None, 0, true),
            "1028 1 9 21 61\n1049 1 4 20 -\n1069 1 9 22 6263\nentries 3 foreign 1 torn 3\n",
        ),
        done(range(0, 9), "4 3 1049 20\n9 3 1069 22\n"),
        done(DirCommand::Ledgers, "1 3 63 4 9 1\n"),
    ];
    let mut disk = disk_of(rt.alloc(), &[FALLING_LOG])?;
    check(&rt, rt.alloc(), &mut disk, &rows, "falling entries");
    Ok(())
}

#[test]
fn a_bad_length_is_told_and_what_stands_before_it_counts(rt: HostRuntime) -> Result<(), Fail> {
    const TOLD: &str = "fault log 4: bad length 1049 7\n";
    let rows = [
        Row {
            command: DirCommand::Ledgers,
            status: 1,
            output: "1 2 50 0 0 2\n",
            errors: TOLD,
        },
        Row {
            command: range(0, 0),
            status: 1,
            output: "0 4 1028 25\n",
            errors: TOLD,
        },
    ];
    let mut disk = disk_of(rt.alloc(), &[SEALED_LOG, BAD_LOG])?;
    check(&rt, rt.alloc(), &mut disk, &rows, "a bad log");
    let shown = run_stat_on(rt.alloc(), &mut disk, &[]);
    assert_eq!(rt;
        shown.output.as_slice(),
        b"0 1089 1 25 25 1000 sealed\n4 1073 1 25 25 1000 open\n\
logs 2 length 2162 entries 2 bytes 50 live 50 share 1000\n"
            .as_slice()
    );
    assert_eq!(rt; shown.errors.as_slice(), TOLD.as_bytes());
    assert_eq!(rt; shown.status, 1);
    Ok(())
}

/// What `stat` shows of a disk.
fn run_stat_on(alloc: Global, disk: &mut MemDisk, dead: &[u64]) -> Shown {
    let mut output = Vec::new(alloc);
    let mut errors = Vec::new(alloc);
    let status = run_stat(alloc, disk, dead, &mut output, &mut errors);
    Shown {
        status,
        output,
        errors,
    }
}

/// What `stat` shows of two logs where ledger 2 is dead.
const STATS: &[u8] = b"0 1089 1 25 25 1000 sealed\n3 1087 3 63 41 650 open\n\
logs 2 length 2176 entries 4 bytes 88 live 66 share 750\n";

#[test]
fn how_much_lives_of_each_log(rt: HostRuntime) -> Result<(), Fail> {
    let mut disk = disk_of(rt.alloc(), &[SEALED_LOG, MIXED_LOG])?;
    let shown = run_stat_on(rt.alloc(), &mut disk, &[7, 2, 9]);
    assert_eq!(rt; shown.output.as_slice(), STATS);
    assert_eq!(rt; shown.errors.len(), 0);
    assert_eq!(rt; shown.status, 0);
    let shown = run_stat_on(rt.alloc(), &mut MemDisk::new(rt.alloc()), &[]);
    assert_eq!(rt;
        shown.output.as_slice(),
        b"logs 0 length 0 entries 0 bytes 0 live 0 share -\n".as_slice()
    );
    assert_eq!(rt; shown.status, 0);
    let short = File {
        log: 9,
        head: OPEN,
        behind: HELLO,
        length: 1023,
    };
    let shown = run_stat_on(rt.alloc(), &mut disk_of(rt.alloc(), &[short])?, &[]);
    assert_eq!(rt;
        shown.output.as_slice(),
        b"9 1023 0 0 0 - short\n\
logs 1 length 1023 entries 0 bytes 0 live 0 share -\n"
            .as_slice()
    );
    Ok(())
}
