//! What each command shows as JSON of files that were written by hand, and what it tells of faults.

use super::{File, HELLO, HELLO_AND_MAP, OPEN, Row, SEALED_LOG, disk_of, done, find};
use bk_disk::MemDisk;
use bk_inspect::{
    Digest, DigestChoice, DirCommand, EntryRange, Form, ScanChoice, run_dir_as, run_stat_as,
};
use std::alloc::Global;
use std::process::Abort;
use std::test::Fail;

/// A log with entry 5 of ledger 2, of two bytes, and the entries 0 and 2 of ledger 1, of one byte and of none.
const MIXED_LOG: File<'static> = File {
    log: 3,
    head: OPEN,
    behind: b"\0\0\0\x12\0\0\0\0\0\0\0\x02\0\0\0\0\0\0\0\x05\x00\xff\
\0\0\0\x11\0\0\0\0\0\0\0\x01\0\0\0\0\0\0\0\0x\
\0\0\0\x10\0\0\0\0\0\0\0\x01\0\0\0\0\0\0\0\x02",
    length: 1087,
};

/// A log that is too short for a header.
const SHORT_LOG: File<'static> = File {
    log: 7,
    head: OPEN,
    behind: b"",
    length: 1023,
};

/// A log whose second record has a length below 16.
const BAD_LOG: File<'static> = File {
    log: 31,
    head: OPEN,
    behind: b"\0\0\0\x15\0\0\0\0\0\0\0\x01\0\0\0\0\0\0\0\0hello\
\0\0\0\x07\0\0\0\0\0\0\0\0\0\0\0\0\0\0\0\0\0\0\0\0",
    length: 1073,
};

/// What is told of that log.
const TOLD: &str = "{\"fault\":\"bad length\",\"at\":1049,\"length\":7,\"log\":31}\n";

/// The length of a file whose map is of one ledger, behind one entry.
const WHOLE: usize = 1089;

/// Runs each command of a table as JSON, and compares what it shows.
pub(super) fn check_json(rt: &impl Abort, alloc: Global, disk: &mut MemDisk, rows: &[Row<'_>]) {
    for row in rows {
        let mut output = Vec::new(alloc);
        let mut errors = Vec::new(alloc);
        let status = run_dir_as(
            alloc,
            Form::Json,
            disk,
            row.command,
            &mut output,
            &mut errors,
        );
        let what = row.command;
        assert_eq!(rt;
            output.as_slice(),
            row.output.as_bytes(),
            "the output of {what:?}"
        );
        assert_eq!(rt;
            errors.as_slice(),
            row.errors.as_bytes(),
            "the errors of {what:?}"
        );
        assert_eq!(rt; status, row.status, "the status of {what:?}");
    }
}

/// A command that ends with status 1.
fn told<'a>(command: DirCommand, output: &'a str, errors: &'a str) -> Row<'a> {
    Row {
        command,
        status: 1,
        output,
        errors,
    }
}

/// Entries of ledger 1.
const RANGE: EntryRange = EntryRange {
    ledger: 1,
    first: 0,
    last: 9,
};

/// The entries of ledger 1, with their data.
const WITH_DATA: ScanChoice = ScanChoice {
    ledger: Some(1),
    from: 0,
    data: true,
};

/// Those behind the first.
const BEHIND: ScanChoice = ScanChoice {
    ledger: None,
    from: 1051,
    data: false,
};

#[test]
fn one_log_as_json(rt: HostRuntime) -> Result<(), Fail> {
    let rows = [
        done(
            DirCommand::Header(0),
            "{\"log\":0,\"version\":1,\"map\":1049,\"count\":1}\n",
        ),
        done(DirCommand::Map(0), "{\"ledger\":1,\"size\":25}\n"),
        done(
            DirCommand::Scan(0),
            "{\"at\":1028,\"ledger\":1,\"entry\":0,\"size\":25}\n\
{\"entries\":1,\"foreign\":1,\"torn\":0}\n",
        ),
        done(find(&rt, 1, 1), "{\"found\":false}\n"),
        told(
            DirCommand::CheckDigests(DigestChoice::One(Digest::Crc32)),
            "{\"log\":0,\"digest\":\"differs\",\"at\":1028,\"ledger\":1,\"entry\":0}\n\
{\"log\":0,\"health\":\"ok\"}\n",
            "",
        ),
        done(
            DirCommand::CheckDigests(DigestChoice::Auto),
            "{\"log\":0,\"health\":\"ok\"}\n{\"unknown\":1}\n",
        ),
        told(
            DirCommand::Header(9),
            "",
            "{\"fault\":\"no log\",\"log\":9}\n",
        ),
    ];
    let mut disk = disk_of(rt.alloc(), &[SEALED_LOG])?;
    check_json(&rt, rt.alloc(), &mut disk, &rows);
    Ok(())
}

#[test]
fn a_folder_as_json(rt: HostRuntime) -> Result<(), Fail> {
    let rows = [
        done(
            DirCommand::Logs,
            "{\"log\":0,\"length\":1089,\"state\":\"sealed\"}\n\
{\"log\":3,\"length\":1087,\"state\":\"open\"}\n\
{\"log\":7,\"length\":1023,\"state\":\"short\"}\n\
{\"log\":31,\"length\":1073,\"state\":\"open\"}\n",
        ),
        told(
            DirCommand::Check,
            "{\"log\":0,\"health\":\"ok\"}\n\
{\"log\":3,\"health\":\"unsealed\",\"torn\":0}\n\
{\"log\":7,\"health\":\"short\"}\n\
{\"log\":31,\"health\":\"fault\",\"fault\":\"bad length\",\"at\":1049,\"length\":7}\n",
            "",
        ),
        told(
            find(&rt, 2, 5),
            "{\"found\":true,\"log\":3,\"at\":1028,\"data\":\"00ff\"}\n",
            TOLD,
        ),
    ];
    let files = [SEALED_LOG, MIXED_LOG, SHORT_LOG, BAD_LOG];
    let mut disk = disk_of(rt.alloc(), &files)?;
    check_json(&rt, rt.alloc(), &mut disk, &rows);
    Ok(())
}

#[test]
fn the_entries_of_a_folder_as_json(rt: HostRuntime) -> Result<(), Fail> {
    let rows = [
        told(
            DirCommand::Ledgers,
            "{\"ledger\":1,\"records\":4,\"bytes\":91,\"first\":0,\"last\":2,\"logs\":3}\n\
{\"ledger\":2,\"records\":1,\"bytes\":22,\"first\":5,\"last\":5,\"logs\":1}\n",
            TOLD,
        ),
        told(
            DirCommand::Entries(RANGE),
            "{\"entry\":0,\"log\":31,\"at\":1028,\"size\":25}\n\
{\"entry\":2,\"log\":3,\"at\":1071,\"size\":20}\n",
            TOLD,
        ),
        told(
            DirCommand::Scan(31),
            "{\"at\":1028,\"ledger\":1,\"entry\":0,\"size\":25}\n",
            TOLD,
        ),
    ];
    let files = [SEALED_LOG, MIXED_LOG, SHORT_LOG, BAD_LOG];
    let mut disk = disk_of(rt.alloc(), &files)?;
    check_json(&rt, rt.alloc(), &mut disk, &rows);
    Ok(())
}

#[test]
fn parts_of_a_folder_as_json(rt: HostRuntime) -> Result<(), Fail> {
    let rows = [
        done(DirCommand::Header(7), "{\"log\":7,\"state\":\"short\"}\n"),
        done(DirCommand::Map(3), "{\"log\":3,\"state\":\"no map\"}\n"),
        done(
            DirCommand::ScanPart(3, BEHIND),
            "{\"at\":1071,\"ledger\":1,\"entry\":2,\"size\":20}\n\
{\"entries\":1,\"foreign\":0,\"torn\":0}\n",
        ),
        done(
            DirCommand::ScanPart(3, WITH_DATA),
            "{\"at\":1050,\"ledger\":1,\"entry\":0,\"size\":21,\"data\":\"78\"}\n\
{\"at\":1071,\"ledger\":1,\"entry\":2,\"size\":20,\"data\":\"\"}\n\
{\"entries\":2,\"foreign\":0,\"torn\":0}\n",
        ),
    ];
    let mut disk = disk_of(rt.alloc(), &[MIXED_LOG, SHORT_LOG])?;
    check_json(&rt, rt.alloc(), &mut disk, &rows);
    Ok(())
}

/// What `stat` shows of the folder where ledger 2 is dead.
const STATS: &str =
    "{\"log\":0,\"length\":1089,\"entries\":1,\"bytes\":25,\"live\":25,\"share\":1000,\"state\":\"sealed\"}\n\
{\"log\":3,\"length\":1087,\"entries\":3,\"bytes\":63,\"live\":41,\"share\":650,\"state\":\"open\"}\n\
{\"log\":7,\"length\":1023,\"entries\":0,\"bytes\":0,\"live\":0,\"share\":null,\"state\":\"short\"}\n\
{\"log\":31,\"length\":1073,\"entries\":1,\"bytes\":25,\"live\":25,\"share\":1000,\"state\":\"open\"}\n\
{\"logs\":4,\"length\":4272,\"entries\":5,\"bytes\":113,\"live\":91,\"share\":805}\n";

#[test]
fn how_much_lives_as_json(rt: HostRuntime) -> Result<(), Fail> {
    let alloc = rt.alloc();
    let files = [SEALED_LOG, MIXED_LOG, SHORT_LOG, BAD_LOG];
    let mut disk = disk_of(alloc, &files)?;
    let mut output = Vec::new(alloc);
    let mut errors = Vec::new(alloc);
    let status = run_stat_as(alloc, Form::Json, &mut disk, &[2], &mut output, &mut errors);
    assert_eq!(rt; output.as_slice(), STATS.as_bytes());
    assert_eq!(rt; errors.as_slice(), TOLD.as_bytes());
    assert_eq!(rt; status, 1);
    Ok(())
}

/// A log whose header begins so, with one entry and a map of its ledger, and what `check` shows of it.
type Bad<'a> = (&'a [u8], &'a [u8], &'a str);

/// Logs with a fault each.
static BAD_LOGS: [Bad<'static>; 7] = [
    (b"BKLX\0\0\0\x01", HELLO, "\"bad magic\"}\n"),
    (b"BKLO\0\0\0\x02", HELLO, "\"version\",\"version\":2}\n"),
    (
        b"BKLO\0\0\0\x01\xff\xff\xff\xff\xff\xff\xff\xff\0\0\0\x01",
        HELLO,
        "\"negative number\"}\n",
    ),
    (
        b"BKLO\0\0\0\x01\0\0\0\0\0\0\x04\x04\0\0\0\x01",
        HELLO_AND_MAP,
        "\"not a map\",\"at\":1028}\n",
    ),
    (
        b"BKLO\0\0\0\x01\0\0\0\0\0\0\x04\x19\0\0\0\x02",
        HELLO_AND_MAP,
        "\"count differs\",\"found\":1}\n",
    ),
    (
        b"BKLO\0\0\0\x01\0\0\0\0\0\0\x04\0\0\0\0\x01",
        b"\0\0\0\x24\xff\xff\xff\xff\xff\xff\xff\xff\xff\xff\xff\xff\xff\xff\xff\xfe\0\0\0\x02\
\0\0\0\0\0\0\0\x01\0\0\0\0\0\0\0\x19",
        "\"map length\",\"at\":1024}\n",
    ),
    (
        b"BKLO\0\0\0\x01\0\0\0\0\0\0\x04\0\0\0\0\x01",
        b"\0\0\0\x34\xff\xff\xff\xff\xff\xff\xff\xff\xff\xff\xff\xff\xff\xff\xff\xfe\0\0\0\x02\
\x7f\xff\xff\xff\xff\xff\xff\xff\0\0\0\0\0\0\0\x19\x7f\xff\xff\xff\xff\xff\xff\xff\0\0\0\0\0\0\0\x19",
        "\"repeated\",\"ledger\":9223372036854775807}\n",
    ),
];

#[test]
fn each_fault_of_a_log_as_json(rt: HostRuntime) -> Result<(), Fail> {
    for (head, behind, shown) in &BAD_LOGS {
        let file = File {
            log: 0,
            head,
            behind,
            length: WHOLE,
        };
        let mut disk = disk_of(rt.alloc(), &[file])?;
        let output = format!(in rt.alloc(); "{{\"log\":0,\"health\":\"fault\",\"fault\":{shown}")?;
        let row = told(DirCommand::Check, &output, "");
        check_json(&rt, rt.alloc(), &mut disk, &[row]);
    }
    Ok(())
}
