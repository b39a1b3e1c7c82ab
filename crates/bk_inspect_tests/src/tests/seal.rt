//! Logs that are sealed, logs that are not to be, and devices that fail meanwhile.

use super::{
    File, HELLO, HELLO_AND_MAP, OPEN, Row, SEALED, SEALED_LOG, Shown, check, disk_of, done,
};
use bk_disk::{FaultDisk, LogDisk, MemDisk};
use bk_inspect::{DirCommand, Form, run_seal};
use std::alloc::Global;
use std::process::Abort;
use std::test::Fail;

/// A log with one entry that was not sealed.
const OPEN_LOG: File<'static> = File {
    log: 3,
    head: OPEN,
    behind: HELLO,
    length: 1049,
};

/// Seals a log.
fn seal<D: LogDisk>(alloc: Global, form: Form, disk: &mut D, log: u32) -> Shown {
    let mut output = Vec::new(alloc);
    let mut errors = Vec::new(alloc);
    let status = run_seal(alloc, form, disk, log, &mut output, &mut errors);
    Shown {
        status,
        output,
        errors,
    }
}

/// Compares what was shown, and the status.
fn expect(rt: &impl Abort, shown: &Shown, status: u8, output: &str, errors: &str) {
    assert_eq!(rt; shown.errors.as_slice(), errors.as_bytes());
    assert_eq!(rt; shown.output.as_slice(), output.as_bytes());
    assert_eq!(rt; shown.status, status);
}

/// The bytes of a log.
fn bytes_of<D: LogDisk>(alloc: Global, disk: &mut D, log: u32) -> Result<Vec<u8>, Fail> {
    let length = disk.length(alloc, log)?;
    Ok(disk.read_at(alloc, log, 0, length)?)
}

/// The bytes of a log that begins so, with its header filled up, and has these bytes behind it.
fn file_of(alloc: Global, head: &[u8], behind: &[u8]) -> Result<Vec<u8>, Fail> {
    let mut bytes = Vec::from_slice(alloc, head)?;
    bytes.resize(1024, 0)?;
    bytes.extend_from_slice(behind)?;
    Ok(bytes)
}

#[test]
fn a_log_is_sealed(rt: HostRuntime) -> Result<(), Fail> {
    let alloc = rt.alloc();
    let mut disk = disk_of(alloc, &[OPEN_LOG])?;
    let shown = seal(alloc, Form::Text, &mut disk, 3);
    expect(&rt, &shown, 0, "sealed 3 map 1049 count 1\n", "");
    let now = bytes_of(alloc, &mut disk, 3)?;
    let wanted = file_of(alloc, SEALED, HELLO_AND_MAP)?;
    assert_eq!(rt; now, wanted);
    let rows = [
        done(DirCommand::Check, "3 ok\n"),
        done(DirCommand::Map(3), "1 25\n"),
    ];
    check(&rt, alloc, &mut disk, &rows, "a sealed log");
    let again = seal(alloc, Form::Text, &mut disk, 3);
    expect(
        &rt,
        &again,
        1,
        "",
        "fault log 3: sealed already\nhelp: if './bookie check' finds its map wrong, './bookie seal --cut-torn' writes the map anew\n",
    );
    Ok(())
}

#[test]
fn logs_of_no_entry_and_of_two_ledgers_are_sealed(rt: HostRuntime) -> Result<(), Fail> {
    let alloc = rt.alloc();
    let empty = File {
        log: 1,
        head: OPEN,
        behind: b"",
        length: 1024,
    };
    let mixed = File {
        log: 2,
        head: OPEN,
        behind: b"\0\0\0\x12\0\0\0\0\0\0\0\x02\0\0\0\0\0\0\0\x05\x00\xff\
\0\0\0\x11\0\0\0\0\0\0\0\x01\0\0\0\0\0\0\0\0x\
\0\0\0\x10\0\0\0\0\0\0\0\x01\0\0\0\0\0\0\0\x02",
        length: 1087,
    };
    let mut disk = disk_of(alloc, &[empty, mixed])?;
    let shown = seal(alloc, Form::Text, &mut disk, 1);
    expect(&rt, &shown, 0, "sealed 1 map 1024 count 0\n", "");
    let shown = seal(alloc, Form::Json, &mut disk, 2);
    expect(
        &rt,
        &shown,
        0,
        "{\"log\":2,\"state\":\"sealed\",\"map\":1087,\"count\":2}\n",
        "",
    );
    let rows = [
        done(DirCommand::Logs, "1 1024 sealed\n2 1143 sealed\n"),
        done(DirCommand::Check, "1 ok\n2 ok\n"),
        done(DirCommand::Map(2), "1 41\n2 22\n"),
    ];
    check(&rt, alloc, &mut disk, &rows, "sealed logs");
    Ok(())
}

/// Logs that are not sealed, and why.
const REFUSED: [(&[u8], &[u8], usize, &str); 8] = [
    (OPEN, b"", 1023, "short"),
    (
        b"BKLX\0\0\0\x01",
        HELLO,
        1049,
        "bad magic\nhelp: if './bookie scan' shows no entry in the log, a crash may have left it so, and its file can be moved away",
    ),
    (
        b"BKLO\0\0\0\x02",
        HELLO,
        1049,
        "version 2\nhelp: if './bookie scan' shows no entry in the log, a crash may have left it so, and its file can be moved away",
    ),
    (b"BKLO\0\0\0\0", HELLO, 1049, "no map in version 0"),
    (
        SEALED,
        HELLO_AND_MAP,
        1089,
        "sealed already\nhelp: if './bookie check' finds its map wrong, './bookie seal --cut-torn' writes the map anew",
    ),
    (
        b"BKLO\0\0\0\x01\0\0\0\0\0\0\0\0\0\0\0\x01",
        HELLO,
        1049,
        "sealed already\nhelp: if './bookie check' finds its map wrong, './bookie seal --cut-torn' writes the map anew",
    ),
    (
        OPEN,
        HELLO,
        1048,
        "torn 24 at 1024\nhelp: './bookie seal --cut-torn' cuts off what is no record, and keeps a copy of the log",
    ),
    (
        OPEN,
        b"\0\0\0\x07\0\0\0\0\0\0\0\0\0\0\0\0\0\0\0\0\0\0\0\0",
        1048,
        "bad length 1024 7\nhelp: './bookie seal --cut-torn' cuts off what is no record, and keeps a copy of the log",
    ),
];

#[test]
fn logs_that_are_not_sealed(rt: HostRuntime) -> Result<(), Fail> {
    let alloc = rt.alloc();
    for (head, behind, length, text) in &REFUSED {
        let file = File {
            log: 0,
            head,
            behind,
            length: *length,
        };
        let mut disk = disk_of(alloc, &[file])?;
        let shown = seal(alloc, Form::Text, &mut disk, 0);
        let told = format!(in alloc; "fault log 0: {text}\n")?;
        expect(&rt, &shown, 1, "", &told);
        let mut wanted = file_of(alloc, head, behind)?;
        wanted.truncate(*length);
        assert_eq!(rt; bytes_of(alloc, &mut disk, 0)?, wanted, "{text}");
    }
    let mut disk = disk_of(alloc, &[SEALED_LOG])?;
    let shown = seal(alloc, Form::Text, &mut disk, 9);
    expect(&rt, &shown, 1, "", "fault log 9: no log\n");
    let shown = seal(alloc, Form::Json, &mut disk, 9);
    expect(&rt, &shown, 1, "", "{\"fault\":\"no log\",\"log\":9}\n");
    Ok(())
}

/// Logs that are not sealed, and the objects that tell so.
static REFUSED_OBJECTS: [(File<'static>, &str); 3] = [
    (
        File {
            length: 1048,
            ..OPEN_LOG
        },
        "{\"fault\":\"torn\",\"at\":1024,\"torn\":24,\"log\":3,\"help\":\"'./bookie seal --cut-torn' cuts off what is no record, and keeps a copy of the log\"}\n",
    ),
    (
        File {
            log: 4,
            behind: b"\0\0\0\x07\0\0\0\0\0\0\0\0\0\0\0\0\0\0\0\0\0\0\0\0",
            length: 1048,
            head: OPEN,
        },
        "{\"fault\":\"bad length\",\"at\":1024,\"length\":7,\"log\":4,\"help\":\"'./bookie seal --cut-torn' cuts off what is no record, and keeps a copy of the log\"}\n",
    ),
    (
        File {
            log: 5,
            head: b"BKLO\0\0\0\0",
            ..OPEN_LOG
        },
        "{\"fault\":\"no map in version\",\"version\":0,\"log\":5}\n",
    ),
];

#[test]
fn a_refusal_as_json(rt: HostRuntime) -> Result<(), Fail> {
    let alloc = rt.alloc();
    for (file, object) in &REFUSED_OBJECTS {
        let mut disk = disk_of(alloc, &[*file])?;
        let shown = seal(alloc, Form::Json, &mut disk, u32::from(file.log));
        expect(&rt, &shown, 1, "", object);
    }
    Ok(())
}

/// Seals a log on a disk of which one call fails, and gives the log's length afterwards.
fn seal_failing(
    rt: &impl Abort,
    alloc: Global,
    call: u64,
    kept: u32,
) -> Result<(Vec<u8>, FaultDisk<MemDisk>), Fail> {
    let mut disk = FaultDisk::new(disk_of(alloc, &[OPEN_LOG])?, call, kept as usize);
    let shown = seal(alloc, Form::Text, &mut disk, 3);
    expect(rt, &shown, 1, "", "fault disk\n");
    let bytes = bytes_of(alloc, &mut disk, 3)?;
    Ok((bytes, disk))
}

/// What is told of a log with seven bytes of its map.
const TORN_7: &str = "fault log 3: torn 7 at 1049\n\
help: './bookie seal --cut-torn' cuts off what is no record, and keeps a copy of the log\n";

/// How long the log is where one call of those that sealing makes fails.
const FAILING: [usize; 8] = [1049, 1049, 1049, 1056, 1089, 1089, 1089, 1089];

#[test]
fn a_device_that_fails_while_a_log_is_sealed(rt: HostRuntime) -> Result<(), Fail> {
    let alloc = rt.alloc();
    for (k, length) in FAILING.iter().enumerate() {
        let call = k as u64 + 1;
        let (bytes, mut disk) = seal_failing(&rt, alloc, call, 7)?;
        assert_eq!(rt; bytes.len(), *length, "call {call}");
        let sealed = call == 8;
        assert_eq!(rt; bytes.starts_with(SEALED), sealed, "call {call}");
        let again = seal(alloc, Form::Text, &mut disk, 3);
        let told = match call {
            4 => TORN_7,
            8 =>
                "fault log 3: sealed already\nhelp: if './bookie check' finds its map wrong, './bookie seal --cut-torn' writes the map anew\n",
            _ => "",
        };
        assert_eq!(rt; again.errors.as_slice(), told.as_bytes(), "call {call}");
    }
    Ok(())
}

#[test]
fn a_log_whose_map_was_written_and_not_named_is_sealed(rt: HostRuntime) -> Result<(), Fail> {
    let alloc = rt.alloc();
    let (_, mut disk) = seal_failing(&rt, alloc, 7, 0)?;
    let again = seal(alloc, Form::Text, &mut disk, 3);
    expect(&rt, &again, 0, "sealed 3 map 1089 count 1\n", "");
    let row = [
        Row {
            command: DirCommand::Check,
            status: 0,
            output: "3 ok\n",
            errors: "",
        },
        done(
            DirCommand::Scan(3),
            "1028 1 0 25\nentries 1 foreign 2 torn 0\n",
        ),
    ];
    check(&rt, alloc, &mut disk, &row, "a log with two maps");
    Ok(())
}
