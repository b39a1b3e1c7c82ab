//! Worked runs: partial and foreign records, and logs of version 0 alone and beside one of version 1.

ghost use Rattle.std.specs.Prelude.{◌<◌, ◌^◌};

use super::{File, HELLO, OPEN, Row, SEALED_LOG, check, disk_of, done, find};
use bk_disk::{LogDisk, MemDisk};
use bk_inspect::DirCommand;
use std::alloc::Global;
use std::test::Fail;

/// A log with one entry, and the first seven bytes of a record: what a failed append may leave.
const PARTIAL: File<'static> = File {
    log: 0,
    head: OPEN,
    behind: b"\0\0\0\x15\0\0\0\0\0\0\0\x01\0\0\0\0\0\0\0\0hello\0\0\0\x15\0\0\0",
    length: 1056,
};

#[test]
fn a_log_with_a_partial_record(rt: HostRuntime) -> Result<(), Fail> {
    let rows = [
        done(DirCommand::Logs, "0 1056 open\n"),
        done(DirCommand::Check, "0 unsealed\n"),
        done(
            DirCommand::Scan(0),
            "1028 1 0 25\nentries 1 foreign 0 torn 7\n",
        ),
        done(find(&rt, 1, 0), "0 1028 68656c6c6f\n"),
    ];
    let mut disk = disk_of(rt.alloc(), &[PARTIAL])?;
    check(&rt, rt.alloc(), &mut disk, &rows, "a partial record");
    Ok(())
}

/// Logs without an entry: a length that goes on past the file, and a record without a key.
const NO_ENTRY: [File<'static>; 2] = [
    File {
        log: 1,
        head: OPEN,
        behind: b"\x7f\xff\xff\xff\0\0\0\0\0\0\0\0\0\0\0\0\0\0\0\0\0\0\0\0",
        length: 1048,
    },
    File {
        log: 2,
        head: OPEN,
        behind: b"\0\0\0\x10\0\0\0\0\0\0\0\x01\xff\xff\xff\xff\xff\xff\xf0\0",
        length: 1044,
    },
];

#[test]
fn logs_without_an_entry(rt: HostRuntime) -> Result<(), Fail> {
    let rows = [
        done(DirCommand::Scan(1), "entries 0 foreign 0 torn 24\n"),
        done(DirCommand::Scan(2), "entries 0 foreign 1 torn 0\n"),
        done(DirCommand::Check, "1 unsealed\n2 unsealed\n"),
        done(DirCommand::Logs, "1 1048 open\n2 1044 open\n"),
        done(find(&rt, 1, 0), "not found\n"),
    ];
    let mut disk = disk_of(rt.alloc(), &NO_ENTRY)?;
    check(&rt, rt.alloc(), &mut disk, &rows, "no entry");
    Ok(())
}

/// The ids of a record of 200 bytes of data, entry 0 of ledger 2.
const LONG: &[u8] = b"\0\0\0\xd8\0\0\0\0\0\0\0\x02\0\0\0\0\0\0\0\0";

/// Puts a log of version 0 on a disk, of 1269 bytes. Its header is filled up with bytes that no
/// later version has there.
fn put_old(alloc: Global, disk: &mut MemDisk, log: u32) -> Result<(), Fail>
    requires { log < 2 ^ 31 }
{
    let mut bytes = Vec::from_slice(alloc, b"BKLO\0\0\0\0")?;
    bytes.resize(1024, 255)?;
    bytes.extend_from_slice(HELLO)?;
    bytes.extend_from_slice(LONG)?;
    bytes.resize(1269, 0)?;
    disk.create(alloc, log)?;
    disk.append(alloc, log, &bytes)?;
    Ok(())
}

#[test]
fn a_log_of_version_0_whose_header_is_full(rt: HostRuntime) -> Result<(), Fail> {
    let rows = [
        done(DirCommand::Header(0), "version 0 map 0 count 0\n"),
        done(DirCommand::Map(0), "no map\n"),
        done(DirCommand::Logs, "0 1269 open\n"),
        done(DirCommand::Check, "0 unsealed\n"),
    ];
    let mut disk = MemDisk::new(rt.alloc());
    put_old(rt.alloc(), &mut disk, 0)?;
    check(&rt, rt.alloc(), &mut disk, &rows, "a full header");
    Ok(())
}

/// The scan of the log of version 0.
const OLD_SCAN: Row<'static> = Row {
    command: DirCommand::Scan(7),
    status: 0,
    output: "1028 1 0 25\n1053 2 0 220\nentries 2 foreign 0 torn 0\n",
    errors: "",
};

#[test]
fn a_log_of_version_0_beside_one_of_version_1(rt: HostRuntime) -> Result<(), Fail> {
    let rows = [
        done(DirCommand::Logs, "0 1089 sealed\n7 1269 open\n"),
        done(DirCommand::Check, "0 ok\n7 unsealed\n"),
        done(
            DirCommand::Scan(0),
            "1028 1 0 25\nentries 1 foreign 1 torn 0\n",
        ),
        OLD_SCAN,
        // The last record of the entry is that of the later log, whatever its version.
        done(find(&rt, 1, 0), "7 1028 68656c6c6f\n"),
        done(find(&rt, 2, 1), "not found\n"),
    ];
    let mut disk = disk_of(rt.alloc(), &[SEALED_LOG])?;
    put_old(rt.alloc(), &mut disk, 7)?;
    check(&rt, rt.alloc(), &mut disk, &rows, "two versions");
    Ok(())
}
