//! The torn bytes of unsealed logs, and the logs that can be sealed by their headers.

use super::json::check_json;
use super::{File, HELLO, OPEN, SEALED_LOG, check, disk_of, done};
use bk_disk::MemDisk;
use bk_inspect::{DigestChoice, DirCommand, Form, find_unsealed};
use std::alloc::Global;
use std::test::Fail;

/// An unsealed log with an entry.
const OPEN_LOG: File<'static> = File {
    log: 3,
    head: OPEN,
    behind: HELLO,
    length: 1049,
};

/// The same, of version 0.
const OLD_LOG: File<'static> = File {
    log: 4,
    head: b"BKLO\0\0\0\0",
    ..OPEN_LOG
};

/// An unsealed log that ends in a part of a record.
const TORN_LOG: File<'static> = File {
    log: 5,
    length: 1042,
    ..OPEN_LOG
};

/// A file that is shorter than a header, and one with an invalid header.
const SHORT_LOG: File<'static> = File {
    log: 6,
    length: 1000,
    ..OPEN_LOG
};

const BAD_LOG: File<'static> = File {
    log: 7,
    head: b"BKLP",
    ..OPEN_LOG
};

#[test]
fn the_torn_bytes_of_unsealed_logs(rt: HostRuntime) -> Result<(), Fail> {
    let rows = [
        done(
            DirCommand::CheckLong(None),
            "0 ok\n3 unsealed torn 0\n5 unsealed torn 18\n6 short\n",
        ),
        done(
            DirCommand::CheckLong(Some(DigestChoice::Auto)),
            "0 ok\n3 unsealed torn 0\n5 unsealed torn 18\n6 short\nunknown 1\n",
        ),
        done(DirCommand::Check, "0 ok\n3 unsealed\n5 unsealed\n6 short\n"),
    ];
    let files = [SEALED_LOG, OPEN_LOG, TORN_LOG, SHORT_LOG];
    let mut disk = disk_of(rt.alloc(), &files)?;
    check(&rt, rt.alloc(), &mut disk, &rows, "unsealed logs");
    Ok(())
}

#[test]
fn the_torn_bytes_of_unsealed_logs_as_json(rt: HostRuntime) -> Result<(), Fail> {
    let shown = "{\"log\":0,\"health\":\"ok\"}\n\
{\"log\":3,\"health\":\"unsealed\",\"torn\":0}\n\
{\"log\":5,\"health\":\"unsealed\",\"torn\":18}\n\
{\"log\":6,\"health\":\"short\"}\n";
    let rows = [
        done(DirCommand::Check, shown),
        done(DirCommand::CheckLong(None), shown),
    ];
    let files = [SEALED_LOG, OPEN_LOG, TORN_LOG, SHORT_LOG];
    let mut disk = disk_of(rt.alloc(), &files)?;
    check_json(&rt, rt.alloc(), &mut disk, &rows);
    Ok(())
}

/// The logs of a disk that can be sealed by their headers; `None` if that is not found.
fn unsealed_on(alloc: Global, disk: &mut MemDisk) -> Option<Vec<u32>> {
    let mut errors = Vec::new(alloc);
    find_unsealed(alloc, Form::Text, disk, &mut errors)
}

#[test]
fn logs_that_can_be_sealed_by_their_headers(rt: HostRuntime) -> Result<(), Fail> {
    let files = [SEALED_LOG, OPEN_LOG, OLD_LOG, TORN_LOG, SHORT_LOG, BAD_LOG];
    let mut disk = disk_of(rt.alloc(), &files)?;
    match unsealed_on(rt.alloc(), &mut disk) {
        Some(logs) => assert_eq!(rt; logs.as_slice(), [3, 5].as_slice()),
        None => return Err(Fail::new("they are not found")),
    }
    Ok(())
}
