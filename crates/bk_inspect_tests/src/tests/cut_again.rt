//! Logs in memory that are cut by a second call: what is at the place of the copy then.

use super::cut_mem::{CutMem, Failing, Left, MemAside, NONE, cut, cut_on, file_of};
use super::{HELLO, HELLO_AND_MAP, OPEN, SEALED};
use std::alloc::Global;
use std::test::Fail;

/// Cuts and seals a log of these bytes whose copy has these, while no call fails, or this one of the place of the copy.
fn cut_beside(alloc: Global, bytes: &[u8], copy: &[u8], on_aside: Failing) -> Result<Left, Fail> {
    let disk = CutMem::of(alloc, bytes, NONE)?;
    cut_on(alloc, disk, MemAside::with(alloc, copy, on_aside)?)
}

/// Whether the log was cut and is sealed, and its copy has these bytes after these calls.
fn is_done(left: &Left, sealed: &[u8], copy: &[u8], calls: &str) -> bool {
    left.status == 0
        && left.log.as_slice() == sealed
        && left.copy.as_slice() == copy
        && left.on_aside.as_str() == calls
        && !left.is_drafted
}

/// How many bytes a copy has whose call was killed: none, a part of the header, of the record, and all.
const PARTS: [usize; 5] = [0, 7, 1024, 1050, 1073];

#[test]
fn a_copy_with_the_first_bytes_of_the_log_is_written_anew(rt: HostRuntime) -> Result<(), Fail> {
    let alloc = rt.alloc();
    let before = file_of(alloc, OPEN, HELLO, &[0; 24])?;
    let sealed = file_of(alloc, SEALED, HELLO_AND_MAP, b"")?;
    for length in &PARTS {
        let mut part = before.clone()?;
        part.truncate(*length);
        let left = cut_beside(alloc, &before, &part, NONE)?;
        let calls = if *length == 0 {
            "length begin append keep "
        } else {
            "length read_at begin append keep "
        };
        assert!(rt; is_done(&left, &sealed, &before, calls), "{length} bytes");
    }
    Ok(())
}

#[test]
fn a_copy_of_a_log_that_was_cut_since_stays(rt: HostRuntime) -> Result<(), Fail> {
    let alloc = rt.alloc();
    // The header names a map that was cut off, and was not cleared yet.
    let copy = file_of(alloc, SEALED, HELLO, &[0; 24])?;
    let before = file_of(alloc, SEALED, HELLO, b"")?;
    let sealed = file_of(alloc, SEALED, HELLO_AND_MAP, b"")?;
    let left = cut_beside(alloc, &before, &copy, NONE)?;
    assert!(rt; is_done(&left, &sealed, &copy, "length read_at sync "));
    assert!(rt;
        left.told.as_slice()
            == b"cleared 3 map 1049 count 1 copy aside/3\nsealed 3 map 1049 count 1\n".as_slice()
    );
    Ok(())
}

/// What is at the place of a copy and is none: a copy of another log, of the log as it was before, and more than the log.
const OTHERS: [&[u8]; 3] = [b"an older copy", b"BKLO\0\0\0\x02", &[0; 2000]];

#[test]
fn a_copy_of_something_else_is_left(rt: HostRuntime) -> Result<(), Fail> {
    let alloc = rt.alloc();
    let before = file_of(alloc, OPEN, HELLO, b"\0\0")?;
    let told = b"fault copy exists: aside/3: it is no copy of disk/3\n\
help: move aside/3 to another name and call './bookie seal --cut-torn' again: it copies the log first\n";
    for copy in &OTHERS {
        let left = cut_beside(alloc, &before, copy, NONE)?;
        assert!(rt; left.told.as_slice() == told.as_slice());
        assert!(rt; left.status == 1 && left.on_aside.as_str() == "length read_at ");
        assert!(rt; left.log == before && left.copy.as_slice() == *copy);
        // The way on: the place is free, and the same call is done.
        let again = cut(alloc, &left.log, NONE, NONE)?;
        assert!(rt; again.status == 0 && again.copy == before);
    }
    Ok(())
}

/// The calls of the place of a copy that has a part of the log, and whether one has failed before the copy was kept.
const CALLS: [&str; 5] = [
    "length ",
    "length read_at ",
    "length read_at begin ",
    "length read_at begin append discard ",
    "length read_at begin append keep discard ",
];

#[test]
fn a_copy_that_cannot_be_written_anew_is_left(rt: HostRuntime) -> Result<(), Fail> {
    let alloc = rt.alloc();
    let before = file_of(alloc, OPEN, HELLO, &[0; 24])?;
    let mut part = before.clone()?;
    part.truncate(1030);
    for (number, calls) in CALLS.iter().enumerate() {
        let failing = Failing {
            call: number as u8 + 1,
            is_done: false,
        };
        let left = cut_beside(alloc, &before, &part, failing)?;
        assert!(rt;
            left.status == 1 && left.on_aside.as_str() == *calls,
            "{calls}"
        );
        assert!(rt; left.log == before && left.copy == part, "{calls}");
        assert!(rt;
            left.told.as_slice() == b"fault disk\n".as_slice(),
            "{calls}"
        );
        assert!(rt; !left.is_drafted, "{calls}");
    }
    Ok(())
}

#[test]
fn a_copy_that_stays_and_cannot_be_synced(rt: HostRuntime) -> Result<(), Fail> {
    let alloc = rt.alloc();
    let copy = file_of(alloc, SEALED, HELLO, &[0; 24])?;
    let before = file_of(alloc, SEALED, HELLO, b"")?;
    let failing = Failing {
        call: 3,
        is_done: true,
    };
    let left = cut_beside(alloc, &before, &copy, failing)?;
    assert!(rt; left.status == 1 && left.on_aside.as_str() == "length read_at sync ");
    assert!(rt; left.log == before && left.copy == copy);
    Ok(())
}
