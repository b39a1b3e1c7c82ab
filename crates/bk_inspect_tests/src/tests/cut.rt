//! Logs in memory whose torn end is cut: each kind of end, and the order of the calls.

use super::cut_mem::{Left, NONE, cut, file_of};
use super::{HELLO, HELLO_AND_MAP, OPEN, SEALED};
use std::test::Fail;

/// The first bytes of a header whose map stands at 1024 and has no ledger.
const SEALED_EMPTY: &[u8] = b"BKLO\0\0\0\x01\0\0\0\0\0\0\x04\0\0\0\0\0";

/// Ends behind the last whole record of a log.
pub(super) const ENDS: [&[u8]; 9] = [
    // Less than a length, a length alone, half a record.
    b"\0\0",
    b"\0\0\0\x15",
    b"\0\0\0\x15\0\0\0\0\0\0\0\x01\0\0\0\0\0\0\0\x01hell",
    // Zeros.
    &[0; 40],
    // Lengths of no record: one below 16, one that is negative, one that goes on behind the file.
    b"\0\0\0\x07\0\0\0\0\0\0\0\x01\0\0\0\0\0\0\0\x01hello",
    b"\xff\xff\xff\xff\0\0\0\0\0\0\0\x01\0\0\0\0\0\0\0\x01hello",
    b"\x7f\xff\xff\xff\0\0\0\0\0\0\0\x01\0\0\0\0\0\0\0\x01hello",
    // Half a map, and a map behind what is torn.
    b"\0\0\0\x24\xff\xff\xff\xff\xff\xff\xff\xff\xff\xff\xff\xff\xff\xff\xff\xfe\0\0\0\x01\0\0",
    b"\0\0\0\0\
\0\0\0\x24\xff\xff\xff\xff\xff\xff\xff\xff\xff\xff\xff\xff\xff\xff\xff\xfe\0\0\0\x01\
\0\0\0\0\0\0\0\x01\0\0\0\0\0\0\0\x19",
];

/// The calls of a disk on which a log is cut, and sealed then; and those of one on which it is only sealed.
pub(super) const CUT_AND_SEALED: &str =
    "length read_at view read_at cut length read_at view append sync length patch sync ";

const SEALED_ALONE: &str = "length read_at view length read_at view append sync length patch sync ";

/// Whether the copy has all of the log's bytes, and was kept behind them.
pub(super) fn is_kept(left: &Left, before: &[u8]) -> bool {
    left.on_aside.as_str() == "length begin append keep "
        && left.copy.as_slice() == before
        && !left.is_drafted
}

/// Whether the log was cut and is sealed now: it has these bytes, and its copy has those that it had before.
fn is_cut(left: &Left, before: &[u8], now: &[u8], told: &str) -> bool {
    left.status == 0
        && left.told.as_slice() == told.as_bytes()
        && left.log.as_slice() == now
        && is_kept(left, before)
}

#[test]
fn an_end_of_each_kind_is_cut_behind_a_record(rt: HostRuntime) -> Result<(), Fail> {
    let alloc = rt.alloc();
    let now = file_of(alloc, SEALED, HELLO_AND_MAP, b"")?;
    for end in &ENDS {
        let before = file_of(alloc, OPEN, HELLO, end)?;
        let left = cut(alloc, &before, NONE, NONE)?;
        let told = format!(in alloc;
            "cut 3 at 1049 bytes {} copy aside/3\nsealed 3 map 1049 count 1\n",
            end.len()
        )?;
        assert!(rt; is_cut(&left, &before, &now, &told), "{end:?}");
        assert!(rt; left.on_disk.as_str() == CUT_AND_SEALED, "{end:?}");
    }
    Ok(())
}

#[test]
fn an_end_of_each_kind_is_cut_behind_a_header(rt: HostRuntime) -> Result<(), Fail> {
    let alloc = rt.alloc();
    let now = file_of(alloc, SEALED_EMPTY, b"", b"")?;
    for end in &ENDS {
        let before = file_of(alloc, OPEN, b"", end)?;
        let left = cut(alloc, &before, NONE, NONE)?;
        let told = format!(in alloc;
            "cut 3 at 1024 bytes {} copy aside/3\nsealed 3 map 1024 count 0\n",
            end.len()
        )?;
        assert!(rt; is_cut(&left, &before, &now, &told), "{end:?}");
        assert!(rt; left.on_disk.as_str() == CUT_AND_SEALED, "{end:?}");
    }
    Ok(())
}

#[test]
fn a_log_that_ends_whole_is_only_sealed(rt: HostRuntime) -> Result<(), Fail> {
    let alloc = rt.alloc();
    let before = file_of(alloc, OPEN, HELLO, b"")?;
    let left = cut(alloc, &before, NONE, NONE)?;
    assert!(rt; left.status == 0 && left.on_aside.is_empty());
    assert!(rt; left.on_disk.as_str() == SEALED_ALONE);
    assert!(rt; left.log == file_of(alloc, SEALED, HELLO_AND_MAP, b"")?);
    // A map that no header names is a whole record.
    let before = file_of(alloc, OPEN, HELLO_AND_MAP, b"")?;
    let left = cut(alloc, &before, NONE, NONE)?;
    assert!(rt; left.status == 0 && left.on_aside.is_empty());
    assert!(rt; left.on_disk.as_str() == SEALED_ALONE);
    Ok(())
}

/// Logs that are not to be sealed, each with a torn end: how the header begins, how long the log is, and the text.
const LEFT_ALONE: [(&[u8], u16, &str); 3] = [
    (OPEN, 1023, "fault log 3: short\n"),
    (
        b"BKLX\0\0\0\x01",
        1048,
        "fault log 3: bad magic\nhelp: if './bookie scan' shows no entry in the log, a crash may have left it so, and its file can be moved away\n",
    ),
    (
        b"BKLO\0\0\0\x02",
        1048,
        "fault log 3: version 2\nhelp: if './bookie scan' shows no entry in the log, a crash may have left it so, and its file can be moved away\n",
    ),
];

#[test]
fn a_log_that_is_not_to_be_sealed_is_not_cut(rt: HostRuntime) -> Result<(), Fail> {
    let alloc = rt.alloc();
    for (head, length, text) in &LEFT_ALONE {
        let mut before = file_of(alloc, head, HELLO, b"")?;
        before.truncate(usize::from(*length));
        let left = cut(alloc, &before, NONE, NONE)?;
        assert!(rt;
            left.status == 1 && left.told.as_slice() == text.as_bytes(),
            "{text}"
        );
        assert!(rt; left.log == before && left.on_aside.is_empty(), "{text}");
    }
    Ok(())
}
