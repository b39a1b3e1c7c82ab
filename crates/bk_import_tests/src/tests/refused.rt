//! Inputs that are no records of entries, and entries that are refused.

use super::{disk_of, export, put, refusal, whole};
use bk_inspect::{DataForm, Form};
use std::alloc::Global;
use std::test::Fail;

/// Inputs after a good record of 21 bytes, and why each is refused.
const BAD: [(&[u8], &str); 5] = [
    (b"\0\0\0", "bad record at 21"),
    (
        b"\0\0\0\x0f\0\0\0\0\0\0\0\x01\0\0\0\0\0\0\0",
        "bad record at 21",
    ),
    (b"\0\0\0\x10\0\0\0\0\0\0\0\x01", "bad record at 21"),
    (b"\0\x4c\x4b\x41", "bad record at 21"),
    (b"\0\0\0\x10\0\0\0\0\0\0\0\x02\0\0\0\0\0\0\0\0", "deleted"),
];

/// Why an input is refused that goes on so.
fn refused_after(alloc: Global, end: &[u8]) -> Result<String, Fail> {
    let mut bytes = Vec::new(alloc);
    put(&mut bytes, 1, 0, b"x")?;
    bytes.extend_from_slice(end)?;
    refusal(alloc, &bytes)
}

#[test]
fn what_is_no_record_is_refused_with_its_place(rt: HostRuntime) -> Result<(), Fail> {
    for (end, told) in BAD.iter() {
        let found = refused_after(rt.alloc(), end)?;
        assert_eq!(rt; found.as_str(), *told);
    }
    Ok(())
}

#[test]
fn a_damaged_log_is_exported_up_to_there(rt: HostRuntime) -> Result<(), Fail> {
    let alloc = rt.alloc();
    let mut bytes = Vec::new(alloc);
    put(&mut bytes, 1, 0, b"x")?;
    bytes.extend_from_slice(b"\0\0\0\x07")?;
    let mut disk = disk_of(alloc, &bytes)?;
    let (hex, status) = export(alloc, &mut disk, whole(1), Form::Text, DataForm::Hex);
    assert!(rt; status == 1 && hex.as_slice() == b"0 78\n".as_slice());
    Ok(())
}
