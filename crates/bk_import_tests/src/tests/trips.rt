//! Entries go from one disk to another.

use super::{disk_of, export, import_to, put, whole};
use bk_disk::{LogDisk, MemDisk};
use bk_import::{Imported, Settings};
use bk_inspect::{DataForm, DirCommand, EntryRange, Form, run_dir};
use std::alloc::Global;
use std::test::Fail;

/// Three entries of ledger 1, of which one has two records and one no data, and one of ledger 2.
fn records(alloc: Global) -> Result<Vec<u8>, Fail> {
    let mut bytes = Vec::new(alloc);
    put(&mut bytes, 1, 7, b"seven")?;
    put(&mut bytes, 1, 3, b"old")?;
    put(&mut bytes, 2, 0, b"other")?;
    put(&mut bytes, 1, 4, b"")?;
    put(&mut bytes, 1, 3, b"newer")?;
    Ok(bytes)
}

/// The records of ledger 1 as they are exported.
fn exported(alloc: Global) -> Result<Vec<u8>, Fail> {
    let mut bytes = Vec::new(alloc);
    put(&mut bytes, 1, 3, b"newer")?;
    put(&mut bytes, 1, 4, b"")?;
    put(&mut bytes, 1, 7, b"seven")?;
    Ok(bytes)
}

#[test]
fn an_export_has_the_last_record_of_each_entry_in_order(rt: HostRuntime) -> Result<(), Fail> {
    let alloc = rt.alloc();
    let mut disk = disk_of(alloc, &records(alloc)?)?;
    let (raw, status) = export(alloc, &mut disk, whole(1), Form::Text, DataForm::Raw);
    assert_eq!(rt; status, 0);
    assert!(rt; raw.as_slice() == exported(alloc)?.as_slice());
    let (hex, _) = export(alloc, &mut disk, whole(1), Form::Text, DataForm::Hex);
    assert!(rt; hex.as_slice() == b"3 6e65776572\n4 -\n7 736576656e\n".as_slice());
    let range = EntryRange {
        ledger: 1,
        first: 4,
        last: 4,
    };
    let (json, _) = export(alloc, &mut disk, range, Form::Json, DataForm::Hex);
    assert!(rt; json.as_slice() == b"{\"ledger\":1,\"entry\":4,\"data\":\"\"}\n".as_slice());
    Ok(())
}

#[test]
fn what_is_exported_is_imported(rt: HostRuntime) -> Result<(), Fail> {
    let alloc = rt.alloc();
    let raw = exported(alloc)?;
    let empty = MemDisk::new(alloc);
    let (mut disk, imported) = import_to(alloc, empty, Settings::DEFAULT, &raw)?;
    assert_eq!(rt; imported, Imported { added: 3, held: 0 });
    let (again, status) = export(alloc, &mut disk, whole(1), Form::Text, DataForm::Raw);
    assert_eq!(rt; status, 0);
    assert!(rt; again.as_slice() == raw.as_slice());
    let mut output = Vec::new(alloc);
    let mut errors = Vec::new(alloc);
    let status = run_dir(
        alloc,
        &mut disk,
        DirCommand::Check,
        &mut output,
        &mut errors,
    );
    assert!(rt; status == 0 && output.as_slice() == b"0 ok\n".as_slice());
    Ok(())
}

#[test]
fn an_entry_that_is_there_stays(rt: HostRuntime) -> Result<(), Fail> {
    let alloc = rt.alloc();
    let mut there = Vec::new(alloc);
    put(&mut there, 1, 4, b"first")?;
    let disk = disk_of(alloc, &there)?;
    let (mut disk, imported) = import_to(alloc, disk, Settings::DEFAULT, &exported(alloc)?)?;
    assert_eq!(rt; imported, Imported { added: 2, held: 1 });
    let (hex, _) = export(alloc, &mut disk, whole(1), Form::Text, DataForm::Hex);
    assert!(rt; hex.as_slice() == b"3 6e65776572\n4 6669727374\n7 736576656e\n".as_slice());
    Ok(())
}

/// The number of entries of a ledger that a small cache does not hold at once.
const MANY: u8 = 40;

#[test]
fn more_entries_than_the_cache_holds(rt: HostRuntime) -> Result<(), Fail> {
    let alloc = rt.alloc();
    let small = Settings {
        cache_limit: 100,
        log_limit: 2048,
        ..Settings::DEFAULT
    };
    let mut raw = Vec::new(alloc);
    for entry in 0..MANY {
        put(
            &mut raw,
            9,
            entry,
            b"forty-eight bytes of data, more or less, of it.",
        )?;
    }
    let (mut disk, imported) = import_to(alloc, MemDisk::new(alloc), small, &raw)?;
    assert_eq!(rt; imported, Imported { added: 40, held: 0 });
    let (again, status) = export(alloc, &mut disk, whole(9), Form::Text, DataForm::Raw);
    assert_eq!(rt; status, 0);
    assert!(rt; again.as_slice() == raw.as_slice());
    assert!(rt; disk.list(alloc)?.len() > 1);
    Ok(())
}
