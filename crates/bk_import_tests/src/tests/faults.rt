//! Imports in which a call of the disk fails, or an allocation is refused.

use super::{export, put, whole};
use bk_disk::{FaultDisk, LogDisk, MemDisk};
use bk_import::{Done, Imported, Settings, import};
use bk_inspect::{DataForm, Form};
use std::alloc::Global;

/// The calls of the disk: of the opening `list`, then of the log found, which needs no `sync` in
/// memory, `length`, `read_at`, `view`; of the flush `create` and three `append`, then `sync` and
/// `view`; of the sealing `append` and `patch`.
const CALLS: u64 = 12;

/// What an import left: a store on a disk of which one call may fail.
type Left = Done<FaultDisk<MemDisk>>;

/// The records of three entries, of which the disk has the second.
fn records(alloc: Global) -> Option<Vec<u8>> {
    let mut bytes = Vec::new(alloc);
    put(&mut bytes, 1, 3, b"three").ok()?;
    put(&mut bytes, 1, 4, b"four").ok()?;
    put(&mut bytes, 1, 7, b"seven").ok()?;
    Some(bytes)
}

/// A disk with an entry in log 5.
fn one_entry(alloc: Global) -> Option<MemDisk> {
    let mut bytes = Vec::from_slice(alloc, b"BKLO\0\0\0\x01").ok()?;
    bytes.resize(1024, 0).ok()?;
    put(&mut bytes, 1, 4, b"first").ok()?;
    let mut disk = MemDisk::new(alloc);
    disk.create(alloc, 5).ok()?;
    disk.append(alloc, 5, &bytes).ok()?;
    Some(disk)
}

/// Imports the records to a disk of which call `k` fails, after `kept` bytes if it is an append.
/// Returns nothing after a fault.
fn import_failing(alloc: Global, k: u64, kept: usize) -> Option<Left> {
    let bytes = records(alloc)?;
    let disk = FaultDisk::new(one_entry(alloc)?, k, kept);
    let mut reader = bytes.as_slice();
    import(alloc, disk, Settings::DEFAULT, &[], &mut reader).ok()
}

#[test]
fn an_import_whose_disk_fails_at_any_call_ends_with_a_fault(rt: HostRuntime) {
    for k in 1..=CALLS {
        for kept in [0, 7, usize::MAX] {
            let done = import_failing(rt.alloc(), k, kept);
            assert!(rt; done.is_none(), "call {k}, {kept} bytes kept");
        }
    }
    let imported = import_failing(rt.alloc(), CALLS + 1, 0).map(|done| done.imported);
    assert_eq!(rt; imported, Some(Imported { added: 2, held: 1 }));
}

/// Imports the records, and returns whether the disk has what it had and the new entries. Returns
/// nothing after a fault.
fn is_imported(alloc: Global) -> Option<bool> {
    let done = import_failing(alloc, 0, 0)?;
    let mut disk = done.store.into_disk().ok()?;
    let (hex, status) = export(alloc, &mut disk, whole(1), Form::Text, DataForm::Hex);
    if status != 0 {
        return None;
    }
    Some(hex.as_slice() == b"3 7468726565\n4 6669727374\n7 736576656e\n".as_slice())
}

#[test]
fn an_import_without_memory_is_made_again(rt: HostRuntime) {
    let is_right = match is_imported(rt.alloc()) {
        Some(is_right) => Some(is_right),
        None => is_imported(rt.alloc()),
    };
    assert_eq!(rt; is_right, Some(true));
}
