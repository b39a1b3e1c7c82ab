//! The traits through their bounds: what any honest disk does.

ghost use Rattle.std.specs.Prelude.{◌≡◌, ◌≤◌, ◌<◌, ◌^◌, ◌++◌, IsTrue, IfOk, length, drop};
ghost use Rattle.std.specs.FinMap as map;

use super::table::{Call, Row, Want, check};
use bk_disk::{DiskFault, LogDisk, LogView, MemDisk};
use std::alloc::Global;
use std::process::Abort;

pub(super) static FIRST: [u8; 1027] = [7; 1027];

// Makes a log, and reads its first piece behind the header through a view that is made before the second piece.
pub(super) fn view_between<D: LogDisk>(
    alloc: Global,
    disk: &mut D,
    log: u32,
    first: &[u8],
    second: &[u8],
) -> Result<Vec<u8>, DiskFault>
    requires honest { IsTrue (D.honest disk.old) }
    requires empty { D.files disk.old ≡ map.empty }
    requires id { log < 2 ^ 31 }
    requires headed { 1024 ≤ length first.now }
    ensures honest { D.honest disk.new ≡ D.honest disk.old }
    ensures read { IfOk result (λ read. read.items ≡ drop 1024 first.now) }
    ensures files { IfOk result (λ _. D.files disk.new ≡ map.insert map.empty log (first.now ++ second.now)) }
{
    disk.create(alloc, log)?;
    disk.append(alloc, log, first)?;
    let view = disk.view(alloc, log)?;
    disk.append(alloc, log, second)?;
    view.read_at(alloc, 1024, first.len() as u64 - 1024)
}

const SECOND: [Row; 1] = [(Call::Read(5, 1026, 3), Want::Bytes(&[7, 8, 9]))];

#[test]
fn a_view_made_between_two_appends_reads_the_first(rt: HostRuntime) {
    let mut disk = MemDisk::new(rt.alloc());
    let read = view_between(rt.alloc(), &mut disk, 5, &FIRST, &[8, 9]).expect(&rt, "a read");
    assert!(rt; read.as_slice() == [7, 7, 7].as_slice());
    check(&rt, rt.alloc(), &mut disk, &SECOND);
}
