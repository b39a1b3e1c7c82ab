//! Logs that are written, byte by byte.

ghost use Rattle.std.specs.Prelude.{◌≡◌, ◌<◌, ◌^◌, false};
ghost use Rattle.bk_log.specs.Writing.{Writes};

use super::{HEAD, HELLO, HELLO_RECORD, log_of};
use bk_disk::{LogDisk, MemDisk};
use bk_log::{CreateFault, LogFault, LogWriter};
use bk_record::{IDS_LENGTH, Location, MAX_LOG_LENGTH, MAX_PAYLOAD, key_of};
use std::alloc::Global;
use std::process::Abort;

/// A record and a map of one ledger, 1, of 25 bytes.
const SEALED: [u8; 65] = *b"\0\0\0\x15\0\0\0\0\0\0\0\x01\0\0\0\0\0\0\0\0hello\
\0\0\0\x24\xff\xff\xff\xff\xff\xff\xff\xff\xff\xff\xff\xff\xff\xff\xff\xfe\0\0\0\x01\0\0\0\0\0\0\0\x01\0\0\0\0\0\0\0\x19";

/// Creates a log.
pub(super) fn create(rt: &impl Abort, alloc: Global, disk: &mut MemDisk, log: u32) -> LogWriter
    requires { log < 2 ^ 31 }
    ensures { Writes disk.new result }
{
    LogWriter::create(disk, alloc, log).expect(rt, "a new log")
}

/// Appends a payload that has a key, if the log has room for it.
pub(super) fn put(
    rt: &impl Abort,
    alloc: Global,
    disk: &mut MemDisk,
    writer: &mut LogWriter,
    payload: &[u8],
) -> Location
    requires { writer.old.failed ≡ false → Writes disk.old writer.old }
    ensures { writer.new.failed ≡ false → Writes disk.new writer.new }
{
    let _ = key_of(payload).expect(rt, "a key");
    assert!(rt; payload.len() >= IDS_LENGTH);
    assert!(rt; payload.len() <= MAX_PAYLOAD);
    assert!(rt; writer.length() + 4 + payload.len() as u64 <= MAX_LOG_LENGTH);
    writer.put(disk, alloc, payload).expect(rt, "a place")
}

/// Log 0 has a header with this start and zeros after it, then the given bytes.
fn check_log(rt: &impl Abort, alloc: Global, disk: &mut MemDisk, head: &[u8], behind: &[u8]) {
    let want = log_of(rt, alloc, head, behind);
    let length = disk.length(alloc, 0).expect(rt, "a length");
    let bytes = disk.read_at(alloc, 0, 0, length).expect(rt, "bytes");
    assert_eq!(rt; bytes.as_slice(), want.as_slice());
}

#[test]
fn a_record_is_written_behind_the_header(rt: HostRuntime) {
    let alloc = rt.alloc();
    let mut disk = MemDisk::new(alloc);
    let mut writer = create(&rt, alloc, &mut disk, 0);
    assert_eq!(rt; writer.length(), 1024);
    let place = put(&rt, alloc, &mut disk, &mut writer, &HELLO);
    assert_eq!(rt; (place.log(), place.at(), place.value()), (0, 1028, 1028));
    assert_eq!(rt;
        (
            writer.log(),
            writer.length(),
            writer.records(),
            writer.failed()
        ),
        (0, 1049, 1, false)
    );
    check_log(&rt, alloc, &mut disk, &HEAD, &HELLO_RECORD);
}

#[test]
fn a_sealed_log_has_its_map_and_says_where(rt: HostRuntime) {
    let alloc = rt.alloc();
    let mut disk = MemDisk::new(alloc);
    let mut writer = create(&rt, alloc, &mut disk, 0);
    put(&rt, alloc, &mut disk, &mut writer, &HELLO);
    writer.seal(&mut disk, alloc).expect(&rt, "a sealed log");
    let head = b"BKLO\0\0\0\x01\0\0\0\0\0\0\x04\x19\0\0\0\x01";
    check_log(&rt, alloc, &mut disk, head, &SEALED);
}

#[test]
fn a_log_without_records_is_sealed_in_its_header_alone(rt: HostRuntime) {
    let alloc = rt.alloc();
    let mut disk = MemDisk::new(alloc);
    let writer = create(&rt, alloc, &mut disk, 0);
    writer.seal(&mut disk, alloc).expect(&rt, "a sealed log");
    let head = b"BKLO\0\0\0\x01\0\0\0\0\0\0\x04\0\0\0\0\0";
    check_log(&rt, alloc, &mut disk, head, b"");
}

#[test]
fn a_log_that_is_there_is_not_made_again(rt: HostRuntime) {
    let mut disk = MemDisk::new(rt.alloc());
    assert_eq!(rt; disk.create(rt.alloc(), 3), Ok(()));
    let refused = LogWriter::create(&mut disk, rt.alloc(), 3);
    let fault = CreateFault {
        made: false,
        fault: LogFault::Odd,
    };
    assert_eq!(rt; refused.err(), Some(fault));
    assert_eq!(rt; disk.length(rt.alloc(), 3), Ok(0));
}
