//! Logs of the largest size.

use super::lengths::Lengths;
use bk_log::LogWriter;
use bk_record::{IDS_LENGTH, MAX_ADDED, MAX_LOG_LENGTH, MAX_LOG_LIMIT, key_of};
use bk_store::{OpenFault, Settings, Store};
use std::alloc::{AllocError, Global};
use std::process::Abort;

/// Settings of a store without options.
const DEFAULTS: Settings = Settings {
    log_limit: 1_073_741_824,
    cache_limit: 16_777_216,
    recent: 0,
    slots: 1024,
    leases: 1024,
    minor: 200,
    major: 800,
};

/// Returns a payload of this size, of this entry of ledger 1, with zeros after the ids.
fn payload(alloc: Global, entry: u64, size: usize) -> Result<Vec<u8>, AllocError> {
    let mut payload = Vec::from_slice(alloc, &1u64.to_be_bytes())?;
    payload.extend_from_slice(&entry.to_be_bytes())?;
    payload.resize(size, 0)?;
    Ok(payload)
}

/// Result of a put.
#[derive(Drop)]
enum Outcome {
    Done,
    NoRoom,
    /// It was refused or put elsewhere.
    Wrong,
}

/// Puts a payload if the log has room for it up to this length, at most that of the format.
fn put(
    rt: &impl Abort,
    alloc: Global,
    disk: &mut Lengths,
    writer: &mut LogWriter,
    payload: &[u8],
    most: u64,
) -> Outcome {
    let _ = key_of(payload).expect(rt, "a key");
    if payload.len() < IDS_LENGTH || payload.len() > MAX_ADDED || most > MAX_LOG_LENGTH {
        return Outcome::Wrong;
    }
    let at = writer.length();
    if at + 4 + payload.len() as u64 > most {
        return Outcome::NoRoom;
    }
    match writer.put(disk, alloc, payload) {
        Ok(place) if u64::from(place.at()) == at.saturating_add(4) => Outcome::Done,
        _ => Outcome::Wrong,
    }
}

/// Creates a log to write to.
fn created(alloc: Global, disk: &mut Lengths) -> Option<LogWriter> {
    LogWriter::create(disk, alloc, 0).ok()
}

/// Puts as many of the longest payloads as fit up to this length. Returns whether each is where it
/// should be.
fn fill(
    rt: &impl Abort,
    alloc: Global,
    disk: &mut Lengths,
    writer: &mut LogWriter,
    most: u64,
) -> Result<bool, AllocError> {
    let longest = payload(alloc, 7, MAX_ADDED)?;
    for _ in 0..1000 {
        match put(rt, alloc, disk, writer, &longest, most) {
            Outcome::Done => {}
            Outcome::NoRoom => return Ok(true),
            Outcome::Wrong => return Ok(false),
        }
    }
    Ok(false)
}

/// Returns a log filled up to this length.
fn filled(rt: &impl Abort, alloc: Global, disk: &mut Lengths, most: u64) -> LogWriter {
    let mut writer = created(alloc, disk).expect(rt, "a log");
    let is_filled = fill(rt, alloc, disk, &mut writer, most).expect(rt, "memory");
    assert!(rt; is_filled, "another place");
    writer
}

/// Returns whether a log is sealed.
fn is_sealed(alloc: Global, disk: &mut Lengths, writer: LogWriter) -> bool {
    writer.seal(disk, alloc).is_ok()
}

/// The map of ledger 1 with 799 records of 5,000,004 bytes, after its length.
const MAP: [u8; 40] =
    *b"\0\0\0\x24\xff\xff\xff\xff\xff\xff\xff\xff\xff\xff\xff\xff\xff\xff\xff\xfe\0\0\0\x01\
\0\0\0\0\0\0\0\x01\0\0\0\0\xee\x1e\xe9\x3c";

/// The patch of its header.
const PATCH: [u8; 12] = *b"\0\0\0\0\xee\x1e\xed\x3c\0\0\0\x01";

/// Returns whether the disk has the log with its map.
fn has_map(disk: &Lengths) -> bool {
    disk.length == Some(3_995_004_260)
        && disk.last.as_slice() == MAP.as_slice()
        && disk.patched == Some(PATCH)
}

#[test]
fn a_log_of_four_thousand_million_bytes(rt: HostRuntime) {
    let alloc = rt.alloc();
    let mut disk = Lengths::new(alloc);
    let writer = filled(&rt, alloc, &mut disk, u64::from(MAX_LOG_LIMIT));
    let (records, length) = (writer.records(), writer.length());
    assert!(rt;
        records == 799 && length == 3_995_004_220,
        "{records} records, {length} bytes"
    );
    assert!(rt; disk.length == Some(3_995_004_220), "the file");
    assert!(rt; is_sealed(alloc, &mut disk, writer), "sealed");
    assert!(rt; has_map(&disk), "with its map");
}

/// Fills a log to the limit of the format, puts a last record of this size and seals the log.
/// Returns whether the last record fits exactly once.
fn seal(rt: &impl Abort, alloc: Global, disk: &mut Lengths, last: usize) -> bool {
    let mut writer = filled(rt, alloc, disk, MAX_LOG_LENGTH);
    let last = payload(alloc, 8, last).expect(rt, "memory");
    let is_full = writer.length() == 4_290_004_456
        && matches!(
            put(rt, alloc, disk, &mut writer, &last, MAX_LOG_LENGTH),
            Outcome::Done
        )
        && matches!(
            put(rt, alloc, disk, &mut writer, &last, MAX_LOG_LENGTH),
            Outcome::NoRoom
        );
    is_full && is_sealed(alloc, disk, writer)
}

/// Last records by size, with the length of the sealed log and whether its header locates a map. A
/// map of 40 bytes ends at the last byte that a log may have, or there is none.
static LAST: [(usize, u64, bool); 3] = [
    (4_962_795, 4_294_967_295, true),
    (4_962_796, 4_294_967_256, false),
    (4_962_835, 4_294_967_295, false),
];

#[test]
fn logs_as_long_as_the_format_lets_them_be(rt: HostRuntime) {
    for (last, length, has_map) in LAST.iter() {
        let mut disk = Lengths::new(rt.alloc());
        assert!(rt;
            seal(&rt, rt.alloc(), &mut disk, *last),
            "the log with {last} bytes"
        );
        assert!(rt;
            disk.length == Some(*length) && disk.patched.is_some() == *has_map,
            "sealed with {last} bytes"
        );
    }
}

/// Returns whether opening fails because log 0 is too long.
fn is_too_long(alloc: Global, disk: Lengths) -> bool {
    matches!(
        Store::open(alloc, disk, DEFAULTS, &[]),
        Err(OpenFault::TooLong(0))
    )
}

#[test]
fn a_log_past_the_greatest_length_is_not_opened(rt: HostRuntime) {
    let mut disk = Lengths::new(rt.alloc());
    disk.length = Some(1 << 32);
    assert!(rt; is_too_long(rt.alloc(), disk));
}
