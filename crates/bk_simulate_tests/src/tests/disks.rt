//! The simulated disk has the bytes of one in memory.

use bk_disk::{DiskFault, LogDisk, LogView, MemDisk};
use bk_sim_disk::{MeterDisk, SimDisk, payload_of};
use std::alloc::{AllocError, Global};

/// Bytes of a header.
const HEADER: usize = 1024;

/// Number of records of a log.
const RECORDS: u64 = 600;

/// Returns the record of an entry whose data is its filler.
fn record(alloc: Global, ledger: u64, entry: u64, size: u32) -> Result<Vec<u8>, AllocError> {
    let mut record = Vec::from_slice(alloc, &size.to_be_bytes())?;
    record.extend_from_slice(&payload_of(alloc, ledger, entry, size)?)?;
    Ok(record)
}

/// Returns a header whose bytes at 4 to 8 are a version, and at 100 is a byte.
fn header(alloc: Global) -> Result<Vec<u8>, AllocError> {
    let mut header = vec![in alloc; 0u8; HEADER]?;
    header[..4].copy_from_slice(b"BKLO");
    header[7] = 1;
    header[100] = 9;
    Ok(header)
}

/// Writes a log: a header, records, a piece that is no record, and a patch of the header.
fn fill<D: LogDisk>(alloc: Global, disk: &mut D, log: u32) -> Result<(), DiskFault> {
    let log = log.min(1000);
    disk.create(alloc, log)?;
    let header = header(alloc).map_err(|_| DiskFault::Memory)?;
    disk.append(alloc, log, &header)?;
    for number in 0..RECORDS {
        let size = 16 + (number % 50) as u32;
        let record = record(alloc, number % 7, number, size).map_err(|_| DiskFault::Memory)?;
        disk.append(alloc, log, &record)?;
    }
    disk.append(alloc, log, b"a map, which is no record of an entry")?;
    disk.append(alloc, log, b", and more of it")?;
    disk.patch(alloc, log, b"twelve bytes")
}

/// Returns whether both disks read the same at each of many places.
fn are_same<D: LogDisk, E: LogDisk>(
    alloc: Global,
    one: &mut D,
    other: &mut E,
    log: u32,
) -> Result<bool, DiskFault> {
    let length = one.length(alloc, log)?;
    if other.length(alloc, log)? != length {
        return Ok(false);
    }
    for from in 0..length {
        let count = (from % 1000 * 7919 % 300).min(length - from);
        if one.read_at(alloc, log, from, count)? != other.read_at(alloc, log, from, count)? {
            return Ok(false);
        }
    }
    let whole = length.saturating_sub(HEADER as u64);
    let first = one.view(alloc, log)?;
    let second = other.view(alloc, log)?;
    let bytes = first.read_at(alloc, HEADER as u64, whole)?;
    Ok(second.end() == length && bytes == second.read_at(alloc, HEADER as u64, whole)?)
}

/// Fills both disks, and compares them.
fn compare(alloc: Global) -> Result<bool, DiskFault> {
    let mut plain = MemDisk::new(alloc);
    let mut thin = SimDisk::new(alloc);
    fill(alloc, &mut plain, 3)?;
    fill(alloc, &mut thin, 3)?;
    are_same(alloc, &mut plain, &mut thin, 3)
}

#[test]
fn a_simulated_disk_reads_what_was_written(rt: HostRuntime) {
    assert_eq!(rt; compare(rt.alloc()), Ok(true));
}

/// Returns the bytes of records and others of a filled log, and the number of logs.
fn metered(alloc: Global) -> Result<(u64, u64, u64), DiskFault> {
    let mut disk = MeterDisk::new(alloc, SimDisk::new(alloc));
    fill(alloc, &mut disk, 3)?;
    fill(alloc, &mut disk, 4)?;
    disk.remove(alloc, 4)?;
    let counts = disk.counts();
    Ok((counts.held.records, counts.held.others, counts.logs()))
}

#[test]
fn a_meter_counts_records_and_other_bytes_of_the_logs_that_are_there(rt: HostRuntime) {
    let records = RECORDS * 20 + 12 * 49 * 25;
    assert_eq!(rt; metered(rt.alloc()), Ok((records, 1024 + 37 + 16, 1)));
}
