//! Surveys of logs that are written by hand, beside `stat` and `ledgers` on the same files.

mod folders;
mod manifests;
mod numbers;
mod pages;

use bk_disk::{LogDisk, MemDisk};
use bk_inspect::Form;
use bk_survey::{PageAsk, Surveyed, Thresholds, survey_disk};
use std::alloc::{AllocError, Global};
use std::test::Fail;

/// The thresholds of a bookie.
const THRESHOLDS: Thresholds = Thresholds {
    minor: 200,
    major: 800,
};

/// The first bytes of a header without a map.
const OPEN: &[u8] = b"BKLO\0\0\0\x01";

/// Those of one whose map of one ledger begins at byte 1124.
const SEALED: &[u8] = b"BKLO\0\0\0\x01\0\0\0\0\0\0\x04\x64\0\0\0\x01";

/// Those of no log.
const BAD: &[u8] = b"BKLP\0\0\0\x01";

/// A map: ledger 1 has 100 bytes.
const MAP: &[u8] =
    b"\0\0\0\x24\xff\xff\xff\xff\xff\xff\xff\xff\xff\xff\xff\xff\xff\xff\xff\xfe\0\0\0\x01\
\0\0\0\0\0\0\0\x01\0\0\0\0\0\0\0\x64";

/// The bytes of a log: a header that begins so, then nothing.
fn headed(alloc: Global, head: &[u8]) -> Result<Vec<u8>, AllocError> {
    let mut bytes = Vec::from_slice(alloc, head)?;
    bytes.resize(1024, 0)?;
    Ok(bytes)
}

/// Appends the record of an entry, of `size` bytes with its length field, 20 to 255.
fn put(bytes: &mut Vec<u8>, ledger: u8, entry: u8, size: u8) -> Result<(), AllocError> {
    let end = bytes.len().saturating_add(usize::from(size));
    bytes.extend_from_slice(&[0, 0, 0, size.saturating_sub(4)])?;
    bytes.extend_from_slice(&[0, 0, 0, 0, 0, 0, 0, ledger])?;
    bytes.extend_from_slice(&[0, 0, 0, 0, 0, 0, 0, entry])?;
    bytes.resize(end, b'x')
}

/// A sealed log with an entry of ledger 1, of 100 bytes.
fn sealed(alloc: Global) -> Result<Vec<u8>, AllocError> {
    let mut bytes = headed(alloc, SEALED)?;
    put(&mut bytes, 1, 0, 100)?;
    bytes.extend_from_slice(MAP)?;
    Ok(bytes)
}

/// The same log, whose entry is of ledger 2, so that its map is wrong.
fn differing(alloc: Global) -> Result<Vec<u8>, AllocError> {
    let mut bytes = headed(alloc, SEALED)?;
    put(&mut bytes, 2, 7, 100)?;
    bytes.extend_from_slice(MAP)?;
    Ok(bytes)
}

/// A log with entries of the ledgers 1 and 2, and three bytes of half a record.
fn torn(alloc: Global) -> Result<Vec<u8>, AllocError> {
    let mut bytes = headed(alloc, OPEN)?;
    put(&mut bytes, 1, 1, 30)?;
    put(&mut bytes, 2, 0, 50)?;
    put(&mut bytes, 1, 0, 21)?;
    bytes.extend_from_slice(b"\0\0\0")?;
    Ok(bytes)
}

/// A log with an entry of ledger 2, and a length below 16 with 16 bytes after it.
fn damaged(alloc: Global, head: &[u8]) -> Result<Vec<u8>, AllocError> {
    let mut bytes = headed(alloc, head)?;
    put(&mut bytes, 2, 9, 40)?;
    bytes.extend_from_slice(b"\0\0\0\x07\0\0\0\0\0\0\0\0\0\0\0\0\0\0\0\0")?;
    Ok(bytes)
}

/// A disk with all of these logs, one of a bad header, and one that is too short for a header.
fn mixed(alloc: Global) -> Result<MemDisk, Fail> {
    let mut disk = MemDisk::new(alloc);
    add(alloc, &mut disk, 0, sealed(alloc)?)?;
    add(alloc, &mut disk, 3, torn(alloc)?)?;
    add(alloc, &mut disk, 4, damaged(alloc, OPEN)?)?;
    add(alloc, &mut disk, 7, Vec::from_slice(alloc, OPEN)?)?;
    add(alloc, &mut disk, 9, damaged(alloc, BAD)?)?;
    add(alloc, &mut disk, 31, differing(alloc)?)?;
    Ok(disk)
}

/// Puts a log on a disk.
fn add(alloc: Global, disk: &mut MemDisk, log: u8, bytes: Vec<u8>) -> Result<(), Fail> {
    let log = u32::from(log);
    disk.create(alloc, log)?;
    disk.append(alloc, log, &bytes)?;
    Ok(())
}

/// What is wrong with these logs, as it is reported.
const FAULTS: &str = "fault log 4: bad length 1064 7\nfault log 9: bad magic\n\
fault log 31: map differs\n";

/// A survey of a disk whose ledger 2 is deleted, and what is reported.
fn survey(alloc: Global, disk: &mut MemDisk, folder: &str) -> (Option<Surveyed>, Vec<u8>) {
    let mut errors = Vec::new(alloc);
    let ask = PageAsk {
        folder,
        time: "today",
        dead: &[2],
        thresholds: THRESHOLDS,
    };
    let surveyed = survey_disk(alloc, Form::Text, disk, &ask, &mut errors);
    (surveyed, errors)
}
