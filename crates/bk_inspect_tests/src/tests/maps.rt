//! Ledgers maps that are longer than what is read at once.

use super::run;
use bk_disk::{LogDisk, MemDisk};
use bk_inspect::DirCommand;
use std::alloc::Global;
use std::test::Fail;

/// The first bytes of a header whose map stands at 1024.
const HEAD: &[u8] = b"BKLO\0\0\0\x01\0\0\0\0\0\0\x04\0";

/// The first of some ledgers, and how many they are. Each has size 7.
type Batch = (u64, u32);

/// Appends the bytes of a batch.
fn push_batch(bytes: &mut Vec<u8>, first: u64, count: u32) -> Result<(), Fail> {
    let size = count.saturating_mul(16).saturating_add(20);
    bytes.extend_from_slice(&size.to_be_bytes())?;
    bytes.extend_from_slice(&(-1i64).to_be_bytes())?;
    bytes.extend_from_slice(&(-2i64).to_be_bytes())?;
    bytes.extend_from_slice(&count.to_be_bytes())?;
    for k in 0..u64::from(count) {
        bytes.extend_from_slice(&first.saturating_add(k).to_be_bytes())?;
        bytes.extend_from_slice(&7u64.to_be_bytes())?;
    }
    Ok(())
}

/// A disk with log 0: a header that counts so many ledgers, and behind it these batches.
fn disk_of(alloc: Global, count: u32, batches: &[Batch]) -> Result<MemDisk, Fail> {
    let mut bytes = Vec::from_slice(alloc, HEAD)?;
    bytes.extend_from_slice(&count.to_be_bytes())?;
    bytes.resize(1024, 0)?;
    for (first, count) in batches {
        push_batch(&mut bytes, *first, *count)?;
    }
    let mut disk = MemDisk::new(alloc);
    disk.create(alloc, 0)?;
    disk.append(alloc, 0, &bytes)?;
    Ok(disk)
}

/// What is shown of a map of these ledgers.
fn lines(alloc: Global, (first, count): Batch) -> Result<String, Fail> {
    let mut text = String::new(alloc);
    for k in 0..u64::from(count) {
        let ledger = first.saturating_add(k);
        text.push_str(format!(in alloc; "{ledger} 7\n")?.as_str())?;
    }
    Ok(text)
}

/// Batches, and the ledgers that they have together: pieces of 4,096 pairs, one pair less and one more, batches without a
/// pair.
const READ: [(&[Batch], Batch); 5] = [
    (&[(0, 4095)], (0, 4095)),
    (&[(0, 4096)], (0, 4096)),
    (&[(0, 4097)], (0, 4097)),
    (&[(8192, 809), (1, 8191)], (1, 9000)),
    (&[(0, 0), (5, 0), (5, 1), (0, 0)], (5, 1)),
];

#[test]
fn maps_of_many_pieces(rt: HostRuntime) -> Result<(), Fail> {
    let alloc = rt.alloc();
    for (batches, whole) in READ {
        let (_, count) = whole;
        let mut disk = disk_of(alloc, count, batches)?;
        let shown = run(alloc, &mut disk, DirCommand::Map(0));
        let wanted = lines(alloc, whole)?;
        assert_eq!(rt;
            shown.output.as_slice(),
            wanted.as_bytes(),
            "{count} ledgers"
        );
        assert_eq!(rt; shown.status, 0, "{count} ledgers");
    }
    Ok(())
}

/// Batches, the count of the header, and what is told of their first fault.
const REFUSED: [(&[Batch], u32, &str); 4] = [
    (&[(0, 4097), (4096, 1)], 4097, "fault repeated 4096\n"),
    (
        &[(0, 5000), (6000, 1000), (0, 1)],
        6000,
        "fault repeated 0\n",
    ),
    (&[(0, 5000)], 4999, "fault count differs 5000\n"),
    (
        &[(0, 4096), (9_223_372_036_854_775_808, 1)],
        4097,
        "fault negative number\n",
    ),
];

#[test]
fn faults_behind_many_pieces(rt: HostRuntime) -> Result<(), Fail> {
    for (batches, count, told) in REFUSED {
        let mut disk = disk_of(rt.alloc(), count, batches)?;
        let shown = run(rt.alloc(), &mut disk, DirCommand::Map(0));
        assert_eq!(rt; shown.errors.as_slice(), told.as_bytes(), "{told}");
        assert_eq!(rt; shown.output.len(), 0, "{told}");
        assert_eq!(rt; shown.status, 1, "{told}");
    }
    Ok(())
}
