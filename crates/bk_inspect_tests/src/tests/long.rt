//! Entries and logs that are longer than what is read at once, and ids above 32 bits.

ghost use Rattle.std.specs.Prelude.{◌<◌};

use super::{File, OPEN, Row, Shown, check, disk_of, done, find, run};
use bk_disk::MemDisk;
use bk_inspect::{
    Digest, DigestChoice, DirCommand, EntryRange, Form, ScanChoice, run_dir_as, run_seal,
};
use std::alloc::{AllocError, Global};
use std::test::Fail;

/// The ledger of the long entry. Its low 32 bits are those of ledger 5.
const WIDE: u64 = 8_589_934_597;

/// The number of data bytes of the long entry.
const LENGTH: u32 = 300_001;

/// The long entry without its data: entry 3 of the wide ledger.
const LONG: &[u8] = b"\0\x04\x93\xf1\0\0\0\x02\0\0\0\x05\0\0\0\0\0\0\0\x03";

/// Entry 3 of ledger 5, with the data `x`.
const NARROW: &[u8] = b"\0\0\0\x11\0\0\0\0\0\0\0\x05\0\0\0\0\0\0\0\x03x";

/// Data in which pieces of any length differ.
fn data(alloc: Global) -> Result<Vec<u8>, AllocError> {
    let mut data = Vec::new(alloc);
    for k in 0..LENGTH {
        data.push((k % 251) as u8)?;
    }
    Ok(data)
}

/// The digit of a number below 16.
fn digit(number: u8) -> u8 {
    if number < 10 {
        number.saturating_add(b'0')
    } else {
        number.saturating_add(b'a' - 10)
    }
}

/// Bytes as two digits each, between two texts.
fn digits(alloc: Global, before: &str, bytes: &[u8], behind: &str) -> Result<Vec<u8>, AllocError> {
    let mut text = Vec::from_slice(alloc, before.as_bytes())?;
    for byte in bytes {
        text.push(digit(*byte / 16))?;
        text.push(digit(*byte % 16))?;
    }
    text.extend_from_slice(behind.as_bytes())?;
    Ok(text)
}

/// A disk with the long entry, and behind it the one of ledger 5.
fn long_disk(alloc: Global) -> Result<MemDisk, Fail> {
    let mut records = Vec::from_slice(alloc, LONG)?;
    records.extend_from_slice(&data(alloc)?)?;
    records.extend_from_slice(NARROW)?;
    let file = File {
        log: 0,
        head: OPEN,
        behind: &records,
        length: 1 << 20,
    };
    disk_of(alloc, &[file])
}

/// Whether a command shows the data of the long entry between these texts, in this form.
fn shows_data(
    alloc: Global,
    form: Form,
    command: DirCommand,
    before: &str,
    behind: &str,
) -> Result<bool, Fail> {
    let mut disk = long_disk(alloc)?;
    let mut output = Vec::new(alloc);
    let mut errors = Vec::new(alloc);
    let status = run_dir_as(alloc, form, &mut disk, command, &mut output, &mut errors);
    let wanted = digits(alloc, before, &data(alloc)?, behind)?;
    Ok(status == 0 && output.as_slice() == wanted.as_slice())
}

/// The scan of the wide ledger with data.
const WITH_DATA: DirCommand = DirCommand::ScanPart(
    0,
    ScanChoice {
        ledger: Some(WIDE),
        from: 0,
        data: true,
    },
);

#[test]
fn data_of_several_pieces_is_shown_whole(rt: HostRuntime) -> Result<(), Fail> {
    let is_whole = shows_data(rt.alloc(), Form::Text, find(&rt, WIDE, 3), "0 1028 ", "\n")?;
    assert!(rt; is_whole, "find");
    let is_whole = shows_data(
        rt.alloc(),
        Form::Text,
        WITH_DATA,
        "1028 8589934597 3 300021 ",
        "\nentries 1 foreign 0 torn 0\n",
    )?;
    assert!(rt; is_whole, "scan");
    Ok(())
}

#[test]
fn data_of_several_pieces_is_whole_in_an_object(rt: HostRuntime) -> Result<(), Fail> {
    let is_whole = shows_data(
        rt.alloc(),
        Form::Json,
        find(&rt, WIDE, 3),
        "{\"found\":true,\"log\":0,\"at\":1028,\"data\":\"",
        "\"}\n",
    )?;
    assert!(rt; is_whole, "find");
    let is_whole = shows_data(
        rt.alloc(),
        Form::Json,
        WITH_DATA,
        "{\"at\":1028,\"ledger\":8589934597,\"entry\":3,\"size\":300021,\"data\":\"",
        "\"}\n{\"entries\":1,\"foreign\":0,\"torn\":0}\n",
    )?;
    assert!(rt; is_whole, "scan");
    Ok(())
}

/// The entries of ledger 5.
const FIVE: EntryRange = EntryRange {
    ledger: 5,
    first: 0,
    last: 9,
};

#[test]
fn ids_above_32_bits_are_told_apart(rt: HostRuntime) -> Result<(), Fail> {
    let mut disk = long_disk(rt.alloc())?;
    let rows = [
        done(
            DirCommand::Ledgers,
            "5 1 21 3 3 1\n8589934597 1 300021 3 3 1\n",
        ),
        done(DirCommand::Entries(FIVE), "3 0 301049 21\n"),
        done(find(&rt, 5, 3), "0 301049 78\n"),
        done(find(&rt, 5, 8_589_934_595), "not found\n"),
    ];
    check(&rt, rt.alloc(), &mut disk, &rows, "wide ids");
    Ok(())
}

/// The number of entries of a log of many.
const COUNT: u64 = 5000;

/// A log of many entries, and what commands show of it.
#[derive(Drop)]
struct Many {
    records: Vec<u8>,
    ledgers: String,
    digests: String,
    scan: String,
}

impl Many {
    /// Entry K of ledger K without data, for each K from 1 on. Each record takes 20 bytes.
    fn new(alloc: Global) -> Result<Many, AllocError> {
        let mut many = Many {
            records: Vec::new(alloc),
            ledgers: String::new(alloc),
            digests: String::new(alloc),
            scan: String::new(alloc),
        };
        for k in 1..=COUNT {
            many.push(alloc, k, 1008 + 20 * k)?;
        }
        Ok(many)
    }

    /// Adds the entry at a position.
    fn push(&mut self, alloc: Global, k: u64, at: u64) -> Result<(), AllocError> {
        self.records.extend_from_slice(b"\0\0\0\x10")?;
        self.records.extend_from_slice(&k.to_be_bytes())?;
        self.records.extend_from_slice(&k.to_be_bytes())?;
        self.ledgers
            .push_str(&format!(in alloc; "{k} 1 20 {k} {k} 1\n")?)?;
        self.digests
            .push_str(&format!(in alloc; "digest {at} {k} {k}\n")?)?;
        self.scan
            .push_str(&format!(in alloc; "{at} {k} {k} 20 -\n")?)
    }

    /// A disk with the log.
    fn disk(&self, alloc: Global) -> Result<MemDisk, Fail> {
        let file = File {
            log: 0,
            head: OPEN,
            behind: &self.records,
            length: 1 << 20,
        };
        disk_of(alloc, &[file])
    }
}

/// The last entry of that log.
const LAST: EntryRange = EntryRange {
    ledger: COUNT,
    first: 0,
    last: COUNT,
};

#[test]
fn the_last_of_many_entries_is_found(rt: HostRuntime) -> Result<(), Fail> {
    let alloc = rt.alloc();
    let mut disk = Many::new(alloc)?.disk(alloc)?;
    let rows = [
        done(find(&rt, COUNT, COUNT), "0 101008 -\n"),
        done(DirCommand::Entries(LAST), "5000 0 101008 20\n"),
    ];
    check(&rt, alloc, &mut disk, &rows, "many entries");
    Ok(())
}

#[test]
fn each_of_many_entries_is_shown(rt: HostRuntime) -> Result<(), Fail> {
    let alloc = rt.alloc();
    let mut many = Many::new(alloc)?;
    many.digests.push_str("0 unsealed\n")?;
    many.scan.push_str("entries 5000 foreign 0 torn 0\n")?;
    let mut disk = many.disk(alloc)?;
    let all = ScanChoice {
        ledger: None,
        from: 0,
        data: true,
    };
    let rows = [
        done(DirCommand::Ledgers, &many.ledgers),
        done(DirCommand::ScanPart(0, all), &many.scan),
        Row {
            command: DirCommand::CheckDigests(DigestChoice::One(Digest::Crc32c)),
            status: 1,
            output: &many.digests,
            errors: "",
        },
    ];
    check(&rt, alloc, &mut disk, &rows, "many entries");
    Ok(())
}

#[test]
fn a_map_of_many_ledgers_is_that_of_the_entries(rt: HostRuntime) -> Result<(), Fail> {
    let alloc = rt.alloc();
    let mut disk = Many::new(alloc)?.disk(alloc)?;
    let mut told = Vec::new(alloc);
    let mut errors = Vec::new(alloc);
    let status = run_seal(alloc, Form::Text, &mut disk, 0, &mut told, &mut errors);
    assert_eq!(rt; status, 0);
    let shown: Shown = run(alloc, &mut disk, DirCommand::Check);
    assert_eq!(rt; shown.output.as_slice(), b"0 ok\n".as_slice());
    assert_eq!(rt; shown.status, 0);
    Ok(())
}
