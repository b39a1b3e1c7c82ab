//! `check` with a digest: entries that were written by hand, with digests that another program computed.

use super::{File, HELLO, HELLO_AND_MAP, OPEN, Row, SEALED_LOG, check, disk_of, done};
use bk_inspect::{Digest, DigestChoice, DirCommand};
use std::alloc::Global;
use std::test::Fail;

/// Entries 0 and 1 of ledger 1, with the data `hello` and with none, and CRC-32C.
const FOUR: &[u8] =
    b"\0\0\0)\0\0\0\0\0\0\0\x01\0\0\0\0\0\0\0\0\xff\xff\xff\xff\xff\xff\xff\xff\0\0\0\0\0\0\0\x05\xe3\xa5\xf7Mhello\
\0\0\0$\0\0\0\0\0\0\0\x01\0\0\0\0\0\0\0\x01\0\0\0\0\0\0\0\0\0\0\0\0\0\0\0\0\xfbA!h";

/// Entries 0 and 1 of ledger 2, with the data `hello` and `world`, and CRC-32.
const EIGHT: &[u8] =
    b"\0\0\0-\0\0\0\0\0\0\0\x02\0\0\0\0\0\0\0\0\xff\xff\xff\xff\xff\xff\xff\xff\0\0\0\0\0\0\0\x05\0\0\0\0t\x04Mjhello\
\0\0\0-\0\0\0\0\0\0\0\x02\0\0\0\0\0\0\0\x01\0\0\0\0\0\0\0\0\0\0\0\0\0\0\0\x05\0\0\0\0\xe7\xa0\xaaYworld";

/// The first 40 bytes of the record of entry 4 of ledger 9, with 140,000 zeros as data, and CRC-32C.
const LONG: &[u8] =
    b"\0\x02#\x04\0\0\0\0\0\0\0\x09\0\0\0\0\0\0\0\x04\0\0\0\0\0\0\0\x03\0\0\0\0\0\x02\x22\xe0\xd9t\xf3U";

const CRC32C: DirCommand = DirCommand::CheckDigests(DigestChoice::One(Digest::Crc32c));

const CRC32: DirCommand = DirCommand::CheckDigests(DigestChoice::One(Digest::Crc32));

const AUTO: DirCommand = DirCommand::CheckDigests(DigestChoice::Auto);

/// An unsealed log of these records.
fn log_of(log: u8, records: &[u8]) -> File<'_> {
    File {
        log,
        head: OPEN,
        behind: records,
        length: 1 << 20,
    }
}

/// These records behind one another, the byte at a position of them changed.
fn changed(alloc: Global, records: &[&[u8]], at: usize) -> Result<Vec<u8>, Fail> {
    let mut bytes = Vec::new(alloc);
    for record in records {
        bytes.extend_from_slice(record)?;
    }
    if at < bytes.len() {
        bytes[at] ^= 0x04;
    }
    Ok(bytes)
}

/// A command that finds something wrong.
fn wrong(command: DirCommand, output: &str) -> Row<'_> {
    Row {
        command,
        status: 1,
        output,
        errors: "",
    }
}

#[test]
fn a_log_of_each_digest(rt: HostRuntime) -> Result<(), Fail> {
    let rows = [
        done(DirCommand::Check, "0 unsealed\n1 unsealed\n"),
        wrong(
            CRC32C,
            "0 unsealed\ndigest 1028 2 0\ndigest 1077 2 1\n1 unsealed\n",
        ),
        wrong(
            CRC32,
            "digest 1028 1 0\ndigest 1073 1 1\n0 unsealed\n1 unsealed\n",
        ),
        done(AUTO, "0 unsealed\n1 unsealed\nunknown 0\n"),
    ];
    let mut disk = disk_of(rt.alloc(), &[log_of(0, FOUR), log_of(1, EIGHT)])?;
    check(&rt, rt.alloc(), &mut disk, &rows, "a log of each digest");
    Ok(())
}

#[test]
fn any_changed_byte_behind_the_ids_is_told(rt: HostRuntime) -> Result<(), Fail> {
    for at in 20..45 {
        let bytes = changed(rt.alloc(), &[FOUR], at)?;
        let mut disk = disk_of(rt.alloc(), &[log_of(0, &bytes)])?;
        let rows = [
            done(DirCommand::Check, "0 unsealed\n"),
            wrong(CRC32C, "digest 1028 1 0\n0 unsealed\n"),
        ];
        check(&rt, rt.alloc(), &mut disk, &rows, "four bytes of digest");
    }
    for at in 20..45 {
        let bytes = changed(rt.alloc(), &[EIGHT], at)?;
        let mut disk = disk_of(rt.alloc(), &[log_of(0, &bytes)])?;
        let rows = [wrong(CRC32, "digest 1028 2 0\n0 unsealed\n")];
        check(&rt, rt.alloc(), &mut disk, &rows, "eight bytes of digest");
    }
    Ok(())
}

#[test]
fn the_first_entry_of_a_ledger_tells_its_digest(rt: HostRuntime) -> Result<(), Fail> {
    let second = changed(rt.alloc(), &[FOUR], 84)?;
    let mut disk = disk_of(rt.alloc(), &[log_of(0, FOUR), log_of(3, &second)])?;
    let rows = [wrong(AUTO, "0 unsealed\ndigest 1073 1 1\n3 unsealed\nunknown 0\n")];
    check(&rt, rt.alloc(), &mut disk, &rows, "a second log");
    let first = changed(rt.alloc(), &[FOUR, EIGHT, HELLO], 44)?;
    let mut disk = disk_of(rt.alloc(), &[log_of(0, &first)])?;
    let rows = [
        done(AUTO, "0 unsealed\nunknown 1\n"),
        wrong(
            CRC32C,
            "digest 1028 1 0\ndigest 1113 2 0\ndigest 1162 2 1\ndigest 1211 1 0\n0 unsealed\n",
        ),
    ];
    check(&rt, rt.alloc(), &mut disk, &rows, "a first entry");
    Ok(())
}

/// Entries of ledgers 2^32 + 1 and 3, which have no room for a digest.
const NONE: &[u8] = b"\0\0\0\x10\0\0\0\x01\0\0\0\x01\0\0\0\0\0\0\0\0\
\0\0\0\x10\0\0\0\0\0\0\0\x03\0\0\0\0\0\0\0\0";

#[test]
fn ledgers_without_a_digest_are_counted(rt: HostRuntime) -> Result<(), Fail> {
    let bytes = changed(rt.alloc(), &[FOUR, NONE], usize::MAX)?;
    let mut disk = disk_of(rt.alloc(), &[log_of(0, &bytes)])?;
    let rows = [done(AUTO, "0 unsealed\nunknown 2\n")];
    check(&rt, rt.alloc(), &mut disk, &rows, "two unknown digests");
    Ok(())
}

#[test]
fn a_wrong_map_is_told_beside_the_digests(rt: HostRuntime) -> Result<(), Fail> {
    let mut bytes = Vec::from_slice(rt.alloc(), HELLO_AND_MAP)?;
    bytes.truncate(64);
    bytes.push(0x18)?;
    let file = File {
        behind: &bytes,
        ..SEALED_LOG
    };
    let mut disk = disk_of(rt.alloc(), &[file])?;
    let rows = [wrong(AUTO, "0 map differs\nunknown 1\n")];
    check(&rt, rt.alloc(), &mut disk, &rows, "a wrong map");
    Ok(())
}

#[test]
fn an_entry_without_room_for_a_digest(rt: HostRuntime) -> Result<(), Fail> {
    let mut disk = disk_of(rt.alloc(), &[log_of(0, HELLO)])?;
    let rows = [
        wrong(CRC32C, "digest 1028 1 0\n0 unsealed\n"),
        wrong(CRC32, "digest 1028 1 0\n0 unsealed\n"),
        done(AUTO, "0 unsealed\nunknown 1\n"),
    ];
    check(&rt, rt.alloc(), &mut disk, &rows, "no digest");
    Ok(())
}

#[test]
fn a_bad_length_behind_an_entry(rt: HostRuntime) -> Result<(), Fail> {
    let bytes = changed(rt.alloc(), &[&FOUR[..45], b"\0\0\0\x07rest"], 40)?;
    let mut disk = disk_of(rt.alloc(), &[log_of(0, &bytes), log_of(1, FOUR)])?;
    let rows = [wrong(
        CRC32C,
        "digest 1028 1 0\n0 fault bad length 1069 7\n1 unsealed\n",
    )];
    check(&rt, rt.alloc(), &mut disk, &rows, "a bad length");
    Ok(())
}

#[test]
fn an_entry_of_several_pieces(rt: HostRuntime) -> Result<(), Fail> {
    let mut bytes = Vec::from_slice(rt.alloc(), LONG)?;
    bytes.resize(140_040, 0)?;
    let mut disk = disk_of(rt.alloc(), &[log_of(0, &bytes)])?;
    check(
        &rt,
        rt.alloc(),
        &mut disk,
        &[done(CRC32C, "0 unsealed\n")],
        "zeros",
    );
    for at in [40, 65_576, 140_039] {
        let other = changed(rt.alloc(), &[&bytes], at)?;
        let mut disk = disk_of(rt.alloc(), &[log_of(0, &other)])?;
        let rows = [wrong(CRC32C, "digest 1028 9 4\n0 unsealed\n")];
        check(&rt, rt.alloc(), &mut disk, &rows, "a changed byte");
    }
    Ok(())
}
