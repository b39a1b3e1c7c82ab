//! Commands over logs that have hints: right ones, and others.

use super::meter::{Meter, MeterDisk};
use super::{OPEN, Shown};
use bk_disk::{LogDisk, MemDisk};
use bk_hint_disk::{HintedDisk, Hints, MemHints, Unused, WhyNot, make_hint};
use bk_inspect::{
    DataForm, DirCommand, EntryRange, FolderCommand, Form, run_dir_as, run_export_as, run_seal,
    run_stat_as, tell_unused,
};
use bk_manifest_disk::LimitedDisk;
use bk_record::Key;
use std::alloc::{AllocError, Global};
use std::collections::BTreeMap;
use std::process::Abort;
use std::sync::Arc;
use std::test::Fail;

/// The number of bytes of data of each entry.
pub(super) const DATA: u64 = 8_000;

/// The entries of two logs, as ledger and number, and those of an earlier log 0. Of more than 15
/// records of a log, not all are compared with its hint.
static FIRST: [(u64, u64); 17] = [
    (1, 0),
    (1, 1),
    (1, 2),
    (2, 0),
    (1, 3),
    (1, 4),
    (1, 5),
    (2, 1),
    (2, 2),
    (2, 3),
    (2, 4),
    (2, 5),
    (2, 6),
    (2, 7),
    (2, 8),
    (2, 9),
    (2, 10),
];

static SECOND: [(u64, u64); 4] = [(1, 4), (1, 5), (1, 6), (1, 7)];

static EARLIER: [(u64, u64); 3] = [(1, 0), (1, 1), (2, 0)];

/// Some entries of ledger 1.
const SOME: EntryRange = EntryRange {
    ledger: 1,
    first: 3,
    last: 5,
};

/// The commands that use hints, and how many bytes each shows of records.
pub(super) fn cases(rt: &impl Abort) -> [(FolderCommand<'static>, u64); 6] {
    let key = Key::new(1, 4).expect(rt, "ids of an entry");
    [
        (FolderCommand::Dir(DirCommand::Find(key)), DATA),
        (FolderCommand::Dir(DirCommand::Ledgers), 0),
        (FolderCommand::Dir(DirCommand::Entries(SOME)), 0),
        (FolderCommand::Stat(&[2]), 0),
        (FolderCommand::Export(SOME, DataForm::Hex), 3 * DATA),
        (FolderCommand::Export(SOME, DataForm::Raw), 3 * (DATA + 20)),
    ]
}

/// Appends the record of an entry.
fn push_record(
    alloc: Global,
    bytes: &mut Vec<u8>,
    ledger: u64,
    entry: u64,
) -> Result<(), AllocError> {
    let data = vec![in alloc; entry as u8; DATA as usize]?;
    bytes.extend_from_slice(&(16 + DATA as u32).to_be_bytes())?;
    bytes.extend_from_slice(&ledger.to_be_bytes())?;
    bytes.extend_from_slice(&entry.to_be_bytes())?;
    bytes.extend_from_slice(&data)?;
    Ok(())
}

/// Makes a sealed log of these entries.
fn make(alloc: Global, disk: &mut MemDisk, log: u32, entries: &[(u64, u64)]) -> Option<()> {
    let mut bytes = Vec::from_slice(alloc, OPEN).ok()?;
    bytes.resize(1024, 0).ok()?;
    for (ledger, entry) in entries {
        push_record(alloc, &mut bytes, *ledger, *entry).ok()?;
    }
    disk.create(alloc, log).ok()?;
    disk.append(alloc, log, &bytes).ok()?;
    let mut told = Vec::new(alloc);
    let mut errors = Vec::new(alloc);
    match run_seal(alloc, Form::Text, disk, log, &mut told, &mut errors) {
        0 => Some(()),
        _ => None,
    }
}

/// A disk with the two logs.
pub(super) fn two_logs(alloc: Global) -> Option<MemDisk> {
    let mut disk = MemDisk::new(alloc);
    make(alloc, &mut disk, 0, &FIRST)?;
    make(alloc, &mut disk, 1, &SECOND)?;
    Some(disk)
}

/// Returns the hint of a log.
pub(super) fn hint_of<D: LogDisk>(alloc: Global, disk: &mut D, log: u32) -> Option<Vec<u8>> {
    let header = disk.read_at(alloc, log, 0, 1024).ok()?;
    let view = disk.view(alloc, log).ok()?;
    make_hint(alloc, log, &header, &view).ok()?
}

/// Returns hints of the two logs.
fn hints_of(alloc: Global, disk: &mut MemDisk, first: &[u8]) -> Option<MemHints> {
    let second = hint_of(alloc, disk, 1)?;
    let mut hints = MemHints::new(alloc);
    hints.put(alloc, 0, first).ok()?;
    hints.put(alloc, 1, &second).ok()?;
    Some(hints)
}

/// Returns the hint of an earlier log 0.
fn earlier_hint(alloc: Global) -> Option<Vec<u8>> {
    let mut disk = MemDisk::new(alloc);
    make(alloc, &mut disk, 0, &EARLIER)?;
    hint_of(alloc, &mut disk, 0)
}

/// Returns a hint, cut after half of its bytes.
fn cut(alloc: Global, hint: &[u8]) -> Option<Vec<u8>> {
    hint[..hint.len() / 2].to_vec(alloc).ok()
}

/// Returns a hint with another byte in its middle.
fn changed(alloc: Global, hint: &[u8]) -> Option<Vec<u8>> {
    let mut hint = hint.to_vec(alloc).ok()?;
    let middle = hint.len() / 2;
    *hint.get_mut(middle)? ^= 4;
    Some(hint)
}

/// Hints that may not be used for log 0: an empty one, one that is cut, one with a changed byte, that
/// of log 1, and that of an earlier log 0.
pub(super) fn bad_hints(alloc: Global) -> Option<[Vec<u8>; 5]> {
    let mut disk = two_logs(alloc)?;
    let hint = hint_of(alloc, &mut disk, 0)?;
    Some([
        Vec::new(alloc),
        cut(alloc, &hint)?,
        changed(alloc, &hint)?,
        hint_of(alloc, &mut disk, 1)?,
        earlier_hint(alloc)?,
    ])
}

/// Runs a command on a disk.
fn run_any<D: LogDisk>(alloc: Global, disk: &mut D, command: &FolderCommand<'_>) -> Shown {
    let mut output = Vec::new(alloc);
    let mut errors = Vec::new(alloc);
    let form = Form::Text;
    let status = match command {
        FolderCommand::Dir(command) => {
            run_dir_as(alloc, form, disk, *command, &mut output, &mut errors)
        }
        FolderCommand::Stat(dead) => {
            run_stat_as(alloc, form, disk, dead, &mut output, &mut errors)
        }
        FolderCommand::Export(range, kind) => {
            let (range, kind) = (*range, *kind);
            run_export_as(alloc, form, disk, range, kind, &mut output, &mut errors)
        }
    };
    Shown {
        status,
        output,
        errors,
    }
}

/// What a command did over logs with hints.
#[derive(Drop)]
struct Look {
    shown: Shown,
    /// The number of bytes that were read of the logs.
    bytes: u64,
    unused: Vec<Unused>,
}

/// Runs a command on the two logs, of which the first has these bytes as its hint.
fn run_with(alloc: Global, command: &FolderCommand<'_>, hint: &[u8]) -> Option<Look> {
    let mut disk = two_logs(alloc)?;
    let hints = hints_of(alloc, &mut disk, hint)?;
    let meter = Meter::new(alloc).ok()?;
    let disk = MeterDisk::new(disk, &meter).ok()?;
    let mut disk = HintedDisk::new(alloc, disk, hints);
    let shown = run_any(alloc, &mut disk, command);
    let unused = disk.unused().to_vec(alloc).ok()?;
    let bytes = meter.bytes();
    Some(Look {
        shown,
        bytes,
        unused,
    })
}

/// The most that a command reads of each log beside the records that it shows: the header and the
/// ledgers map, by the command and by the disk, and the first bytes of 16 records.
const FRAME: u64 = 2 * (1024 + 60) + 16 * 20;

#[test]
fn a_command_with_hints_shows_the_same_and_reads_no_other_record(
    rt: HostRuntime,
) -> Result<(), Fail> {
    let alloc = rt.alloc();
    let mut disk = two_logs(alloc).expect(&rt, "two logs");
    let hint = hint_of(alloc, &mut disk, 0).expect(&rt, "a hint");
    for (command, data) in &cases(&rt) {
        let plain = run_any(alloc, &mut disk, command);
        let found = run_with(alloc, command, &hint).expect(&rt, "memory");
        assert!(rt; found.shown == plain, "{command:?}");
        assert!(rt; plain.status == 0 && found.unused.is_empty(), "{command:?}");
        let bytes = found.bytes;
        assert!(rt;
            *data <= bytes && bytes <= *data + 2 * FRAME,
            "{bytes}, {command:?}"
        );
    }
    Ok(())
}

#[test]
fn a_hint_that_may_not_be_used_changes_nothing(rt: HostRuntime) -> Result<(), Fail> {
    let alloc = rt.alloc();
    let mut disk = two_logs(alloc).expect(&rt, "two logs");
    let bad = bad_hints(alloc).expect(&rt, "hints");
    for (command, data) in &cases(&rt) {
        let plain = run_any(alloc, &mut disk, command);
        for (place, hint) in bad.iter().enumerate() {
            let found = run_with(alloc, command, hint).expect(&rt, "memory");
            assert!(rt; found.shown == plain, "hint {place}, {command:?}");
            assert!(rt;
                found.bytes > *data + 2 * FRAME,
                "hint {place}, {command:?}"
            );
            assert!(rt; is_first_alone(&found.unused), "hint {place}, {command:?}");
        }
    }
    Ok(())
}

/// Returns whether the hint of log 0 is the one that was not used.
fn is_first_alone(unused: &[Unused]) -> bool {
    match unused {
        [one] => one.log == 0,
        _ => false,
    }
}

/// A disk of which log 0 is read up to a limit.
fn limited(
    alloc: Global,
    disk: MemDisk,
    meter: &Arc<Meter>,
    limit: u64,
) -> Option<LimitedDisk<MeterDisk>> {
    let mut limits = BTreeMap::new(alloc);
    let _ = limits.insert(0, limit).ok()?;
    let disk = MeterDisk::new(disk, meter).ok()?;
    Some(LimitedDisk::new(disk, limits))
}

/// Runs a command on the two logs, the first read up to a limit, once without hints and once with
/// those of the whole logs. Returns whether both show the same, and which hints were not used.
fn run_limited(
    alloc: Global,
    command: &FolderCommand<'_>,
    limit: u64,
) -> Option<(bool, Vec<Unused>)> {
    let mut disk = two_logs(alloc)?;
    let hint = hint_of(alloc, &mut disk, 0)?;
    let hints = hints_of(alloc, &mut disk, &hint)?;
    let meter = Meter::new(alloc).ok()?;
    let mut disk = limited(alloc, disk, &meter, limit)?;
    let plain = run_any(alloc, &mut disk, command);
    let mut disk = HintedDisk::new(alloc, disk, hints);
    let is_same = run_any(alloc, &mut disk, command) == plain;
    Some((is_same, disk.unused().to_vec(alloc).ok()?))
}

#[test]
fn a_log_with_a_limit_is_not_answered_by_the_hint_of_the_whole_log(
    rt: HostRuntime,
) -> Result<(), Fail> {
    let alloc = rt.alloc();
    let mut disk = two_logs(alloc).expect(&rt, "two logs");
    let length = disk.length(alloc, 0).expect(&rt, "a log");
    let unused = Unused {
        log: 0,
        why: WhyNot::OtherLength(length),
    };
    for (command, _) in &cases(&rt) {
        // In the header, after the second record, and before the last byte of the map.
        for limit in [500, 1024 + 2 * (DATA + 20), length - 1] {
            let (is_same, found) = run_limited(alloc, command, limit).expect(&rt, "memory");
            assert!(rt; is_same, "{limit}, {command:?}");
            assert!(rt;
                found.as_slice() == [unused].as_slice(),
                "{limit}, {command:?}"
            );
        }
    }
    Ok(())
}

/// What is told of two hints, as text and as JSON.
const TOLD: &str = "note hint not used: log 5: hint of a log of 7 bytes\n\
note hint not used: log 31: hint of log 6\n";

const TOLD_AS_JSON: &str =
    "{\"note\":\"hint not used\",\"log\":5,\"why\":\"hint of a log of 7 bytes\"}\n\
{\"note\":\"hint not used\",\"log\":31,\"why\":\"hint of log 6\"}\n";

#[test]
fn a_hint_that_is_not_used_is_told_once(rt: HostRuntime) -> Result<(), Fail> {
    let unused = [
        (5, WhyNot::OtherLength(7)),
        (31, WhyNot::OtherLog(6)),
        (5, WhyNot::Memory),
    ]
    .map(|(log, why)| Unused { log, why });
    for (form, told) in [(Form::Text, TOLD), (Form::Json, TOLD_AS_JSON)] {
        let mut errors = Vec::new(rt.alloc());
        tell_unused(rt.alloc(), form, &unused, &mut errors);
        assert_eq!(rt; errors.as_slice(), told.as_bytes());
    }
    Ok(())
}
