//! Logs that go while a command is at work.

ghost use Rattle.std.specs.Prelude.{◌≡◌, Err, false};
ghost use Rattle.bk_disk.specs.declared.fault.DiskFault.TheVariants as faults;
ghost use Rattle.std.specs.FinMap as map;

use super::hints::hint_of;
use super::{File, HELLO, OPEN, Row, SEALED_LOG, check, disk_of, done, find, put};
use bk_disk::{DiskFault, LogDisk, MemDisk, MemView};
use bk_hint_disk::{HintedDisk, Hints, MemHints};
use bk_inspect::{Digest, DigestChoice, DirCommand, EntryRange, run_stat};
use std::alloc::Global;
use std::process::Abort;
use std::test::Fail;

/// A disk in memory of which log 0 goes as soon as it is listed: it is removed, or a compaction moves it to another log. So many
/// times the log that it was moved to goes as well, when it is listed.
#[derive(Drop)]
struct Leaving {
    disk: MemDisk,
    log: u32,
    /// The log that comes next, 0 where none does.
    target: u32,
    times: u8,
}

impl Leaving {
    /// Removes the log, and moves it to its target if it has one.
    fn lose(&mut self, alloc: Global) -> Result<(), DiskFault> {
        if self.times == 0 {
            return Ok(());
        }
        self.times -= 1;
        if self.target > 0 && self.target < 1000 {
            let length = self.disk.length(alloc, self.log)?;
            let bytes = self.disk.read_at(alloc, self.log, 0, length)?;
            self.disk.create(alloc, self.target)?;
            self.disk.append(alloc, self.target, &bytes)?;
        }
        self.disk.remove(alloc, self.log)?;
        self.log = self.target;
        self.target = self.target.saturating_add(1);
        Ok(())
    }
}

impl LogDisk for Leaving {
    type View = MemView;

    ghost files = { λ _. map.empty };

    ghost synced = { λ _. map.empty };

    ghost gone = { λ _. map.empty };

    ghost honest = { λ _. false };

    ghost failures = { λ _. 0 };

    fn bounds(&self) {}

    fn is_lost(&self, log: u32) -> bool {
        self.disk.is_lost(log)
    }

    fn is_kept(&self, log: u32) -> bool {
        self.disk.is_kept(log)
    }

    fn count_failures(&self) -> u64 {
        0
    }

    fn list(&mut self, alloc: Global) -> Result<Vec<u32>, DiskFault> {
        let Ok(ids) = self.disk.list(alloc) else {
            return Err(DiskFault::Memory);
        };
        match self.lose(alloc) {
            Ok(()) => Ok(ids),
            Err(_) => Err(DiskFault::Memory),
        }
    }

    fn length(&mut self, alloc: Global, log: u32) -> Result<u64, DiskFault> {
        undisturbed(self.disk.length(alloc, log))
    }

    fn create(&mut self, _alloc: Global, _log: u32) -> Result<(), DiskFault> {
        Err(DiskFault::Memory)
    }

    fn append(&mut self, _alloc: Global, _log: u32, _bytes: &[u8]) -> Result<(), DiskFault> {
        Err(DiskFault::Memory)
    }

    fn patch(&mut self, _alloc: Global, _log: u32, _bytes: &[u8; 12]) -> Result<(), DiskFault> {
        Err(DiskFault::Memory)
    }

    fn sync(&mut self, _alloc: Global, _log: u32) -> Result<(), DiskFault> {
        Err(DiskFault::Memory)
    }

    fn read_at(&mut self, alloc: Global, log: u32, at: u64, n: u64) -> Result<Vec<u8>, DiskFault> {
        undisturbed(self.disk.read_at(alloc, log, at, n))
    }

    fn view(&mut self, alloc: Global, log: u32) -> Result<MemView, DiskFault> {
        undisturbed(self.disk.view(alloc, log))
    }

    fn remove(&mut self, _alloc: Global, _log: u32) -> Result<(), DiskFault> {
        Err(DiskFault::Memory)
    }
}

/// The answer of a disk in memory, whose device doesn't fail.
fn undisturbed<T>(answer: Result<T, DiskFault>) -> Result<T, DiskFault>
    ensures { ¬ (result ≡ Err faults.Disk) }
{
    match answer {
        Err(DiskFault::Disk) => Err(DiskFault::Memory),
        answer => answer,
    }
}

/// A disk with log 0, which goes so many times when it is listed, and log 3 if it is asked for.
fn losing(alloc: Global, others: &[File<'_>], target: u32, times: u8) -> Result<Leaving, Fail> {
    let mut disk = disk_of(alloc, others)?;
    put(alloc, &mut disk, &SEALED_LOG)?;
    Ok(Leaving {
        disk,
        log: 0,
        target,
        times,
    })
}

/// A log with an entry.
const OTHER: File<'static> = File {
    log: 3,
    head: OPEN,
    behind: HELLO,
    length: 1049,
};

/// Holds a command on a folder of two logs, of which log 0 is removed as soon as it is listed, against the row.
fn check_leaving(rt: &impl Abort, alloc: Global, row: &[Row<'_>]) -> Result<(), Fail> {
    let mut disk = losing(alloc, &[OTHER], 0, 1)?;
    check(rt, alloc, &mut disk, row, "a log that goes");
    Ok(())
}

#[test]
fn a_log_that_goes_is_passed_over(rt: HostRuntime) -> Result<(), Fail> {
    check_leaving(&rt, rt.alloc(), &[done(DirCommand::Logs, "3 1049 open\n")])?;
    check_leaving(&rt, rt.alloc(), &[done(DirCommand::Check, "3 unsealed\n")])?;
    check_leaving(
        &rt,
        rt.alloc(),
        &[done(find(&rt, 1, 0), "3 1028 68656c6c6f\n")],
    )?;
    let digests = Row {
        command: DirCommand::CheckDigests(DigestChoice::One(Digest::Crc32)),
        status: 1,
        output: "digest 1028 1 0\n3 unsealed\n",
        errors: "",
    };
    check_leaving(&rt, rt.alloc(), &[digests])
}

/// The entry of the log.
const ENTRY: EntryRange = EntryRange {
    ledger: 1,
    first: 0,
    last: 9,
};

/// What each command shows of the log, once it is in log 5: it was moved to log 4 and from there to log 5.
fn moved(rt: &impl Abort) -> [Row<'static>; 6] {
    [
        done(find(rt, 1, 0), "5 1028 68656c6c6f\n"),
        done(DirCommand::Entries(ENTRY), "0 5 1028 25\n"),
        done(DirCommand::Ledgers, "1 1 25 0 0 1\n"),
        done(DirCommand::Check, "5 ok\n"),
        done(DirCommand::CheckQuick, "5 sealed\n"),
        Row {
            command: DirCommand::CheckDigests(DigestChoice::One(Digest::Crc32)),
            status: 1,
            output: "digest 1028 1 0\n5 ok\n",
            errors: "",
        },
    ]
}

#[test]
fn what_a_compaction_moves_is_found_where_it_is(rt: HostRuntime) -> Result<(), Fail> {
    let rows = moved(&rt);
    for row in &rows {
        let mut disk = losing(rt.alloc(), &[], 4, 2)?;
        let told = Row {
            command: row.command,
            status: row.status,
            output: row.output,
            errors: row.errors,
        };
        check(
            &rt,
            rt.alloc(),
            &mut disk,
            &[told],
            "a log that is moved twice",
        );
    }
    Ok(())
}

/// The hints of the log where it is first, and where it is moved to.
fn hints(rt: &impl Abort, alloc: Global) -> Result<MemHints, Fail> {
    let mut hints = MemHints::new(alloc);
    for log in [0u8, 4, 5] {
        let moved = File { log, ..SEALED_LOG };
        let mut disk = disk_of(alloc, &[moved])?;
        let hint = hint_of(alloc, &mut disk, u32::from(log)).expect(rt, "a hint");
        assert!(rt; hints.put(alloc, u32::from(log), &hint).is_ok());
    }
    Ok(hints)
}

#[test]
fn what_a_compaction_moves_is_found_by_its_hint(rt: HostRuntime) -> Result<(), Fail> {
    let alloc = rt.alloc();
    for row in &moved(&rt) {
        let hints = hints(&rt, alloc)?;
        let mut disk = HintedDisk::new(alloc, losing(alloc, &[], 4, 2)?, hints);
        check(&rt, alloc, &mut disk, &[*row], "a log with hints");
        assert!(rt; disk.unused().is_empty());
    }
    Ok(())
}

#[test]
fn the_last_record_is_that_of_the_later_log(rt: HostRuntime) -> Result<(), Fail> {
    let rows = [
        done(find(&rt, 1, 0), "3 1028 68656c6c6f\n"),
        done(DirCommand::Entries(ENTRY), "0 3 1028 25\n"),
    ];
    for row in &rows {
        // Log 2, to which log 0 is moved, is read after log 3.
        let mut disk = losing(rt.alloc(), &[OTHER], 2, 1)?;
        let told = Row {
            command: row.command,
            status: row.status,
            output: row.output,
            errors: row.errors,
        };
        check(
            &rt,
            rt.alloc(),
            &mut disk,
            &[told],
            "a log below one that was read",
        );
    }
    Ok(())
}

#[test]
fn logs_that_go_each_time_they_are_listed_are_told(rt: HostRuntime) -> Result<(), Fail> {
    let rows = moved(&rt);
    for row in &rows {
        let mut disk = losing(rt.alloc(), &[], 4, 99)?;
        let told = Row {
            command: row.command,
            status: 1,
            output: "",
            errors: "fault directory changes\n",
        };
        check(
            &rt,
            rt.alloc(),
            &mut disk,
            &[told],
            "a log that is moved again",
        );
    }
    Ok(())
}

/// What `stat` shows of a disk: its status, and the texts of both streams one behind the other.
fn stat(alloc: Global, disk: &mut Leaving) -> Result<(u8, Vec<u8>), Fail> {
    let mut output = Vec::new(alloc);
    let mut errors = Vec::new(alloc);
    let status = run_stat(alloc, disk, &[], &mut output, &mut errors);
    output.extend_from_slice(&errors)?;
    Ok((status, output))
}

#[test]
fn the_bytes_that_a_compaction_moves_are_counted(rt: HostRuntime) -> Result<(), Fail> {
    let mut disk = losing(rt.alloc(), &[OTHER], 4, 1)?;
    let (status, told) = stat(rt.alloc(), &mut disk)?;
    let rows = "3 1049 1 25 25 1000 open\n4 1089 1 25 25 1000 sealed\n\
logs 2 length 2138 entries 2 bytes 50 live 50 share 1000\n";
    assert_eq!(rt; told.as_slice(), rows.as_bytes());
    assert_eq!(rt; status, 0);
    let mut disk = losing(rt.alloc(), &[], 4, 99)?;
    let (status, told) = stat(rt.alloc(), &mut disk)?;
    assert_eq!(rt; told.as_slice(), b"fault directory changes\n".as_slice());
    assert_eq!(rt; status, 1);
    Ok(())
}
