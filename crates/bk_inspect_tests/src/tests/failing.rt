//! Disks that fail, disks that are odd, and outputs that can't be written.

use super::{SEALED_LOG, disk_of, find, run};
use bk_disk::FaultDisk;
use bk_inspect::{DirCommand, EntryRange, ScanChoice, run_dir};
use std::alloc::Global;
use std::io;
use std::io::Write;
use std::process::Abort;
use std::test::Fail;

/// All entries of a log.
const ALL: ScanChoice = ScanChoice {
    ledger: None,
    from: 0,
    data: false,
};

/// Entry 0 of ledger 1.
const FIRST: EntryRange = EntryRange {
    ledger: 1,
    first: 0,
    last: 0,
};

/// How many calls each command makes on a disk with one sealed log.
fn calls(rt: &impl Abort) -> [(DirCommand, u8); 10] {
    [
        (DirCommand::Logs, 3),
        (DirCommand::Header(0), 2),
        (DirCommand::Map(0), 3),
        (DirCommand::Scan(0), 1),
        (find(rt, 1, 0), 4),
        (DirCommand::Check, 4),
        (DirCommand::CheckQuick, 4),
        (DirCommand::ScanPart(0, ALL), 1),
        (DirCommand::Ledgers, 4),
        (DirCommand::Entries(FIRST), 4),
    ]
}

#[test]
fn each_call_that_fails_ends_a_command(rt: HostRuntime) -> Result<(), Fail> {
    for (command, count) in calls(&rt) {
        for k in 1..=u64::from(count) {
            let inner = disk_of(rt.alloc(), &[SEALED_LOG])?;
            let shown = run(rt.alloc(), &mut FaultDisk::new(inner, k, 0), command);
            assert_eq!(rt;
                shown.errors.as_slice(),
                b"fault disk\n".as_slice(),
                "{command:?}, call {k}"
            );
            assert_eq!(rt; shown.output.len(), 0, "{command:?}, call {k}");
            assert_eq!(rt; shown.status, 1, "{command:?}, call {k}");
        }
        let inner = disk_of(rt.alloc(), &[SEALED_LOG])?;
        let shown = run(
            rt.alloc(),
            &mut FaultDisk::new(inner, u64::from(count) + 1, 0),
            command,
        );
        assert_eq!(rt; shown.status, 0, "{command:?}");
    }
    Ok(())
}

/// Takes so many bytes, and fails at the next.
#[derive(Drop)]
struct Narrow {
    left: usize,
    taken: Vec<u8>,
    reason: io::ErrorKind,
}

impl Write for Narrow {
    fn write(&mut self, buf: &[u8]) -> io::Result<usize> {
        if self.left == 0 {
            return Err(io::Error::from(self.reason));
        }
        let count = buf.len().min(self.left);
        self.left -= count;
        self.taken.extend_from_slice(&buf[..count])?;
        Ok(count)
    }

    fn flush(&mut self) -> io::Result<()> {
        Ok(())
    }
}

/// Runs a command on a disk with one sealed log, to an output that takes so many bytes, and what the error stream got.
fn run_narrow(
    alloc: Global,
    command: DirCommand,
    left: usize,
    reason: io::ErrorKind,
) -> Result<(u8, Vec<u8>), Fail> {
    let mut disk = disk_of(alloc, &[SEALED_LOG])?;
    let mut errors = Vec::new(alloc);
    let mut writer = Narrow {
        left,
        taken: Vec::new(alloc),
        reason,
    };
    let status = run_dir(alloc, &mut disk, command, &mut writer, &mut errors);
    Ok((status, errors))
}

#[test]
fn an_output_that_is_full_ends_a_command(rt: HostRuntime) -> Result<(), Fail> {
    let lengths: [(DirCommand, usize); 10] = [
        (DirCommand::Logs, 14),
        (DirCommand::Header(0), 27),
        (DirCommand::Map(0), 5),
        (DirCommand::Scan(0), 39),
        (find(&rt, 1, 0), 18),
        (DirCommand::Check, 5),
        (DirCommand::CheckQuick, 9),
        (DirCommand::ScanPart(0, ALL), 39),
        (DirCommand::Ledgers, 13),
        (DirCommand::Entries(FIRST), 12),
    ];
    for (command, length) in lengths {
        for left in 0..length {
            let (status, errors) = run_narrow(rt.alloc(), command, left, io::ErrorKind::Other)?;
            assert_eq!(rt;
                errors.as_slice(),
                b"fault output\n".as_slice(),
                "{command:?}, {left} bytes"
            );
            assert_eq!(rt; status, 1, "{command:?}, {left} bytes");
        }
        let (status, _) = run_narrow(rt.alloc(), command, length, io::ErrorKind::Other)?;
        assert_eq!(rt; status, 0, "{command:?}");
    }
    Ok(())
}

#[test]
fn an_output_that_nobody_reads_ends_a_command_quietly(rt: HostRuntime) -> Result<(), Fail> {
    for (command, _) in calls(&rt) {
        let (status, errors) = run_narrow(rt.alloc(), command, 3, io::ErrorKind::BrokenPipe)?;
        assert_eq!(rt; errors.len(), 0, "{command:?}");
        assert_eq!(rt; status, 1, "{command:?}");
    }
    Ok(())
}
