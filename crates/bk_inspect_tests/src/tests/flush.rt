//! Outputs whose flush fails.

use super::cut_mem::{CutMem, MemAside, NONE, file_of};
use super::{File, HELLO, OPEN, SEALED_LOG, disk_of, find};
use bk_inspect::{
    DigestChoice, DirCommand, EntryRange, Form, ScanChoice, run_cut_and_seal, run_dir, run_seal,
    run_stat,
};
use std::alloc::Global;
use std::io;
use std::io::Write;
use std::process::Abort;
use std::test::Fail;

/// Takes all that is written. One flush fails, counted from 1; none if it is 0.
#[derive(Drop)]
struct Unflushed {
    taken: Vec<u8>,
    left: u8,
}

impl Unflushed {
    /// The flush that fails is still to come.
    fn new(alloc: Global, flush: u8) -> Unflushed {
        Unflushed {
            taken: Vec::new(alloc),
            left: flush,
        }
    }
}

impl Write for Unflushed {
    fn write(&mut self, buf: &[u8]) -> io::Result<usize> {
        self.taken.extend_from_slice(buf)?;
        Ok(buf.len())
    }

    fn flush(&mut self) -> io::Result<()> {
        let fails = self.left == 1;
        self.left = self.left.saturating_sub(1);
        if fails {
            return Err(io::Error::from(io::ErrorKind::Other));
        }
        Ok(())
    }
}

/// Commands, and how often each flushes on a disk with one log.
fn flushes(rt: &impl Abort) -> [(DirCommand, u8); 10] {
    let all = ScanChoice {
        ledger: None,
        from: 0,
        data: true,
    };
    let range = EntryRange {
        ledger: 1,
        first: 0,
        last: 0,
    };
    [
        (DirCommand::Logs, 1),
        (DirCommand::Header(0), 1),
        (DirCommand::Map(0), 1),
        (DirCommand::Scan(0), 1),
        (DirCommand::ScanPart(0, all), 1),
        (find(rt, 1, 0), 1),
        (DirCommand::Ledgers, 1),
        (DirCommand::Entries(range), 1),
        (DirCommand::Check, 2),
        (DirCommand::CheckDigests(DigestChoice::Auto), 2),
    ]
}

/// Whether a command ends as it is to end if this flush fails.
fn ends_well(alloc: Global, command: DirCommand, flush: u8) -> Result<bool, Fail> {
    let mut disk = disk_of(alloc, &[SEALED_LOG])?;
    let mut writer = Unflushed::new(alloc, flush);
    let mut errors = Vec::new(alloc);
    let status = run_dir(alloc, &mut disk, command, &mut writer, &mut errors);
    Ok(is_told(flush, status, &errors))
}

/// Whether a call ended as it is to end if this flush fails, none if it is 0.
fn is_told(flush: u8, status: u8, errors: &[u8]) -> bool {
    if flush == 0 {
        status == 0 && errors.is_empty()
    } else {
        status == 1 && errors == b"fault output\n".as_slice()
    }
}

#[test]
fn a_command_whose_output_is_not_flushed_fails(rt: HostRuntime) -> Result<(), Fail> {
    for (command, flushes) in flushes(&rt) {
        for flush in 0..=flushes {
            assert!(rt;
                ends_well(rt.alloc(), command, flush)?,
                "{command:?}, flush {flush}"
            );
        }
    }
    Ok(())
}

#[test]
fn stat_whose_output_is_not_flushed_fails(rt: HostRuntime) -> Result<(), Fail> {
    for flush in 0..=2 {
        let mut disk = disk_of(rt.alloc(), &[SEALED_LOG])?;
        let mut writer = Unflushed::new(rt.alloc(), flush);
        let mut errors = Vec::new(rt.alloc());
        let status = run_stat(rt.alloc(), &mut disk, &[], &mut writer, &mut errors);
        assert!(rt; is_told(flush, status, &errors), "flush {flush}");
    }
    Ok(())
}

#[test]
fn a_seal_whose_row_is_not_flushed_fails(rt: HostRuntime) -> Result<(), Fail> {
    let file = File {
        log: 3,
        head: OPEN,
        behind: HELLO,
        length: 1049,
    };
    for flush in 0..=1 {
        let mut disk = disk_of(rt.alloc(), &[file])?;
        let mut writer = Unflushed::new(rt.alloc(), flush);
        let mut errors = Vec::new(rt.alloc());
        let status = run_seal(
            rt.alloc(),
            Form::Text,
            &mut disk,
            3,
            &mut writer,
            &mut errors,
        );
        assert!(rt; is_told(flush, status, &errors), "flush {flush}");
    }
    Ok(())
}

#[test]
fn a_cut_whose_rows_are_not_flushed_fails(rt: HostRuntime) -> Result<(), Fail> {
    let alloc = rt.alloc();
    let bytes = file_of(alloc, OPEN, HELLO, b"torn")?;
    for flush in 0..=2 {
        let mut disk = CutMem::of(alloc, &bytes, NONE)?;
        let mut aside = MemAside::new(alloc, NONE);
        let mut writer = Unflushed::new(alloc, flush);
        let mut errors = Vec::new(alloc);
        let status = run_cut_and_seal(
            alloc,
            Form::Text,
            &mut disk,
            &mut aside,
            3,
            &mut writer,
            &mut errors,
        );
        assert!(rt; is_told(flush, status, &errors), "flush {flush}");
    }
    Ok(())
}
