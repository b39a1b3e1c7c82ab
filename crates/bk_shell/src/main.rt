//! The program: runs scripts on a store, inspects, seals and compacts directories of entry logs,
//! and loads a bookie from many threads.
#![tactic(auto)]

mod load;

use bk_commands::{StartFault, command_of, run_words, tell_fault, tell_reading, words_of};
pub use bk_inspect::{Digest, DigestChoice, DirCommand, EntryRange, ScanChoice, run_dir};
pub use bk_script::run_script;
use load::load_as_asked;
use std::io::{BufWriter, IsTerminal, Stderr};
use std::process::ExitCode;
use std::rt::Clock;
use std::sync::Wait;
use std::thread::Threads;

fn main(rt: HostRuntime) -> ExitCode {
    let mut errors = rt.stderr();
    match run(&rt, &rt, &mut errors) {
        Ok(status) => ExitCode::from(status),
        Err(fault) => {
            tell_fault(fault, &mut errors);
            ExitCode::from(fault.status())
        }
    }
}

/// Runs the command line and returns the exit status. Only `load` uses the threads.
fn run<T: Threads + Wait + Clock + Sync>(
    rt: &HostRuntime,
    threads: &T,
    errors: &mut Stderr,
) -> Result<u8, StartFault> {
    let alloc = rt.alloc();
    let words = words_of(rt)?;
    let Ok(mut writer) = BufWriter::new(alloc, rt.stdout()) else {
        return Err(StartFault::Memory);
    };
    if command_of(&words) == Some("load") {
        return Ok(load_as_asked(rt, threads, &words, &mut writer, errors));
    }
    let mut reader = rt.stdin();
    tell_reading(alloc, &words, reader.is_terminal(), errors);
    Ok(run_words(rt, &words, &mut reader, &mut writer, errors))
}
