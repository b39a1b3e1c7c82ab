//! Runs scenarios from files, each on a disk in memory, and reports which differ from what they
//! expect.
#![tactic(auto)]

mod asking;
mod compare;
mod fault;
mod hexadecimal;
mod noting;
mod numbers;
mod parse;
mod retrying;
mod running;
mod worked;

use compare::{Tally, first_other};
use fault::RunFault;
use running::{Difference, check};
use std::io::{BufWriter, Write};
use std::process::ExitCode;
use std::{env, fs, io};

fn main(rt: HostRuntime) -> ExitCode {
    match run(&rt) {
        Ok(tally) if tally.is_whole() => ExitCode::from(0),
        Ok(_) => ExitCode::from(1),
        Err(_) => ExitCode::from(1),
    }
}

/// Runs the scenarios of the files on the command line. Prints each that differs, then the tally.
fn run(rt: &HostRuntime) -> io::Result<Tally> {
    let names: Vec<String> = env::args(rt)?.collect(rt.alloc())?;
    let mut writer = BufWriter::new(rt.alloc(), rt.stdout())?;
    let mut tally = Tally::new();
    for name in names.iter().skip(1) {
        let agrees = tell(&mut writer, name, &difference(rt, name))?;
        tally = tally.with(agrees);
    }
    writeln!(writer, "{} of {} runs agree", tally.agree(), tally.all())?;
    writer.flush()?;
    Ok(tally)
}

/// Returns how the scenario of a file differs from what it expects. Runs it again if an allocation
/// failed outside its steps.
fn difference(rt: &HostRuntime, name: &str) -> Result<Option<Difference>, RunFault> {
    match difference_of(rt, name) {
        Err(RunFault::Memory | RunFault::Unread) => difference_of(rt, name),
        found => found,
    }
}

fn difference_of(rt: &HostRuntime, name: &str) -> Result<Option<Difference>, RunFault> {
    let Ok(text) = fs::read_to_string(rt, name) else {
        return Err(RunFault::Unread);
    };
    let worked = parse::parse(rt.alloc(), &text)?;
    check(rt.alloc(), &worked)
}

/// Prints a scenario that differs. Returns whether it agrees.
fn tell<W: Write>(
    writer: &mut W,
    name: &str,
    found: &Result<Option<Difference>, RunFault>,
) -> io::Result<bool> {
    match found {
        Ok(None) => return Ok(true),
        Ok(Some(difference)) => writeln!(writer, "{name}: {difference}")?,
        Err(fault) => writeln!(writer, "{name}: {fault}")?,
    }
    Ok(false)
}
