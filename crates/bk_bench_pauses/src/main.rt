//! Benchmark of single calls of the store, each beside something large: many logs, keys, ledgers or
//! entries.
#![tactic(auto)]

mod beside;
mod fault;
mod files;
mod run;
mod stages;
mod words;

use fault::PauseFault;
use std::process::ExitCode;
use words::read_words;

fn main(rt: HostRuntime) -> ExitCode {
    match work(&rt) {
        Ok(()) => ExitCode::from(0),
        Err(fault) => {
            let _ = eprintln!(rt; "bk_bench_pauses: {fault}");
            ExitCode::from(1)
        }
    }
}

/// Makes the calls that the command line selects.
fn work(rt: &HostRuntime) -> Result<(), PauseFault> {
    let (beside, count) = read_words(rt)?;
    run::run(rt, beside, count)
}
