//! Benchmark of the store: performs one kind of work after another, in memory or over a directory,
//! so that each can be measured alone.
#![tactic(auto)]

mod entries;
mod fault;
mod flushing;
mod folder;
mod memory;
mod run;
mod stages;
mod trail;
mod words;

use fault::BenchFault;
use std::process::ExitCode;
use words::{Work, read_words};

fn main(rt: HostRuntime) -> ExitCode {
    match work(&rt) {
        Ok(()) => ExitCode::from(0),
        Err(fault) => {
            let _ = eprintln!(rt; "bk_bench: {fault}");
            ExitCode::from(1)
        }
    }
}

/// Runs the part that the command line selects.
fn work(rt: &HostRuntime) -> Result<(), BenchFault> {
    match read_words(rt)? {
        Work::Entries(amount) => run::run(rt, amount),
        Work::Trail(lengths) => trail::run(rt, &lengths),
        Work::Flushing(count) => flushing::run(rt, count),
        Work::Memory(holding, amount) => memory::run(rt, holding, amount),
        Work::Folder(path, work) => folder::run(rt, &path, work),
    }
}
