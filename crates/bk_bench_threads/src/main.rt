//! Benchmark of a bookie in memory: by one pass, with each call counted next to the store's own; by
//! concurrent callers; and by concurrent readers with leases.
#![tactic(auto)]

mod calls;
mod counted;
mod entries;
mod fault;
mod reads;
mod serving;
mod words;

use fault::CallersFault;
use serving::serve;
use std::marker::Brand;
use std::process::ExitCode;
use std::sync::ledger::Blank;
use words::read_words;

fn main(rt: HostRuntime) -> ExitCode {
    let asked = match read_words(&rt) {
        Ok(asked) => asked,
        Err(fault) => return refuse(&rt, fault),
    };
    match serve::<Brand, HostRuntime>(&rt, rt.alloc(), Blank::new(100), asked) {
        Ok(()) => ExitCode::from(0),
        Err(fault) => refuse(&rt, fault),
    }
}

/// Prints why the program ends.
fn refuse(rt: &HostRuntime, fault: CallersFault) -> ExitCode {
    let _ = eprintln!(rt; "bk_bench_threads: {fault}");
    ExitCode::from(1)
}
