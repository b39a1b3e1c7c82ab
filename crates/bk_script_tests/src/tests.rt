//! Scripts in memory and on directories, with their output.

mod faults;
mod folder;
mod input;
mod lines;
mod long;
mod streams;
mod worked;

use bk_drive::Settings;
use bk_script::run_script;
use std::alloc::Global;
use std::io::Read;

/// Settings of a store without options.
const DEFAULTS: Settings = Settings {
    log_limit: 1_073_741_824,
    cache_limit: 16_777_216,
    recent: 0,
    slots: 1024,
    leases: 1024,
    minor: 200,
    major: 800,
};

/// Result of a script: its status and the texts on the two streams.
#[derive(Drop)]
struct Shown {
    status: u8,
    output: Vec<u8>,
    errors: Vec<u8>,
}

/// Runs a script on a store without options.
fn run(alloc: Global, script: &str) -> Shown {
    run_from(alloc, DEFAULTS, &[], &mut script.as_bytes())
}

/// Runs the script of a reader on a store with these settings and deleted ledgers.
fn run_from<R: Read>(alloc: Global, settings: Settings, dead: &[u64], reader: &mut R) -> Shown {
    let mut output = Vec::new(alloc);
    let mut errors = Vec::new(alloc);
    let status = run_script(alloc, settings, dead, reader, &mut output, &mut errors);
    Shown {
        status,
        output,
        errors,
    }
}

/// Returns whether a script ended with this status and these texts.
fn is_shown(shown: &Shown, status: u8, output: &str, errors: &str) -> bool {
    shown.status == status
        && shown.output.as_slice() == output.as_bytes()
        && shown.errors.as_slice() == errors.as_bytes()
}
