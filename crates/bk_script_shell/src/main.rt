//! Runs the script of the standard input on a new disk in memory, with the default settings.
#![tactic(auto)]

use bk_script::run_script;
use bk_store::Settings;
use std::io::{BufWriter, Write};
use std::process::ExitCode;

fn main(rt: HostRuntime) -> ExitCode {
    let alloc = rt.alloc();
    let mut errors = rt.stderr();
    let Ok(mut writer) = BufWriter::new(alloc, rt.stdout()) else {
        let _ = writeln!(errors, "fault memory");
        return ExitCode::from(1);
    };
    let status = run_script(
        alloc,
        Settings::DEFAULT,
        &[],
        &mut rt.stdin(),
        &mut writer,
        &mut errors,
    );
    ExitCode::from(status)
}
