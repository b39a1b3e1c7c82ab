//! The program: simulates a bookie and prints a table.
#![tactic(auto)]

mod command;
mod numbers;
mod options;
mod parsing;
mod running;
mod words;

use command::{Asked, read};
use running::run;
use std::io::Write;
use std::process::ExitCode;
use words::words_of;

fn main(rt: HostRuntime) -> ExitCode {
    let mut errors = rt.stderr();
    let words = match words_of(&rt) {
        Ok(words) => words,
        Err(fault) => {
            let _ = writeln!(errors, "{fault}");
            return ExitCode::from(fault.status());
        }
    };
    match read(rt.alloc(), &words) {
        Ok(Asked::Run(options)) => ExitCode::from(run(&rt, &options, &mut errors)),
        Ok(Asked::Help(text)) => ExitCode::from(print(&rt, &text)),
        Ok(Asked::Wrong(text)) => {
            let _ = errors.write_all(text.as_bytes());
            ExitCode::from(2)
        }
        Err(_) => {
            let _ = writeln!(errors, "fault memory");
            ExitCode::from(1)
        }
    }
}

/// Prints a text. Returns the exit status: 1 if it could not be written.
fn print(rt: &HostRuntime, text: &str) -> u8 {
    match rt.stdout().write_all(text.as_bytes()) {
        Ok(()) => 0,
        Err(_) => 1,
    }
}
