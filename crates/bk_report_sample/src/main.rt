//! Writes the page of a made-up directory, to be looked at.
//!
//! The words are the number of logs, 1 without a word, and which million bytes of the page are
//! written, 0 without a word: some runners take no more output at once.
#![tactic(auto)]

mod sample;

use bk_report::write_page;
use sample::sample_of;
use std::io::Write;
use std::process::ExitCode;
use std::{env, io};

/// The number of bytes that are written at once.
const PIECE: usize = 1_000_000;

fn main(rt: HostRuntime) -> ExitCode {
    match run(&rt) {
        Ok(()) => ExitCode::from(0),
        Err(error) => {
            let _ = eprintln!(rt; "bk_report_sample: {error}");
            ExitCode::from(1)
        }
    }
}

/// Writes the piece of the page that the command line says.
fn run(rt: &HostRuntime) -> io::Result<()> {
    let mut words = env::args(rt)?;
    let _name = words.next();
    let count = number(words.next(), 1);
    let piece = number(words.next(), 0);
    let report = sample_of(rt.alloc(), count)?;
    let mut page = Vec::new(rt.alloc());
    write_page(&report, &mut page)?;
    let from = PIECE.saturating_mul(piece as usize).min(page.len());
    let end = from.saturating_add(PIECE).min(page.len());
    rt.stdout().write_all(&page[from..end])
}

/// Returns the number that a word says, or another if there is none.
fn number(word: Option<String>, other: u32) -> u32 {
    match word {
        Some(word) => word.parse::<u32>().unwrap_or(other),
        None => other,
    }
}
