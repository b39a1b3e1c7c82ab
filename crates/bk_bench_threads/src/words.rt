//! The words of the command line.

use crate::CallersFault;
use std::alloc::{AllocError, Global};
use std::env;

/// The part of the program that runs.
#[derive(Clone, Copy)]
pub(crate) enum Part {
    /// Calls by one pass next to the store's own, each kind a counted stage.
    Counted,
    /// Adds and takes by concurrent callers.
    Calls,
    /// Reads by concurrent readers.
    Reads,
    /// All of these in order.
    All,
}

/// A part, the number of callers, and how often each repeats its work.
#[derive(Clone, Copy)]
pub(crate) struct Asked {
    pub part: Part,
    pub callers: u32,
    pub count: u64,
}

/// Reads the words: `counted N`, `calls C N`, `reads C N`, `all C N`.
pub(crate) fn read_words(rt: &HostRuntime) -> Result<Asked, CallersFault> {
    let words: Vec<String> = env::args(rt)?.collect(rt.alloc())?;
    let texts = texts_of(rt.alloc(), &words)?;
    match texts.as_slice() {
        ["counted", count] => work_of(Part::Counted, "1", count),
        ["calls", callers, count] => work_of(Part::Calls, callers, count),
        ["reads", callers, count] => work_of(Part::Reads, callers, count),
        ["all", callers, count] => work_of(Part::All, callers, count),
        _ => Err(CallersFault::Words),
    }
}

/// Returns the words after the name of the program.
fn texts_of(alloc: Global, words: &[String]) -> Result<Vec<&str>, AllocError> {
    let mut texts = Vec::new(alloc);
    for word in words.iter().skip(1) {
        texts.push(word.as_str())?;
    }
    Ok(texts)
}

/// Returns the part with two words.
fn work_of(part: Part, callers: &str, count: &str) -> Result<Asked, CallersFault> {
    Ok(Asked {
        part,
        callers: number(callers)?,
        count: u64::from(number(count)?),
    })
}

/// Parses a number below 2^32.
fn number(word: &str) -> Result<u32, CallersFault> {
    match word.parse::<u32>() {
        Ok(number) => Ok(number),
        Err(_) => Err(CallersFault::Words),
    }
}
