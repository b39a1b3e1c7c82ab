//! The words of the command line.

use crate::PauseFault;
use crate::beside::Beside;
use std::env;

/// Reads the words `WHAT N`: what the calls are made beside, and how much of it.
pub(crate) fn read_words(rt: &HostRuntime) -> Result<(Beside, u64), PauseFault> {
    let words: Vec<String> = env::args(rt)?.collect(rt.alloc())?;
    let (Some(what), Some(count)) = (words.get(1), words.get(2)) else {
        return Err(PauseFault::Words);
    };
    let beside = Beside::named(what.as_str()).ok_or(PauseFault::Words)?;
    match count.as_str().parse::<u32>() {
        Ok(count) if count > 0 => Ok((beside, u64::from(count))),
        _ => Err(PauseFault::Words),
    }
}
