//! The words of the command line.

use crate::BenchFault;
use crate::entries::{Amount, Order};
use crate::folder::{Filling, FolderWork};
use crate::memory::Holding;
use std::alloc::{AllocError, Global};
use std::env;

/// What the command line selects.
#[derive(Drop)]
pub(crate) enum Work {
    /// All stages with N entries.
    Entries(Amount),
    /// Adds at these lengths of the trail.
    Trail(Vec<u64>),
    /// Deletions beside N entries of a flush.
    Flushing(u64),
    /// N entries held in memory in one form.
    Memory(Holding, Amount),
    /// A stage over the directory at a path.
    Folder(String, FolderWork),
}

/// Reads the words: `entries N ORDER`, `trail N..`, `flushing N`, `memory WHAT N ORDER`, `folder
/// WHAT ..`.
pub(crate) fn read_words(rt: &HostRuntime) -> Result<Work, BenchFault> {
    let words: Vec<String> = env::args(rt)?.collect(rt.alloc())?;
    let texts = texts_of(rt.alloc(), &words)?;
    match texts.as_slice() {
        ["entries", count, order] => Ok(Work::Entries(amount(count, order)?)),
        ["memory", holding, count, order] => {
            Ok(Work::Memory(holding_named(holding)?, amount(count, order)?))
        }
        ["flushing", count] => Ok(Work::Flushing(number(count)?)),
        ["trail", lengths @ ..] => Ok(Work::Trail(numbers(rt.alloc(), lengths)?)),
        ["folder", words @ ..] => folder_work(rt.alloc(), words),
        _ => Err(BenchFault::Words),
    }
}

/// Returns the words after the name of the program.
fn texts_of(alloc: Global, words: &[String]) -> Result<Vec<&str>, AllocError> {
    let mut texts = Vec::new(alloc);
    for word in words.iter().skip(1) {
        texts.push(word.as_str())?;
    }
    Ok(texts)
}

fn numbers(alloc: Global, words: &[&str]) -> Result<Vec<u64>, BenchFault> {
    let mut numbers = Vec::new(alloc);
    for word in words {
        let number = number(word)?;
        numbers.push(number).map_err(|_| BenchFault::Memory)?;
    }
    Ok(numbers)
}

/// Reads a stage over a directory: `fill DIR LENGTH BATCH PUBLISHES LIMIT`, `record` with the same
/// words, `open DIR`, `compact DIR`.
fn folder_work(alloc: Global, words: &[&str]) -> Result<Work, BenchFault> {
    let (path, work) = match words {
        ["fill", path, numbers @ ..] => (path, FolderWork::Fill(filling(numbers)?)),
        ["record", path, numbers @ ..] => (path, FolderWork::Record(filling(numbers)?)),
        ["open", path] => (path, FolderWork::Open),
        ["compact", path] => (path, FolderWork::Compact),
        _ => return Err(BenchFault::Words),
    };
    Ok(Work::Folder(String::from_str(alloc, path)?, work))
}

fn filling(numbers: &[&str]) -> Result<Filling, BenchFault> {
    match numbers {
        [length, batch, publishes, limit] => Ok(Filling {
            length: number(length)?,
            batch: number(batch)?,
            publishes: number(publishes)?,
            limit: small_number(limit)?,
        }),
        _ => Err(BenchFault::Words),
    }
}

fn amount(count: &str, order: &str) -> Result<Amount, BenchFault> {
    let order = match order {
        "turn" => Order::Turn,
        "rising" => Order::Rising,
        _ => return Err(BenchFault::Words),
    };
    Ok(Amount {
        count: number(count)?,
        order,
    })
}

fn holding_named(name: &str) -> Result<Holding, BenchFault> {
    match name {
        "nothing" => Ok(Holding::Nothing),
        "log" => Ok(Holding::Log),
        "store" => Ok(Holding::Store),
        "cached" => Ok(Holding::Cached),
        "marks" => Ok(Holding::Marks),
        _ => Err(BenchFault::Words),
    }
}

/// Parses a number below 2^32.
fn number(word: &str) -> Result<u64, BenchFault> {
    small_number(word).map(u64::from)
}

/// Parses a number below 2^32 to 32 bits.
fn small_number(word: &str) -> Result<u32, BenchFault> {
    word.parse::<u32>().map_err(|_| BenchFault::Words)
}
