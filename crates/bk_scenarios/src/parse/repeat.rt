//! Lines that expand to several.
//!
//! A line `repeat N LINE` expands to N lines. In line I, counted from 0, a word `A+B` of `LINE` is
//! the number `A + I * B`, and a word `HH*N` is `HH` N times.

ghost use Rattle.std.specs.Prelude.{◌≡◌, ◌∷◌, ◌++◌, ◌+◌, ◌*◌, ◌^◌, ◌<◌, IfSome};
ghost use Rattle.std.specs.Fmt.{decimal};

use bk_decimal::number;
use std::alloc::{AllocError, Global};

/// Largest number of lines, and of repetitions of a word.
const MOST: u64 = 2_000_000;

/// Parses a line that expands to several: how many, and the rest after that number.
pub(super) fn repeated(line: &str) -> Option<(u64, &str)> {
    let rest = line.strip_prefix("repeat ")?;
    let (count, line) = rest.split_once(' ')?;
    Some((number(count, MOST)?, line))
}

/// Returns the line with this number, counted from 0, of a repeated line.
pub(super) fn line_at(alloc: Global, line: &str, index: u64) -> Result<String, AllocError> {
    let mut text = String::new(alloc);
    for (place, word) in line.split(' ').enumerate() {
        if place > 0 {
            text.push(' ')?;
        }
        push_word(alloc, &mut text, word, index)?;
    }
    Ok(text)
}

/// Appends a word to a text, as it is in the line with this number.
fn push_word(alloc: Global, text: &mut String, word: &str, index: u64) -> Result<(), AllocError> {
    if let Some((first, step)) = counting(word) {
        let number = format!(in alloc; "{}", nth(first, step, index))?;
        text.push_str(&number)?;
        return Ok(());
    }
    let Some((pair, count)) = copied(word) else {
        text.push_str(word)?;
        return Ok(());
    };
    for _ in 0..count {
        text.push_str(pair)?;
    }
    Ok(())
}

/// Parses a word that counts: the first number and the increment.
fn counting(word: &str) -> Option<(u64, u64)>
    ensures { IfSome result (λ found. word.now ≡ decimal found.0 ++ 43 ∷ decimal found.1) }
{
    let (first, step) = word.split_once('+')?;
    Some((number(first, u64::MAX)?, number(step, u64::MAX)?))
}

/// Returns the number after `index` increments.
fn nth(first: u64, step: u64, index: u64) -> u64
    ensures { first + step * index < 2 ^ 64 → result ≡ first + step * index }
{
    first.saturating_add(step.saturating_mul(index))
}

/// Parses a word that repeats its text, and how often.
fn copied(word: &str) -> Option<(&str, u64)> {
    let (pair, count) = word.split_once('*')?;
    Some((pair, number(count, MOST)?))
}
