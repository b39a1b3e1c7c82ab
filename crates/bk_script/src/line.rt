//! Parses a line of a script: words separated by single spaces.

ghost use Rattle.std.specs.Prelude.{◌≡◌, ◌∷◌, ◌++◌, All, ◌↔◌, IsTrue, IfOk, MatchOption, option_copied};
ghost use Rattle.bk_script.specs.Line.{IsPrintable, IsWord, followed, IsFormed, Spells};

mod calls;
mod forms;
mod numbers;
mod payload;
mod words;

use bk_drive::{AddKind, Step};
use calls::{read_add, read_pad};
use forms::step_of;
use numbers::Numbers;
use std::alloc::Global;
use words::split_word;

/// Number of the last reader of a script. Readers are numbered from 0.
pub const LAST_READER: u32 = 3;

/// Why a line has no step.
#[derive(Clone, Copy, Debug, PartialEq, Eq)]
pub enum LineFault {
    /// The line encodes no step.
    Bad,
    /// Out of memory.
    Memory,
}

/// Parses a line to its step. Readers are numbered from 0 to `last_reader`.
///
/// # Errors
///
/// - `Bad`: the line encodes no step.
/// - `Memory`: out of memory for the payload of the step.
pub fn read_step(alloc: Global, line: &[u8], last_reader: u32) -> Result<Step, LineFault>
    ensures ok { IfOk result (Spells last_reader line.now) }
    ensures bad { result ≡ Err LineFault.Bad → (step : _) → ¬ (Spells last_reader line.now step) }
{
    let Some(text) = printable(line) else {
        return Err(LineFault::Bad);
    };
    let (name, rest) = split_word(text);
    match rest {
        Some(rest) => read_call(alloc, name, rest, last_reader),
        None => match read_form(name, None, last_reader) {
            Some(step) => Ok(step),
            None => Err(LineFault::Bad),
        },
    }
}

/// Parses a line with first word `name`, a space, and `rest`.
fn read_call(alloc: Global, name: &str, rest: &str, last_reader: u32) -> Result<Step, LineFault>
    requires word { IsWord name.now }
    requires printable { All IsPrintable rest.now }
    ensures ok { IfOk result (Spells last_reader (name.now ++ 32 ∷ rest.now)) }
    ensures bad { result ≡ Err LineFault.Bad → (step : _) → ¬ (Spells last_reader (name.now ++ 32 ∷ rest.now) step) }
{
    match name {
        "add" => read_add(alloc, AddKind::Ordinary, rest, last_reader),
        "radd" => read_add(alloc, AddKind::Recovery, rest, last_reader),
        "pad" => read_pad(alloc, rest, last_reader),
        _ => match read_form(name, Some(rest), last_reader) {
            Some(step) => Ok(step),
            None => Err(LineFault::Bad),
        },
    }
}

/// Parses a line of a form, with first word `name` and, if any, the rest after a space.
fn read_form(name: &str, rest: Option<&str>, last_reader: u32) -> Option<Step>
    requires { IsWord name.now }
    ensures { MatchOption result
        ((step : _) → ¬ (IsFormed last_reader (followed name.now (option_copied rest.entry)) step))
        (IsFormed last_reader (followed name.now (option_copied rest.entry))) }
{
    step_of(name, Numbers::read(rest)?, last_reader)
}

/// Returns the bytes as text if each is printable.
fn printable(line: &[u8]) -> Option<&str>
    ensures { MatchOption result (¬ (All IsPrintable line.now))
        (λ text. (text.now ≡ line.now) × All IsPrintable line.now) }
{
    if !is_printable(line) {
        return None;
    }
    str::from_utf8(line).ok()
}

/// Returns whether each byte is between a space and a tilde.
fn is_printable(line: &[u8]) -> bool
    ensures { IsTrue result ↔ All IsPrintable line.now }
{
    line.iter().all(|byte| matches!(byte, b' '..=b'~'))
}
