//! Parses lines that add an entry.

ghost use Rattle.std.specs.Prelude.{◌≡◌, ◌∷◌, ◌++◌, codes, All, IfOk, OnErr};
ghost use Rattle.bk_script.specs.Line.{IsPrintable, Spells, add_word};

use crate::line::LineFault;
use crate::line::numbers::Numbers;
use crate::line::payload::{add, pad};
use crate::line::words::{split_number, split_word};
use bk_decimal::number;
use bk_drive::{AddKind, Step};
use bk_record::{LAST_ID, MAX_PAD};
use std::alloc::Global;

/// Parses the rest of an add.
pub(crate) fn read_add(
    alloc: Global,
    kind: AddKind,
    text: &str,
    last_reader: u32,
) -> Result<Step, LineFault>
    requires { All IsPrintable text.now }
    ensures ok { IfOk result (Spells last_reader (add_word kind ++ 32 ∷ text.now)) }
    ensures bad { result ≡ Err LineFault.Bad → (step : _) → ¬ (Spells last_reader (add_word kind ++ 32 ∷ text.now) step) }
{
    let Some((ledger, text)) = split_number(text, LAST_ID) else {
        return Err(LineFault::Bad);
    };
    let (entry, data) = split_word(text);
    let Some(entry) = number(entry, LAST_ID) else {
        return Err(LineFault::Bad);
    };
    match data {
        None => add(alloc, kind, ledger, entry, ""),
        Some(text) if text.is_empty() => Err(LineFault::Bad),
        Some(text) => add(alloc, kind, ledger, entry, text),
    }
}

/// Parses the rest of a `pad`, an add of zero bytes.
pub(crate) fn read_pad(alloc: Global, text: &str, last_reader: u32) -> Result<Step, LineFault>
    ensures ok { IfOk result (Spells last_reader (codes "pad" ++ 32 ∷ text.now)) }
    ensures bad { result ≡ Err LineFault.Bad → (step : _) → ¬ (Spells last_reader (codes "pad" ++ 32 ∷ text.now) step) }
{
    let Some(numbers) = Numbers::read(Some(text)) else {
        return Err(LineFault::Bad);
    };
    match numbers.three(LAST_ID, LAST_ID, MAX_PAD) {
        Some((ledger, entry, size)) => pad(alloc, ledger, entry, size as usize),
        None => Err(LineFault::Bad),
    }
}
