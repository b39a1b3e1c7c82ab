//! Parses lines whose step is made of numbers only.

ghost use Rattle.std.specs.Prelude.{◌≡◌, [], ◌∷◌, true, false, Some, None, slice_index, if◌then◌else◌, MatchOption};
ghost use Rattle.bk_drive.specs.declared.ledger_reads.LedgerRead.TheVariants as reads;
ghost use Rattle.bk_drive.specs.declared.step.Step.TheVariants as steps;
ghost use Rattle.bk_script.specs.Line.{fits, formed};
ghost use Rattle.bk_script.specs.Line as lines;
ghost use Rattle.bk_script.specs.Numbers.{listed};

use crate::line::numbers::Numbers;
use bk_drive::{Kind, LedgerRead, Step, Work};
use bk_record::{Key, LAST_ID, LAST_LOG};

/// Largest number of entries or moves in a line (this project's rule).
const MAX_COUNT: u64 = u32::MAX as u64;

/// Returns the step of a word and its numbers, or `None`. Readers are numbered up to `last_reader`.
pub(crate) fn step_of(name: &str, numbers: Numbers, last_reader: u32) -> Option<Step>
    ensures { result ≡ formed last_reader name.now (listed numbers) }
{
    match name {
        "swap" => alone(numbers, Step::Work(Work::Swap)),
        "write" => alone(numbers, Step::Work(Work::WriteOne)),
        "publish" => alone(numbers, Step::Work(Work::Publish)),
        "roll" => alone(numbers, Step::Work(Work::Roll)),
        "rebuild" => alone(numbers, Step::Work(Work::Rebuild)),
        "minor" => alone(numbers, Step::Work(Work::Begin(Kind::Minor))),
        "major" => alone(numbers, Step::Work(Work::Begin(Kind::Major))),
        "end" => alone(numbers, Step::Work(Work::EndCopy)),
        "finish" => alone(numbers, Step::Work(Work::Finish)),
        "giveup" => alone(numbers, Step::Work(Work::GiveUp)),
        "stats" => alone(numbers, Step::Stats),
        "retire" => Some(Step::Work(Work::Retire(log(numbers)?))),
        "close" => Some(Step::Work(Work::Close(log(numbers)?))),
        "remove" => Some(Step::Work(Work::Remove(log(numbers)?))),
        "copy" => Some(Step::Work(Work::Copy(count(numbers)?))),
        "switch" => Some(Step::Work(Work::Switch(count(numbers)?))),
        "fetch" => Some(Step::Fetch(reader(numbers, last_reader)?)),
        "release" => Some(Step::Release(reader(numbers, last_reader)?)),
        "delete" => Some(Step::Delete(ledger(numbers)?)),
        "fence" => Some(Step::Fence(ledger(numbers)?)),
        "fenced" => Some(Step::Read(LedgerRead::IsFenced(ledger(numbers)?))),
        "last" => Some(Step::Read(LedgerRead::LastEntry(ledger(numbers)?))),
        "holds" => holds(numbers),
        "ledgers" => ledgers(numbers),
        "entries" => entries(numbers),
        "take" => take(numbers, last_reader),
        _ => None,
    }
}

/// Returns the step of a word without numbers.
fn alone(numbers: Numbers, step: Step) -> Option<Step>
    ensures { result ≡ (if fits 0 [] (listed numbers) then Some step else None) }
{
    numbers.are_none().then_some(step)
}

/// Returns the log id that the only number is.
fn log(numbers: Numbers) -> Option<u32>
    ensures { MatchOption result (fits 0 (lines.log ∷ []) (listed numbers) ≡ false)
        (λ n. (fits 0 (lines.log ∷ []) (listed numbers) ≡ true) × (slice_index (listed numbers) 0 ≡ n)) }
{
    match numbers.one(u64::from(LAST_LOG)) {
        Some(n) => Some(n as u32),
        None => None,
    }
}

/// Returns the reader that the only number is.
fn reader(numbers: Numbers, last_reader: u32) -> Option<u32>
    ensures { MatchOption result (fits last_reader (lines.reader ∷ []) (listed numbers) ≡ false)
        (λ n. (fits last_reader (lines.reader ∷ []) (listed numbers) ≡ true) × (slice_index (listed numbers) 0 ≡ n)) }
{
    match numbers.one(u64::from(last_reader)) {
        Some(n) => Some(n as u32),
        None => None,
    }
}

/// Returns the ledger id that the only number is.
fn ledger(numbers: Numbers) -> Option<u64>
    ensures { MatchOption result (fits 0 (lines.id ∷ []) (listed numbers) ≡ false)
        (λ n. (fits 0 (lines.id ∷ []) (listed numbers) ≡ true) × (slice_index (listed numbers) 0 ≡ n)) }
{
    numbers.one(LAST_ID)
}

/// Returns the count that the only number is.
fn count(numbers: Numbers) -> Option<u64>
    ensures { MatchOption result (fits 0 (lines.count ∷ []) (listed numbers) ≡ false)
        (λ n. (fits 0 (lines.count ∷ []) (listed numbers) ≡ true) × (slice_index (listed numbers) 0 ≡ n)) }
{
    numbers.one(MAX_COUNT)
}

/// Returns the take whose reader and key the three numbers are.
fn take(numbers: Numbers, last_reader: u32) -> Option<Step>
    ensures { result ≡ (if fits last_reader (lines.reader ∷ lines.id ∷ lines.id ∷ []) (listed numbers)
        then Some (steps.Take (slice_index (listed numbers) 0)
        (record { ledger = slice_index (listed numbers) 1; entry = slice_index (listed numbers) 2 }))
        else None) }
{
    let (reader, ledger, entry) = numbers.three(u64::from(last_reader), LAST_ID, LAST_ID)?;
    match Key::new(ledger, entry) {
        Some(key) => Some(Step::Take(reader as u32, key)),
        None => None,
    }
}

/// Returns the look-up of the key that the two numbers are.
fn holds(numbers: Numbers) -> Option<Step>
    ensures { result ≡ (if fits 0 (lines.id ∷ lines.id ∷ []) (listed numbers)
        then Some (steps.Read (reads.Holds (record { ledger = slice_index (listed numbers) 0; entry = slice_index (listed numbers) 1 })))
        else None) }
{
    let (ledger, entry) = numbers.two(LAST_ID, LAST_ID)?;
    let key = Key::new(ledger, entry)?;
    Some(Step::Read(LedgerRead::Holds(key)))
}

/// Returns the page of ledgers whose first id and length the two numbers are.
fn ledgers(numbers: Numbers) -> Option<Step>
    ensures { result ≡ (if fits 0 (lines.id ∷ lines.count ∷ []) (listed numbers)
        then Some (steps.Read (reads.Ledgers (slice_index (listed numbers) 0) (slice_index (listed numbers) 1)))
        else None) }
{
    let (from, most) = numbers.two(LAST_ID, MAX_COUNT)?;
    Some(Step::Read(LedgerRead::Ledgers(from, most)))
}

/// Returns the page of entries whose ledger, first id and length the three numbers are.
fn entries(numbers: Numbers) -> Option<Step>
    ensures { result ≡ (if fits 0 (lines.id ∷ lines.id ∷ lines.count ∷ []) (listed numbers)
        then Some (steps.Read (reads.Entries (slice_index (listed numbers) 0) (slice_index (listed numbers) 1) (slice_index (listed numbers) 2)))
        else None) }
{
    let (ledger, from, most) = numbers.three(LAST_ID, LAST_ID, MAX_COUNT)?;
    Some(Step::Read(LedgerRead::Entries(ledger, from, most)))
}
