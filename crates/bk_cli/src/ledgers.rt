//! The operands of `script`: the ledgers deleted earlier.

ghost use Rattle.std.specs.Prelude.{◌≡◌, ℕ, List, Some, false, codes, IfOk, MatchResult};
ghost use Rattle.clap.specs.Matches.{found_of};
ghost use Rattle.clap.specs.Walk.{all_of, rows_of, rule_of, texts};
ghost use Rattle.bk_cli.specs.CommandLine.{last_ledger, words_rule, AsksLedgers};

use bk_decimal::number;
use bk_record::LAST_ID;
use clap::{Arg, ArgAction, ArgMatches};
use std::alloc::{AllocError, Global};
use thiserror::Error;

/// An operand that is not a ledger.
#[derive(Debug, Error, Drop)]
#[error("invalid value '{text}' for '[LEDGER]...': not a number from 0 to 9223372036854775807 in plain digits")]
pub(crate) struct BadLedger<'a> {
    pub text: &'a str,
}

/// Returns the definition of the operands for clap.
pub(crate) fn ledgers_arg<'a>(alloc: Global) -> Arg<'a>
    ensures rule { rule_of result ≡ words_rule (codes "LEDGER") }
    ensures local { result.global ≡ false }
{
    Arg::new(alloc, "LEDGER")
        .action(ArgAction::Append)
        .value_name("LEDGER")
        .help("Take this ledger as deleted before the first step: 0 to 9223372036854775807")
}

/// Parses the operands to ledgers, in order. Fails with the first operand that is not a ledger.
pub(crate) fn read_ledgers<'a>(
    alloc: Global,
    matches: &ArgMatches<'a>,
) -> Result<Result<Vec<u64>, BadLedger<'a>>, AllocError>
    ensures { IfOk result (λ r. MatchResult r
        (λ dead. AsksLedgers (all_of (codes "LEDGER") (rows_of (found_of matches.now))) dead.items)
        (λ _. (dead : List ℕ) → ¬ (AsksLedgers (all_of (codes "LEDGER") (rows_of (found_of matches.now))) dead))) }
{
    match matches.get_strs("LEDGER") {
        Some(words) => ledgers_of(alloc, words),
        None => Ok(Ok(Vec::new(alloc))),
    }
}

/// Parses words to ledgers, in order. Fails with the first word that is not a ledger.
fn ledgers_of<'a>(
    alloc: Global,
    words: &[&'a str],
) -> Result<Result<Vec<u64>, BadLedger<'a>>, AllocError>
    ensures { IfOk result (λ r. MatchResult r
        (λ dead. AsksLedgers (Some (texts words.now)) dead.items)
        (λ _. (dead : List ℕ) → ¬ (AsksLedgers (Some (texts words.now)) dead))) }
{
    let mut dead = Vec::new(alloc);
    for text in words {
        match number(text, LAST_ID) {
            Some(ledger) => dead.push(ledger)?,
            None => return Ok(Err(BadLedger { text: *text })),
        }
    }
    Ok(Ok(dead))
}
