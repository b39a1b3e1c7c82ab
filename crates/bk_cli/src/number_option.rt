//! An option whose value is a number in a range.

ghost use Rattle.std.specs.Prelude.{◌≡◌, ℕ, false, IfOk, OnErr, IfSome, IfNone};
ghost use Rattle.clap.specs.Matches.{found_of};
ghost use Rattle.clap.specs.Walk.{first_of, rows_of, rule_of};
ghost use Rattle.bk_cli.specs.CommandLine.{option_rule, IsNumberIn, AsksNumber};

use bk_decimal::number;
use clap::{Arg, ArgMatches};
use std::alloc::Global;
use thiserror::Error;

/// An option whose value is a number from `least` to `most`, in plain digits.
#[derive(Clone, Copy, Debug, PartialEq, Eq)]
pub(crate) struct NumberOption {
    /// The name, without the two dashes.
    pub name: &'static str,
    /// The least value.
    pub least: u32,
    /// The greatest value.
    pub most: u32,
    /// The value if the option is not given.
    pub default: u32,
    /// One line of help.
    pub help: &'static str,
}

/// A value that is not a number in its range.
#[derive(Debug, Error, Drop)]
#[error("invalid value '{text}' for '--{name} <NUMBER>': not a number from {least} to {most} in plain digits")]
pub(crate) struct BadValue<'a> {
    pub text: &'a str,
    pub name: &'static str,
    pub least: u32,
    pub most: u32,
}

impl NumberOption {
    /// Returns the definition of the option for clap.
    pub(crate) fn arg<'a>(&self, alloc: Global) -> Arg<'a>
        ensures rule { rule_of result ≡ option_rule self.now.name.now }
        ensures local { result.global ≡ false }
    {
        Arg::new(alloc, self.name)
            .long(self.name)
            .value_name("NUMBER")
            .help(self.help)
    }

    /// Returns the value in the matches of a parse, or the default.
    ///
    /// # Errors
    ///
    /// `BadValue` if the value is out of its range.
    pub(crate) fn read<'a>(&self, matches: &ArgMatches<'a>) -> Result<u32, BadValue<'a>>
        ensures ok { IfOk result (AsksNumber self.now.default self.now.least self.now.most
            (first_of self.now.name.now (rows_of (found_of matches.now)))) }
        ensures err { OnErr result ((n : ℕ) → ¬ (AsksNumber self.now.default self.now.least self.now.most
            (first_of self.now.name.now (rows_of (found_of matches.now))) n)) }
    {
        let Some(text) = matches.get_str(self.name) else {
            return Ok(self.default);
        };
        match number_between(text, self.least, self.most) {
            Some(number) => Ok(number),
            None => Err(BadValue {
                text,
                name: self.name,
                least: self.least,
                most: self.most,
            }),
        }
    }
}

/// Returns the number of a word, if it is from `least` to `most`.
fn number_between(word: &str, least: u32, most: u32) -> Option<u32>
    ensures value { IfSome result (IsNumberIn least most word.now) }
    ensures none { IfNone result ((n : ℕ) → ¬ (IsNumberIn least most word.now n)) }
{
    match number(word, u64::from(most)) {
        Some(n) if n >= u64::from(least) => Some(n as u32),
        _ => None,
    }
}
