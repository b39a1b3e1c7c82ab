//! The options whose value is a number.

use bk_decimal::number;
use clap::{Arg, ArgMatches};
use std::alloc::Global;

/// An option whose value is a number from `least` to `most`, in plain digits.
#[derive(Clone, Copy, Debug, PartialEq, Eq)]
pub(crate) struct NumberOption {
    /// The name, without the two dashes.
    pub name: &'static str,
    pub least: u64,
    pub most: u64,
    /// The value if the option is not given.
    pub default: u64,
    /// One line of help.
    pub help: &'static str,
}

/// A value that is not one of its option, and what it has to be.
#[derive(Clone, Copy, Debug)]
pub(crate) struct BadValue<'a> {
    pub text: &'a str,
    pub name: &'static str,
    pub form: &'static str,
}

impl NumberOption {
    /// Returns the definition of the option for clap.
    pub(crate) fn arg<'a>(&self, alloc: Global) -> Arg<'a> {
        Arg::new(alloc, self.name)
            .long(self.name)
            .value_name("N")
            .help(self.help)
    }

    /// Returns the value in the matches of a parse, or the default.
    ///
    /// # Errors
    ///
    /// `BadValue` if the value is out of its range.
    pub(crate) fn read<'a>(&self, matches: &ArgMatches<'a>) -> Result<u64, BadValue<'a>> {
        let Some(text) = matches.get_str(self.name) else {
            return Ok(self.default);
        };
        match number(text, self.most) {
            Some(n) if n >= self.least => Ok(n),
            _ => Err(BadValue {
                text,
                name: self.name,
                form: "a number in its range, in plain digits",
            }),
        }
    }
}

pub(crate) static DAYS: NumberOption = NumberOption {
    name: "days",
    least: 1,
    most: 36_500,
    default: 30,
    help: "Simulate this many days: 1 to 36500 [default: 30]",
};

pub(crate) static MEGABYTES: NumberOption = NumberOption {
    name: "megabytes",
    least: 1,
    most: 1_000_000_000,
    default: 108_000,
    help: "Let this many megabytes of records come in per day: 1 to 1000000000 [default: 108000, which is 1.25 a second]",
};

pub(crate) static ENTRY: NumberOption = NumberOption {
    name: "entry",
    least: 20,
    most: 5_000_004,
    default: 4096,
    help: "Bytes of an entry's record, with its length field: 20 to 5000004 [default: 4096]",
};

pub(crate) static LEDGER: NumberOption = NumberOption {
    name: "ledger",
    least: 1,
    most: 100_000_000,
    default: 1000,
    help: "Mean megabytes of a ledger: 1 to 100000000 [default: 1000]",
};

pub(crate) static WRITERS: NumberOption = NumberOption {
    name: "writers",
    least: 1,
    most: 100_000,
    default: 25,
    help: "Ledgers that are written at the same time: 1 to 100000 [default: 25]",
};

pub(crate) static CACHE_LIMIT: NumberOption = NumberOption {
    name: "cache-limit",
    least: 16,
    most: 1_073_741_824,
    default: 67_108_864,
    help: "Payload bytes of the write cache, which is flushed when it is full: 16 to 1073741824 [default: 67108864]",
};

pub(crate) static SLOTS: NumberOption = NumberOption {
    name: "slots",
    least: 1,
    most: 65_536,
    default: 65_536,
    help: "Hold at most this many logs at once: 1 to 65536 [default: 65536]",
};

pub(crate) static COLLECT: NumberOption = NumberOption {
    name: "collect-minutes",
    least: 1,
    most: 1_000_000,
    default: 15,
    help: "Remove logs without live entries this often: 1 to 1000000 [default: 15]",
};

pub(crate) static MINOR: NumberOption = NumberOption {
    name: "minor-minutes",
    least: 0,
    most: 1_000_000,
    default: 60,
    help: "Do minor compactions this often, 0 for never: 0 to 1000000 [default: 60]",
};

pub(crate) static MAJOR: NumberOption = NumberOption {
    name: "major-minutes",
    least: 0,
    most: 1_000_000,
    default: 1440,
    help: "Do major compactions this often, 0 for never: 0 to 1000000 [default: 1440]",
};

pub(crate) static BATCH: NumberOption = NumberOption {
    name: "batch",
    least: 0,
    most: 1_048_576,
    default: 0,
    help: "Let a simulated record stand for this many entries: 1 to 1048576, or 0 to choose [default: 0]",
};

pub(crate) static RECORD: NumberOption = NumberOption {
    name: "record",
    least: 20,
    most: 5_000_004,
    default: 40,
    help: "Bytes of a simulated record: 20 to 5000004 [default: 40]",
};

pub(crate) static SEED: NumberOption = NumberOption {
    name: "seed",
    least: 0,
    most: 9_223_372_036_854_775_807,
    default: 1,
    help: "Number from which all random choices follow [default: 1]",
};
