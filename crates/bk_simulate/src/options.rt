//! What the options select.

use crate::numbers::{
    BATCH, BadValue, CACHE_LIMIT, COLLECT, DAYS, ENTRY, LEDGER, MAJOR, MEGABYTES, MINOR, RECORD,
    SEED, SLOTS, WRITERS,
};
use crate::parsing::{Thresholds, log_limit_of, retention_of, thresholds_of};
use bk_simulation::{Load, Plan, PlanFault, Retention, RetentionKind, Scale, Upkeep};
use bk_store::Settings;
use clap::ArgMatches;
use std::alloc::{AllocError, Global};

/// Bytes of a megabyte.
const MEGABYTE: u64 = 1_000_000;

/// Seconds of a day.
const DAY: u64 = 86_400;

/// The number of records of a run, about, where the batch is to be chosen.
const RECORDS: u64 = 500_000;

/// The least number of records of a log then.
const PER_LOG: u64 = 128;

/// What the options select. Each retention, pair of thresholds and limit is one run with each other.
#[derive(Drop)]
pub(crate) struct Options<'a> {
    pub retentions: Vec<Retention>,
    pub thresholds: Vec<Thresholds>,
    pub log_limits: Vec<u32>,
    load: Load,
    settings: Settings,
    collect: u64,
    minor: u64,
    major: u64,
    scale: Scale,
    /// The directory to run on; `None`: the simulated disk.
    pub folder: Option<&'a str>,
    /// The file for the page.
    pub html: Option<&'a str>,
    /// Whether the longest hold of each call is printed.
    pub holds: bool,
}

impl<'a> Options<'a> {
    /// Returns the options in the matches of a parse. The inner error is a value out of its range.
    pub(crate) fn read(
        alloc: Global,
        matches: &ArgMatches<'a>,
    ) -> Result<Result<Options<'a>, BadValue<'a>>, AllocError> {
        let numbers = match read_numbers(alloc, matches) {
            Ok(options) => options,
            Err(bad) => return Ok(Err(bad)),
        };
        let mut options = numbers;
        if let Some(bad) = options.read_lists(alloc, matches)? {
            return Ok(Err(bad));
        }
        Ok(Ok(options))
    }

    /// Reads the options that may be repeated. Returns a value that is none of its option.
    fn read_lists(
        &mut self,
        alloc: Global,
        matches: &ArgMatches<'a>,
    ) -> Result<Option<BadValue<'a>>, AllocError> {
        if let Some(bad) = read_retentions(
            &mut self.retentions,
            texts(alloc, matches, "retention")?,
        )? {
            return Ok(Some(bad));
        }
        if let Some(bad) = read_thresholds(
            &mut self.thresholds,
            texts(alloc, matches, "thresholds")?,
        )? {
            return Ok(Some(bad));
        }
        read_limits(&mut self.log_limits, texts(alloc, matches, "log-limit")?)
    }

    /// Returns the plan of a run.
    pub(crate) fn plan(
        &self,
        retention: Retention,
        thresholds: Thresholds,
        log_limit: u32,
    ) -> Result<Plan, PlanFault> {
        let load = Load {
            retention,
            ..self.load
        };
        let settings = Settings {
            log_limit,
            minor: thresholds.minor,
            major: thresholds.major,
            ..self.settings
        };
        let upkeep = Upkeep {
            settings,
            collect_every: self.collect,
            minor_every: self.minor,
            major_every: self.major,
        };
        let scale = Scale {
            batch: batch_of(&self.scale, &load, log_limit),
            ..self.scale
        };
        Plan::new(load, upkeep, scale)
    }
}

/// Returns the batch that was asked for, or one of about `RECORDS` records with `PER_LOG` in a log.
fn batch_of(scale: &Scale, load: &Load, log_limit: u32) -> u64 {
    if scale.batch > 0 {
        return scale.batch;
    }
    let entry = load.entry.max(1);
    let days = (load.seconds / DAY).max(1);
    let wanted = load.rate.saturating_mul(days) / entry / RECORDS;
    let most = u64::from(log_limit) / entry / PER_LOG;
    wanted.min(most).max(1).min(1_048_576)
}

/// Returns the options with their numbers, and empty lists.
fn read_numbers<'a>(alloc: Global, matches: &ArgMatches<'a>) -> Result<Options<'a>, BadValue<'a>> {
    let load = read_load(matches)?;
    let cache_limit = CACHE_LIMIT.read(matches)?.min(u64::from(u32::MAX)) as u32;
    let slots = SLOTS.read(matches)?.min(65_536) as u32;
    let batch = BATCH.read(matches)?;
    let record = RECORD.read(matches)?.min(u64::from(u32::MAX)) as u32;
    Ok(Options {
        retentions: Vec::new(alloc),
        thresholds: Vec::new(alloc),
        log_limits: Vec::new(alloc),
        load,
        settings: Settings {
            cache_limit,
            slots,
            ..Settings::DEFAULT
        },
        collect: COLLECT.read(matches)?.saturating_mul(60),
        minor: MINOR.read(matches)?.saturating_mul(60),
        major: MAJOR.read(matches)?.saturating_mul(60),
        scale: Scale { batch, record },
        folder: matches.get_str("folder"),
        html: matches.get_str("html"),
        holds: matches.get_flag("holds"),
    })
}

/// Returns the load, of some retention.
fn read_load<'a>(matches: &ArgMatches<'a>) -> Result<Load, BadValue<'a>> {
    Ok(Load {
        seconds: DAYS.read(matches)?.saturating_mul(DAY),
        rate: MEGABYTES.read(matches)?.saturating_mul(MEGABYTE),
        entry: ENTRY.read(matches)?,
        ledger: LEDGER.read(matches)?.saturating_mul(MEGABYTE),
        writers: WRITERS.read(matches)?.min(100_000) as u32,
        retention: Retention {
            kind: RetentionKind::Fixed,
            mean: 0,
        },
        seed: SEED.read(matches)?,
    })
}

/// Returns the values of an option that may be repeated.
fn texts<'a>(
    alloc: Global,
    matches: &ArgMatches<'a>,
    name: &'static str,
) -> Result<Vec<&'a str>, AllocError> {
    let mut texts = Vec::new(alloc);
    if let Some(found) = matches.get_strs(name) {
        texts.extend_from_slice(found)?;
    }
    Ok(texts)
}

/// Reads the retentions; without one, three of three days.
fn read_retentions<'a>(
    list: &mut Vec<Retention>,
    texts: Vec<&'a str>,
) -> Result<Option<BadValue<'a>>, AllocError> {
    for text in &texts {
        match retention_of(text) {
            Some(retention) => list.push(retention)?,
            None => return Ok(Some(bad(
                text,
                "retention",
                "fixed:DAYS, exponential:DAYS or heavy:DAYS",
            ))),
        }
    }
    if list.is_empty() {
        for kind in [
            RetentionKind::Fixed,
            RetentionKind::Exponential,
            RetentionKind::HeavyTailed,
        ] {
            list.push(Retention {
                kind,
                mean: 3 * DAY,
            })?;
        }
    }
    Ok(None)
}

/// Reads the thresholds; without a pair, the store's.
fn read_thresholds<'a>(
    list: &mut Vec<Thresholds>,
    texts: Vec<&'a str>,
) -> Result<Option<BadValue<'a>>, AllocError> {
    for text in &texts {
        match thresholds_of(text) {
            Some(pair) => list.push(pair)?,
            None => return Ok(Some(bad(text, "thresholds", "MINOR:MAJOR, each 0 to 1000"))),
        }
    }
    if list.is_empty() {
        list.push(Thresholds {
            minor: Settings::DEFAULT.minor,
            major: Settings::DEFAULT.major,
        })?;
    }
    Ok(None)
}

/// Reads the limits of a log; without one, the store's.
fn read_limits<'a>(
    list: &mut Vec<u32>,
    texts: Vec<&'a str>,
) -> Result<Option<BadValue<'a>>, AllocError> {
    for text in &texts {
        match log_limit_of(text) {
            Some(limit) => list.push(limit)?,
            None => return Ok(Some(bad(text, "log-limit", "a number from 2048 to 4000000000"))),
        }
    }
    if list.is_empty() {
        list.push(Settings::DEFAULT.log_limit)?;
    }
    Ok(None)
}

/// Returns a value that is none of its option.
fn bad<'a>(text: &'a str, name: &'static str, form: &'static str) -> BadValue<'a> {
    BadValue { text, name, form }
}
