//! The values of the options that may be repeated: retentions, thresholds and limits of a log.

use bk_decimal::number;
use bk_record::MAX_LOG_LIMIT;
use bk_simulation::{Retention, RetentionKind};

/// Greatest number of days of a retention.
const MOST_DAYS: u64 = 36_500;

/// Seconds of a day.
const DAY: u64 = 86_400;

/// Thresholds of compactions, in thousandths of live bytes.
#[derive(Clone, Copy, Debug, PartialEq, Eq)]
pub(crate) struct Thresholds {
    pub minor: u32,
    pub major: u32,
}

/// Returns the retention of a word `KIND:DAYS`, where the kind is `fixed`, `exponential` or `heavy`.
pub(crate) fn retention_of(word: &str) -> Option<Retention> {
    let (kind, days) = word.split_once(":")?;
    let kind = match kind {
        "fixed" => RetentionKind::Fixed,
        "exponential" => RetentionKind::Exponential,
        "heavy" => RetentionKind::HeavyTailed,
        _ => return None,
    };
    let days = number(days, MOST_DAYS)?;
    Some(Retention {
        kind,
        mean: days.saturating_mul(DAY),
    })
}

/// Returns the thresholds of a word `MINOR:MAJOR`.
pub(crate) fn thresholds_of(word: &str) -> Option<Thresholds> {
    let (minor, major) = word.split_once(":")?;
    Some(Thresholds {
        minor: u32::try_from(number(minor, 1000)?).ok()?,
        major: u32::try_from(number(major, 1000)?).ok()?,
    })
}

/// Returns the limit of a log of a word, in bytes: 2048 to 4000000000.
pub(crate) fn log_limit_of(word: &str) -> Option<u32> {
    let limit = u32::try_from(number(word, u64::from(MAX_LOG_LIMIT))?).ok()?;
    if limit < 2048 { None } else { Some(limit) }
}
