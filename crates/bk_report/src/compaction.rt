//! What a compaction would free.

ghost use Rattle.std.specs.Prelude.{◌≡◌, count_by};
ghost use Rattle.bk_report.specs.Compaction.{IsEffect, is_taken, sum_taken_of, taken_of};

use crate::LogRow;

/// What a compaction with a threshold would do.
#[derive(Clone, Copy)]
pub struct Effect {
    /// The number of logs that it would take.
    pub logs: u64,
    /// The bytes of entries that it would copy.
    pub copied: u64,
    /// The bytes by which the files would be shorter; 0 if they would be longer.
    pub freed: u64,
}

/// Returns what a compaction of these logs would do that takes each log whose live share is below
/// `threshold`, in thousandths, and each without a live entry.
pub fn effect_of(rows: &[LogRow], threshold: u32) -> Effect
    ensures { IsEffect threshold rows.now result }
{
    let removed = sum_taken(rows, threshold, Amount::File);
    let written = sum_taken(rows, threshold, Amount::Copy);
    Effect {
        logs: count_taken(rows, threshold),
        copied: sum_taken(rows, threshold, Amount::Live),
        freed: removed.saturating_sub(written),
    }
}

/// Returns the number of logs that a compaction takes.
fn count_taken(rows: &[LogRow], threshold: u32) -> u64
    ensures { result ≡ count_by (is_taken threshold) rows.now }
{
    let mut count = 0u64;
    for row in rows {
        if takes(row, threshold) {
            count += 1;
        }
    }
    count
}

/// Returns whether a compaction with this threshold takes a log.
fn takes(row: &LogRow, threshold: u32) -> bool
    ensures { result ≡ is_taken threshold row.now }
{
    let entries = u128::from(row.live) + u128::from(row.dead);
    let is_below = u128::from(row.live) * 1000 < u128::from(threshold) * entries;
    !row.is_kept && row.fault.is_none() && (row.live == 0 || is_below)
}

/// What is added up over the logs that a compaction takes.
#[derive(Clone, Copy)]
enum Amount {
    /// The bytes of live entries.
    Live,
    /// The length of the file.
    File,
    /// The length of its copy.
    Copy,
}

/// Returns this amount of a log if a compaction with this threshold takes it; else 0.
fn taken_in(row: &LogRow, threshold: u32, amount: Amount) -> u64
    ensures { result ≡ taken_of amount threshold row.now }
{
    if !takes(row, threshold) {
        return 0;
    }
    match amount {
        Amount::Live => row.live,
        Amount::File => row.bytes,
        Amount::Copy => row.copy,
    }
}

/// Returns the sum of an amount over the logs that a compaction takes; the greatest number if it is
/// more.
fn sum_taken(rows: &[LogRow], threshold: u32, amount: Amount) -> u64
    ensures { result ≡ sum_taken_of amount threshold rows.now }
{
    let mut sum = 0u64;
    for row in rows {
        sum = sum.saturating_add(taken_in(row, threshold, amount));
    }
    sum
}
