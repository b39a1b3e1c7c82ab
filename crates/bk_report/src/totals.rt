//! The sums over all logs.

ghost use Rattle.bk_report.specs.Totals.{AddsLog, IsTotals};

use crate::LogRow;

/// The sums over logs. A sum stops at the greatest number.
#[derive(Clone, Copy)]
pub struct Totals {
    /// The bytes of all files.
    pub bytes: u64,
    /// The bytes of live entries.
    pub live: u64,
    /// The bytes of dead entries.
    pub dead: u64,
    /// The number of entries.
    pub entries: u64,
    /// The bytes of the largest file.
    pub largest: u64,
    /// The number of logs that are sealed.
    pub sealed: u64,
}

/// Returns the sums over these logs.
pub fn totals_of(rows: &[LogRow]) -> Totals
    ensures { IsTotals rows.now result }
{
    let mut totals = Totals {
        bytes: 0,
        live: 0,
        dead: 0,
        entries: 0,
        largest: 0,
        sealed: 0,
    };
    for row in rows {
        totals = with_log(totals, row);
    }
    totals
}

/// Returns the sums with one more log.
fn with_log(totals: Totals, row: &LogRow) -> Totals
    ensures { AddsLog totals row.now result }
{
    Totals {
        bytes: totals.bytes.saturating_add(row.bytes),
        live: totals.live.saturating_add(row.live),
        dead: totals.dead.saturating_add(row.dead),
        entries: totals.entries.saturating_add(row.entries),
        largest: totals.largest.max(row.bytes),
        sealed: totals.sealed.saturating_add(u64::from(row.is_sealed)),
    }
}
