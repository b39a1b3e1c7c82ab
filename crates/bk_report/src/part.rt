//! The parts of a log.

ghost use Rattle.std.specs.Prelude.{◌≡◌};
ghost use Rattle.bk_report.specs.Parts.{part_bytes};
ghost use Rattle.bk_report.specs.declared.part.Part.TheVariants as parts;

use crate::LogRow;

/// A part of a log.
#[derive(Clone, Copy)]
pub enum Part {
    Live,
    Dead,
    Foreign,
    Torn,
    Doubtful,
    /// The header, and what no other part has.
    Rest,
}

impl Part {
    /// All parts, in the order of a bar.
    pub const ALL: [Part; 6] = [
        Part::Live,
        Part::Dead,
        Part::Foreign,
        Part::Torn,
        Part::Doubtful,
        Part::Rest,
    ];

    /// Returns the bytes of this part of a log.
    pub fn bytes(self, row: &LogRow) -> u64
        ensures { result ≡ part_bytes self row.now }
    {
        match self {
            Part::Live => row.live,
            Part::Dead => row.dead,
            Part::Foreign => row.foreign,
            Part::Torn => row.torn,
            Part::Doubtful => row.doubtful,
            Part::Rest => rest_of(row),
        }
    }
}

/// Returns the bytes of a log that are in none of the five parts.
fn rest_of(row: &LogRow) -> u64
    ensures { result ≡ part_bytes parts.Rest row.now }
{
    let after_entries = row.bytes.saturating_sub(row.live).saturating_sub(row.dead);
    let after_records = after_entries.saturating_sub(row.foreign);
    after_records
        .saturating_sub(row.torn)
        .saturating_sub(row.doubtful)
}
