//! The sums of a compaction, and their row.

ghost use Rattle.bk_compact_disk.specs.Sizes.{FreesBytes, ShowsSums};

use bk_inspect::Form;
use bk_messages::{RowFault, write_row};
use serde::Serialize;
use std::alloc::Global;
use std::fmt;
use std::fmt::{Display, Formatter};
use std::io::Write;

/// The number of logs, and the bytes of their files.
#[derive(Clone, Copy)]
pub struct Size {
    pub logs: u64,
    pub bytes: u64,
}

/// What a compaction did, or would do.
#[derive(Clone, Copy)]
pub struct Summary {
    pub before: Size,
    pub after: Size,
    pub moved: u64,
}

/// The sums.
#[derive(Clone, Copy, Serialize)]
struct SummaryRow {
    before: u64,
    after: u64,
    /// The bytes by which the files are shorter; negative if they are longer.
    freed: i64,
    moved: u64,
}

impl Display for SummaryRow {
    fn fmt<W: fmt::Write>(&self, f: &mut Formatter<W>) -> fmt::Result {
        write!(
            f,
            "before {} after {} freed {} moved {}",
            self.before, self.after, self.freed, self.moved
        )
    }
}

/// Returns the bytes by which the second size is smaller; negative if it is larger.
fn freed(before: Size, after: Size) -> i64
    ensures { FreesBytes before.bytes after.bytes result }
{
    let grown = after.bytes.saturating_sub(before.bytes);
    if grown > 0 {
        -i64::try_from(grown).unwrap_or(i64::MAX)
    } else {
        i64::try_from(before.bytes.saturating_sub(after.bytes)).unwrap_or(i64::MAX)
    }
}

/// Returns the row of a summary.
fn row_of(summary: &Summary) -> SummaryRow
    ensures { ShowsSums summary.now result }
{
    SummaryRow {
        before: summary.before.logs,
        after: summary.after.logs,
        freed: freed(summary.before, summary.after),
        moved: summary.moved,
    }
}

/// Writes the sums and flushes.
pub fn write_summary<W: Write>(
    alloc: Global,
    form: Form,
    summary: &Summary,
    writer: &mut W,
) -> Result<(), RowFault> {
    write_row(alloc, form, &row_of(summary), writer)?;
    writer.flush()?;
    Ok(())
}
