//! The texts of reads by ledger.

ghost use Rattle.std.specs.Prelude.{Some};
ghost use Rattle.std.specs.Fmt.{WritesOnOk};
ghost use Rattle.bk_script.specs.Text.{last_text, page_text, read_text, spaced, yes_or_no};

use super::Text;
use bk_drive::LedgerReadAnswer;
use std::alloc::AllocError;
use std::fmt;
use std::fmt::{Display, Formatter};

impl Display for Text<'_, LedgerReadAnswer> {
    ghost output = { λ text. Some (read_text text.0.now) };

    fn fmt<W: fmt::Write>(&self, f: &mut Formatter<W>) -> fmt::Result {
        match self.0 {
            LedgerReadAnswer::Holds(is) | LedgerReadAnswer::IsFenced(is) => write_word(f, *is),
            LedgerReadAnswer::LastEntry(last) => write_last(f, *last),
            LedgerReadAnswer::Entries(page) => write_page(f, "entries", "no entry", page),
            LedgerReadAnswer::Ledgers(page) => write_page(f, "ledgers", "no ledger", page),
        }
    }
}

/// Writes `yes` or `no`.
fn write_word<W: fmt::Write>(f: &mut Formatter<W>, is: bool) -> fmt::Result
    ensures { WritesOnOk W.write_str_gives f.old result (yes_or_no is) f.new }
{
    if is {
        write!(f, "yes")
    } else {
        write!(f, "no")
    }
}

/// Writes the greatest entry id of a ledger.
fn write_last<W: fmt::Write>(f: &mut Formatter<W>, last: Option<u64>) -> fmt::Result
    ensures { WritesOnOk W.write_str_gives f.old result (last_text last) f.new }
{
    match last {
        Some(entry) => write!(f, "last {entry}"),
        None => write!(f, "no entry"),
    }
}

/// Writes the ids of a page behind a word, or `none` if there are none.
fn write_page<W: fmt::Write>(
    f: &mut Formatter<W>,
    word: &str,
    none: &str,
    page: &Result<Vec<u64>, AllocError>,
) -> fmt::Result
    ensures { WritesOnOk W.write_str_gives f.old result (page_text word.now none.now page.now) f.new }
{
    match page {
        Ok(ids) if ids.is_empty() => f.write_str(none),
        Ok(ids) => {
            f.write_str(word)?;
            write_spaced(f, ids)
        }
        Err(_) => write!(f, "fault memory"),
    }
}

/// Writes numbers, each behind a space.
fn write_spaced<W: fmt::Write>(f: &mut Formatter<W>, numbers: &[u64]) -> fmt::Result
    ensures { WritesOnOk W.write_str_gives f.old result (spaced numbers.now) f.new }
{
    for number in numbers {
        write!(f, " {number}")?;
    }
    Ok(())
}
