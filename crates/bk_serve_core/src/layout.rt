//! Layouts: which fields a kind of frame has.

ghost use Rattle.std.specs.Prelude.{◌≡◌, ◌≤◌};
ghost use Rattle.bk_serve_core.specs.Layouts.{numbers, then_bytes, whole_numbers, request_layout, reply_layout};

use crate::kinds::{
    ACCEPTED, ADD, ADD_RECOVERY, ATTRIBUTE, BACKWARDS, BAD_FIELDS, BAD_LOG, CLOSED, COMPACT,
    COMPACTED, CUT, DELETE, DROPPED, DURABLE, ENTRIES, ENTRY, EXPLICIT_LAC, FENCE, FIGURES,
    FLUSHED, FULL, HELLO, HOLDS, IS_FENCED, LAST, LAST_ENTRY, LEDGERS, LOG_TOO_LONG, MASTER_KEY,
    MISSING, NOT_RISING, OVERSIZED, PAGE, READ, READ_BACK, READ_LAST, SEALED, SET_EXPLICIT_LAC,
    SET_MASTER_KEY, SHORT, TOO_LONG, UNKNOWN_CALL, VERSION, WELCOME,
};

/// Greatest number of bytes of an entry's content. With its two ids an entry has up to 5,000,000.
pub const LONGEST_DATA: usize = 4_999_984;

/// Greatest number of bytes of an attribute of a ledger.
pub const LONGEST_ATTRIBUTE: usize = 256;

/// Greatest number of bytes of the ids of a page: 65,536 ids.
pub const LONGEST_PAGE: usize = 524_288;

/// Number of bytes of a digest.
pub const DIGEST: usize = 32;

/// The fields of a frame: N numbers of eight bytes, then no fewer than `least` and no more than
/// `most` bytes. If `whole`, these are numbers of eight bytes too.
#[derive(Clone, Copy, Debug, PartialEq, Eq)]
pub(crate) struct Layout {
    pub numbers: u8,
    pub least: u32,
    pub most: u32,
    pub whole: bool,
}

impl Layout {
    ghost use Rattle.std.specs.Prelude.{◌≡◌};
    ghost use Rattle.bk_serve_core.specs.Layouts.{fits};

    /// Returns whether so many bytes are the fields of this layout.
    pub fn fits(self, length: usize) -> bool
        ensures { result ≡ fits self length }
    {
        let before = 8 * usize::from(self.numbers);
        before + self.least as usize <= length
            && length <= before + self.most as usize
            && (!self.whole || length % 8 == 0)
    }
}

/// Returns the layout of N numbers.
fn numbers(count: u8) -> Layout
    ensures { result ≡ numbers count }
{
    then_bytes(count, 0, 0)
}

/// Returns the layout of N numbers and bytes after them.
fn then_bytes(count: u8, least: u32, most: u32) -> Layout
    ensures { result ≡ then_bytes count least most }
{
    Layout {
        numbers: count,
        least,
        most,
        whole: false,
    }
}

/// Returns the layout of a list of numbers.
fn whole_numbers(most: u32) -> Layout
    ensures { result ≡ whole_numbers most }
{
    Layout {
        numbers: 0,
        least: 0,
        most,
        whole: true,
    }
}

/// Returns the layout of a request, by its call.
pub(crate) fn request_layout(kind: u8) -> Layout
    ensures value { result ≡ request_layout kind }
    ensures most { result.most ≤ 5000000 }
{
    match kind {
        HELLO | ENTRIES => numbers(3),
        ADD | ADD_RECOVERY => then_bytes(2, 0, LONGEST_DATA as u32),
        READ | HOLDS | LEDGERS | COMPACT => numbers(2),
        READ_LAST | LAST_ENTRY | FENCE | IS_FENCED | DELETE | MASTER_KEY | EXPLICIT_LAC => numbers(
            1,
        ),
        READ_BACK => then_bytes(3, DIGEST as u32, DIGEST as u32),
        SET_MASTER_KEY | SET_EXPLICIT_LAC => then_bytes(1, 0, LONGEST_ATTRIBUTE as u32),
        _ => numbers(0),
    }
}

/// Returns the layout of a reply, by its status.
pub(crate) fn reply_layout(kind: u8) -> Layout
    ensures value { result ≡ reply_layout kind }
    ensures most { result.most ≤ 5000000 }
{
    match kind {
        WELCOME => numbers(4),
        ACCEPTED => then_bytes(1, DIGEST as u32, DIGEST as u32),
        ENTRY => then_bytes(2, 0, LONGEST_DATA as u32),
        LAST
        | DROPPED
        | FLUSHED
        | DURABLE
        | SEALED
        | CLOSED
        | TOO_LONG
        | MISSING
        | BAD_LOG
        | LOG_TOO_LONG
        | SHORT
        | UNKNOWN_CALL => numbers(1),
        PAGE => whole_numbers(LONGEST_PAGE as u32),
        ATTRIBUTE => then_bytes(0, 0, LONGEST_ATTRIBUTE as u32),
        COMPACTED | BACKWARDS | FULL | VERSION | CUT | OVERSIZED | BAD_FIELDS | NOT_RISING =>
            numbers(2),
        FIGURES => numbers(10),
        _ => numbers(0),
    }
}
