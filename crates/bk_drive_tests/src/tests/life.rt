//! The calls of a store's life with a compaction.
//!
//! The store opens on logs that exist. Four entries are flushed to a new log, and one ledger is
//! deleted. The log is leased and compacted, with a flush, a deletion and a rebuild during the
//! compaction. It is retired, closed and removed; another log is retired and closed. Finally every
//! accepted entry of a live ledger is read.

use self::Call::{Add, Close, Delete, Do, Fetch, GiveBack, Hold, Read, Remove, Retire, Target};
use self::Rule::{Again, Compaction, Once, Unpublished};
use self::Want::{Digits, Either, Is, Source, Word};
use bk_drive::{Kind, Work};

/// A log of the compaction.
#[derive(Clone, Copy)]
pub(super) enum Log {
    Source,
    Copy,
}

/// A call, with the payload of its entry.
#[derive(Clone, Copy)]
pub(super) enum Call {
    /// A step of the store alone.
    Do(Work),
    Retire(Log),
    Close(Log),
    Remove(Log),
    Add(&'static [u8]),
    Delete(u64),
    /// Asks for the target log.
    Target,
    /// Takes a lease on the entry, and reads it.
    Read(&'static [u8]),
    /// Takes a lease on the entry, and holds it.
    Hold(&'static [u8]),
    /// Reads the entry by the lease that is held.
    Fetch(&'static [u8]),
    GiveBack,
}

/// The answer that a call must have.
#[derive(Clone, Copy)]
pub(super) enum Want {
    /// This word and number.
    Is(&'static str, u64),
    /// This word.
    Word(&'static str),
    /// One of these words.
    Either(&'static str, &'static str),
    /// This word, and a number with these last two digits.
    Digits(&'static str, u64),
    /// This word, and the number of the source log.
    Source(&'static str),
}

/// What follows if a call is refused.
#[derive(Clone, Copy, PartialEq)]
pub(super) enum Rule {
    /// It is made again.
    Again,
    /// It is not made again.
    Once,
    /// It is made, and again, only if the flush is not published.
    Unpublished,
    /// It is made again if the compaction still runs.
    Compaction,
}

/// A call by its name, its answer, and what follows if it is refused.
#[derive(Clone, Copy)]
pub(super) struct Row(
    pub(super) &'static str,
    pub(super) Call,
    pub(super) Want,
    pub(super) Rule,
);

/// Entry 0 of ledger 5.
const FIRST: &[u8] = b"\0\0\0\0\0\0\0\x05\0\0\0\0\0\0\0\0hello";

/// Entry 1 of ledger 5.
const SECOND: &[u8] = b"\0\0\0\0\0\0\0\x05\0\0\0\0\0\0\0\x01e";

/// Entry 0 of ledger 6, which is deleted before the compaction.
const LONG: &[u8] = b"\0\0\0\0\0\0\0\x06\0\0\0\0\0\0\0\0\
..........................................................................................";

/// Entry 0 of ledger 7, which is deleted during the compaction.
const SEVENTH: &[u8] = b"\0\0\0\0\0\0\0\x07\0\0\0\0\0\0\0\0g";

/// Entry 0 of ledger 8, which is added and flushed during the compaction.
const EIGHTH: &[u8] = b"\0\0\0\0\0\0\0\x08\0\0\0\0\0\0\0\0hh";

/// Writes an entry of the flush.
const WRITE: Row = Row("write", Do(Work::WriteOne), Word("wrote"), Again);

/// Writes an entry again if the device failed and the flush restarted.
const END_WRITE: Row = Row(
    "write",
    Do(Work::WriteOne),
    Either("wrote", "all written"),
    Again,
);

/// The same after a publish that was refused: the flush goes on with its places.
const REWRITE: Row = Row(
    "write",
    Do(Work::WriteOne),
    Word("all written"),
    Unpublished,
);

/// Flushes entries to a log, seals it, deletes one of its ledgers, and leases the log.
static FILL: [Row; 22] = [
    Row("add", Add(FIRST), Word("accepted"), Again),
    Row("add", Add(SECOND), Word("accepted"), Again),
    Row("add", Add(LONG), Word("accepted"), Again),
    Row("add", Add(SEVENTH), Word("accepted"), Again),
    Row("swap", Do(Work::Swap), Is("swapped", 4), Again),
    WRITE,
    WRITE,
    WRITE,
    WRITE,
    END_WRITE,
    END_WRITE,
    END_WRITE,
    END_WRITE,
    Row("publish", Do(Work::Publish), Is("published", 4), Once),
    REWRITE,
    REWRITE,
    REWRITE,
    REWRITE,
    Row(
        "publish",
        Do(Work::Publish),
        Is("published", 4),
        Unpublished,
    ),
    Row("roll", Do(Work::Roll), Word("sealed"), Once),
    Row("delete", Delete(6), Is("dropped", 1), Again),
    Row("take", Hold(FIRST), Word("leased"), Again),
];

/// Begins a compaction. Copies the two entries of ledger 5, then the rest, of which the index
/// references at most one.
static COPY: [Row; 4] = [
    Row("begin", Do(Work::Begin(Kind::Minor)), Word("chosen"), Again),
    Row("copy", Do(Work::Copy(1)), Word("copied"), Compaction),
    Row("copy", Do(Work::Copy(1)), Word("copied"), Compaction),
    Row("copy", Do(Work::Copy(5)), Word("copied"), Compaction),
];

/// Adds, flushes and deletes before the copying ends.
static OTHERS: [Row; 14] = [
    Row("add", Add(EIGHTH), Word("accepted"), Again),
    Row("swap", Do(Work::Swap), Is("swapped", 1), Again),
    WRITE,
    END_WRITE,
    END_WRITE,
    END_WRITE,
    END_WRITE,
    Row("publish", Do(Work::Publish), Is("published", 1), Once),
    REWRITE,
    REWRITE,
    REWRITE,
    REWRITE,
    Row(
        "publish",
        Do(Work::Publish),
        Is("published", 1),
        Unpublished,
    ),
    Row("delete", Delete(7), Is("dropped", 1), Again),
];

/// Rebuilds the index, which then does not reference the target log, and ends the copying.
static END: [Row; 3] = [
    Row("rebuild", Do(Work::Rebuild), Is("rebuilt", 6), Again),
    Row("copy", Do(Work::Copy(1)), Word("at end"), Compaction),
    Row("end", Do(Work::EndCopy), Word("ended"), Compaction),
];

/// Neither the source nor the target log can be retired. Switches the index to the target log and
/// retires the source log, which is leased at first. Closes and removes it, and retires another.
static REST: [Row; 18] = [
    Row("target", Target, Word("copies to"), Once),
    Row("retire", Retire(Log::Source), Is("in use", 0), Again),
    Row("retire", Retire(Log::Copy), Is("in use", 0), Again),
    Row("switch", Do(Work::Switch(1)), Digits("moved", 1), Again),
    Row("finish", Do(Work::Finish), Word("left"), Again),
    Row("switch", Do(Work::Switch(5)), Is("moved", 1), Again),
    Row("finish", Do(Work::Finish), Source("retired"), Again),
    Row("close", Close(Log::Source), Is("leases", 1), Again),
    Row("remove", Remove(Log::Source), Is("not closed", 0), Again),
    Row("fetch", Fetch(FIRST), Word("read"), Again),
    Row("release", GiveBack, Word("given back"), Again),
    Row("close", Close(Log::Source), Is("closed", 0), Again),
    Row("remove", Remove(Log::Source), Is("removed", 0), Again),
    Row("remove", Remove(Log::Source), Is("no log", 0), Again),
    Row("delete", Delete(2), Is("dropped", 1), Again),
    Row("retire", Do(Work::Retire(0)), Is("retired", 0), Again),
    Row("close", Do(Work::Close(0)), Is("closed", 0), Again),
    Row("rebuild", Do(Work::Rebuild), Is("rebuilt", 5), Again),
];

/// The entries of live ledgers are read, two of which the first logs have.
static LIVING: [Row; 5] = [
    Row(
        "read",
        Read(b"\0\0\0\0\0\0\0\x01\0\0\0\0\0\0\0\0A"),
        Word("read"),
        Again,
    ),
    Row(
        "read",
        Read(b"\0\0\0\0\0\0\0\x03\0\0\0\0\0\0\0\0c"),
        Word("read"),
        Again,
    ),
    Row("read", Read(FIRST), Word("read"), Again),
    Row("read", Read(SECOND), Word("read"), Again),
    Row("read", Read(EIGHTH), Word("read"), Again),
];

/// A part of the life.
#[derive(Clone, Copy)]
pub(super) enum Part {
    Fill,
    Copy,
    Others,
    End,
    Rest,
    Living,
    Nothing,
}

/// Returns the calls of a part.
pub(super) fn rows_of(part: Part) -> &'static [Row] {
    match part {
        Part::Fill => &FILL,
        Part::Copy => &COPY,
        Part::Others => &OTHERS,
        Part::End => &END,
        Part::Rest => &REST,
        Part::Living => &LIVING,
        Part::Nothing => &[],
    }
}
