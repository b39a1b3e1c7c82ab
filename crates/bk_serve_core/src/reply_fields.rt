//! Replies from their status and fields.

ghost use Rattle.std.specs.Prelude.{◌≡◌, ◌+◌, ◌*◌, ◌≤◌, length};
ghost use Rattle.bk_serve_core.specs.Layouts.{reply_layout};
ghost use Rattle.bk_serve_core.specs.Replies.{answer, answer_at, refusal_at, ended_at};

use crate::kinds::{
    ACCEPTED, ALREADY_DELETED, ATTRIBUTE, BACKWARDS, BAD_FIELDS, BAD_LOG, BUSY, CLOSED, COMPACTED,
    CUT, DELETED, DIFFERS, DISK, DROPPED, DURABLE, ENTRY, FENCED, FENCED_BEFORE, FENCED_NOW,
    FIGURES, FLUSHED, FULL, HELD, IN_USE, INPUT_FAILED, LAST, LOG_TOO_LONG, LOGS_FULL, MEMORY,
    MISSING, NEGATIVE, NO, NO_ATTRIBUTE, NO_HELLO, NO_MEMORY, NO_MORE_IDS, NO_SEAT, NO_THREAD,
    NOT_HELD, NOT_OFFERED, NOT_RISING, NOT_THERE, NOTHING_OPEN, ODD, OUT_OF_RANGE, OVERSIZED, PAGE,
    SEALED, SECOND_HELLO, SETTINGS, SHORT, STORED, TOO_LONG, TOO_MANY, UNKNOWN_CALL, VERSION,
    WELCOME, YES,
};
use crate::words::{digest_in, word};
use crate::{Done, Ended, Refusal};

/// Returns what was done, of a status with these fields.
#[tactic(auto, unfolding(crate::specs::Replies::answer_at))]
pub(crate) fn done_at(kind: u8, body: &[u8]) -> Done<'_>
    requires from { 32 ≤ kind }
    requires to { kind ≤ 53 }
    requires least { 8 * (reply_layout kind).numbers + (reply_layout kind).least ≤ length body.now }
    requires most { length body.now ≤ 8 * (reply_layout kind).numbers + (reply_layout kind).most }
    ensures { answer result ≡ answer_at kind body.now }
{
    match kind {
        WELCOME => Done::Welcome {
            version: word(body, 0),
            largest: word(body, 1),
            in_flight: word(body, 2),
            page: word(body, 3),
        },
        ACCEPTED => Done::Accepted {
            number: word(body, 0),
            digest: digest_in(&body[8..]),
        },
        HELD => Done::Held,
        ENTRY => Done::Entry {
            ledger: word(body, 0),
            entry: word(body, 1),
            content: &body[16..],
        },
        NOT_HELD => Done::NotHeld,
        LAST => Done::Last {
            entry: word(body, 0),
        },
        YES => Done::Yes,
        NO => Done::No,
        PAGE => Done::Page { ids: body },
        _ => outcome_at(kind, body),
    }
}

/// Returns what was done to a ledger or to the store, of a status with these fields.
#[tactic(auto, unfolding(crate::specs::Replies::answer_at))]
fn outcome_at(kind: u8, body: &[u8]) -> Done<'_>
    requires from { 41 ≤ kind }
    requires to { kind ≤ 53 }
    requires least { 8 * (reply_layout kind).numbers + (reply_layout kind).least ≤ length body.now }
    requires most { length body.now ≤ 8 * (reply_layout kind).numbers + (reply_layout kind).most }
    ensures { answer result ≡ answer_at kind body.now }
{
    match kind {
        FENCED_NOW => Done::FencedNow,
        FENCED_BEFORE => Done::FencedBefore,
        DROPPED => Done::Dropped {
            entries: word(body, 0),
        },
        STORED => Done::Stored,
        ATTRIBUTE => Done::Attribute { value: body },
        NO_ATTRIBUTE => Done::NoAttribute,
        FLUSHED => Done::Flushed {
            entries: word(body, 0),
        },
        DURABLE => Done::Durable {
            front: word(body, 0),
        },
        COMPACTED => Done::Compacted {
            logs: word(body, 0),
            entries: word(body, 1),
        },
        FIGURES => Done::Figures {
            logs: word(body, 0),
            bytes: word(body, 1),
            live: word(body, 2),
            cached: word(body, 3),
            indexed: word(body, 4),
            durable: word(body, 5),
            next_log: word(body, 6),
            front: word(body, 7),
            leases: word(body, 8),
            failures: word(body, 9),
        },
        SEALED => Done::Sealed { log: word(body, 0) },
        NOTHING_OPEN => Done::NothingOpen,
        CLOSED => Done::Closed {
            front: word(body, 0),
        },
        _ => unreachable!(),
    }
}

/// Returns the refusal of a status with these fields.
#[tactic(auto, unfolding(crate::specs::Replies::refusal_at))]
pub(crate) fn refusal_at(kind: u8, body: &[u8]) -> Refusal
    requires from { 64 ≤ kind }
    requires to { kind ≤ 88 }
    requires least { 8 * (reply_layout kind).numbers + (reply_layout kind).least ≤ length body.now }
    requires most { length body.now ≤ 8 * (reply_layout kind).numbers + (reply_layout kind).most }
    ensures { result ≡ refusal_at kind body.now }
{
    match kind {
        BACKWARDS => Refusal::Backwards {
            seen: word(body, 0),
            front: word(body, 1),
        },
        NEGATIVE => Refusal::Negative,
        TOO_LONG => Refusal::TooLong {
            length: word(body, 0),
        },
        DELETED => Refusal::Deleted,
        FENCED => Refusal::Fenced,
        FULL => Refusal::Full {
            used: word(body, 0),
            limit: word(body, 1),
        },
        MEMORY => Refusal::Memory,
        NO_SEAT => Refusal::NoSeat,
        TOO_MANY => Refusal::TooMany,
        ALREADY_DELETED => Refusal::AlreadyDeleted,
        MISSING => Refusal::Missing {
            front: word(body, 0),
        },
        DIFFERS => Refusal::Differs,
        _ => store_refusal_at(kind, body),
    }
}

/// Returns the refusal by the store or its disk of a status with these fields.
#[tactic(auto, unfolding(crate::specs::Replies::refusal_at))]
fn store_refusal_at(kind: u8, body: &[u8]) -> Refusal
    requires from { 76 ≤ kind }
    requires to { kind ≤ 88 }
    requires least { 8 * (reply_layout kind).numbers + (reply_layout kind).least ≤ length body.now }
    requires most { length body.now ≤ 8 * (reply_layout kind).numbers + (reply_layout kind).most }
    ensures { result ≡ refusal_at kind body.now }
{
    match kind {
        NOT_THERE => Refusal::NotThere,
        DISK => Refusal::Disk,
        ODD => Refusal::Odd,
        LOGS_FULL => Refusal::LogsFull,
        NO_MORE_IDS => Refusal::NoMoreIds,
        SETTINGS => Refusal::Settings,
        BAD_LOG => Refusal::BadLog { log: word(body, 0) },
        LOG_TOO_LONG => Refusal::LogTooLong { log: word(body, 0) },
        IN_USE => Refusal::InUse,
        BUSY => Refusal::Busy,
        OUT_OF_RANGE => Refusal::OutOfRange,
        NO_THREAD => Refusal::NoThread,
        NOT_OFFERED => Refusal::NotOffered,
        _ => unreachable!(),
    }
}

/// Returns the end of a session of a status with these fields.
#[tactic(auto, unfolding(crate::specs::Replies::ended_at))]
pub(crate) fn ended_at(kind: u8, body: &[u8]) -> Ended
    requires from { 96 ≤ kind }
    requires to { kind ≤ 106 }
    requires least { 8 * (reply_layout kind).numbers + (reply_layout kind).least ≤ length body.now }
    requires most { length body.now ≤ 8 * (reply_layout kind).numbers + (reply_layout kind).most }
    ensures { result ≡ ended_at kind body.now }
{
    match kind {
        NO_HELLO => Ended::NoHello,
        VERSION => Ended::Version {
            lowest: word(body, 0),
            highest: word(body, 1),
        },
        SECOND_HELLO => Ended::SecondHello,
        CUT => Ended::Cut {
            length: word(body, 0),
            read: word(body, 1),
        },
        SHORT => Ended::Short {
            length: word(body, 0),
        },
        OVERSIZED => Ended::Oversized {
            length: word(body, 0),
            largest: word(body, 1),
        },
        UNKNOWN_CALL => Ended::UnknownCall {
            call: word(body, 0),
        },
        BAD_FIELDS => Ended::BadFields {
            call: word(body, 0),
            length: word(body, 1),
        },
        NOT_RISING => Ended::NotRising {
            next: word(body, 0),
            previous: word(body, 1),
        },
        INPUT_FAILED => Ended::InputFailed,
        NO_MEMORY => Ended::NoMemory,
        _ => unreachable!(),
    }
}
