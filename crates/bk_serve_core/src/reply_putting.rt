//! Replies as bytes.

ghost use Rattle.std.specs.Prelude.{◌≡◌, ◌+◌, ◌*◌, ◌≤◌, ◌++◌, Ok, Err, length, IfOk, IfErr, OnOk, OnErr};
ghost use Rattle.std.specs.Io.{StartsWith};
ghost use Rattle.bk_serve_core.specs.Fields.{FitsLayout, body_of, frame_of, parts};
ghost use Rattle.bk_serve_core.specs.Encoding.{Refuses};
ghost use Rattle.bk_serve_core.specs.Layouts.{reply_layout};
ghost use Rattle.bk_serve_core.specs.Replies.{answer, answer_parts, refusal_parts, ended_parts};

use crate::kinds::{
    ACCEPTED, ALREADY_DELETED, ATTRIBUTE, BACKWARDS, BAD_FIELDS, BAD_LOG, BUSY, CLOSED, COMPACTED,
    CUT, DELETED, DIFFERS, DISK, DROPPED, DURABLE, ENTRY, FENCED, FENCED_BEFORE, FENCED_NOW,
    FIGURES, FLUSHED, FULL, HELD, IN_USE, INPUT_FAILED, LAST, LOG_TOO_LONG, LOGS_FULL, MEMORY,
    MISSING, NEGATIVE, NO, NO_ATTRIBUTE, NO_HELLO, NO_MEMORY, NO_MORE_IDS, NO_SEAT, NO_THREAD,
    NOT_HELD, NOT_OFFERED, NOT_RISING, NOT_THERE, NOTHING_OPEN, ODD, OUT_OF_RANGE, OVERSIZED, PAGE,
    SEALED, SECOND_HELLO, SETTINGS, SHORT, STORED, TOO_LONG, TOO_MANY, UNKNOWN_CALL, VERSION,
    WELCOME, YES,
};
use crate::layout::reply_layout;
use crate::putting::put;
use crate::{Done, EncodeError, Ended, Refusal};

/// Appends the frame of a reply of this status.
fn put_reply(
    out: &mut Vec<u8>,
    id: u64,
    kind: u8,
    numbers: &[u64],
    tail: &[u8],
) -> Result<(), EncodeError>
    requires { length numbers.now ≤ 10 }
    ensures ok { OnOk result (out.new.items ≡ out.old.items ++ frame_of id (body_of (parts kind numbers.now tail.now))) }
    ensures fits { OnOk result (FitsLayout reply_layout (parts kind numbers.now tail.now)) }
    ensures err { IfErr result (λ e. Refuses e reply_layout (parts kind numbers.now tail.now)) }
    ensures starts { StartsWith out.new.items out.old.items }
{
    put(out, id, kind, reply_layout(kind), numbers, tail)
}

/// Appends the frame of what was done. An error may leave a part of it.
pub(crate) fn put_done(out: &mut Vec<u8>, id: u64, one: &Done<'_>) -> Result<(), EncodeError>
    ensures ok { OnOk result (out.new.items ≡ out.old.items ++ frame_of id (body_of (answer_parts (answer one.now)))) }
    ensures fits { OnOk result (FitsLayout reply_layout (answer_parts (answer one.now))) }
    ensures err { IfErr result (λ e. Refuses e reply_layout (answer_parts (answer one.now))) }
    ensures starts { StartsWith out.new.items out.old.items }
{
    match one {
        Done::Welcome {
            version,
            largest,
            in_flight,
            page,
        } => put_reply(
            out,
            id,
            WELCOME,
            &[*version, *largest, *in_flight, *page],
            &[],
        ),
        Done::Accepted { number, digest } => put_reply(out, id, ACCEPTED, &[*number], digest),
        Done::Held => put_reply(out, id, HELD, &[], &[]),
        Done::Entry {
            ledger,
            entry,
            content,
        } => put_reply(out, id, ENTRY, &[*ledger, *entry], content),
        Done::NotHeld => put_reply(out, id, NOT_HELD, &[], &[]),
        Done::Last { entry } => put_reply(out, id, LAST, &[*entry], &[]),
        Done::Yes => put_reply(out, id, YES, &[], &[]),
        Done::No => put_reply(out, id, NO, &[], &[]),
        Done::Page { ids } => put_reply(out, id, PAGE, &[], ids),
        Done::FencedNow => put_reply(out, id, FENCED_NOW, &[], &[]),
        Done::FencedBefore => put_reply(out, id, FENCED_BEFORE, &[], &[]),
        Done::Dropped { entries } => put_reply(out, id, DROPPED, &[*entries], &[]),
        Done::Stored => put_reply(out, id, STORED, &[], &[]),
        Done::Attribute { value } => put_reply(out, id, ATTRIBUTE, &[], value),
        Done::NoAttribute => put_reply(out, id, NO_ATTRIBUTE, &[], &[]),
        Done::Flushed { entries } => put_reply(out, id, FLUSHED, &[*entries], &[]),
        Done::Durable { front } => put_reply(out, id, DURABLE, &[*front], &[]),
        Done::Compacted { logs, entries } => put_reply(out, id, COMPACTED, &[*logs, *entries], &[]),
        Done::Figures {
            logs,
            bytes,
            live,
            cached,
            indexed,
            durable,
            next_log,
            front,
            leases,
            failures,
        } => put_reply(
            out,
            id,
            FIGURES,
            &[
                *logs, *bytes, *live, *cached, *indexed, *durable, *next_log, *front, *leases,
                *failures,
            ],
            &[],
        ),
        Done::Sealed { log } => put_reply(out, id, SEALED, &[*log], &[]),
        Done::NothingOpen => put_reply(out, id, NOTHING_OPEN, &[], &[]),
        Done::Closed { front } => put_reply(out, id, CLOSED, &[*front], &[]),
    }
}

/// Appends the frame of a refusal.
pub(crate) fn put_refusal(out: &mut Vec<u8>, id: u64, one: &Refusal) -> Result<(), EncodeError>
    ensures ok { OnOk result (out.new.items ≡ out.old.items ++ frame_of id (body_of (refusal_parts one.now))) }
    ensures fits { OnOk result (FitsLayout reply_layout (refusal_parts one.now)) }
    ensures err { IfErr result (λ e. Refuses e reply_layout (refusal_parts one.now)) }
    ensures starts { StartsWith out.new.items out.old.items }
{
    match one {
        Refusal::Backwards { seen, front } => put_reply(out, id, BACKWARDS, &[*seen, *front], &[]),
        Refusal::Negative => put_reply(out, id, NEGATIVE, &[], &[]),
        Refusal::TooLong { length } => put_reply(out, id, TOO_LONG, &[*length], &[]),
        Refusal::Deleted => put_reply(out, id, DELETED, &[], &[]),
        Refusal::Fenced => put_reply(out, id, FENCED, &[], &[]),
        Refusal::Full { used, limit } => put_reply(out, id, FULL, &[*used, *limit], &[]),
        Refusal::Memory => put_reply(out, id, MEMORY, &[], &[]),
        Refusal::NoSeat => put_reply(out, id, NO_SEAT, &[], &[]),
        Refusal::TooMany => put_reply(out, id, TOO_MANY, &[], &[]),
        Refusal::AlreadyDeleted => put_reply(out, id, ALREADY_DELETED, &[], &[]),
        Refusal::Missing { front } => put_reply(out, id, MISSING, &[*front], &[]),
        Refusal::Differs => put_reply(out, id, DIFFERS, &[], &[]),
        Refusal::NotThere => put_reply(out, id, NOT_THERE, &[], &[]),
        Refusal::Disk => put_reply(out, id, DISK, &[], &[]),
        Refusal::Odd => put_reply(out, id, ODD, &[], &[]),
        Refusal::LogsFull => put_reply(out, id, LOGS_FULL, &[], &[]),
        Refusal::NoMoreIds => put_reply(out, id, NO_MORE_IDS, &[], &[]),
        Refusal::Settings => put_reply(out, id, SETTINGS, &[], &[]),
        Refusal::BadLog { log } => put_reply(out, id, BAD_LOG, &[*log], &[]),
        Refusal::LogTooLong { log } => put_reply(out, id, LOG_TOO_LONG, &[*log], &[]),
        Refusal::InUse => put_reply(out, id, IN_USE, &[], &[]),
        Refusal::Busy => put_reply(out, id, BUSY, &[], &[]),
        Refusal::OutOfRange => put_reply(out, id, OUT_OF_RANGE, &[], &[]),
        Refusal::NoThread => put_reply(out, id, NO_THREAD, &[], &[]),
        Refusal::NotOffered => put_reply(out, id, NOT_OFFERED, &[], &[]),
    }
}

/// Appends the frame that ends a session.
pub(crate) fn put_ended(out: &mut Vec<u8>, id: u64, one: &Ended) -> Result<(), EncodeError>
    ensures ok { OnOk result (out.new.items ≡ out.old.items ++ frame_of id (body_of (ended_parts one.now))) }
    ensures fits { OnOk result (FitsLayout reply_layout (ended_parts one.now)) }
    ensures err { IfErr result (λ e. Refuses e reply_layout (ended_parts one.now)) }
    ensures starts { StartsWith out.new.items out.old.items }
{
    match one {
        Ended::NoHello => put_reply(out, id, NO_HELLO, &[], &[]),
        Ended::Version { lowest, highest } => put_reply(
            out,
            id,
            VERSION,
            &[*lowest, *highest],
            &[],
        ),
        Ended::SecondHello => put_reply(out, id, SECOND_HELLO, &[], &[]),
        Ended::Cut { length, read } => put_reply(out, id, CUT, &[*length, *read], &[]),
        Ended::Short { length } => put_reply(out, id, SHORT, &[*length], &[]),
        Ended::Oversized { length, largest } => put_reply(
            out,
            id,
            OVERSIZED,
            &[*length, *largest],
            &[],
        ),
        Ended::UnknownCall { call } => put_reply(out, id, UNKNOWN_CALL, &[*call], &[]),
        Ended::BadFields { call, length } => put_reply(out, id, BAD_FIELDS, &[*call, *length], &[]),
        Ended::NotRising { next, previous } => put_reply(
            out,
            id,
            NOT_RISING,
            &[*next, *previous],
            &[],
        ),
        Ended::InputFailed => put_reply(out, id, INPUT_FAILED, &[], &[]),
        Ended::NoMemory => put_reply(out, id, NO_MEMORY, &[], &[]),
    }
}
