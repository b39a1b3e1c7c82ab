//! Replies.

ghost use Rattle.std.specs.Prelude.{◌≡◌, ◌++◌, ◌+◌, ◌*◌, ◌≤◌, true, Ok, Err, length, IfOk, IfErr, IsTrue, OnOk, OnErr};
ghost use Rattle.std.specs.Io.{StartsWith};
ghost use Rattle.bk_serve_core.specs.Encoding.{Refuses};
ghost use Rattle.bk_serve_core.specs.Fields.{FitsLayout, body_of, frame_of};
ghost use Rattle.bk_serve_core.specs.Layouts.{reply_layout};
ghost use Rattle.bk_serve_core.specs.Replies.{is_status, replied, told, told_at, told_parts};

use crate::kinds::{BACKWARDS, CLOSED, NO_HELLO, NO_MEMORY, NOT_OFFERED, WELCOME};
use crate::layout::reply_layout;
use crate::reply_fields::{done_at, ended_at, refusal_at};
use crate::reply_putting::{put_done, put_ended, put_refusal};
use crate::{Done, EncodeError, Ended, Fault, Refusal};

/// What the server replies.
#[derive(Clone, Copy, PartialEq, Eq)]
pub enum Reply<'a> {
    /// The request was carried out.
    Done(Done<'a>),
    /// The request was refused. Nothing changed, unless the refusal is `Disk`.
    Refused(Refusal),
    /// The session ends.
    Ended(Ended),
}

/// Returns whether a reply has this status.
fn is_status(kind: u8) -> bool
    ensures { result ≡ is_status kind }
{
    (WELCOME <= kind && kind <= CLOSED)
        || (BACKWARDS <= kind && kind <= NOT_OFFERED)
        || (NO_HELLO <= kind && kind <= NO_MEMORY)
}

/// Returns the reply of a status with these fields.
#[tactic(auto, using(crate::proofs::Statuses::status_least, crate::proofs::Statuses::done_most, crate::proofs::Statuses::refusal_most, crate::proofs::Statuses::end_most), unfolding(crate::specs::Replies::told_at))]
fn reply_at(kind: u8, body: &[u8]) -> Reply<'_>
    requires status { is_status kind ≡ true }
    requires least { 8 * (reply_layout kind).numbers + (reply_layout kind).least ≤ length body.now }
    requires most { length body.now ≤ 8 * (reply_layout kind).numbers + (reply_layout kind).most }
    ensures { told result ≡ told_at kind body.now }
{
    if kind < BACKWARDS {
        Reply::Done(done_at(kind, body))
    } else if kind < NO_HELLO {
        Reply::Refused(refusal_at(kind, body))
    } else {
        Reply::Ended(ended_at(kind, body))
    }
}

/// Returns what `Reply::decode` does.
#[tactic(auto, unfolding(crate::specs::Replies::replied))]
fn read_reply(bytes: &[u8]) -> Result<Reply<'_>, Fault>
    ensures value { IfOk result (λ reply. replied bytes.now ≡ Ok (told reply)) }
    ensures fault { IfErr result (λ fault. replied bytes.now ≡ Err fault) }
{
    let [kind, body @ ..] = bytes else {
        return Err(Fault::NoKind);
    };
    if !is_status(*kind) {
        return Err(Fault::UnknownKind(*kind));
    }
    if reply_layout(*kind).fits(body.len()) {
        Ok(reply_at(*kind, body))
    } else {
        Err(Fault::BadLength {
            kind: *kind,
            length: body.len() as u64,
        })
    }
}

/// Appends the frame of a reply. An error may leave a part of it.
fn put_any(out: &mut Vec<u8>, id: u64, one: &Reply<'_>) -> Result<(), EncodeError>
    ensures ok { OnOk result (out.new.items ≡ out.old.items ++ frame_of id (body_of (told_parts (told one.now)))) }
    ensures fits { OnOk result (FitsLayout reply_layout (told_parts (told one.now))) }
    ensures err { IfErr result (λ e. Refuses e reply_layout (told_parts (told one.now))) }
    ensures starts { StartsWith out.new.items out.old.items }
{
    match one {
        Reply::Done(done) => put_done(out, id, done),
        Reply::Refused(refusal) => put_refusal(out, id, refusal),
        Reply::Ended(ended) => put_ended(out, id, ended),
    }
}

impl<'a> Reply<'a> {
    ghost use Rattle.std.specs.Prelude.{◌≡◌, ◌++◌, Ok, Err, IfOk, IfErr, OnOk, OnErr};
    ghost use Rattle.bk_serve_core.specs.Encoding.{Refuses};
    ghost use Rattle.bk_serve_core.specs.Fields.{frame_of};
    ghost use Rattle.bk_serve_core.specs.Layouts.{reply_layout};
    ghost use Rattle.bk_serve_core.specs.Replies.{told, told_bytes, told_parts, replied, Fits};

    /// Returns the reply that the bytes of a frame after its id are.
    ///
    /// # Errors
    ///
    /// In this order:
    ///
    /// - `NoKind` if there are no bytes.
    /// - `UnknownKind` if no reply has the status of the first byte.
    /// - `BadLength` if the other bytes are not the fields of that status.
    pub fn decode(bytes: &'a [u8]) -> Result<Reply<'a>, Fault>
        // The reply has these bytes and no others.
        ensures same { IfOk result (λ reply. bytes.now ≡ told_bytes (told reply)) }
        ensures fits { IfOk result (λ reply. Fits (told reply)) }
        ensures value { IfOk result (λ reply. replied bytes.now ≡ Ok (told reply)) }
        // Which fault it is.
        ensures fault { IfErr result (λ fault. replied bytes.now ≡ Err fault) }
    {
        read_reply(bytes)
    }

    /// Appends the frame of the reply with this id.
    ///
    /// # Errors
    ///
    /// `out` is unchanged:
    ///
    /// - `TooLong` if the content of an entry, an attribute or a page has too many bytes, or a page
    ///   is not whole ids.
    /// - `Memory` if `out` cannot grow.
    #[tactic(auto, unfolding(crate::specs::Replies::told_bytes, crate::specs::Replies::Fits))]
    pub fn encode(&self, id: u64, out: &mut Vec<u8>) -> Result<(), EncodeError>
        ensures ok { OnOk result (out.new.items ≡ out.old.items ++ frame_of id (told_bytes (told self.now))) }
        ensures fits { OnOk result (Fits (told self.now)) }
        ensures err { IfErr result (λ e. Refuses e reply_layout (told_parts (told self.now))) }
        ensures same { OnErr result (out.new.items ≡ out.old.items) }
    {
        let start = out.len();
        let result = put_any(out, id, self);
        if result.is_err() {
            out.truncate(start);
        }
        result
    }
}
