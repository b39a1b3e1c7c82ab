//! Requests as bytes.

ghost use Rattle.std.specs.Prelude.{◌≡◌, ◌+◌, ◌*◌, ◌≤◌, ◌++◌, Ok, Err, length, IfOk, IfErr, OnOk, OnErr};
ghost use Rattle.std.specs.Io.{StartsWith};
ghost use Rattle.bk_serve_core.specs.Fields.{FitsLayout, body_of, frame_of, parts};
ghost use Rattle.bk_serve_core.specs.Encoding.{Refuses};
ghost use Rattle.bk_serve_core.specs.Layouts.{request_layout};
ghost use Rattle.bk_serve_core.specs.Requests.{ask, ask_at, ask_bytes, ask_parts, asked, Fits};

use crate::kinds::{
    ADD, ADD_RECOVERY, CHECKPOINT, CLOSE, COMPACT, DELETE, ENTRIES, EXPLICIT_LAC, FENCE, FLUSH,
    HELLO, HOLDS, IS_FENCED, LAST_ENTRY, LEDGERS, MASTER_KEY, READ, READ_BACK, READ_LAST, SEAL,
    SET_EXPLICIT_LAC, SET_MASTER_KEY, STATS,
};
use crate::layout::request_layout;
use crate::putting::put;
use crate::words::{digest_in, word};
use crate::{EncodeError, Fault, Request};

/// Returns the request of a call with these fields.
#[tactic(auto, unfolding(crate::specs::Requests::ask_at))]
fn request_at(kind: u8, body: &[u8]) -> Request<'_>
    requires from { 1 ≤ kind }
    requires to { kind ≤ 23 }
    requires least { 8 * (request_layout kind).numbers + (request_layout kind).least ≤ length body.now }
    requires most { length body.now ≤ 8 * (request_layout kind).numbers + (request_layout kind).most }
    ensures { ask result ≡ ask_at kind body.now }
{
    match kind {
        HELLO => Request::Hello {
            magic: word(body, 0),
            lowest: word(body, 1),
            highest: word(body, 2),
        },
        ADD => Request::Add {
            ledger: word(body, 0),
            entry: word(body, 1),
            content: &body[16..],
        },
        ADD_RECOVERY => Request::AddRecovery {
            ledger: word(body, 0),
            entry: word(body, 1),
            content: &body[16..],
        },
        READ => Request::Read {
            ledger: word(body, 0),
            entry: word(body, 1),
        },
        READ_LAST => Request::ReadLast {
            ledger: word(body, 0),
        },
        READ_BACK => Request::ReadBack {
            number: word(body, 0),
            ledger: word(body, 1),
            entry: word(body, 2),
            digest: digest_in(&body[24..]),
        },
        LAST_ENTRY => Request::LastEntry {
            ledger: word(body, 0),
        },
        HOLDS => Request::Holds {
            ledger: word(body, 0),
            entry: word(body, 1),
        },
        _ => ledger_request_at(kind, body),
    }
}

/// Returns the request of a call on a ledger with these fields.
#[tactic(auto, unfolding(crate::specs::Requests::ask_at))]
fn ledger_request_at(kind: u8, body: &[u8]) -> Request<'_>
    requires from { 9 ≤ kind }
    requires to { kind ≤ 23 }
    requires least { 8 * (request_layout kind).numbers + (request_layout kind).least ≤ length body.now }
    requires most { length body.now ≤ 8 * (request_layout kind).numbers + (request_layout kind).most }
    ensures { ask result ≡ ask_at kind body.now }
{
    match kind {
        ENTRIES => Request::Entries {
            ledger: word(body, 0),
            from: word(body, 1),
            most: word(body, 2),
        },
        LEDGERS => Request::Ledgers {
            from: word(body, 0),
            most: word(body, 1),
        },
        FENCE => Request::Fence {
            ledger: word(body, 0),
        },
        IS_FENCED => Request::IsFenced {
            ledger: word(body, 0),
        },
        DELETE => Request::Delete {
            ledger: word(body, 0),
        },
        SET_MASTER_KEY => Request::SetMasterKey {
            ledger: word(body, 0),
            key: &body[8..],
        },
        MASTER_KEY => Request::MasterKey {
            ledger: word(body, 0),
        },
        SET_EXPLICIT_LAC => Request::SetExplicitLac {
            ledger: word(body, 0),
            lac: &body[8..],
        },
        EXPLICIT_LAC => Request::ExplicitLac {
            ledger: word(body, 0),
        },
        _ => store_request_at(kind, body),
    }
}

/// Returns the request of a call on the store with these fields.
#[tactic(auto, unfolding(crate::specs::Requests::ask_at))]
fn store_request_at(kind: u8, body: &[u8]) -> Request<'_>
    requires from { 18 ≤ kind }
    requires to { kind ≤ 23 }
    requires least { 8 * (request_layout kind).numbers + (request_layout kind).least ≤ length body.now }
    requires most { length body.now ≤ 8 * (request_layout kind).numbers + (request_layout kind).most }
    ensures { ask result ≡ ask_at kind body.now }
{
    match kind {
        FLUSH => Request::Flush,
        CHECKPOINT => Request::Checkpoint,
        COMPACT => Request::Compact {
            minor: word(body, 0),
            major: word(body, 1),
        },
        STATS => Request::Stats,
        SEAL => Request::Seal,
        CLOSE => Request::Close,
        _ => unreachable!(),
    }
}

/// Appends the frame of a request of this call.
fn put_request(
    out: &mut Vec<u8>,
    id: u64,
    kind: u8,
    numbers: &[u64],
    tail: &[u8],
) -> Result<(), EncodeError>
    requires { length numbers.now ≤ 8 }
    ensures ok { OnOk result (out.new.items ≡ out.old.items ++ frame_of id (body_of (parts kind numbers.now tail.now))) }
    ensures fits { OnOk result (FitsLayout request_layout (parts kind numbers.now tail.now)) }
    ensures err { IfErr result (λ e. Refuses e request_layout (parts kind numbers.now tail.now)) }
    ensures starts { StartsWith out.new.items out.old.items }
{
    put(out, id, kind, request_layout(kind), numbers, tail)
}

/// Appends the frame of a request. An error may leave a part of it.
fn put_any(out: &mut Vec<u8>, id: u64, one: &Request<'_>) -> Result<(), EncodeError>
    ensures ok { OnOk result (out.new.items ≡ out.old.items ++ frame_of id (body_of (ask_parts (ask one.now)))) }
    ensures fits { OnOk result (FitsLayout request_layout (ask_parts (ask one.now))) }
    ensures err { IfErr result (λ e. Refuses e request_layout (ask_parts (ask one.now))) }
    ensures starts { StartsWith out.new.items out.old.items }
{
    match one {
        Request::Hello {
            magic,
            lowest,
            highest,
        } => put_request(out, id, HELLO, &[*magic, *lowest, *highest], &[]),
        Request::Add {
            ledger,
            entry,
            content,
        } => put_request(out, id, ADD, &[*ledger, *entry], content),
        Request::AddRecovery {
            ledger,
            entry,
            content,
        } => put_request(out, id, ADD_RECOVERY, &[*ledger, *entry], content),
        Request::Read { ledger, entry } => put_request(out, id, READ, &[*ledger, *entry], &[]),
        Request::ReadLast { ledger } => put_request(out, id, READ_LAST, &[*ledger], &[]),
        Request::ReadBack {
            number,
            ledger,
            entry,
            digest,
        } => put_request(out, id, READ_BACK, &[*number, *ledger, *entry], digest),
        Request::LastEntry { ledger } => put_request(out, id, LAST_ENTRY, &[*ledger], &[]),
        Request::Holds { ledger, entry } => put_request(out, id, HOLDS, &[*ledger, *entry], &[]),
        Request::Entries { ledger, from, most } => put_request(
            out,
            id,
            ENTRIES,
            &[*ledger, *from, *most],
            &[],
        ),
        Request::Ledgers { from, most } => put_request(out, id, LEDGERS, &[*from, *most], &[]),
        Request::Fence { ledger } => put_request(out, id, FENCE, &[*ledger], &[]),
        Request::IsFenced { ledger } => put_request(out, id, IS_FENCED, &[*ledger], &[]),
        Request::Delete { ledger } => put_request(out, id, DELETE, &[*ledger], &[]),
        Request::SetMasterKey { ledger, key } => put_request(
            out,
            id,
            SET_MASTER_KEY,
            &[*ledger],
            key,
        ),
        Request::MasterKey { ledger } => put_request(out, id, MASTER_KEY, &[*ledger], &[]),
        Request::SetExplicitLac { ledger, lac } => put_request(
            out,
            id,
            SET_EXPLICIT_LAC,
            &[*ledger],
            lac,
        ),
        Request::ExplicitLac { ledger } => put_request(out, id, EXPLICIT_LAC, &[*ledger], &[]),
        Request::Flush => put_request(out, id, FLUSH, &[], &[]),
        Request::Checkpoint => put_request(out, id, CHECKPOINT, &[], &[]),
        Request::Compact { minor, major } => put_request(out, id, COMPACT, &[*minor, *major], &[]),
        Request::Stats => put_request(out, id, STATS, &[], &[]),
        Request::Seal => put_request(out, id, SEAL, &[], &[]),
        Request::Close => put_request(out, id, CLOSE, &[], &[]),
    }
}

/// Returns what `Request::decode` does.
#[tactic(auto, unfolding(crate::specs::Requests::asked))]
fn read_request(bytes: &[u8]) -> Result<Request<'_>, Fault>
    ensures value { IfOk result (λ request. asked bytes.now ≡ Ok (ask request)) }
    ensures fault { IfErr result (λ fault. asked bytes.now ≡ Err fault) }
{
    let [kind, body @ ..] = bytes else {
        return Err(Fault::NoKind);
    };
    if *kind == 0 || *kind > CLOSE {
        return Err(Fault::UnknownKind(*kind));
    }
    if request_layout(*kind).fits(body.len()) {
        Ok(request_at(*kind, body))
    } else {
        Err(Fault::BadLength {
            kind: *kind,
            length: body.len() as u64,
        })
    }
}

impl<'a> Request<'a> {
    ghost use Rattle.std.specs.Prelude.{◌≡◌, ◌++◌, Ok, Err, IfOk, IfErr, OnOk, OnErr};
    ghost use Rattle.bk_serve_core.specs.Fields.{frame_of};
    ghost use Rattle.bk_serve_core.specs.Encoding.{Refuses};
    ghost use Rattle.bk_serve_core.specs.Layouts.{request_layout};
    ghost use Rattle.bk_serve_core.specs.Requests.{ask, ask_bytes, ask_parts, asked, Fits};

    /// Returns the request that the bytes of a frame after its id are.
    ///
    /// # Errors
    ///
    /// In this order:
    ///
    /// - `NoKind` if there are no bytes.
    /// - `UnknownKind` if no request has the call of the first byte.
    /// - `BadLength` if the other bytes are not the fields of that call.
    pub fn decode(bytes: &'a [u8]) -> Result<Request<'a>, Fault>
        // The request has these bytes and no others.
        ensures same { IfOk result (λ request. bytes.now ≡ ask_bytes (ask request)) }
        ensures fits { IfOk result (λ request. Fits (ask request)) }
        ensures value { IfOk result (λ request. asked bytes.now ≡ Ok (ask request)) }
        // Which fault it is.
        ensures fault { IfErr result (λ fault. asked bytes.now ≡ Err fault) }
    {
        read_request(bytes)
    }

    /// Appends the frame of the request with this id.
    ///
    /// # Errors
    ///
    /// `out` is unchanged:
    ///
    /// - `TooLong` if the content of an entry or an attribute has too many bytes.
    /// - `Memory` if `out` cannot grow.
    #[tactic(auto, unfolding(crate::specs::Requests::ask_bytes, crate::specs::Requests::Fits))]
    pub fn encode(&self, id: u64, out: &mut Vec<u8>) -> Result<(), EncodeError>
        ensures ok { OnOk result (out.new.items ≡ out.old.items ++ frame_of id (ask_bytes (ask self.now))) }
        ensures fits { OnOk result (Fits (ask self.now)) }
        ensures err { IfErr result (λ e. Refuses e request_layout (ask_parts (ask self.now))) }
        ensures same { OnErr result (out.new.items ≡ out.old.items) }
    {
        let start = out.len();
        let result = put_any(out, id, self);
        if result.is_err() {
            out.truncate(start);
        }
        result
    }
}
