//! A request that is carried out and answered at once.

ghost use Rattle.std.specs.Prelude.{◌≡◌, ◌≤◌, ℕ, List, Option, length, true};
ghost use Rattle.bk_serve_core.specs.Reading.{ReadsFrame};
ghost use Rattle.bk_serve_core.specs.Requests.{ask};
ghost use Rattle.bk_serve_dispatch.specs.Session.{Answers, IsTurnAfter, TurnsBy, point};

use crate::ending::{End, closed_in};
use crate::judging::judge;
use crate::service::Service;
use crate::session::Buffers;
use bk_serve_core::{Ended, Request};
use std::io::Write;

/// What one turn of a session does.
pub(crate) enum Turn {
    /// The request with this id was answered, and is no close.
    Answered(u64),
    /// The session ends.
    Ended(End),
}

/// Returns what a turn does whose request was answered by this frame.
fn turn_after(id: u64, request: &Request<'_>, reply: &[u8]) -> Turn
    ensures { IsTurnAfter id (ask request.now) reply.now result }
{
    match request {
        Request::Close => Turn::Ended(End::Closed {
            is_flushed: closed_in(reply).is_some(),
        }),
        _ => Turn::Answered(id),
    }
}

/// Carries out a request and writes its reply, which the writer may keep back.
pub(crate) fn answer<S: Service, W: Write>(
    service: &mut S,
    writer: &mut W,
    id: u64,
    request: &Request<'_>,
    out: &mut Vec<u8>,
) -> Turn
    ensures { Answers S.answers service.old (ask request.now) id service.new (W.contents writer.old) (W.contents writer.new) result }
{
    out.clear();
    if service.call(id, request, out).is_err() {
        return Turn::Ended(End::Fault {
            id,
            ended: Ended::NoMemory,
        });
    }
    if writer.write_all(out).is_err() {
        return Turn::Ended(End::OutputFailed { id });
    }
    turn_after(id, request, out)
}

/// Carries out the request of a frame and writes the reply, unless the frame ends the session.
pub(crate) fn take_frame<S: Service, W: Write>(
    service: &mut S,
    writer: &mut W,
    last: u64,
    buffers: &mut Buffers,
) -> Turn
    requires { 9 ≤ length buffers.old.frame.items }
    ensures { (input input_after : Option (List ℕ)) → ReadsFrame true input input_after buffers.old.frame.items
        → TurnsBy S.answers (point last service.old input (W.contents writer.old)) service.new input_after (W.contents writer.new) result }
{
    match judge(&buffers.frame, last) {
        Ok((id, request)) => answer(service, writer, id, &request, &mut buffers.out),
        Err((id, ended)) => Turn::Ended(End::Fault { id, ended }),
    }
}
