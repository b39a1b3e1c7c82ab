//! Which frames are requests of a session.

ghost use Rattle.std.specs.Prelude.{◌≤◌, length, IfOk, IfErr};
ghost use Rattle.bk_serve_core.specs.Requests.{ask};
ghost use Rattle.bk_serve_dispatch.specs.Frames.{Asks, EndsByDecoding, Faults};

use bk_serve_core::{Ended, Fault, Request, split_id};

/// Returns the fault of a session whose frame is no request.
fn ended_by(fault: Fault) -> Ended
    ensures { EndsByDecoding fault result }
{
    match fault {
        Fault::NoKind => Ended::Short { length: 8 },
        Fault::UnknownKind(call) => Ended::UnknownCall {
            call: u64::from(call),
        },
        Fault::BadLength { kind, length } => Ended::BadFields {
            call: u64::from(kind),
            length,
        },
    }
}

/// Returns the id and the request of a frame after the id `last`.
///
/// # Errors
///
/// In this order, each with the id of the frame:
///
/// - `NotRising` if the id is not greater than `last`.
/// - `UnknownCall` if no request has its call.
/// - `BadFields` if a request of its call cannot have its number of bytes of fields.
/// - `SecondHello` if it is a hello.
pub fn judge(frame: &[u8], last: u64) -> Result<(u64, Request<'_>), (u64, Ended)>
    requires { 9 ≤ length frame.now }
    ensures ok { IfOk result (λ taken. Asks last frame.now taken.0 (ask taken.1)) }
    ensures err { IfErr result (λ fault. Faults last frame.now fault.0 fault.1) }
{
    let (id, body) = split_id(frame);
    if id <= last {
        return Err((
            id,
            Ended::NotRising {
                next: id,
                previous: last,
            },
        ));
    }
    match Request::decode(body) {
        Err(fault) => Err((id, ended_by(fault))),
        Ok(Request::Hello { .. }) => Err((id, Ended::SecondHello)),
        Ok(request) => Ok((id, request)),
    }
}
