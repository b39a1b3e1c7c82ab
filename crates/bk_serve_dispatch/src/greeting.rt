//! The hello of a session.

ghost use Rattle.std.specs.Prelude.{◌≡◌, ◌≤◌, length, IfOk, IfErr};
ghost use Rattle.bk_serve_dispatch.specs.Greeting.{Greets, IsGreeting};
ghost use Rattle.bk_serve_core.specs.Replies.{told};

use crate::ending::End;
use crate::session::{Buffers, unread};
use bk_serve_core::{Ended, MAGIC, Reply, Request, VERSION, read_frame, split_id, write_frames};
use std::io::{Read, Write};

/// Returns the id of a hello that speaks this version.
///
/// # Errors
///
/// In this order, each with the id of the frame:
///
/// - `NoHello` if the frame is no hello.
/// - `Version` if it does not speak version 1.
fn judge_hello(frame: &[u8]) -> Result<u64, (u64, Ended)>
    requires { 9 ≤ length frame.now }
    ensures { IfOk result (λ id. IsGreeting frame.now id) }
{
    let (id, body) = split_id(frame);
    match Request::decode(body) {
        Ok(
            Request::Hello {
                magic,
                lowest,
                highest,
            },
        ) if magic == MAGIC => {
            if lowest <= VERSION && VERSION <= highest {
                Ok(id)
            } else {
                Err((
                    id,
                    Ended::Version {
                        lowest: VERSION,
                        highest: VERSION,
                    },
                ))
            }
        }
        _ => Err((id, Ended::NoHello)),
    }
}

/// Reads the hello of a session and answers it by `reply`, which says whether the directory was
/// opened. Returns the id of the hello.
///
/// # Errors
///
/// - `Over` if the input has no frame.
/// - `Fault` if the first frame is no hello that speaks this version.
/// - `OutputFailed` if the reply could not be written.
pub fn greet<R: Read, W: Write>(
    reader: &mut R,
    writer: &mut W,
    reply: &Reply<'_>,
    buffers: &mut Buffers,
) -> Result<u64, End>
    ensures { IfOk result (λ id. Greets (told reply.now) id (R.remaining reader.old) (R.remaining reader.new) (W.contents writer.old) (W.contents writer.new)) }
{
    match read_frame(reader, &mut buffers.frame) {
        Ok(true) => {}
        Ok(false) => return Err(End::Over),
        Err(fault) => {
            return Err(End::Fault {
                id: 0,
                ended: unread(fault),
            });
        }
    }
    let id = match judge_hello(&buffers.frame) {
        Ok(id) => id,
        Err((id, ended)) => return Err(End::Fault { id, ended }),
    };
    buffers.out.clear();
    if reply.encode(id, &mut buffers.out).is_err() {
        return Err(End::Fault {
            id,
            ended: Ended::NoMemory,
        });
    }
    if write_frames(writer, &buffers.out).is_err() {
        return Err(End::OutputFailed { id });
    }
    Ok(id)
}
