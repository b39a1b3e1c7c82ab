//! The end of a session.

ghost use Rattle.std.specs.Prelude.{◌≡◌, IfSome, drop};
ghost use Rattle.bk_serve_core.specs.Replies.{closed, done, flushed, told_bytes};
ghost use Rattle.bk_serve_dispatch.specs.Session.{Finishes, Flushes};

use crate::service::Service;
use crate::session::Buffers;
use bk_serve_core::{Done, Ended, Reply, Request, write_frames};
use std::io::Write;

/// Number of bytes of a frame before its kind: its length and its id.
const BEFORE_KIND: usize = 12;

/// How a session ends.
#[derive(Clone, Copy, Debug, PartialEq, Eq)]
pub enum End {
    /// A close was carried out and answered: by `closed`, or by why its flush failed.
    Closed { is_flushed: bool },
    /// The input ended after a whole frame.
    Over,
    /// A frame that is no request. Has its id, or 0 if this could not be read. It is not answered.
    Fault { id: u64, ended: Ended },
    /// The request with this id was carried out, and its reply could not be written. 0 is the hello.
    OutputFailed { id: u64 },
    /// The writer could not write out what it had kept back. No further request was read.
    NotWrittenOut,
}

/// Returns the front if a frame is the reply to a close that was carried out.
pub(crate) fn closed_in(frame: &[u8]) -> Option<u64>
    ensures { IfSome result (λ front. drop 12 frame.now ≡ told_bytes (done (closed front))) }
{
    match Reply::decode(frame.get(BEFORE_KIND..)?) {
        Ok(Reply::Done(Done::Closed { front })) => Some(front),
        _ => None,
    }
}

/// Returns the number of entries if a frame is the reply to a flush that was carried out.
fn flushed_in(frame: &[u8]) -> Option<u64>
    ensures { IfSome result (λ entries. drop 12 frame.now ≡ told_bytes (done (flushed entries))) }
{
    match Reply::decode(frame.get(BEFORE_KIND..)?) {
        Ok(Reply::Done(Done::Flushed { entries })) => Some(entries),
        _ => None,
    }
}

/// Flushes. The reply is not written. Returns whether the flush was carried out.
fn flush<S: Service>(service: &mut S, buffers: &mut Buffers) -> bool
    ensures { Flushes S.answers service.old result service.new }
{
    buffers.out.clear();
    let called = service.call(0, &Request::Flush, &mut buffers.out);
    called.is_ok() && flushed_in(&buffers.out).is_some()
}

/// Writes the frame that ends a session by a fault. Writes nothing if the session ended otherwise.
/// A failed write is ignored.
pub fn tell_end<W: Write>(writer: &mut W, end: End, buffers: &mut Buffers) {
    let End::Fault { id, ended } = end else {
        return;
    };
    buffers.out.clear();
    if Reply::Ended(ended).encode(id, &mut buffers.out).is_ok() {
        let _ = write_frames(writer, &buffers.out);
    }
}

/// Finishes a session whose writer was flushed: `is_written` is whether that succeeded. Flushes the
/// service, unless the session ended by a close. If it ended by a fault, also writes the frame that
/// ends it. Returns whether the session ended in order, everything was written and the flush, that of
/// the close too, was carried out.
pub fn finish<S: Service, W: Write>(
    service: &mut S,
    writer: &mut W,
    end: End,
    is_written: bool,
    buffers: &mut Buffers,
) -> bool
    ensures { Finishes S.answers end is_written service.old service.new (W.contents writer.old) (W.contents writer.new) result }
{
    match end {
        End::Closed { is_flushed } => is_flushed && is_written,
        End::Over => flush(service, buffers) && is_written,
        End::Fault { .. } => {
            let _ = flush(service, buffers);
            tell_end(writer, end, buffers);
            false
        }
        End::OutputFailed { .. } | End::NotWrittenOut => {
            let _ = flush(service, buffers);
            false
        }
    }
}
