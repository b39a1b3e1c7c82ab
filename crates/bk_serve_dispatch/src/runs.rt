//! Runs of reads: begun one after another, while adds are answered at once.

ghost use Rattle.std.specs.Prelude.{◌≡◌, ◌<◌, ◌≤◌, length, true, vec_capacity, vec_len, IfNone, IfSome, IsTrue};
ghost use Rattle.std.specs.Io.KnownBytes.{Keeps};
ghost use Rattle.bk_serve_core.specs.Reading.{ReadsFrame};
ghost use Rattle.bk_serve_core.specs.Requests.{ask};
ghost use Rattle.bk_serve_dispatch.specs.Jobs.{BeginsOne, BeginsRead};
ghost use Rattle.bk_serve_dispatch.specs.Rounds.{GoesOn};
ghost use Rattle.bk_serve_dispatch.specs.Session.{EndsInput};

use crate::answering::{Turn, answer};
use crate::begun::{Begun, Stage};
use crate::ending::End;
use crate::input::Input;
use crate::judging::judge;
use crate::service::Service;
use crate::session::{Buffers, unread};
use crate::waiting::Ahead;
use bk_serve_core::{Request, read_frame};
use std::io::{Read, Write};
use std::rt::Clock;

/// Greatest number of reads of a run.
const RUN: usize = 64;

/// What was read after the requests that were begun or answered.
#[derive(Clone, Copy)]
pub(crate) enum Next {
    /// Nothing: the next frame is not there, or the run is full.
    Pause,
    /// A frame whose request was not carried out.
    Frame,
    /// The session ends after the replies that are pending.
    Ended(End),
    /// The session ends, and nothing more can be written.
    Lost(End),
}

impl Next {
    /// Returns the number of requests that this is: 1 or 0.
    pub(crate) fn count(self) -> u64 {
        match self {
            Next::Frame => 1,
            Next::Pause | Next::Ended(_) | Next::Lost(_) => 0,
        }
    }
}

/// How far requests were begun or answered.
#[derive(Clone, Copy)]
pub(crate) struct Gathered {
    /// The id of the last of them.
    pub(crate) last: u64,
    pub(crate) next: Next,
    /// Number of adds that were answered.
    pub(crate) adds: u64,
}

/// What became of a frame.
enum Step {
    /// Its request, with this id, was begun.
    Begun(u64),
    /// Its request, with this id, was answered.
    Answered(u64),
    /// Its request was carried out, and the session ends.
    Ended(End),
    /// Nothing.
    Alone,
}

/// Begins a read, as the last of a run that has room for it.
fn begin_read<S: Service>(
    service: &mut S,
    run: &mut Vec<Begun<S::Job>>,
    id: u64,
    request: &Request<'_>,
) -> Step
    requires { vec_len run.old < vec_capacity run.old }
    ensures { BeginsRead S.answers S.Job.gives id (ask request.now) service.old run.old.items result service.new run.new.items }
{
    match service.begin(request) {
        Some(job) => {
            let stage = Stage::Waits(job);
            run.push_reserved(Begun { id, stage });
            Step::Begun(id)
        }
        None => Step::Alone,
    }
}

/// Begins the request of a frame if it is a read and there is memory for it. Answers it if it is an
/// add.
fn begin<S: Service, W: Write>(
    service: &mut S,
    writer: &mut W,
    run: &mut Vec<Begun<S::Job>>,
    last: u64,
    buffers: &mut Buffers,
) -> Step
    requires { 9 ≤ length buffers.old.frame.items }
    ensures step { BeginsOne S.answers S.Job.gives last buffers.old.frame.items service.old run.old.items (W.contents writer.old)
        result service.new run.new.items (W.contents writer.new) }
    ensures frame { buffers.new.frame.items ≡ buffers.old.frame.items }
{
    let Ok((id, request)) = judge(&buffers.frame, last) else {
        return Step::Alone;
    };
    match request {
        Request::Add { .. } | Request::AddRecovery { .. } => {
            match answer(service, writer, id, &request, &mut buffers.out) {
                Turn::Answered(_) => Step::Answered(id),
                Turn::Ended(end) => Step::Ended(end),
            }
        }
        _ if run.try_reserve(1).is_err() => Step::Alone,
        _ => begin_read(service, run, id, &request),
    }
}

/// Reads the next frame. Returns how the session ends if it was not read.
pub(crate) fn read_next<R: Read>(reader: &mut R, frame: &mut Vec<u8>) -> Option<End>
    ensures none { IfNone result (ReadsFrame true (R.remaining reader.old) (R.remaining reader.new) frame.new.items) }
    ensures some { IfSome result (λ how. EndsInput (R.remaining reader.new) how) }
{
    match read_frame(reader, frame) {
        Ok(true) => None,
        Ok(false) => Some(End::Over),
        Err(fault) => Some(End::Fault {
            id: 0,
            ended: unread(fault),
        }),
    }
}

/// Writes out what the writer has kept back if the session is about to wait for a frame while reads
/// are carried out. Returns whether the writer did not fail.
fn write_out<H: Clock, R: Input, W: Write>(ahead: &Ahead<'_, H>, reader: &R, writer: &mut W) -> bool
    ensures { IsTrue result → Keeps (W.contents writer.old) (W.contents writer.new) }
{
    if ahead.is_under_way() && !reader.has_frame() {
        return writer.flush().is_ok();
    }
    true
}

/// Reads frames as long as `ahead` has it, begins their reads and answers their adds, up to another
/// request.
pub(crate) fn gather<H: Clock, S: Service, R: Input, W: Write>(
    ahead: &Ahead<'_, H>,
    service: &mut S,
    reader: &mut R,
    writer: &mut W,
    run: &mut Vec<Begun<S::Job>>,
    last: u64,
    buffers: &mut Buffers,
) -> Gathered
    ensures { GoesOn S.answers S.works S.Job.gives run.old.items last service.old (R.remaining reader.old) (W.contents writer.old)
        run.new.items result service.new (R.remaining reader.new) buffers.new.frame.items (W.contents writer.new) }
{
    let mut at = last;
    let mut adds = 0u64;
    for k in 0..ahead.most() {
        if run.len() >= RUN {
            break;
        }
        if !write_out(ahead, reader, writer) {
            let next = Next::Lost(End::NotWrittenOut);
            return Gathered {
                last: at,
                next,
                adds,
            };
        }
        if !ahead.is_next(reader, k == 0) {
            break;
        }
        if let Some(end) = read_next(reader, &mut buffers.frame) {
            let next = Next::Ended(end);
            return Gathered {
                last: at,
                next,
                adds,
            };
        }
        match begin(service, writer, run, at, buffers) {
            Step::Begun(id) => at = id,
            Step::Answered(id) => {
                at = id;
                adds = adds.saturating_add(1);
            }
            Step::Alone => {
                let next = Next::Frame;
                return Gathered {
                    last: at,
                    next,
                    adds,
                };
            }
            Step::Ended(end) => {
                let next = Next::Lost(end);
                return Gathered {
                    last: at,
                    next,
                    adds,
                };
            }
        }
    }
    let next = Next::Pause;
    Gathered {
        last: at,
        next,
        adds,
    }
}
