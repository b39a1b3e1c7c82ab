//! Replies to the requests of a run.

ghost use Rattle.std.specs.Prelude.{◌≡◌, IfNone, IfSome};
ghost use Rattle.std.specs.Io.KnownBytes.{Appends};
ghost use Rattle.bk_serve_dispatch.specs.declared.begun.Stage.TheVariants.{Waits};
ghost use Rattle.bk_serve_dispatch.specs.declared.ending.End.TheVariants.{OutputFailed};
ghost use Rattle.bk_serve_dispatch.specs.Jobs.{AreRun, IsRun, Tells, TellsOne, TellsRun};

use crate::begun::{Begun, Stage};
use crate::ending::End;
use crate::runs::Next;
use crate::service::Job;
use bk_serve_core::Ended;
use std::io::Write;

/// Writes a frame, which the writer may keep back. Returns how the session ends if this fails.
fn write_reply<W: Write>(writer: &mut W, id: u64, reply: &[u8]) -> Option<End>
    ensures none { IfNone result (Appends (W.contents writer.old) (W.contents writer.new) reply.now) }
    ensures some { IfSome result (λ how. how ≡ OutputFailed id) }
{
    match writer.write_all(reply) {
        Ok(()) => None,
        Err(_) => Some(End::OutputFailed { id }),
    }
}

/// Carries a job out and writes its reply. Returns how the session ends if there is none or it is
/// not written.
fn run_job<J: Job, W: Write>(job: J, id: u64, writer: &mut W, out: &mut Vec<u8>) -> Option<End>
    ensures { TellsOne J.gives (record { id = id; stage = Waits job }) result (W.contents writer.old) (W.contents writer.new) }
{
    out.clear();
    if job.run(id, out).is_err() {
        return Some(End::Fault {
            id,
            ended: Ended::NoMemory,
        });
    }
    write_reply(writer, id, out)
}

/// Writes the reply to a request that was begun, and carries out its job before if this was not
/// done. Returns how the session ends if there is no reply or it is not written.
fn tell<J: Job, W: Write>(one: Begun<J>, writer: &mut W, out: &mut Vec<u8>) -> Option<End>
    ensures { TellsOne J.gives one result (W.contents writer.old) (W.contents writer.new) }
{
    let Begun { id, stage } = one;
    match stage {
        Stage::Waits(job) => run_job(job, id, writer, out),
        Stage::Said(reply) => write_reply(writer, id, &reply),
        Stage::Unsaid => Some(End::Fault {
            id,
            ended: Ended::NoMemory,
        }),
    }
}

/// Carries out the job of a request that was begun, if this was not done. Its reply is dropped.
fn drop_reply<J: Job>(one: Begun<J>, out: &mut Vec<u8>)
    ensures { IsRun J.gives one.stage }
{
    let Begun { id, stage } = one;
    if let Stage::Waits(job) = stage {
        out.clear();
        let _ = job.run(id, out);
    }
}

/// Writes the replies to the requests of a run, in their order. Returns how the session ends if one
/// has no reply or it is not written. Then the others are carried out, and their replies dropped.
pub(crate) fn tell_all<J: Job, W: Write>(
    run: Vec<Begun<J>>,
    writer: &mut W,
    out: &mut Vec<u8>,
) -> Option<End>
    ensures { Tells J.gives (W.contents writer.old) run.items result (W.contents writer.new) }
{
    let mut how = None;
    for one in run {
        match how {
            None => how = tell(one, writer, out),
            Some(_) => drop_reply(one, out),
        }
    }
    how
}

/// Carries out the jobs of a run that are left. Their replies are dropped.
pub(crate) fn drop_all<J: Job>(run: Vec<Begun<J>>, out: &mut Vec<u8>)
    ensures { AreRun J.gives run.items }
{
    for one in run {
        drop_reply(one, out);
    }
}

/// What is left after a run was answered.
pub(crate) enum Rest<J> {
    /// The reads that were begun after it.
    Left(Vec<Begun<J>>),
    /// The session ends, and everything was carried out.
    Ended(End),
}

/// Writes the replies to the requests of a run, after which `more` were begun and `next` was read. If
/// nothing more can be written, carries out what is left and drops the replies.
pub(crate) fn tell_run<J: Job, W: Write>(
    run: Vec<Begun<J>>,
    more: Vec<Begun<J>>,
    next: Next,
    writer: &mut W,
    out: &mut Vec<u8>,
) -> Rest<J>
    ensures { TellsRun J.gives next run.items more.items result (W.contents writer.old) (W.contents writer.new) }
{
    if let Next::Lost(end) = next {
        drop_all(run, out);
        drop_all(more, out);
        return Rest::Ended(end);
    }
    match tell_all(run, writer, out) {
        None => Rest::Left(more),
        Some(end) => {
            drop_all(more, out);
            Rest::Ended(end)
        }
    }
}
