//! A session after its hello.

ghost use Rattle.std.specs.Prelude.{◌≡◌, ◌≤◌, [], length, nat_lt, false, IsTrue};
ghost use Rattle.std.specs.Io.KnownBytes.{Keeps};
ghost use Rattle.bk_serve_dispatch.specs.declared.runs.Next.TheVariants.{Frame};
ghost use Rattle.bk_serve_dispatch.specs.Jobs.{AreCarried};
ghost use Rattle.bk_serve_dispatch.specs.Rounds.{StandsFirst, StandsOn, StandsStill, TakesNext};
ghost use Rattle.bk_serve_dispatch.specs.Session.{Rests, Serves, Turns, is_lost, point};

use crate::answering::{Turn, take_frame};
use crate::begun::Begun;
use crate::ending::End;
use crate::input::Input;
use crate::runs::{Gathered, Next, gather, read_next};
use crate::service::Service;
use crate::telling::{Rest, tell_run};
use crate::threads::{Pace, Readers, Sent, send_out};
use crate::waiting::Ahead;
use bk_serve_core::{Ended, FrameFault, LONGEST_FRAME};
use std::alloc::Global;
use std::io::Write;
use std::rt::Clock;
use std::thread::Threads;

/// Number of requests after which a step of the service is due although requests wait.
const PATIENCE: u64 = 256;

/// Greatest number of runs of a turn.
const ROUNDS: u32 = 4;

/// Memory that a session uses again for each frame.
#[derive(Drop)]
pub struct Buffers {
    pub(crate) frame: Vec<u8>,
    pub(crate) out: Vec<u8>,
}

impl Buffers {
    /// Returns empty buffers.
    pub fn new(alloc: Global) -> Buffers {
        Buffers {
            frame: Vec::new(alloc),
            out: Vec::new(alloc),
        }
    }
}

/// Returns the fault of a session whose frame could not be read.
pub(crate) fn unread(fault: FrameFault) -> Ended {
    match fault {
        FrameFault::Short(length) => Ended::Short {
            length: u64::from(length),
        },
        FrameFault::Oversized(length) => Ended::Oversized {
            length: u64::from(length),
            largest: u64::from(LONGEST_FRAME),
        },
        FrameFault::Cut { length, read } => Ended::Cut { length, read },
        FrameFault::Device => Ended::InputFailed,
        FrameFault::Memory => Ended::NoMemory,
    }
}

/// How a session goes on from turn to turn.
#[derive(Drop)]
struct Course {
    /// Number of requests that were served since the last step of the service.
    served: u64,
    pace: Pace,
}

impl Course {
    /// Counts requests as served.
    fn count(&mut self, more: u64) {
        self.served = self.served.saturating_add(more);
    }
}

/// A run that was carried out, and what was begun meanwhile.
pub(crate) struct Round<J> {
    run: Vec<Begun<J>>,
    more: Vec<Begun<J>>,
    at: Gathered,
}

/// Reads that were begun and are still to be answered.
pub(crate) struct Left<J> {
    run: Vec<Begun<J>>,
    at: Gathered,
}

/// What is left after some rounds.
pub(crate) enum Rounds<J> {
    /// Reads that were begun.
    Left(Left<J>),
    /// The session ends, and everything was carried out.
    Ended(End),
}

/// Reads the first frames of a turn: one, if no read is begun ahead.
fn gather_first<H: Clock, S: Service, R: Input, W: Write>(
    readers: &Readers<H>,
    service: &mut S,
    reader: &mut R,
    writer: &mut W,
    run: &mut Vec<Begun<S::Job>>,
    last: u64,
    buffers: &mut Buffers,
) -> Gathered
    requires { run.old.items ≡ [] }
    ensures { StandsFirst (nat_lt 1 readers.now.most) S.answers S.works S.Job.gives last service.old (R.remaining reader.old) (W.contents writer.old)
        run.new.items result service.new (R.remaining reader.new) buffers.new.frame.items (W.contents writer.new) }
{
    if readers.most > 1 {
        let ahead: Ahead<'_, H> = Ahead::There;
        return gather(&ahead, service, reader, writer, run, last, buffers);
    }
    let next = match read_next(reader, &mut buffers.frame) {
        Some(end) => Next::Ended(end),
        None => Next::Frame,
    };
    Gathered {
        last,
        next,
        adds: 0,
    }
}

/// Begins further reads after those of a run, unless something else was read after these.
fn gather_on<H: Clock, S: Service, R: Input, W: Write>(
    ahead: &Ahead<'_, H>,
    service: &mut S,
    reader: &mut R,
    writer: &mut W,
    more: &mut Vec<Begun<S::Job>>,
    at: Gathered,
    buffers: &mut Buffers,
) -> Gathered
    requires { more.old.items ≡ [] }
    ensures { StandsOn S.answers S.works S.Job.gives at service.old (R.remaining reader.old) buffers.old.frame.items (W.contents writer.old)
        more.new.items result service.new (R.remaining reader.new) buffers.new.frame.items (W.contents writer.new) }
{
    match at.next {
        Next::Pause => gather(ahead, service, reader, writer, more, at.last, buffers),
        Next::Frame | Next::Ended(_) | Next::Lost(_) => at,
    }
}

/// Carries out a run. If other threads do, goes on to read frames meanwhile.
fn carry_run<H: Threads + Clock + Copy + Send + Sync + 'static, S: Service, R: Input, W: Write>(
    readers: &Readers<H>,
    pace: &mut Pace,
    service: &mut S,
    reader: &mut R,
    writer: &mut W,
    left: Left<S::Job>,
    buffers: &mut Buffers,
) -> Round<S::Job>
    ensures run { AreCarried S.Job.gives left.run.items result.run.items }
    ensures more { StandsOn S.answers S.works S.Job.gives left.at service.old (R.remaining reader.old) buffers.old.frame.items (W.contents writer.old)
        result.more.items result.at service.new (R.remaining reader.new) buffers.new.frame.items (W.contents writer.new) }
{
    let Left { run, at } = left;
    let alloc = *buffers.frame.allocator();
    let mut more = Vec::new(alloc);
    match send_out(readers, *pace, alloc, run) {
        Sent::Here(run) => Round { run, more, at },
        Sent::Away(away) => {
            let ahead = Ahead::UnderWay {
                clock: &readers.handle,
                done: &away.done,
            };
            let at = gather_on(&ahead, service, reader, writer, &mut more, at, buffers);
            let run = away.back(&readers.handle, pace);
            Round { run, more, at }
        }
    }
}

/// Carries out a run and writes the replies. Does the same with what was begun meanwhile, a number
/// of times.
fn take_rounds<H: Threads + Clock + Copy + Send + Sync + 'static, S: Service, R: Input, W: Write>(
    readers: &Readers<H>,
    service: &mut S,
    reader: &mut R,
    writer: &mut W,
    first: Left<S::Job>,
    course: &mut Course,
    buffers: &mut Buffers,
) -> Rounds<S::Job>
    ensures { StandsStill S.answers S.works S.Job.gives first service.old (R.remaining reader.old) buffers.old.frame.items (W.contents writer.old)
        result service.new (R.remaining reader.new) buffers.new.frame.items (W.contents writer.new) }
{
    let mut left = first;
    for _ in 0..ROUNDS {
        if left.run.is_empty() {
            break;
        }
        course.count(left.run.len() as u64);
        let Round { run, more, at } = carry_run(
            readers,
            &mut course.pace,
            service,
            reader,
            writer,
            left,
            buffers,
        );
        course.count(at.adds);
        match tell_run(run, more, at.next, writer, &mut buffers.out) {
            Rest::Left(run) => left = Left { run, at },
            Rest::Ended(end) => return Rounds::Ended(end),
        }
    }
    Rounds::Left(left)
}

/// Reads a frame, carries out its request and writes the reply. If reads are begun ahead and it is a
/// read or an add, does the same with the reads and adds after it.
fn take_turn<H: Threads + Clock + Copy + Send + Sync + 'static, S: Service, R: Input, W: Write>(
    readers: &Readers<H>,
    service: &mut S,
    reader: &mut R,
    writer: &mut W,
    last: u64,
    course: &mut Course,
    buffers: &mut Buffers,
) -> Turn
    ensures { Turns (nat_lt 1 readers.now.most) S.answers S.works (point last service.old (R.remaining reader.old) (W.contents writer.old))
        service.new (R.remaining reader.new) (W.contents writer.new) result }
{
    let alloc = *buffers.frame.allocator();
    let mut run = Vec::new(alloc);
    let at = gather_first(readers, service, reader, writer, &mut run, last, buffers);
    course.count(at.adds);
    let first = Left { run, at };
    let left = match take_rounds(readers, service, reader, writer, first, course, buffers) {
        Rounds::Left(left) => left,
        Rounds::Ended(end) => return Turn::Ended(end),
    };
    let Left { run, at } = left;
    course.count((run.len() as u64).saturating_add(at.next.count()));
    let none = Vec::new(alloc);
    match tell_run(run, none, at.next, writer, &mut buffers.out) {
        Rest::Left(_done) => take_next(service, writer, at, buffers),
        Rest::Ended(end) => Turn::Ended(end),
    }
}

/// Answers the request of the frame that was read last, if there is one.
fn take_next<S: Service, W: Write>(
    service: &mut S,
    writer: &mut W,
    at: Gathered,
    buffers: &mut Buffers,
) -> Turn
    requires frame { at.next ≡ Frame → 9 ≤ length buffers.old.frame.items }
    requires lives { is_lost at.next ≡ false }
    ensures { TakesNext S.answers S.works S.Job.gives at service.old buffers.old.frame.items (W.contents writer.old) service.new (W.contents writer.new) result }
{
    match at.next {
        Next::Pause => Turn::Answered(at.last),
        Next::Frame => take_frame(service, writer, at.last, buffers),
        Next::Ended(end) => Turn::Ended(end),
        Next::Lost(end) => Turn::Ended(end),
    }
}

/// Performs steps of the service as long as no input waits.
fn rest<S: Service, R: Input>(service: &mut S, reader: &R)
    ensures { Rests S.works service.old service.new }
{
    for _ in 0..u64::MAX {
        if reader.is_waiting() || !service.is_due() {
            return;
        }
        service.work();
    }
}

/// Performs a step of the service if enough requests were served since the last one.
fn nudge<S: Service>(service: &mut S, course: &mut Course)
    ensures { Rests S.works service.old service.new }
{
    if course.served >= PATIENCE {
        course.served = 0;
        service.work();
    }
}

/// Writes out what the writer has kept back, unless the next frame is there. Then performs steps of
/// the service as long as no input waits. Returns whether the writer did not fail.
fn pause<S: Service, R: Input, W: Write>(
    service: &mut S,
    reader: &R,
    writer: &mut W,
    course: &mut Course,
) -> bool
    ensures state { Rests S.works service.old service.new }
    ensures output { IsTrue result → Keeps (W.contents writer.old) (W.contents writer.new) }
{
    nudge(service, course);
    if reader.has_frame() {
        return true;
    }
    if writer.flush().is_err() {
        return false;
    }
    rest(service, reader);
    true
}

/// Serves the requests after a hello with the id `first`, until a close, the end of the input or a
/// fault. Each request is carried out once, in the order of the input, and answered by one frame
/// with its id. The writer may keep replies back as long as the next frame is there.
///
/// With one reader, each request is answered before the next is read. With several `readers`, reads
/// are begun one after another, at most 64 as a run, and their replies are pending. If they take
/// long, threads carry them out. Meanwhile the session goes on to read frames: it begins reads for
/// the next run, and carries out adds and answers them. Another request waits until no reply is
/// pending. So replies come in the order of the requests, but the reply to an add may overtake
/// those that are pending to earlier reads.
///
/// The service performs steps of its own while no input waits, and one after every 256 requests,
/// between which at most four runs may be carried out.
///
/// The fault of a frame is not written: see `finish`.
pub fn serve_requests<
    H: Threads + Clock + Copy + Send + Sync + 'static,
    S: Service,
    R: Input,
    W: Write,
>(
    readers: &Readers<H>,
    service: &mut S,
    reader: &mut R,
    writer: &mut W,
    first: u64,
    buffers: &mut Buffers,
) -> End
    ensures { Serves (nat_lt 1 readers.now.most) S.answers S.works (point first service.old (R.remaining reader.old) (W.contents writer.old))
        service.new (R.remaining reader.new) (W.contents writer.new) result }
{
    let mut last = first;
    let mut course = Course {
        served: 0,
        pace: Pace::new(),
    };
    for _ in 0..u64::MAX {
        if !pause(service, reader, writer, &mut course) {
            return End::NotWrittenOut;
        }
        match take_turn(readers, service, reader, writer, last, &mut course, buffers) {
            Turn::Answered(id) => last = id,
            Turn::Ended(end) => return end,
        }
    }
    End::Fault {
        id: 0,
        ended: Ended::InputFailed,
    }
}
