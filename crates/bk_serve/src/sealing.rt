//! Requests that flush.

ghost use Rattle.bk_serve_core.specs.Replies.{told};
ghost use Rattle.bk_serve.specs.Flushes.{FlushAnswers, CheckpointAnswers, CloseAnswers, RollAnswers, SealAnswers};

use crate::flushing::flush_all;
use crate::refusals::of_step;
use crate::tally::Tally;
use bk_disk::LogDisk;
use bk_flush::{RollAnswer, roll};
use bk_serve_core::{Done, Refusal, Reply};
use bk_store::Store;

/// Flushes. The reply has the number of entries that were published.
pub(crate) fn flush<D: LogDisk>(store: &mut Store<D>) -> Reply<'static>
    ensures { FlushAnswers store.old (told result) store.new }
{
    let mut tally = Tally::NONE;
    match flush_all(store, &mut tally) {
        Ok(()) => Reply::Done(Done::Flushed {
            entries: tally.published,
        }),
        Err(fault) => Reply::Refused(of_step(fault)),
    }
}

/// Flushes. The reply has the length of the trail, all of which is durable.
pub(crate) fn checkpoint<D: LogDisk>(store: &mut Store<D>) -> Reply<'static>
    ensures { CheckpointAnswers store.old (told result) store.new }
{
    match flush_all(store, &mut Tally::NONE) {
        Ok(()) => Reply::Done(Done::Durable {
            front: store.front(),
        }),
        Err(fault) => Reply::Refused(of_step(fault)),
    }
}

/// Flushes, as the last request of a session.
pub(crate) fn close<D: LogDisk>(store: &mut Store<D>) -> Reply<'static>
    ensures { CloseAnswers store.old (told result) store.new }
{
    match flush_all(store, &mut Tally::NONE) {
        Ok(()) => Reply::Done(Done::Closed {
            front: store.front(),
        }),
        Err(fault) => Reply::Refused(of_step(fault)),
    }
}

/// Flushes, then seals the open log.
pub(crate) fn seal<D: LogDisk>(store: &mut Store<D>) -> Reply<'static>
    ensures { SealAnswers store.old (told result) store.new }
{
    match flush_all(store, &mut Tally::NONE) {
        Ok(()) => seal_open(store),
        Err(fault) => Reply::Refused(of_step(fault)),
    }
}

/// Seals the open log.
fn seal_open<D: LogDisk>(store: &mut Store<D>) -> Reply<'static>
    ensures { RollAnswers store.old (told result) store.new }
{
    match roll(store) {
        Ok(RollAnswer::Sealed(log)) => Reply::Done(Done::Sealed {
            log: u64::from(log),
        }),
        Ok(RollAnswer::NothingOpen) => Reply::Done(Done::NothingOpen),
        // Does not occur after a flush.
        Ok(RollAnswer::FlushRunning) => Reply::Refused(Refusal::Odd),
        Err(fault) => Reply::Refused(of_step(fault)),
    }
}
