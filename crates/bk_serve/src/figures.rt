//! The figures of the store.

ghost use Rattle.std.specs.Prelude.{◌≡◌};
ghost use Rattle.bk_serve_core.specs.Replies.{told};
ghost use Rattle.bk_serve.specs.Figures.{FiguresAnswers};

use bk_disk::LogDisk;
use bk_serve_core::{Done, Reply};
use bk_store::Store;

/// Returns the reply with the figures of the store. Visits each log and each slot for a log once.
pub(crate) fn figures<D: LogDisk>(store: &mut Store<D>) -> Reply<'static>
    ensures says { FiguresAnswers store.old (told result) }
    ensures same { store.new ≡ store.old }
{
    let stats = store.stats();
    let bytes = store.bytes();
    let cached = stats.cached.saturating_add(stats.flushing);
    let leases = store.count_leases();
    Reply::Done(Done::Figures {
        logs: stats.logs as u64,
        bytes: bytes.total,
        live: bytes.live,
        cached,
        indexed: stats.indexed as u64,
        durable: stats.durable,
        next_log: u64::from(stats.next),
        front: stats.front,
        leases,
        failures: stats.failures,
    })
}
