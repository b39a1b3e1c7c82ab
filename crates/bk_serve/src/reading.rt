//! Reads.

ghost use Rattle.std.specs.Prelude.{◌≡◌, ◌++◌, ◌↔◌, IsTrue, OnOk};
ghost use Rattle.bk_store.specs.declared.mark.Mark.TheVariants.{Add};
ghost use Rattle.bk_serve_core.specs.Fields.{frame_of};
ghost use Rattle.bk_serve_core.specs.Replies.{Told, told, told_bytes};
ghost use Rattle.bk_serve.specs.Reads.{HoldsAnswers, JobGives, ReadAnswers, ReadBackAnswers, GivesLeased, GivesPayload, IsRead, LooksUp};

use crate::host::ServedView;
use crate::refusals::{of_fetch, of_take};
use bk_disk::{LogDisk, LogView};
use bk_lease::Lease;
use bk_log::fetch;
use bk_record::{Key, Location};
use bk_serve_core::{Done, EncodeError, Refusal, Reply};
use bk_serve_dispatch::Job;
use bk_store::{Mark, Store, Taken};
use std::alloc::Global;
use std::sync::Arc;

/// Number of bytes of the ids of an entry.
const IDS: usize = 16;

/// Appends the reply with an entry.
fn give_payload(key: Key, payload: &[u8], id: u64, out: &mut Vec<u8>) -> Result<(), EncodeError>
    ensures { (t : Told) × GivesPayload key payload.now t × OnOk result (out.new.items ≡ out.old.items ++ frame_of id (told_bytes t)) }
{
    match payload.get(IDS..) {
        Some(content) => Reply::Done(Done::Entry {
            ledger: key.ledger(),
            entry: key.entry(),
            content,
        })
        .encode(id, out),
        None => Reply::Refused(Refusal::Odd).encode(id, out),
    }
}

/// Reads an entry by a lease, and appends the reply.
fn give_leased<V: LogView>(
    alloc: Global,
    lease: &Lease<V>,
    location: Location,
    key: Key,
    id: u64,
    out: &mut Vec<u8>,
) -> Result<(), EncodeError>
    ensures { (t : Told) × GivesLeased V.bytes V.honest lease.now.view location key t × OnOk result (out.new.items ≡ out.old.items ++ frame_of id (told_bytes t)) }
{
    match fetch(lease.view(), alloc, location, key) {
        Ok(payload) => give_payload(key, &payload, id, out),
        Err(fault) => Reply::Refused(of_fetch(fault)).encode(id, out),
    }
}

/// What the reply to a read is made of. The lease ends when it is carried out.
#[derive(Drop)]
pub(crate) enum ReadJob<V: Drop> {
    /// The store has no such entry.
    NotHeld,
    /// The read is refused.
    Refused(Refusal),
    /// The entry, from a cache.
    Cached {
        key: Key,
        payload: Arc<Vec<u8>>,
    },
    /// The entry is in the log of this lease.
    Leased {
        alloc: Global,
        lease: Lease<V>,
        location: Location,
        key: Key,
    },
}

/// Carries out a read, and appends the reply. Its lease ends here.
pub(crate) fn run_read<V: LogView>(
    job: ReadJob<V>,
    id: u64,
    out: &mut Vec<u8>,
) -> Result<(), EncodeError>
    ensures { (t : Told) × JobGives V.bytes V.honest job t × OnOk result (out.new.items ≡ out.old.items ++ frame_of id (told_bytes t)) }
{
    match job {
        ReadJob::NotHeld => Reply::Done(Done::NotHeld).encode(id, out),
        ReadJob::Refused(refusal) => Reply::Refused(refusal).encode(id, out),
        ReadJob::Cached { key, payload } => give_payload(key, &payload, id, out),
        ReadJob::Leased {
            alloc,
            lease,
            location,
            key,
        } => {
            let given = give_leased(alloc, &lease, location, key, id, out);
            lease.release().end();
            given
        }
    }
}

impl Job for ReadJob<ServedView> {
    ghost use Rattle.std.specs.Prelude.{◌&&◌};
    ghost use Rattle.bk_hint_view.specs.Showing.{HintedBytes, has_true_table};

    ghost gives = { λ job t. JobGives {V = HintedBytes} (λ v. v.bytes) (λ v. v.inner && has_true_table v.table v.bytes) job t };

    fn may_wait(&self) -> bool {
        matches!(self, ReadJob::Leased { .. })
    }

    fn run(self, id: u64, out: &mut Vec<u8>) -> Result<(), EncodeError> {
        run_read(self, id, out)
    }
}

/// Takes an entry from the store.
fn take<D: LogDisk>(alloc: Global, store: &mut Store<D>, key: Key) -> ReadJob<D::View>
    ensures { (t : Told) → JobGives D.View.bytes D.View.honest result t → IsRead D.View.bytes D.View.honest D.View.sound key store.old t store.new }
{
    match store.take(key) {
        Ok(Taken::Deleted) => ReadJob::Refused(Refusal::Deleted),
        Ok(Taken::NotHeld) => ReadJob::NotHeld,
        Ok(Taken::Cached(payload)) => ReadJob::Cached { key, payload },
        Ok(Taken::Leased(lease, location)) => ReadJob::Leased {
            alloc,
            lease,
            location,
            key,
        },
        Err(fault) => ReadJob::Refused(of_take(fault)),
    }
}

/// Begins to read an entry.
pub(crate) fn begin_read<D: LogDisk>(
    alloc: Global,
    store: &mut Store<D>,
    ledger: u64,
    entry: u64,
) -> ReadJob<D::View>
    ensures { (t : Told) → JobGives D.View.bytes D.View.honest result t → ReadAnswers D.View.bytes D.View.honest D.View.sound ledger entry store.old t store.new }
{
    match Key::new(ledger, entry) {
        Some(key) => take(alloc, store, key),
        None => ReadJob::Refused(Refusal::Negative),
    }
}

/// What a trail has at a number.
pub(crate) enum Found {
    /// The mark of the accepted entry.
    Stands,
    /// Nothing: the trail ends before it.
    Missing,
    /// This mark, which is another.
    Differs(Mark),
}

/// Returns whether a mark is that of an accepted entry with this key and digest.
fn is_mark_of(mark: &Mark, key: Key, digest: &[u8; 32]) -> bool
    ensures { IsTrue result ↔ (mark.now ≡ Add key digest.now) }
{
    match mark {
        Mark::Add {
            key: of,
            digest: with,
        } => *of == key && *with == *digest,
        Mark::Delete { .. } | Mark::Fence { .. } => false,
    }
}

/// Looks up the mark of an accepted entry in a trail.
fn look_up(trail: &[Mark], number: u64, key: Key, digest: &[u8; 32]) -> Found
    ensures { LooksUp trail.now number key digest.now result }
{
    let Some(mark) = trail.get(number as usize) else {
        return Found::Missing;
    };
    if is_mark_of(mark, key, digest) {
        Found::Stands
    } else {
        Found::Differs(*mark)
    }
}

/// Begins to read the entry of a receipt if the trail has its mark.
fn begin_receipt<D: LogDisk>(
    alloc: Global,
    store: &mut Store<D>,
    number: u64,
    key: Key,
    digest: &[u8; 32],
) -> ReadJob<D::View>
    ensures { (t : Told) → JobGives D.View.bytes D.View.honest result t
        → ReadBackAnswers D.View.bytes D.View.honest D.View.sound number key.ledger key.entry digest.now store.old t store.new }
{
    match look_up(store.trail(), number, key, digest) {
        Found::Stands => take(alloc, store, key),
        Found::Missing => {
            let front = store.front();
            ReadJob::Refused(Refusal::Missing { front })
        }
        Found::Differs(_) => ReadJob::Refused(Refusal::Differs),
    }
}

/// Begins to read the entry of a receipt if the trail has its mark.
pub(crate) fn begin_read_back<D: LogDisk>(
    alloc: Global,
    store: &mut Store<D>,
    number: u64,
    ledger: u64,
    entry: u64,
    digest: &[u8; 32],
) -> ReadJob<D::View>
    ensures { (t : Told) → JobGives D.View.bytes D.View.honest result t
        → ReadBackAnswers D.View.bytes D.View.honest D.View.sound number ledger entry digest.now store.old t store.new }
{
    match Key::new(ledger, entry) {
        Some(key) => begin_receipt(alloc, store, number, key, digest),
        None => ReadJob::Refused(Refusal::Negative),
    }
}

/// Returns the reply to whether the store has an entry. Reads no log.
pub(crate) fn holds<D: LogDisk>(store: &Store<D>, ledger: u64, entry: u64) -> Reply<'static>
    ensures { HoldsAnswers ledger entry store.now (told result) }
{
    let Some(key) = Key::new(ledger, entry) else {
        return Reply::Refused(Refusal::Negative);
    };
    if store.holds(&key) {
        Reply::Done(Done::Yes)
    } else {
        Reply::Done(Done::No)
    }
}
