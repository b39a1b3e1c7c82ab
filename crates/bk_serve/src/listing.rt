//! Reads by ledger: the last entry of a ledger, and pages of entries and ledgers.

ghost use Rattle.std.specs.Prelude.{◌≡◌, ◌++◌, IfOk, OnOk};
ghost use Rattle.bk_serve_core.specs.Fields.{frame_of};
ghost use Rattle.bk_serve_core.specs.Replies.{Told, told, told_bytes};
ghost use Rattle.bk_serve.specs.Reads.{JobGives};
ghost use Rattle.bk_serve.specs.Listings.{EntriesAnswers, GivesPage, LastEntryAnswers, LedgersAnswers, ReadLastAnswers, bytes_of_ids, most_of_page};

use crate::ledgers::is_negative;
use crate::reading::{ReadJob, begin_read};
use bk_disk::LogDisk;
use bk_serve_core::{Done, EncodeError, Refusal, Reply};
use bk_store::Store;
use std::alloc::{AllocError, Global};

/// Greatest number of ids of a page.
pub(crate) const PAGE: u64 = 1000;

/// Returns the bytes of a page: eight of each id.
fn bytes_of_page(alloc: Global, ids: &[u64]) -> Result<Vec<u8>, AllocError>
    ensures { IfOk result (λ bytes. bytes.items ≡ bytes_of_ids ids.now) }
{
    let mut bytes = Vec::new(alloc);
    for id in ids {
        bytes.extend_from_slice(&id.to_be_bytes())?;
    }
    Ok(bytes)
}

/// Appends the reply with a page of ids.
fn give_page(alloc: Global, ids: &[u64], id: u64, out: &mut Vec<u8>) -> Result<(), EncodeError>
    ensures { (t : Told) × GivesPage ids.now t × OnOk result (out.new.items ≡ out.old.items ++ frame_of id (told_bytes t)) }
{
    match bytes_of_page(alloc, ids) {
        Ok(ids) => Reply::Done(Done::Page { ids: &ids }).encode(id, out),
        Err(_) => Reply::Refused(Refusal::Memory).encode(id, out),
    }
}

/// Returns the number of ids of a page, of which the client takes at most `most`.
fn page_of(most: u64) -> usize
    ensures { result ≡ most_of_page most }
{
    most.min(PAGE) as usize
}

/// Returns the reply with the last entry id of a ledger.
pub(crate) fn last_entry<D: LogDisk>(store: &Store<D>, ledger: u64) -> Reply<'static>
    ensures { LastEntryAnswers ledger store.now (told result) }
{
    if is_negative(ledger) {
        return Reply::Refused(Refusal::Negative);
    }
    if store.is_dead(ledger) {
        return Reply::Refused(Refusal::Deleted);
    }
    match store.last_entry(ledger) {
        Some(entry) => Reply::Done(Done::Last { entry }),
        None => Reply::Done(Done::NotHeld),
    }
}

/// Begins to read the last entry of a ledger.
pub(crate) fn begin_read_last<D: LogDisk>(
    alloc: Global,
    store: &mut Store<D>,
    ledger: u64,
) -> ReadJob<D::View>
    ensures { (t : Told) → JobGives D.View.bytes D.View.honest result t → ReadLastAnswers D.View.bytes D.View.honest D.View.sound ledger store.old t store.new }
{
    if is_negative(ledger) {
        return ReadJob::Refused(Refusal::Negative);
    }
    if store.is_dead(ledger) {
        return ReadJob::Refused(Refusal::Deleted);
    }
    match store.last_entry(ledger) {
        Some(entry) => begin_read(alloc, store, ledger, entry),
        None => ReadJob::NotHeld,
    }
}

/// Appends the reply with a page of the entry ids of a ledger.
pub(crate) fn entries<D: LogDisk>(
    alloc: Global,
    store: &Store<D>,
    ledger: u64,
    from: u64,
    most: u64,
    id: u64,
    out: &mut Vec<u8>,
) -> Result<(), EncodeError>
    ensures { (t : Told) × EntriesAnswers ledger from most store.now t × OnOk result (out.new.items ≡ out.old.items ++ frame_of id (told_bytes t)) }
{
    if is_negative(ledger) {
        return Reply::Refused(Refusal::Negative).encode(id, out);
    }
    if store.is_dead(ledger) {
        return Reply::Refused(Refusal::Deleted).encode(id, out);
    }
    match store.entries(ledger, from, page_of(most)) {
        Ok(page) => give_page(alloc, &page, id, out),
        Err(_) => Reply::Refused(Refusal::Memory).encode(id, out),
    }
}

/// Appends the reply with a page of ledgers.
pub(crate) fn ledgers<D: LogDisk>(
    alloc: Global,
    store: &Store<D>,
    from: u64,
    most: u64,
    id: u64,
    out: &mut Vec<u8>,
) -> Result<(), EncodeError>
    ensures { (t : Told) × LedgersAnswers from most store.now t × OnOk result (out.new.items ≡ out.old.items ++ frame_of id (told_bytes t)) }
{
    match store.ledgers(from, page_of(most)) {
        Ok(page) => give_page(alloc, &page, id, out),
        Err(_) => Reply::Refused(Refusal::Memory).encode(id, out),
    }
}
