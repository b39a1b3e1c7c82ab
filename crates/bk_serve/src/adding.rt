//! Adds.

ghost use Rattle.std.specs.Prelude.{◌≡◌, ◌++◌, IfOk};
ghost use Rattle.std.specs.Int.{w64, to_be_bytes};
ghost use Rattle.bk_store.specs.Transitions.{AddTransition};
ghost use Rattle.bk_serve_core.specs.Replies.{told};
ghost use Rattle.bk_serve.specs.Adds.{AddAnswers, AddsAfterFlush, AddsContent, AddsEntry, told_of_add, is_full, payload_of};

use crate::catching_up::catch_up;
use crate::flushing::flush_all;
use crate::refusals::{of_add, of_step};
use crate::tally::Tally;
use bk_disk::LogDisk;
use bk_manifest::{Manifest, ManifestFile};
use bk_serve_core::{Done, Refusal, Reply};
use bk_store::{AddFault, AddKind, Added, Store};
use std::alloc::{AllocError, Global};

/// Number of bytes of the ids of an entry.
const IDS: usize = 16;

/// Returns an entry as the store keeps it: its ids, then its content.
fn entry_of(alloc: Global, ledger: u64, entry: u64, content: &[u8]) -> Result<Vec<u8>, AllocError>
    ensures { IfOk result (λ payload. payload.items ≡ payload_of ledger entry content.now) }
{
    let mut payload = Vec::with_capacity(alloc, content.len().saturating_add(IDS))?;
    payload.extend_from_slice(&ledger.to_be_bytes())?;
    payload.extend_from_slice(&entry.to_be_bytes())?;
    payload.extend_from_slice(content)?;
    Ok(payload)
}

/// Returns the reply to an add.
fn reply_of(answer: Result<Added, AddFault>) -> Reply<'static>
    ensures { told result ≡ told_of_add answer }
{
    match answer {
        Ok(Added::Accepted(receipt)) => {
            let digest = receipt.digest;
            Reply::Done(Done::Accepted {
                number: receipt.number,
                digest,
            })
        }
        Ok(Added::Held) => Reply::Done(Done::Held),
        Err(fault) => Reply::Refused(of_add(fault)),
    }
}

/// Adds an entry.
fn add_payload<D: LogDisk>(
    store: &mut Store<D>,
    kind: AddKind,
    payload: &[u8],
) -> Result<Added, AddFault>
    ensures { AddTransition store.old kind payload.now result store.new }
{
    match kind {
        AddKind::Ordinary => store.add(payload),
        AddKind::Recovery => store.add_recovery(payload),
    }
}

/// Returns whether the write cache had no room for an entry.
fn is_full(answer: &Result<Added, AddFault>) -> bool
    ensures { result ≡ is_full answer.now }
{
    matches!(answer, Err(AddFault::Full { .. }))
}

/// Flushes, since the write cache has no room for an entry, and adds the entry then.
fn add_after_flush<D: LogDisk>(
    store: &mut Store<D>,
    kind: AddKind,
    payload: &[u8],
) -> Reply<'static>
    ensures { AddsAfterFlush kind payload.now store.old (told result) store.new }
{
    match flush_all(store, &mut Tally::NONE) {
        Ok(()) => reply_of(add_payload(store, kind, payload)),
        Err(fault) => Reply::Refused(of_step(fault)),
    }
}

/// Adds an entry as the store keeps it, after a flush if there is no room. Returns the reply.
fn add_entry<D: LogDisk>(store: &mut Store<D>, kind: AddKind, payload: &[u8]) -> Reply<'static>
    ensures { AddsEntry kind payload.now store.old (told result) store.new }
{
    let answer = add_payload(store, kind, payload);
    if is_full(&answer) {
        add_after_flush(store, kind, payload)
    } else {
        reply_of(answer)
    }
}

/// Adds an entry of a ledger on which store and manifest agree, and returns the reply.
fn add_content<D: LogDisk>(
    alloc: Global,
    store: &mut Store<D>,
    kind: AddKind,
    ledger: u64,
    entry: u64,
    content: &[u8],
) -> Reply<'static>
    ensures { AddsContent kind (payload_of ledger entry content.now) store.old (told result) store.new }
{
    match entry_of(alloc, ledger, entry, content) {
        Ok(payload) => add_entry(store, kind, &payload),
        Err(_) => Reply::Refused(Refusal::Memory),
    }
}

/// Adds an entry and returns the reply.
pub(crate) fn add<D: LogDisk, F: ManifestFile>(
    alloc: Global,
    store: &mut Store<D>,
    notes: &mut Manifest<F>,
    kind: AddKind,
    ledger: u64,
    entry: u64,
    content: &[u8],
) -> Reply<'static>
    ensures { AddAnswers kind ledger (payload_of ledger entry content.now) store.old notes.old (told result) store.new notes.new }
{
    match catch_up(alloc, store, notes, ledger) {
        Ok(()) => add_content(alloc, store, kind, ledger, entry, content),
        Err(refusal) => Reply::Refused(refusal),
    }
}
