//! Attributes of ledgers: master keys and explicit LACs.

ghost use Rattle.std.specs.Prelude.{◌≡◌, ◌++◌, OnOk};
ghost use Rattle.bk_serve_core.specs.Fields.{frame_of};
ghost use Rattle.bk_serve_core.specs.Replies.{Told, told, told_bytes};
ghost use Rattle.bk_serve.specs.Ledgers.{GetAnswers, SetAnswers};

use crate::ledgers::is_negative;
use crate::notes::note;
use bk_disk::LogDisk;
use bk_manifest::{Manifest, ManifestFile, Record};
use bk_serve_core::{Done, EncodeError, Refusal, Reply};
use bk_store::Store;
use std::alloc::Global;

/// Stores an attribute of a ledger. It is durable before the reply.
pub(crate) fn set_attribute<D: LogDisk, F: ManifestFile>(
    alloc: Global,
    store: &Store<D>,
    notes: &mut Manifest<F>,
    kind: u32,
    ledger: u64,
    value: &[u8],
) -> Reply<'static>
    ensures { SetAnswers kind ledger value.now store.now notes.old (told result) notes.new }
{
    if is_negative(ledger) {
        return Reply::Refused(Refusal::Negative);
    }
    if store.is_dead(ledger) {
        return Reply::Refused(Refusal::Deleted);
    }
    let Ok(bytes) = Vec::from_slice(alloc, value) else {
        return Reply::Refused(Refusal::Memory);
    };
    let one = Record::Attribute {
        ledger,
        kind,
        bytes,
    };
    match note(alloc, notes, one) {
        Ok(()) => Reply::Done(Done::Stored),
        Err(refusal) => Reply::Refused(refusal),
    }
}

/// Appends the reply with an attribute of a ledger.
pub(crate) fn attribute<D: LogDisk, F: ManifestFile>(
    store: &Store<D>,
    notes: &Manifest<F>,
    kind: u32,
    ledger: u64,
    id: u64,
    out: &mut Vec<u8>,
) -> Result<(), EncodeError>
    ensures { (t : Told) × GetAnswers kind ledger store.now notes.now t × OnOk result (out.new.items ≡ out.old.items ++ frame_of id (told_bytes t)) }
{
    if is_negative(ledger) {
        return Reply::Refused(Refusal::Negative).encode(id, out);
    }
    if store.is_dead(ledger) {
        return Reply::Refused(Refusal::Deleted).encode(id, out);
    }
    match notes.state().attribute(ledger, kind) {
        Some(value) => Reply::Done(Done::Attribute { value }).encode(id, out),
        None => Reply::Done(Done::NoAttribute).encode(id, out),
    }
}
