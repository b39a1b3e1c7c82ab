//! The entry of an add, prepared before the lock is taken.

ghost use Rattle.std.specs.Prelude.{◌≡◌};
ghost use Rattle.bk_bookie.specs.Adds.{payload_of};

use bk_store::Prepared;
use std::alloc::Global;

/// An entry as it is offered under the lock: prepared, or the payload alone. `Lent` means that the
/// payload is not an entry or that memory was short; the add under the lock reports which.
#[derive(Drop)]
pub(crate) enum AddRequest<'a> {
    Prepared(Prepared),
    Lent(&'a [u8]),
}

impl<'a> AddRequest<'a> {
    /// Prepares a payload: checks it, copies it and computes its SHA-256.
    pub fn new(alloc: Global, payload: &'a [u8]) -> AddRequest<'a>
        ensures { payload_of result ≡ payload.now }
    {
        match Prepared::new(alloc, payload) {
            Ok(entry) => AddRequest::Prepared(entry),
            Err(_) => AddRequest::Lent(payload),
        }
    }
}
