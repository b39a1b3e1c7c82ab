//! An entry that is ready to be added. The work on its payload is done before the store is called,
//! so that a lock around the store is held for less time.

ghost use Rattle.bk_store.specs.Preparing.{IsPrepared};

use crate::AddFault;
use bk_cache::share;
use bk_record::{Key, check_add};
use sha2::{Digest, Sha256};
use std::alloc::Global;
use std::marker::Model;
use std::sync::Arc;

/// An entry to be added: a copy of its payload, its key, and its SHA-256.
#[derive(Drop)]
pub struct Prepared {
    pub(crate) key: Key,
    pub(crate) payload: Arc<Vec<u8>>,
    pub(crate) digest: [u8; 32],
}

impl Model for Prepared {
    ghost use Rattle.std.specs.Prelude.{ℕ, List};
    ghost use Rattle.std.specs.Coded.{coded_ℕ, coded_list};
    ghost use Rattle.bk_store.specs.Preparing.{IsOf};

    ghost Value = { List ℕ };

    ghost coded = { coded_list coded_ℕ };

    ghost view = { λ entry. entry.payload.value.items };

    ghost invariant = { λ entry. IsOf entry.key entry.digest entry.payload.value.items };
}

impl Prepared {
    /// Checks and copies a payload, and computes its SHA-256.
    ///
    /// # Errors
    ///
    /// - `Bad`: the payload is not that of an entry.
    /// - `Memory`: out of memory.
    pub fn new(alloc: Global, payload: &[u8]) -> Result<Prepared, AddFault>
        ensures { IsPrepared payload.now result }
    {
        let key = check_add(payload)?;
        let copy = share(alloc, payload)?;
        Ok(Prepared {
            key,
            payload: copy,
            digest: Sha256::digest(payload),
        })
    }
}
