//! The fields of a store, and the transitions of its calls.
//!
//! `Fields` has no invariant: each call is proved against its transition here. `Store` has the
//! invariant.

ghost use Rattle.std.specs.Prelude.{◌≡◌};

use crate::known_ledgers::KnownLedgers;
use crate::logs::LogTable;
use crate::places::FlushPlaces;
use crate::{Fronts, Job, Settings};
use bk_accounts::Accounts;
use bk_cache::{CacheNear, Caches};
use bk_disk::LogDisk;
use bk_index::Index;
use bk_lease::Keeper;
use std::alloc::Global;
use std::marker::Model;

/// The parts of a store. `writing` is the Writing log, and `filled` lists the logs that are Writing
/// or Filled; both only save a search.
#[derive(Drop)]
pub(crate) struct Fields<D: LogDisk> {
    pub disk: D,
    pub alloc: Global,
    pub settings: Settings,
    pub caches: Caches,
    pub places: FlushPlaces,
    /// Search hint for the next entry of the flush.
    pub near: CacheNear,
    pub index: Index,
    pub accounts: Accounts,
    pub logs: LogTable<D::View>,
    /// Slots of the logs that are held.
    pub keeper: Keeper,
    pub writing: Option<u32>,
    pub filled: Vec<u32>,
    pub next: u32,
    pub ledgers: KnownLedgers,
    pub fronts: Fronts,
    pub job: Option<Job>,
}

impl<D: LogDisk> Model for Fields<D> {
    ghost use Rattle.bk_store.specs.State.{StoreParts, parts_code};

    ghost Value = { StoreParts };

    ghost coded = { parts_code };

    ghost view = { λ f. record {
      state = record {
        settings = f.settings;
        files = D.files f.disk;
        honest = D.honest f.disk;
        failures = D.failures f.disk;
        caches = f.caches;
        places = f.places.places;
        index = f.index;
        logs = f.logs;
        keeper = f.keeper;
        next = f.next;
        ledgers = f.ledgers.known;
        fronts = f.fronts;
        job = f.job;
      };
      accounts = f.accounts;
      writing = f.writing;
      filled = f.filled.items;
      synced = D.synced f.disk;
      gone = D.gone f.disk;
    } };
}

impl<D: LogDisk> Fields<D> {
    /// Returns the disk.
    pub fn disk(&self) -> &D
        ensures files { D.files result.now ≡ self.now.state.files }
        ensures honest { D.honest result.now ≡ self.now.state.honest }
        ensures failures { D.failures result.now ≡ self.now.state.failures }
        ensures synced { D.synced result.now ≡ self.now.synced }
        ensures gone { D.gone result.now ≡ self.now.gone }
    {
        &self.disk
    }
}
