//! Opening a store on existing files, with a list of deleted ledgers.

ghost use Rattle.std.specs.Prelude.{◌≡◌, ◌↔◌, IsTrue, IsErrOf, IfOk, IfErr};
ghost use Rattle.bk_disk.specs.Disk.{AreSound};
ghost use Rattle.bk_store.specs.Invariant.{StoreInvariant};
ghost use Rattle.bk_store.specs.Limits.{IsAllowed};
ghost use Rattle.bk_store.specs.Opening.{IsOpened, NeverFails, OpenFails};

mod fault;
mod found;
mod header;
mod logs;
mod scan;
mod tally;

use crate::fields::Fields;
use crate::known_ledgers::KnownLedgers;
use crate::ledger_set::LedgerSet;
use crate::logs::LogTable;
use crate::places::FlushPlaces;
use crate::{Fronts, OpenFault, Settings};
use bk_accounts::Accounts;
use bk_cache::{CacheNear, Caches};
use bk_disk::LogDisk;
use bk_index::Index;
use bk_lease::LeaseTable;
use logs::find_all;
use std::alloc::Global;
use tally::Tally;
pub(crate) use tally::name_each;

impl<D: LogDisk> Fields<D> {
    pub fn open(
        alloc: Global,
        disk: D,
        settings: Settings,
        dead: &[u64],
    ) -> Result<Fields<D>, OpenFault>
        ensures settings { IsErrOf result OpenFault.Settings ↔ ¬ (IsAllowed settings) }
        ensures store_invariant { IfOk result StoreInvariant }
        ensures honest { IfOk result (λ p. p.state.honest ≡ D.honest disk) }
        ensures failures { IfOk result (λ p. p.state.failures ≡ D.failures disk) }
        ensures opened { IfOk result (λ p. IsOpened (D.honest disk) (D.files disk) settings dead.now p.state) }
        ensures fails { IfErr result (λ fault. IsTrue (D.honest disk) → OpenFails (D.files disk) settings fault) }
        ensures unfailing { NeverFails D.failures → AreSound D.View.sound → ¬ (IsErrOf result OpenFault.Disk) }
    {
        if !settings.is_allowed() {
            return Err(OpenFault::Settings);
        }
        let slots = settings.slots as usize;
        let mut keeper = LeaseTable::new(alloc, slots, u64::from(settings.leases))?;
        let mut disk = disk;
        let ids = disk.list(alloc)?;
        if ids.len() > slots {
            return Err(OpenFault::LogsFull);
        }
        let caches = Caches::new(alloc, u64::from(settings.cache_limit), settings.recent)?;
        let dead = LedgerSet::of(alloc, dead)?;
        let mut tally = Tally::new(alloc, dead);
        let mut logs = LogTable::new(alloc);
        let next = find_all(&mut disk, alloc, &ids, &mut tally, &mut logs, &mut keeper)?;
        let (index, accounts, dead) = tally.name_all()?;
        Ok(Fields {
            disk,
            alloc,
            settings,
            caches,
            places: FlushPlaces::new(alloc),
            near: CacheNear::start(),
            index,
            accounts,
            logs,
            keeper,
            writing: None,
            filled: Vec::new(alloc),
            next,
            ledgers: KnownLedgers::opened(alloc, dead),
            fronts: Fronts {
                swapped: 0,
                durable: 0,
            },
            job: None,
        })
    }
}
