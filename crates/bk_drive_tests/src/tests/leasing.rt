//! Leases that a caller holds. Entry 0 of ledger 2 is in log 0, that of ledger 3 in log 1.

use super::logs::found;
use super::{Disk, Leased, SETTINGS, Told, lend, opened, pass};
use bk_disk::FaultDisk;
use bk_drive::{OpenFault, Settings, Store};
use bk_record::Key;
use std::alloc::Global;

/// Distance between the locations of two logs.
const LOG: u64 = 1 << 32;

/// Three logs with at most two leases per log.
const TWO_LEASES: Settings = Settings {
    slots: 3,
    leases: 2,
    ..SETTINGS
};

/// A store, absent after its disk was returned, the returned disk, and the leases that are held.
#[derive(Drop)]
struct Lender {
    alloc: Global,
    store: Option<Store<Disk>>,
    disk: Option<Disk>,
    leases: Vec<Leased>,
}

/// An action on it.
#[derive(Clone, Copy)]
enum Asked {
    /// Takes entry 0 of a ledger and holds the lease.
    Hold(u64),
    /// Drops the lease taken last.
    GiveBack,
    /// Asks the store for its disk.
    Disk,
    /// Opens a store on the returned disk.
    Open,
}

/// Asks a store for its disk. Returns the store if it is refused, with the number of leases on the
/// lowest leased log, plus 100 for each log below it.
fn given_back(store: Store<Disk>) -> Result<Disk, (Store<Disk>, Told)> {
    match store.into_disk() {
        Ok(disk) => Ok(disk),
        Err(refused) => {
            let below = u64::from(refused.log).saturating_mul(100);
            let told = ("leases", below.saturating_add(refused.count));
            Err((refused.store, told))
        }
    }
}

impl Lender {
    fn hold(&mut self, ledger: u64) -> Told {
        let (Some(store), Some(key)) = (&mut self.store, Key::new(ledger, 0)) else {
            return ("no store", 0);
        };
        match lend(store, key) {
            Ok(leased) => self.keep(leased),
            Err(told) => told,
        }
    }

    fn keep(&mut self, leased: Leased) -> Told {
        let location = leased.1.value();
        match self.leases.push(leased) {
            Ok(()) => ("leased", location),
            Err(_) => ("no memory", 0),
        }
    }

    fn give_back(&mut self) -> Told {
        match self.leases.pop() {
            Some(_) => ("given back", 0),
            None => ("no lease", 0),
        }
    }

    fn ask_for_disk(&mut self) -> Told {
        let Some(store) = self.store.take() else {
            return ("no store", 0);
        };
        match given_back(store) {
            Ok(disk) => {
                self.disk = Some(disk);
                ("disk", 0)
            }
            Err((store, told)) => {
                self.store = Some(store);
                told
            }
        }
    }

    fn open_again(&mut self) -> Told {
        let Some(disk) = self.disk.take() else {
            return ("no disk", 0);
        };
        match opened(self.alloc, disk, TWO_LEASES, &[]) {
            Ok(store) => {
                self.store = Some(store);
                ("opened", 0)
            }
            Err(_) => ("not opened", 0),
        }
    }

    fn told_by(&mut self, asked: Asked) -> Told {
        match asked {
            Asked::Hold(ledger) => self.hold(ledger),
            Asked::GiveBack => self.give_back(),
            Asked::Disk => self.ask_for_disk(),
            Asked::Open => self.open_again(),
        }
    }
}

fn make_lender(alloc: Global) -> Result<Lender, OpenFault> {
    let Ok(disk) = found(alloc) else {
        return Err(OpenFault::Memory);
    };
    let disk = FaultDisk::new(disk, 0, 0);
    Ok(Lender {
        alloc,
        store: Some(opened(alloc, disk, TWO_LEASES, &[])?),
        disk: None,
        leases: Vec::new(alloc),
    })
}

/// Returns the number of the first action with another result, counted from 1, or 0 if no store
/// opens.
fn first_untold(alloc: Global, run: &[(Asked, Told)]) -> Option<usize> {
    let Ok(mut lender) = make_lender(alloc) else {
        return Some(0);
    };
    for (number, (asked, expected)) in run.iter().enumerate() {
        if lender.told_by(*asked) != *expected {
            return Some(number.saturating_add(1));
        }
    }
    None
}

/// The limit of leases is per log, and a dropped lease makes room for another.
static COUNTED: [(Asked, Told); 7] = [
    (Asked::Hold(2), ("leased", 1049)),
    (Asked::Hold(2), ("leased", 1049)),
    (Asked::Hold(2), ("too many leases", 0)),
    (Asked::Hold(3), ("leased", LOG + 1028)),
    (Asked::GiveBack, ("given back", 0)),
    (Asked::GiveBack, ("given back", 0)),
    (Asked::Hold(2), ("leased", 1049)),
];

/// The disk is returned only when no lease is held. A refusal leaves the store unchanged. A store
/// opened on the disk that is returned at last has the same entries.
static REFUSED: [(Asked, Told); 12] = [
    (Asked::Hold(3), ("leased", LOG + 1028)),
    (Asked::Hold(3), ("leased", LOG + 1028)),
    (Asked::Disk, ("leases", 102)),
    (Asked::Hold(2), ("leased", 1049)),
    (Asked::Disk, ("leases", 1)),
    (Asked::GiveBack, ("given back", 0)),
    (Asked::GiveBack, ("given back", 0)),
    (Asked::GiveBack, ("given back", 0)),
    (Asked::Disk, ("disk", 0)),
    (Asked::Open, ("opened", 0)),
    (Asked::Hold(3), ("leased", LOG + 1028)),
    (Asked::Hold(2), ("leased", 1049)),
];

#[test]
fn leases_that_are_held_count(rt: HostRuntime) {
    pass(&rt, "counted", first_untold(rt.alloc(), &COUNTED));
    pass(&rt, "refused", first_untold(rt.alloc(), &REFUSED));
}
