//! Deletions of a ledger, without places of a flush and with them.

use crate::BenchFault;
use crate::entries::{Amount, Order, short_payload};
use crate::stages::{SETTINGS, one_add, one_delete, tell, write};
use bk_disk::MemDisk;
use bk_store::Store;

/// Adds N entries, one of each ledger after another, and deletes a ledger. Then writes the others
/// and deletes a ledger whose entries have places.
pub(crate) fn run(rt: &HostRuntime, count: u64) -> Result<(), BenchFault> {
    let alloc = rt.alloc();
    let Ok(mut store) = Store::open(alloc, MemDisk::new(alloc), SETTINGS, &[]) else {
        return Err(BenchFault::Answer("open"));
    };
    delete_two(rt, &mut store, count)
}

fn delete_two(rt: &HostRuntime, store: &mut Store<MemDisk>, count: u64) -> Result<(), BenchFault> {
    let amount = Amount {
        count,
        order: Order::Turn,
    };
    for number in 0..count {
        let payload = short_payload(rt.alloc(), amount.ids(number))?;
        one_add(store, &payload)?;
    }
    delete_next(rt, store, 0)?;
    let written = write(store)?;
    tell(rt, "written", written)?;
    delete_next(rt, store, 1)
}

/// Deletes a ledger and prints the number of its keys.
fn delete_next(
    rt: &HostRuntime,
    store: &mut Store<MemDisk>,
    ledger: u64,
) -> Result<(), BenchFault> {
    let keys = one_delete(store, ledger)?;
    tell(rt, "delete", keys)?;
    Ok(())
}
