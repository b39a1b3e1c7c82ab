//! Reading by a lease, without the lock.

ghost use Rattle.std.specs.Prelude.{ℕ, List};
ghost use Rattle.bk_store.specs.Abstract.{IsLeaseOn};
ghost use Rattle.bk_bookie.specs.Calls.{FetchesLeased};

use bk_disk::LogView;
use bk_lease::Lease;
use bk_log::{FetchFault, fetch};
use bk_record::{Key, Location};
use std::alloc::Global;

/// Returns the payload of the entry on which `take` or `read_back` returned this lease and location
/// for the key. Takes no lock.
///
/// # Errors
///
/// - `Disk`: the view could not be read.
/// - `Memory`: out of memory.
/// - `NotThere`, `Odd`: not for such a lease on an honest disk.
pub fn fetch_leased<V: LogView>(
    alloc: Global,
    lease: &Lease<V>,
    location: Location,
    key: Key,
) -> Result<Vec<u8>, FetchFault>
    ensures { (payload : List ℕ) → IsLeaseOn V.bytes V.honest lease.now location key payload → FetchesLeased (λ v. v.items) payload result }
{
    let view = lease.view();
    // Lemma: an honest view has bytes.
    view.bounds();
    fetch(view, alloc, location, key)
}
