//! A crash of a store whose directory has manifests.

ghost use Rattle.std.specs.Prelude.{◌≡◌, IsTrue};
ghost use Rattle.bk_manifest.specs.Keeping.{durable};
ghost use Rattle.bk_recorded.specs.Ledgers.{AreLedgersRecorded};
ghost use Rattle.bk_crash.specs.Recovered.{SurvivesWithLedgers, SurvivesDamage};

use bk_disk::LogDisk;
use bk_manifest::{Manifest, ManifestFile};
use bk_manifest_disk::KeptDisk;
use bk_store::Store;

/// Returns the disk of a store, with the theorem of what survives a crash if the deletions and the
/// fences of its ledgers are recorded. `drive_kept` records each before it takes effect.
///
/// A store that is opened on whatever files the crash leaves, with the records that are found, has
/// every published entry of a ledger whose deletion is not recorded, and none of a deleted one.
/// Fenced ledgers are fenced.
pub fn survives_with_ledgers<'a, D: LogDisk, F: ManifestFile>(
    store: &'a Store<D>,
    ledgers: &Manifest<F>,
) -> &'a D
    requires { IsTrue store.now.honest → IsTrue ledgers.now.honest → AreLedgersRecorded store.now.ledgers (durable ledgers.now) }
    ensures files { D.files result.now ≡ store.now.files }
    ensures honest { D.honest result.now ≡ store.now.honest }
    ensures survives { IsTrue store.now.honest → IsTrue ledgers.now.honest
        → SurvivesWithLedgers (D.synced result.now) (D.gone result.now) store.now ledgers.now }
{
    let _ = ledgers.noted();
    store.reveal_invariant();
    store.survives_crash()
}

/// The same if the logs have a manifest too, on a device that leaves any bytes after the synced ones.
pub fn survives_damage<'a, D: LogDisk, F: ManifestFile + Send, G: ManifestFile>(
    store: &'a Store<KeptDisk<D, F>>,
    ledgers: &Manifest<G>,
) -> &'a KeptDisk<D, F>
    requires { IsTrue store.now.honest → IsTrue ledgers.now.honest → AreLedgersRecorded store.now.ledgers (durable ledgers.now) }
    ensures files { result.now.files ≡ store.now.files }
    ensures survives { IsTrue store.now.honest → IsTrue ledgers.now.honest → SurvivesDamage result.now store.now ledgers.now }
{
    let disk = survives_with_ledgers(store, ledgers);
    disk.reveal_invariant();
    disk
}
