//! Memory of the index and of the trail.

ghost use Rattle.std.specs.Prelude.{◌≡◌};
ghost use Rattle.bk_simulation.specs.Numbers.{key_bytes};

/// Bytes of memory of a key in the index and the accounts, if its ledger has many keys. Measured:
/// 13.1 to 14.7 (docs/performance.md).
const KEY: u64 = 15;

/// Bytes of a page of the index in plain form: 256 entries of 24 bytes.
const PAGE: u64 = 6144;

/// The most bytes of a key beyond `KEY`.
const MOST: u64 = 85;

/// Bytes of memory of a mark of the trail, while it is stored nearly twice.
pub const TRAIL_BYTES: u64 = 96;

/// Returns the bytes of memory of a key in the index, if a ledger has this many keys: 15, and the
/// part of the key in one plain page for each ledger; at most 100.
///
/// A page is packed if its keys are of one ledger, 12 bytes each. If keys rise, full pages are cut
/// to 128 entries without room for more, so a key of a long ledger takes 13 bytes and a part of its
/// page. The page in which a ledger meets the next one is plain, and has room for 256 entries of 24
/// bytes. Deletions leave such pages partly empty, and pages are not joined, hence the bound.
pub fn index_bytes(keys: u64) -> u64
    ensures { result ≡ key_bytes keys }
{
    KEY + (PAGE / keys.max(1)).min(MOST)
}
