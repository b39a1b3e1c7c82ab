//! Offsets of the entries of a packed page from its base.

ghost use Rattle.std.specs.Prelude.{◌≡◌, ◌<◌, ◌≤◌, ◌+◌, ◌^◌, IsNone, IfSome};

use bk_record::Key;

/// Number of entry ids from a base on that have an offset.
pub(crate) const SPAN: u64 = 1 << 32;

/// Returns the base of the page of an entry: entries have the same base if their ids differ only in
/// the lower 32 bits.
pub(crate) fn base_of(entry: u64) -> u64
    requires { entry < 2 ^ 63 }
    ensures before { result ≤ entry }
    ensures near { entry < result + 2 ^ 32 }
    ensures bound { result + 2 ^ 32 ≤ 2 ^ 63 }
{
    entry / SPAN * SPAN
}

/// Returns the offset of a key from the base of a page, or `None` if the key is of another ledger,
/// before the base, or more than 2^32 - 1 after it.
#[inline]
pub(crate) fn offset_in(ledger: u64, base: u64, key: &Key) -> Option<u32>
    ensures fits { IfSome result (λ offset. key.now ≡ record { ledger = ledger; entry = base + offset }) }
    ensures outside { IsNone result → key.now.ledger ≡ ledger → base ≤ key.now.entry → base + 2 ^ 32 ≤ key.now.entry }
{
    if key.ledger() != ledger {
        return None;
    }
    let offset = key.entry().checked_sub(base)?;
    if offset >= SPAN {
        return None;
    }
    Some(offset as u32)
}

/// Returns the entry id at an offset from the base of a page.
#[inline]
pub(crate) fn entry_at(base: u64, offset: u32) -> u64
    requires { base + 2 ^ 32 ≤ 2 ^ 63 }
    ensures { result ≡ base + offset }
{
    base + u64::from(offset)
}

/// Returns the key at an offset from the base of a page.
#[inline]
pub(crate) fn key_at(ledger: u64, base: u64, offset: u32) -> Key
    requires ledger_bound { ledger < 2 ^ 63 }
    requires base_bound { base + 2 ^ 32 ≤ 2 ^ 63 }
    ensures value { result ≡ record { ledger = ledger; entry = base + offset } }
    ensures near { result.entry < base + 2 ^ 32 }
{
    Key::new(ledger, entry_at(base, offset)).unwrap()
}
