//! The key after a place in key order, and the key before one.

ghost use Rattle.std.specs.Prelude.{◌≡◌, ◌-◌, not, filter, length, slice_get, option_map, nat_le};
ghost use Rattle.std.specs.Ordering.{is_lt};
ghost use Rattle.bk_record.specs.Key.{key_cmp};

use super::Plain;
use bk_record::Key;

/// Returns whether a key is before this ledger and entry.
pub(crate) fn is_before(key: &Key, ledger: u64, entry: u64) -> bool
    ensures { result ≡ is_lt (key_cmp key.now (record { ledger = ledger; entry = entry })) }
{
    (key.ledger(), key.entry()) < (ledger, entry)
}

impl Plain {
    /// Returns the least key that is not before this ledger and entry.
    pub(crate) fn first_from(&self, ledger: u64, entry: u64) -> Option<Key>
        ensures { result ≡ option_map (λ pair. pair.0)
            (slice_get (filter (λ pair. not (is_lt (key_cmp pair.0 (record { ledger = ledger; entry = entry })))) self.now) 0) }
    {
        let place = self
            .pairs
            .partition_point(|(key, _)| is_before(key, ledger, entry));
        let (key, _) = self.pairs.get(place)?;
        Some(*key)
    }

    /// Returns the greatest key whose ledger is at most this one.
    pub(crate) fn last_upto(&self, ledger: u64) -> Option<Key>
        ensures { let upto = filter (λ pair. nat_le pair.0.ledger ledger) self.now in
            result ≡ option_map (λ pair. pair.0) (slice_get upto (length upto - 1)) }
    {
        let upto = self
            .pairs
            .partition_point(|(key, _)| key.ledger() <= ledger);
        let (key, _) = self.pairs[..upto].last()?;
        Some(*key)
    }
}
