//! The key after a place in key order, and the key before one.

ghost use Rattle.std.specs.Prelude.{◌≡◌, ◌-◌, not, filter, length, slice_get, option_map, nat_le};
ghost use Rattle.std.specs.Ordering.{is_lt};
ghost use Rattle.bk_record.specs.Key.{key_cmp};

use super::Packed;
use crate::page::offset::key_at;
use bk_record::Key;

impl Packed {
    /// Returns the least key that is not before this ledger and entry.
    pub(crate) fn first_from(&self, ledger: u64, entry: u64) -> Option<Key>
        ensures { result ≡ option_map (λ pair. pair.0)
            (slice_get (filter (λ pair. not (is_lt (key_cmp pair.0 (record { ledger = ledger; entry = entry })))) self.now) 0) }
    {
        let (own, base) = (self.ledger, self.base);
        let place = self.cells.partition_point(|&(offset, _)| (own, base + u64::from(offset))
            < (ledger, entry));
        let (offset, _) = self.cells.get(place)?;
        Some(key_at(own, base, *offset))
    }

    /// Returns the greatest key whose ledger is at most this one.
    pub(crate) fn last_upto(&self, ledger: u64) -> Option<Key>
        ensures { let upto = filter (λ pair. nat_le pair.0.ledger ledger) self.now in
            result ≡ option_map (λ pair. pair.0) (slice_get upto (length upto - 1)) }
    {
        if self.ledger > ledger {
            return None;
        }
        let (offset, _) = self.cells.last()?;
        Some(key_at(self.ledger, self.base, *offset))
    }
}
