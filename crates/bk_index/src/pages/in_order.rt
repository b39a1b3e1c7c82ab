//! The key after a place in key order, and the key before one.

ghost use Rattle.std.specs.Prelude.{◌≡◌, ◌-◌, not, filter, length, slice_get, option_map, nat_le, IsTrue};
ghost use Rattle.std.specs.Ordering.{is_lt};
ghost use Rattle.std.specs.FinMap.{is_sorted};
ghost use Rattle.bk_record.specs.Key.{key_cmp};
ghost use Rattle.bk_index.specs.Pages.{all_pairs};

use super::Pages;
use crate::page::is_before;
use bk_record::Key;

impl Pages {
    /// Returns the least key that is not before this ledger and entry.
    pub(crate) fn first_from(&self, ledger: u64, entry: u64) -> Option<Key>
        requires { IsTrue (is_sorted key_cmp (all_pairs self.now)) }
        ensures { result ≡ option_map (λ pair. pair.0)
            (slice_get (filter (λ pair. not (is_lt (key_cmp pair.0 (record { ledger = ledger; entry = entry })))) (all_pairs self.now)) 0) }
    {
        let upto = self
            .fences
            .partition_point(|fence| is_before(fence, ledger, entry));
        if let Some(page) = self.list[..upto].last() {
            if let Some(key) = page.first_from(ledger, entry) {
                return Some(key);
            }
        }
        self.fences.get(upto).copied()
    }

    /// Returns the greatest key whose ledger is at most this one.
    pub(crate) fn last_upto(&self, ledger: u64) -> Option<Key>
        requires { IsTrue (is_sorted key_cmp (all_pairs self.now)) }
        ensures { let upto = filter (λ pair. nat_le pair.0.ledger ledger) (all_pairs self.now) in
            result ≡ option_map (λ pair. pair.0) (slice_get upto (length upto - 1)) }
    {
        let upto = self
            .fences
            .partition_point(|fence| fence.ledger() <= ledger);
        self.list[..upto].last()?.last_upto(ledger)
    }
}
