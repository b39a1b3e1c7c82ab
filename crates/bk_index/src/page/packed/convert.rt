//! The same pairs in the other form.

ghost use Rattle.std.specs.Prelude.{◌≡◌, IsTrue, IfOk, IfSome};
ghost use Rattle.std.specs.FinMap.{is_sorted};
ghost use Rattle.bk_record.specs.Key.{key_cmp};

use super::Packed;
use crate::page::logs::UNKNOWN;
use crate::page::offset::{base_of, key_at, offset_in};
use crate::page::plain::Plain;
use bk_record::{Key, Location};
use std::alloc::{AllocError, Global};

impl Packed {
    /// Returns the same pairs in plain form, with room for one more.
    pub(crate) fn unpacked(&self) -> Result<Plain, AllocError>
        ensures { IfOk result (λ plain. plain ≡ self.now) }
    {
        let (ledger, base) = (self.ledger, self.base);
        let mut pairs = Vec::new(*self.cells.allocator());
        pairs.reserve(self.cells.len())?;
        for &(offset, location) in &self.cells {
            pairs.push((key_at(ledger, base, offset), location))?;
        }
        Ok(Plain::of_pairs(pairs))
    }

    /// Returns the same pairs in packed form, with room for 256, or `None` if one of them has no
    /// offset from the base of the first.
    pub(crate) fn of_pairs(
        alloc: Global,
        pairs: &[(Key, Location)],
        room: usize,
    ) -> Result<Option<Packed>, AllocError>
        requires { IsTrue (is_sorted key_cmp pairs.now) }
        ensures { IfOk result (λ packed. IfSome packed (λ packed. packed ≡ pairs.now)) }
    {
        let ([(first, _), ..], [.., (last, _)]) = (pairs, pairs) else {
            return Ok(None);
        };
        let (ledger, base) = (first.ledger(), base_of(first.entry()));
        // Most pairs that are not all of one ledger end here, before an allocation.
        if offset_in(ledger, base, last).is_none() {
            return Ok(None);
        }
        let mut cells = Vec::with_capacity(alloc, room)?;
        for (key, location) in pairs {
            let Some(offset) = offset_in(ledger, base, key) else {
                return Ok(None);
            };
            cells.push((offset, *location))?;
        }
        Ok(Some(Packed {
            ledger,
            base,
            log: UNKNOWN,
            cells,
        }))
    }
}
