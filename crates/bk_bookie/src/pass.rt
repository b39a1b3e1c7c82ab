//! Passes: the client sessions of a bookie.
//!
//! The accepted adds are counted in a ledger of std, which has one part per pass and one more. A
//! pass holds its part, and the amount of the part is the pass's count. So a count cannot be forged
//! or lost. The type of the ledger identifies the bookie, so a pass of another bookie does not
//! type-check.

ghost use Rattle.std.specs.Prelude.{◌≡◌};

use std::marker::{Brand, Model};
use std::sync::ledger::{Ledger, Share};

/// The ledger of one bookie's accepted adds. A bookie is used inside a function that is generic
/// over the ledger and called with std's `Brand`, so two bookies have two ledgers.
pub trait AddLedger: Ledger {
    ghost use Rattle.std.specs.Prelude.{Bool};

    /// Whether the disk of the bookie is honest.
    ghost honest: { Bool };
}

impl AddLedger for Brand {
    ghost use Rattle.std.specs.Prelude.{false};

    ghost honest = { false };
}

/// A client session: its part of the count of accepted adds, and the length of the longest trail
/// that it has observed.
#[derive(Drop)]
pub struct Pass<L: AddLedger> {
    pub(crate) share: Share<L>,
    pub(crate) adds: u64,
    pub(crate) seen: u64,
}

impl<L: AddLedger> Model for Pass<L> {
    ghost use Rattle.std.specs.Prelude.{◌≡◌};
    ghost use Rattle.bk_bookie.specs.Passes.{PassView};

    ghost Value = { PassView };

    ghost view = { λ p. record { adds = p.adds; seen = p.seen } };

    ghost invariant = { λ p. (p.share.parts ≡ 1) × (p.share.amount ≡ p.adds) };
}

impl<L: AddLedger> Pass<L> {
    /// Returns the number of its accepted adds.
    pub fn adds(&self) -> u64
        ensures { result ≡ self.now.adds }
    {
        self.adds
    }

    /// Returns the length of the longest trail that it has observed.
    pub fn seen(&self) -> u64
        ensures { result ≡ self.now.seen }
    {
        self.seen
    }
}
