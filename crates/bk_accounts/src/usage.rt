//! Usage of a log, compared without a division.
ghost use Rattle.std.specs.Prelude.{◌≡◌, ◌↔◌, IsTrue};
ghost use Rattle.bk_accounts.specs.Choice.{IsBelow};

/// Total and remaining bytes of a log.
#[derive(Clone, Copy)]
pub(crate) struct Usage {
    pub(crate) log: u32,
    pub(crate) total: u32,
    pub(crate) remaining: u32,
}

impl Usage {
    ghost use Rattle.bk_accounts.specs.Usage.{is_before, first_of};

    /// Returns whether less than `threshold` thousandths remain.
    pub(crate) fn is_below(self, threshold: u32) -> bool
        ensures { IsTrue result ↔ IsBelow threshold self.total self.remaining }
    {
        u64::from(self.remaining) * 1000 < u64::from(threshold) * u64::from(self.total)
    }

    /// Returns whether a smaller part remains than of the other log, or the same part and this id
    /// is lower.
    pub(crate) fn is_before(self, other: Usage) -> bool
        ensures { result ≡ is_before self other }
    {
        let here = u64::from(self.remaining) * u64::from(other.total);
        let there = u64::from(other.remaining) * u64::from(self.total);
        here < there || (here == there && self.log < other.log)
    }

    /// Returns the one that is before the other, by `is_before`.
    pub(crate) fn first_of(self, other: Option<Usage>) -> Usage
        ensures { result ≡ first_of self other }
    {
        match other {
            Some(other) if !self.is_before(other) => other,
            _ => self,
        }
    }
}
