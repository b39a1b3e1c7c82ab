//! Sizes of entries, counted by powers of two.

ghost use Rattle.bk_report.specs.Classes.{IsOfClass};

/// The number of classes.
pub const CLASSES: usize = 64;

/// Returns the class of a size: class k has the sizes from 2^k on that are below 2^(k+1), and class
/// 0 has 0 too.
pub fn size_class(size: u64) -> usize
    ensures { IsOfClass size result }
{
    if size == 0 {
        return 0;
    }
    size.ilog2() as usize
}

/// How many entries have a size of each class.
#[derive(Clone, Copy)]
pub struct Histogram {
    pub counts: [u64; CLASSES],
}

impl Histogram {
    ghost use Rattle.bk_report.specs.Histogram.{CountsSize};

    /// No entry.
    pub const EMPTY: Histogram = Histogram {
        counts: [0; CLASSES],
    };

    /// Counts an entry of this size. A count stops at the greatest number.
    pub fn count(&mut self, size: u64)
        ensures { CountsSize size self.old self.new }
    {
        let class = size_class(size);
        self.counts[class] = self.counts[class].saturating_add(1);
    }
}
