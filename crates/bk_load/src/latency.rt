//! Latency percentiles of calls.

ghost use Rattle.std.specs.Prelude.{◌≡◌, ◌<◌, length};
ghost use Rattle.bk_load.specs.Ranks.{IsRank, AreRanks};

use std::alloc::AllocError;

/// Percentiles in nanoseconds: one call in two took longer than `at_500`, one in a hundred longer
/// than `at_990`, one in a thousand longer than `at_999`. Each is 0 if there was no call.
#[derive(Clone, Copy, Debug, PartialEq, Eq)]
pub struct Latencies {
    pub at_500: u32,
    pub at_990: u32,
    pub at_999: u32,
}

/// Returns the time that one in `part` of the sorted times exceeds in rank, or 0 if there are none.
fn ranked(sorted: &[u32], part: usize) -> u32
    requires { 0 < part }
    ensures { IsRank sorted.now part result }
{
    if sorted.is_empty() {
        return 0;
    }
    sorted[sorted.len() - 1 - (sorted.len() - 1) / part]
}

/// Returns the percentiles of sorted times.
fn ranks(sorted: &[u32]) -> Latencies
    ensures { AreRanks sorted.now result }
{
    Latencies {
        at_500: ranked(sorted, 2),
        at_990: ranked(sorted, 100),
        at_999: ranked(sorted, 1000),
    }
}

/// Returns the percentiles of times.
pub(crate) fn ranks_of(mut times: Vec<u32>) -> Result<Latencies, AllocError> {
    times.sort()?;
    Ok(ranks(&times))
}
