//! The word of a slot (project rule). Bit 63 is set if the slot is closed, the 31 bits from bit 32
//! are the log's id, and the lower 32 bits count the leases. The word is 0 if the slot is free, and
//! also for log 0, open and without leases: the keeper's state distinguishes the two.
ghost use Rattle.std.specs.Prelude.{◌≡◌, ◌%◌, ◌^◌, ◌<◌};
ghost use Rattle.bk_lease.specs.Leases.{open_word, closed_word};

const ONE_LOG: u64 = 1 << 32;

const CLOSED: u64 = 1 << 63;

/// Returns the word of an open slot without leases.
pub(crate) fn unleased(log: u32) -> u64
    ensures { result ≡ open_word log 0 }
{
    u64::from(log) * ONE_LOG
}

pub(crate) fn closed(log: u32) -> u64
    requires { log < 2 ^ 31 }
    ensures { result ≡ closed_word log }
{
    CLOSED + u64::from(log) * ONE_LOG
}

pub(crate) fn count_of(word: u64) -> u64
    ensures { result ≡ word % 2 ^ 32 }
{
    word % ONE_LOG
}
