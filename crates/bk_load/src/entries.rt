//! The entries of a load: their ledgers and payloads.

ghost use Rattle.std.specs.Prelude.{◌↔◌, IsTrue};
ghost use Rattle.bk_load.specs.Answers.{IsDoomed};

/// Size of the longest payload.
pub(crate) const LONGEST: usize = 16 + 240;

/// Number of ledgers written at a time.
pub(crate) const OPEN_LEDGERS: u64 = 8;

/// Number of rounds of a caller after which the next ledgers are written.
pub(crate) const ROUNDS: u64 = 1000;

/// Returns a pseudorandom number, the same for the same seed.
pub(crate) fn mixed(seed: u64) -> u64 {
    let mut word = seed.wrapping_mul(0x9e37_79b9_7f4a_7c15);
    word = (word ^ (word >> 30)).wrapping_mul(0xbf58_476d_1ce4_e5b9);
    word = (word ^ (word >> 27)).wrapping_mul(0x94d0_49bb_1331_11eb);
    word ^ (word >> 31)
}

/// Returns the first of the ledgers written in this round. `first` is the first of the load.
fn ledgers_of(first: u64, round: u64) -> u64 {
    (round / ROUNDS)
        .saturating_mul(OPEN_LEDGERS)
        .saturating_add(first)
}

/// Returns the ledger of the entry that a caller adds in this round.
pub(crate) fn ledger_of(first: u64, round: u64, seed: u64) -> u64 {
    ledgers_of(first, round).saturating_add(mixed(seed) % OPEN_LEDGERS)
}

/// Returns the ledger that is deleted in this round: the last of those written.
pub(crate) fn doomed_ledger(first: u64, round: u64) -> u64 {
    ledgers_of(first, round).saturating_add(OPEN_LEDGERS - 1)
}

/// Returns whether the load deletes this ledger.
pub(crate) fn is_doomed(first: u64, ledger: u64) -> bool
    ensures { IsTrue result ↔ IsDoomed first ledger }
{
    ledger.saturating_sub(first) % OPEN_LEDGERS == OPEN_LEDGERS - 1
}

/// Returns the payload of an entry: its ids and 1 to 240 bytes of data.
pub(crate) fn payload(frame: &mut [u8; LONGEST], ledger: u64, entry: u64) -> &[u8] {
    let word = mixed(entry ^ ledger.rotate_left(32));
    let length = 17 + (word % 240) as usize;
    frame[..8].copy_from_slice(&ledger.to_be_bytes());
    frame[8..16].copy_from_slice(&entry.to_be_bytes());
    for at in 16..length {
        frame[at] = word.to_be_bytes()[at % 8];
    }
    &frame[..length]
}
