//! The figures of a run.

ghost use Rattle.std.specs.Prelude.{◌≡◌, ◌+◌, ◌*◌, ◌/◌, drop, length, max, sum_by};
ghost use Rattle.bk_simulation.specs.Numbers.{in_64_bits, thousandths_of, key_bytes, real_bytes};

use crate::Sample;
use crate::memory::{TRAIL_BYTES, index_bytes};
use crate::outcome::Outcome;
use bk_sim_disk::Bytes;

/// Returns a part of a whole in thousandths, 0 if there is no whole.
fn thousandths(part: u64, whole: u64) -> u64
    ensures { result ≡ thousandths_of part whole }
{
    if whole == 0 {
        return 0;
    }
    let share = u128::from(part).saturating_mul(1000) / u128::from(whole);
    share.min(u128::from(u64::MAX)) as u64
}

/// Returns the bytes of all logs, added up over samples.
fn disk_of(samples: &[Sample]) -> u64
    ensures { result ≡ in_64_bits (sum_by (λ sample. sample.disk) samples.now) }
{
    let mut sum = 0u64;
    for sample in samples {
        sum = sum.saturating_add(sample.disk);
    }
    sum
}

/// Returns the bytes of live records, added up over samples.
fn live_of(samples: &[Sample]) -> u64
    ensures { result ≡ in_64_bits (sum_by (λ sample. sample.live) samples.now) }
{
    let mut sum = 0u64;
    for sample in samples {
        sum = sum.saturating_add(sample.live);
    }
    sum
}

/// Returns the numbers of logs, added up over samples.
fn logs_of(samples: &[Sample]) -> u64
    ensures { result ≡ in_64_bits (sum_by (λ sample. sample.logs) samples.now) }
{
    let mut sum = 0u64;
    for sample in samples {
        sum = sum.saturating_add(sample.logs);
    }
    sum
}

/// Returns the samples of the second half.
fn late(samples: &[Sample]) -> &[Sample]
    ensures { result.now ≡ drop (length samples.now / 2) samples.now }
{
    let half = samples.len() / 2;
    &samples[half..]
}

impl Outcome {
    /// Returns the real bytes of these simulated ones: headers and maps count as they are.
    pub fn real(&self, bytes: Bytes) -> u64
        ensures { let plan = self.now.plan in
            result ≡ real_bytes plan.scale.«record» plan.unit bytes.records bytes.others }
    {
        self.plan.real(bytes.records).saturating_add(bytes.others)
    }

    /// Returns the bytes that were written to logs, by a byte of the records that came in, in
    /// thousandths.
    pub fn write_amplification(&self) -> u64
        ensures { let plan = self.now.plan in
            let bytes = self.now.metered.appended in
            result ≡ thousandths_of
            (real_bytes plan.scale.«record» plan.unit bytes.records bytes.others)
            (in_64_bits (self.now.tally.added * plan.unit)) }
    {
        let added = self.tally.added.saturating_mul(self.plan.unit);
        thousandths(self.real(self.metered.appended), added)
    }

    /// Returns the bytes of all logs by a byte of live records, in thousandths: their sums over the
    /// samples of the second half.
    pub fn space_amplification(&self) -> u64
        ensures { let late = drop (length self.now.samples.items / 2) self.now.samples.items in
            result ≡ thousandths_of (in_64_bits (sum_by (λ sample. sample.disk) late))
            (in_64_bits (sum_by (λ sample. sample.live) late)) }
    {
        let late = late(&self.samples);
        thousandths(disk_of(late), live_of(late))
    }

    /// Returns the greatest space amplification of a sample of the second half, in thousandths.
    pub fn peak_space_amplification(&self) -> u64 {
        let mut most = 0u64;
        for sample in late(&self.samples) {
            most = most.max(thousandths(sample.disk, sample.live));
        }
        most
    }

    /// Returns the mean number of logs in the samples of the second half, rounded down.
    pub fn mean_logs(&self) -> u64
        ensures { let late = drop (length self.now.samples.items / 2) self.now.samples.items in
            result ≡ in_64_bits (sum_by (λ sample. sample.logs) late) / max (length late) 1 }
    {
        let late = late(&self.samples);
        logs_of(late) / (late.len() as u64).max(1)
    }

    /// Returns the greatest bytes of memory of the index.
    pub fn index_memory(&self) -> u64
        ensures { result ≡ in_64_bits (self.now.peak_keys
            * key_bytes (self.now.plan.load.ledger / max self.now.plan.load.entry 1)) }
    {
        let keys = self.plan.load.ledger / self.plan.load.entry.max(1);
        self.peak_keys.saturating_mul(index_bytes(keys))
    }

    /// Returns the bytes of memory of the trail at the end.
    pub fn trail_memory(&self) -> u64
        ensures { result ≡ in_64_bits (in_64_bits (self.now.tally.added * self.now.plan.scale.batch) * 96) }
    {
        self.plan
            .entries(self.tally.added)
            .saturating_mul(TRAIL_BYTES)
    }

    /// Returns the number of compactions.
    pub fn compactions(&self) -> u64
        ensures { result ≡ in_64_bits (self.now.tally.minor + self.now.tally.major) }
    {
        self.tally.minor.saturating_add(self.tally.major)
    }

    /// Returns the real bytes that compactions moved.
    pub fn moved(&self) -> u64
        ensures { result ≡ in_64_bits (in_64_bits (self.now.tally.minor_moved + self.now.tally.major_moved)
            * self.now.plan.unit) }
    {
        let records = self
            .tally
            .minor_moved
            .saturating_add(self.tally.major_moved);
        records.saturating_mul(self.plan.unit)
    }
}
