//! The plan of a run: its parts checked, and the settings of the simulated store.

ghost use Rattle.std.specs.Prelude.{◌≡◌, ◌↔◌, ◌≤◌, ◌<◌, ◌*◌, ◌/◌, ◌^◌, max, IsTrue, IfOk, IfErr, IsErrOf};
ghost use Rattle.bk_store.specs.Limits.{IsAllowed};
ghost use Rattle.bk_simulation.specs.Numbers.{in_64_bits};
ghost use Rattle.bk_simulation.specs.Ranges.{IsLoad, IsRecordSize, IsScale, IsRunPlan};

use crate::{Load, Scale, Upkeep};
use bk_record::{HEADER_LENGTH, MAX_CACHE_LIMIT, MAX_LOG_LIMIT, RECORD_HEAD};
use bk_store::Settings;
use thiserror::Error;

/// Bytes of a header.
const HEADER: u64 = HEADER_LENGTH as u64;

/// Bytes of the length field of a record.
const FIELD: u64 = 4;

/// Greatest bytes of a record.
const MOST: u64 = 5_000_004;

/// Greatest number of records of a run.
const RECORDS: u64 = 1_000_000_000;

/// A millionth of a second, the unit of the clock, in a day.
const DAY: u128 = 86_400_000_000;

/// Why there is no plan.
#[derive(Clone, Copy, Debug, PartialEq, Eq, Error)]
pub enum PlanFault {
    /// A number of the load is out of range.
    #[error("an entry, a record, a ledger, the rate, the length or the number of writers is out of range")]
    Load,
    /// A setting of the store is out of range.
    #[error("a setting of the store is out of range")]
    Settings,
    /// A record stands for more than an eighth of a log or of the cache.
    #[error("a simulated record stands for more than a log's eighth or a cache")]
    Batch,
    /// The run has more than 1,000,000,000 records.
    #[error("the run has more than 1000000000 records: let each stand for more entries")]
    Long,
}

/// A checked plan of a run.
#[derive(Clone, Copy, Debug, PartialEq, Eq)]
pub struct Plan {
    pub load: Load,
    pub upkeep: Upkeep,
    pub scale: Scale,
    /// Bytes that one simulated record stands for, at least 1.
    pub unit: u64,
    /// Number of records of the run.
    pub records: u64,
    /// Millionths of a second from one record to the next, at least 1.
    pub interval: u64,
    /// Settings of the simulated store: limits of as many records as the real ones have units.
    pub settings: Settings,
}

impl Plan {
    /// Returns the plan of a run.
    ///
    /// # Errors
    ///
    /// In this order:
    ///
    /// - `Load`: an entry or a record is not of 20 to 5,000,004 bytes, or another number of load or
    ///   scale is 0, or more than 2^40 seconds, 2^50 bytes, 100,000 writers or 2^20 entries.
    /// - `Settings`: a setting of the real store is out of range.
    /// - `Batch`: a log has no room for eight records, or a cache none for one.
    /// - `Long`: the run has more than 1,000,000,000 records.
    pub fn new(load: Load, upkeep: Upkeep, scale: Scale) -> Result<Plan, PlanFault>
        ensures plan { IfOk result (λ plan. IsRunPlan load upkeep scale plan) }
        ensures load { IsErrOf result PlanFault.Load ↔ ¬ (IsLoad load × IsScale scale) }
        ensures settings { IsErrOf result PlanFault.Settings
            ↔ (IsLoad load × IsScale scale × ¬ (IsAllowed upkeep.settings)) }
    {
        if !is_load(&load) || !is_scale(&scale) {
            return Err(PlanFault::Load);
        }
        if !upkeep.settings.is_allowed() {
            return Err(PlanFault::Settings);
        }
        let unit = load.entry.saturating_mul(scale.batch).max(1);
        let settings = scaled(&upkeep.settings, &load, &scale, unit)?;
        let interval = per(unit, load.rate);
        let records = times(load.seconds, 1_000_000, interval);
        if records > RECORDS {
            return Err(PlanFault::Long);
        }
        Ok(Plan {
            load,
            upkeep,
            scale,
            unit,
            records,
            interval,
            settings,
        })
    }

    /// Returns the real bytes of these simulated bytes of records.
    pub fn real(&self, bytes: u64) -> u64
        ensures { result ≡ in_64_bits (bytes / max self.now.scale.«record» 1 * self.now.unit) }
    {
        let records = bytes / u64::from(self.scale.record).max(1);
        records.saturating_mul(self.unit)
    }

    /// Returns the number of real entries of this number of simulated ones.
    pub fn entries(&self, records: u64) -> u64
        ensures { result ≡ in_64_bits (records * self.now.scale.batch) }
    {
        records.saturating_mul(self.scale.batch)
    }
}

/// Returns whether each number of the load is in its range.
fn is_load(load: &Load) -> bool
    ensures { IsTrue result ↔ IsLoad load.now }
{
    is_record(load.entry)
        && 0 < load.seconds
        && load.seconds < 1 << 40
        && 0 < load.rate
        && load.rate < 1 << 50
        && 0 < load.ledger
        && load.ledger < 1 << 50
        && 0 < load.writers
        && load.writers <= 100_000
}

/// Returns whether each number of the scale is in its range.
fn is_scale(scale: &Scale) -> bool
    ensures { IsTrue result ↔ IsScale scale.now }
{
    is_record(u64::from(scale.record)) && 0 < scale.batch && scale.batch <= 1 << 20
}

/// Returns whether a record can have this many bytes.
fn is_record(size: u64) -> bool
    ensures { IsTrue result ↔ IsRecordSize size }
{
    RECORD_HEAD as u64 <= size && size <= MOST
}

/// Returns the settings of the simulated store. A log and a cache have room for as many records as
/// the real ones have for units.
fn scaled(real: &Settings, load: &Load, scale: &Scale, unit: u64) -> Result<Settings, PlanFault>
    ensures allowed { IfOk result (λ settings. IsAllowed settings) }
    ensures fault { IfErr result (λ fault. fault ≡ PlanFault.Batch) }
{
    let record = u64::from(scale.record);
    let logs = u64::from(real.log_limit).saturating_sub(HEADER) / unit.max(1);
    let payload = load.entry.saturating_sub(FIELD).max(1);
    let caches = u64::from(real.cache_limit) / payload / scale.batch.max(1);
    let log_limit = HEADER.saturating_add(logs.saturating_mul(record));
    let cache_limit = caches.saturating_mul(record.saturating_sub(FIELD));
    if logs < 8 || caches < 1 {
        return Err(PlanFault::Batch);
    }
    let settings = Settings {
        log_limit: log_limit.max(2048).min(u64::from(MAX_LOG_LIMIT)) as u32,
        cache_limit: cache_limit.min(u64::from(MAX_CACHE_LIMIT)) as u32,
        ..*real
    };
    if settings.is_allowed() {
        Ok(settings)
    } else {
        Err(PlanFault::Batch)
    }
}

/// Returns the millionths of a second in which this many bytes come in, at least 1.
fn per(bytes: u64, rate: u64) -> u64
    ensures { 1 ≤ result }
{
    let time = u128::from(bytes).saturating_mul(DAY) / u128::from(rate.max(1));
    time.max(1).min(u128::from(u64::MAX)) as u64
}

/// Returns how often an interval is in this many seconds of so many parts.
fn times(seconds: u64, parts: u64, interval: u64) -> u64 {
    seconds.saturating_mul(parts) / interval.max(1)
}
