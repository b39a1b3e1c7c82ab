//! Durable bytes that are missing.

ghost use Rattle.std.specs.Prelude.{◌≡◌, List, IfOk, IfNone, IfSome};
ghost use Rattle.bk_manifest.specs.Fact.{Fact, fact};
ghost use Rattle.bk_manifest.specs.State.{IsStateOf};
ghost use Rattle.bk_manifest_disk.specs.Table.{AreDurableBytesThere, IsLack, IsKept, IsLacking, IsChecked};

use crate::{Finding, finding_of};
use bk_manifest::{Record, State};
use std::alloc::{AllocError, Global};
use std::collections::BTreeMap;
use thiserror::Error;

/// Durable bytes of a log are missing.
#[derive(Clone, Copy, Debug, PartialEq, Eq, Error)]
pub enum Lack {
    /// The file of the log has fewer bytes.
    #[error("log {log} has {length} of {durable} durable bytes")]
    Shorter { log: u32, durable: u64, length: u64 },
    /// The log has no file, and its removal was not recorded.
    #[error("log {log} with {durable} durable bytes is missing")]
    Missing { log: u32, durable: u64 },
}

/// Returns what a log lacks.
fn lack_of(state: &State, lengths: &BTreeMap<u32, u64>, log: u32) -> Option<Lack>
    ensures none { IfNone result (IsKept state.now lengths.now log) }
    ensures some { IfSome result (λ lack. IsLacking state.now lengths.now lack) }
{
    match finding_of(state.log(log), lengths.get(&log).copied()) {
        Finding::Shorter { durable, length } => Some(Lack::Shorter {
            log,
            durable,
            length,
        }),
        Finding::Missing { durable } => Some(Lack::Missing { log, durable }),
        _ => None,
    }
}

/// Returns what the log of a recorded length lacks.
fn lack_by(state: &State, lengths: &BTreeMap<u32, u64>, one: &Record) -> Option<Lack>
    ensures none { IfNone result (IsChecked state.now lengths.now (fact one.now)) }
    ensures some { IfSome result (λ lack. IsLacking state.now lengths.now lack) }
{
    match one {
        Record::DurableLog { log, .. } => lack_of(state, lengths, *log),
        _ => None,
    }
}

/// Returns a log whose durable bytes are not all there, `None` if there is no such log. Fails if an
/// allocation is refused.
pub fn find_lack(
    alloc: Global,
    state: &State,
    lengths: &BTreeMap<u32, u64>,
) -> Result<Option<Lack>, AllocError>
    ensures none { IfOk result (λ found. IfNone found ((records : List Fact) → IsStateOf records state.now → AreDurableBytesThere records lengths.now)) }
    ensures some { IfOk result (λ found. IfSome found (λ lack. (records : List Fact) → IsStateOf records state.now → IsLack records lengths.now lack)) }
{
    let records = state.records(alloc)?;
    for one in &records {
        if let Some(lack) = lack_by(state, lengths, one) {
            return Ok(Some(lack));
        }
    }
    Ok(None)
}
