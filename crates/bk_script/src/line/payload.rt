//! Payloads of the entries that lines add. The room of a payload is one allocation.

ghost use Rattle.std.specs.Prelude.{◌≡◌, ◌+◌, ◌≤◌, ◌++◌, ◌^◌, replicate, IfOk, MatchResult};
ghost use Rattle.std.specs.Int.{w64, to_be_bytes};
ghost use Rattle.bk_store.specs.declared.adding.AddKind.TheVariants.{Ordinary};
ghost use Rattle.bk_script.specs.Line.{IsAdd, payload_of};

use crate::line::LineFault;
use bk_drive::{AddKind, Step};
use std::alloc::{AllocError, Global};

/// Size of the two ids at the front of a payload.
const IDS: usize = 16;

/// Returns the add of an entry with these ids and this text as data.
pub(crate) fn add(
    alloc: Global,
    kind: AddKind,
    ledger: u64,
    entry: u64,
    text: &str,
) -> Result<Step, LineFault>
    ensures { MatchResult result (IsAdd kind ledger entry text.now) (λ fault. fault ≡ LineFault.Memory) }
{
    let Ok(payload) = text_payload(alloc, ledger, entry, text.as_bytes()) else {
        return Err(LineFault::Memory);
    };
    match kind {
        AddKind::Ordinary => Ok(Step::Add(payload)),
        AddKind::Recovery => Ok(Step::AddRecovery(payload)),
    }
}

/// Returns the add of an entry with these ids and `size` zero bytes as data. `size` is at most
/// 2^32.
pub(crate) fn pad(alloc: Global, ledger: u64, entry: u64, size: usize) -> Result<Step, LineFault>
    requires { size ≤ 2 ^ 32 }
    ensures { MatchResult result (IsAdd Ordinary ledger entry (replicate size 0)) (λ fault. fault ≡ LineFault.Memory) }
{
    match zero_payload(alloc, ledger, entry, size) {
        Ok(payload) => Ok(Step::Add(payload)),
        Err(_) => Err(LineFault::Memory),
    }
}

/// Returns the payload: ledger id and entry id, eight bytes each, big-endian, then the data.
#[tactic(auto, unfolding(crate::specs::Line::payload_of))]
fn text_payload(alloc: Global, ledger: u64, entry: u64, data: &[u8]) -> Result<Vec<u8>, AllocError>
    ensures { IfOk result (λ payload. payload.items ≡ payload_of ledger entry «data».now) }
{
    let mut payload = ids(alloc, ledger, entry, IDS + data.len())?;
    payload.extend_from_slice(data)?;
    Ok(payload)
}

/// Returns the payload with zero bytes as data.
#[tactic(auto, unfolding(crate::specs::Line::payload_of))]
fn zero_payload(alloc: Global, ledger: u64, entry: u64, size: usize) -> Result<Vec<u8>, AllocError>
    requires { size ≤ 2 ^ 32 }
    ensures { IfOk result (λ payload. payload.items ≡ payload_of ledger entry (replicate size 0)) }
{
    let mut payload = ids(alloc, ledger, entry, IDS + size)?;
    payload.resize(IDS + size, 0)?;
    Ok(payload)
}

/// Returns the two ids at the front of a payload, with room for `room` bytes in all.
fn ids(alloc: Global, ledger: u64, entry: u64, room: usize) -> Result<Vec<u8>, AllocError>
    ensures { IfOk result (λ ids. ids.items ≡ to_be_bytes w64 ledger ++ to_be_bytes w64 entry) }
{
    let mut ids = Vec::with_capacity(alloc, room)?;
    ids.extend_from_slice(&ledger.to_be_bytes())?;
    ids.extend_from_slice(&entry.to_be_bytes())?;
    Ok(ids)
}
