//! Builds the steps of a life.

use bk_drive::Step;
use std::alloc::{AllocError, Global};

/// Returns the add of this entry with N equal bytes.
pub(super) fn add_of(
    alloc: Global,
    ledger: u64,
    entry: u64,
    size: usize,
    byte: u8,
) -> Result<Step, AllocError> {
    let mut payload = Vec::from_slice(alloc, &ledger.to_be_bytes())?;
    payload.extend_from_slice(&entry.to_be_bytes())?;
    for _ in 0..size {
        payload.push(byte)?;
    }
    Ok(Step::Add(payload))
}

/// Appends a step to a list.
pub(super) fn push_step(steps: &mut Vec<Step>, step: Step) -> Result<(), AllocError> {
    steps.push(step)?;
    Ok(())
}
