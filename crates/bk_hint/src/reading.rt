//! Hints read from bytes.

ghost use Rattle.std.specs.Prelude.{◌≡◌, ◌+◌, ◌*◌, ◌≤◌, List, length, drop, IfOk, IfErr, OnOk};
ghost use Rattle.std.specs.Int.{w32, w64, from_be_bytes};
ghost use Rattle.bk_hint.specs.declared.listed.Listed.{Listed as Entry};
ghost use Rattle.bk_hint.specs.declared.facts.LogFacts.{LogFacts as Facts};
ghost use Rattle.bk_hint.specs.Hint.{IsHint};
ghost use Rattle.bk_hint.specs.Decoding.{head_at, heads_in, steps_in, length_of, IsFront, HasChecksum, HasFault, GivesHint};

use crate::head::Head;
use crate::writing::{MAGIC, VERSION};
use crate::{Contents, HintFault, LogFacts};
use bk_crc::{Polynomial, checksum_of};
use std::alloc::{AllocError, Global};

/// Length in bytes of the front: magic, version, facts, and the numbers of heads and steps.
const FRONT: usize = 32;

/// Length of a head in bytes.
const HEAD: usize = 24;

/// Length of a step in bytes.
const STEP: usize = 4;

/// Length of the checksum in bytes.
const CHECKSUM: usize = 4;

/// Returns the number of four bytes at a position.
fn u32_at(bytes: &[u8], at: usize) -> u32
    requires { at + 4 ≤ length bytes.now }
    ensures { result ≡ from_be_bytes w32 (drop at bytes.now) }
{
    u32::from_be_bytes([bytes[at], bytes[at + 1], bytes[at + 2], bytes[at + 3]])
}

/// Returns the number of eight bytes at a position.
fn u64_at(bytes: &[u8], at: usize) -> u64
    requires { at + 8 ≤ length bytes.now }
    ensures { result ≡ from_be_bytes w64 (drop at bytes.now) }
{
    u64::from_be_bytes([
        bytes[at],
        bytes[at + 1],
        bytes[at + 2],
        bytes[at + 3],
        bytes[at + 4],
        bytes[at + 5],
        bytes[at + 6],
        bytes[at + 7],
    ])
}

/// Returns the numbers of heads and steps, with the facts.
fn read_front(bytes: &[u8]) -> Result<(LogFacts, u32, u32), HintFault>
    ensures ok { IfOk result (λ front. IsFront bytes.now front.0 front.1 front.2) }
    ensures err { IfErr result (λ fault. HasFault bytes.now fault) }
{
    let len = bytes.len() as u64;
    if len < (FRONT + CHECKSUM) as u64 {
        return Err(HintFault::Short(len));
    }
    let magic = u32_at(bytes, 0);
    if magic != MAGIC {
        return Err(HintFault::BadMagic);
    }
    let version = u32_at(bytes, 4);
    if version != VERSION {
        return Err(HintFault::Version(version));
    }
    let heads = u32_at(bytes, 24);
    let steps = u32_at(bytes, 28);
    let said = (FRONT + CHECKSUM) as u64
        + (HEAD as u64 * u64::from(heads) + STEP as u64 * u64::from(steps));
    if len != said {
        return Err(HintFault::Length(len));
    }
    let facts = LogFacts {
        log: u32_at(bytes, 8),
        length: u64_at(bytes, 12),
        checksum: u32_at(bytes, 20),
    };
    Ok((facts, heads, steps))
}

/// Compares the last four bytes with the checksum of those before.
fn check_sum(bytes: &[u8]) -> Result<(), HintFault>
    requires { 36 ≤ length bytes.now }
    ensures ok { OnOk result (HasChecksum bytes.now) }
    ensures err { IfErr result (λ fault. HasFault bytes.now fault) }
{
    let end = bytes.len() - CHECKSUM;
    let sum = checksum_of(Polynomial::Castagnoli, &bytes[..end]);
    let stored = u32_at(bytes, end);
    if sum != stored {
        return Err(HintFault::Checksum);
    }
    Ok(())
}

/// Returns the head at a position.
fn read_head(bytes: &[u8], at: usize) -> Head
    requires { at + 24 ≤ length bytes.now }
    ensures { result ≡ head_at (drop at bytes.now) }
{
    Head {
        ledger: u64_at(bytes, at),
        entry: u64_at(bytes, at + 8),
        at: u32_at(bytes, at + 16),
        size: u32_at(bytes, at + 20),
    }
}

/// Returns the heads of a hint of so many heads and steps.
fn read_heads(alloc: Global, heads: u32, steps: u32, bytes: &[u8]) -> Result<Vec<Head>, AllocError>
    requires { length bytes.now ≡ length_of heads steps }
    ensures { IfOk result (λ read. read.items ≡ heads_in heads (drop 32 bytes.now)) }
{
    let count = heads as usize;
    let mut read = Vec::with_capacity(alloc, count)?;
    for k in 0..count {
        read.push(read_head(bytes, FRONT + HEAD * k))?;
    }
    Ok(read)
}

/// Returns the steps of a hint of so many heads and steps.
fn read_steps(alloc: Global, heads: u32, steps: u32, bytes: &[u8]) -> Result<Vec<u32>, AllocError>
    requires { length bytes.now ≡ length_of heads steps }
    ensures { IfOk result (λ read. read.items ≡ steps_in steps (drop (32 + 24 * heads) bytes.now)) }
{
    let from = FRONT + HEAD * heads as usize;
    let count = steps as usize;
    let mut read = Vec::with_capacity(alloc, count)?;
    for k in 0..count {
        read.push(u32_at(bytes, from + STEP * k))?;
    }
    Ok(read)
}

/// Returns what `decode` does.
fn read_hint(alloc: Global, bytes: &[u8]) -> Result<(Contents, LogFacts), HintFault>
    ensures found { IfOk result (λ hint. IsHint bytes.now hint.1 hint.0) }
    ensures err { IfErr result (λ fault. HasFault bytes.now fault) }
{
    let (facts, heads, steps) = read_front(bytes)?;
    check_sum(bytes)?;
    let Ok(all_heads) = read_heads(alloc, heads, steps, bytes) else {
        return Err(HintFault::Memory);
    };
    let Ok(all_steps) = read_steps(alloc, heads, steps, bytes) else {
        return Err(HintFault::Memory);
    };
    match Contents::of(all_heads, all_steps) {
        Some(contents) => Ok((contents, facts)),
        None => Err(HintFault::Entries),
    }
}

/// Reads the hint of a log: its entries, and the log that they belong to. Allocates at most as many
/// bytes as the hint has.
///
/// # Errors
///
/// The first fault in this order:
///
/// - `Short`, `BadMagic`, `Version`, `Length` for the first 32 bytes;
/// - `Checksum` if the last four bytes are not the CRC-32C of those before;
/// - `Memory` if an allocation is refused;
/// - `Entries` if heads and steps do not list legal entries, one behind another.
pub fn decode(alloc: Global, bytes: &[u8]) -> Result<(Contents, LogFacts), HintFault>
    // What is read was written.
    ensures found { IfOk result (λ hint. IsHint bytes.now hint.1 hint.0) }
    // What was written is read, unless memory runs out.
    ensures only { (facts : Facts) (entries : List Entry) → IsHint bytes.now facts entries → GivesHint result entries facts }
    // The bytes have the fault.
    ensures err { IfErr result (λ fault. HasFault bytes.now fault) }
{
    read_hint(alloc, bytes)
}
