//! Hints as bytes.

ghost use Rattle.std.specs.Prelude.{◌≡◌, ◌++◌, IfOk, OnOk};
ghost use Rattle.std.specs.List.{flat_map, AllByRecursion};
ghost use Rattle.bk_hint.specs.Hint.{facts_bytes, front_of, head_bytes, step_bytes, FactsFit, IsHint, StepFits};

use crate::head::Head;
use crate::{Contents, LogFacts};
use bk_crc::{Polynomial, checksum_of};
use std::alloc::{AllocError, Global};

/// The four bytes `BKHI` as a number.
pub(crate) const MAGIC: u32 = 0x424b_4849;

/// Version of the format.
pub(crate) const VERSION: u32 = 1;

/// Appends a number of four bytes.
fn put_u32(out: &mut Vec<u8>, number: u32) -> Result<(), AllocError>
    ensures { OnOk result (out.new.items ≡ out.old.items ++ step_bytes number) }
{
    out.extend_from_slice(&number.to_be_bytes())
}

/// Appends facts.
#[tactic(auto, unfolding(crate::specs::Hint::facts_bytes))]
fn put_facts(out: &mut Vec<u8>, facts: &LogFacts) -> Result<(), AllocError>
    ensures ok { OnOk result (out.new.items ≡ out.old.items ++ facts_bytes facts.now) }
    ensures fit { OnOk result (FactsFit facts.now) }
{
    out.extend_from_slice(&facts.log.to_be_bytes())?;
    out.extend_from_slice(&facts.length.to_be_bytes())?;
    out.extend_from_slice(&facts.checksum.to_be_bytes())?;
    Ok(())
}

/// Appends the first 32 bytes.
#[tactic(auto, unfolding(crate::specs::Hint::front_of))]
fn put_front(out: &mut Vec<u8>, facts: &LogFacts, heads: u32, steps: u32) -> Result<(), AllocError>
    ensures ok { OnOk result (out.new.items ≡ out.old.items ++ front_of facts.now heads steps) }
    ensures fit { OnOk result (FactsFit facts.now) }
{
    put_u32(out, MAGIC)?;
    put_u32(out, VERSION)?;
    put_facts(out, facts)?;
    put_u32(out, heads)?;
    put_u32(out, steps)?;
    Ok(())
}

/// Appends a head.
#[tactic(auto, unfolding(crate::specs::Hint::head_bytes))]
fn put_head(out: &mut Vec<u8>, head: &Head) -> Result<(), AllocError>
    ensures { OnOk result (out.new.items ≡ out.old.items ++ head_bytes head.now) }
{
    out.extend_from_slice(&head.ledger.to_be_bytes())?;
    out.extend_from_slice(&head.entry.to_be_bytes())?;
    out.extend_from_slice(&head.at.to_be_bytes())?;
    out.extend_from_slice(&head.size.to_be_bytes())?;
    Ok(())
}

/// Appends heads.
fn put_heads(out: &mut Vec<u8>, heads: &[Head]) -> Result<(), AllocError>
    ensures { OnOk result (out.new.items ≡ out.old.items ++ flat_map head_bytes heads.now) }
{
    for head in heads {
        put_head(out, head)?;
    }
    Ok(())
}

/// Appends steps.
fn put_steps(out: &mut Vec<u8>, steps: &[u32]) -> Result<(), AllocError>
    ensures ok { OnOk result (out.new.items ≡ out.old.items ++ flat_map step_bytes steps.now) }
    ensures fit { OnOk result (AllByRecursion StepFits steps.now) }
{
    for step in steps {
        put_u32(out, *step)?;
    }
    Ok(())
}

/// Returns the hint of a log with these entries.
///
/// # Errors
///
/// - `AllocError` if an allocation is refused.
pub fn encode(alloc: Global, contents: &Contents, facts: &LogFacts) -> Result<Vec<u8>, AllocError>
    ensures { IfOk result (λ bytes. IsHint bytes.items facts.now contents.now) }
{
    let (heads, steps) = contents.parts();
    let mut out = Vec::new(alloc);
    put_front(&mut out, facts, heads.len() as u32, steps.len() as u32)?;
    put_heads(&mut out, heads)?;
    put_steps(&mut out, steps)?;
    let checksum = checksum_of(Polynomial::Castagnoli, &out);
    put_u32(&mut out, checksum)?;
    Ok(out)
}
