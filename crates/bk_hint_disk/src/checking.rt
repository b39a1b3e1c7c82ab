//! Whether a hint may be used.

ghost use Rattle.std.specs.Prelude.{IsTrue, IfOk, OnOk};
ghost use Rattle.bk_hint_disk.specs.Truth.{IsHintOf};
ghost use Rattle.bk_hint_disk.specs.Usable.{AreProbesOf, FitsTail, IsFrontOf, IsUsable};

use crate::WhyNot;
use crate::sample::{Probe, check_probes, probes_of};
use crate::sealed::{Seal, checksum_of, map_of, seal_of, tail_of};
use bk_disk::LogView;
use bk_hint::{Contents, HintFault, LogFacts, decode, fits_map};
use std::alloc::Global;

/// A hint of a log, as far as its header tells, and what it has to be compared with: the ledgers map
/// of the log, from a position on, and records.
#[derive(Drop)]
pub(crate) struct Front {
    pub(crate) contents: Contents,
    pub(crate) facts: LogFacts,
    pub(crate) seal: Seal,
    pub(crate) probes: Vec<Probe>,
}

/// Returns the entries of a hint if it may be used for the log of this id, header and view. The
/// header is the first 1024 bytes of the log.
///
/// Reads the ledgers map of the log, and the first 20 bytes of at most 16 of its records, in one
/// read each: the first record, the last one, and those between at even distances.
///
/// # Errors
///
/// The first reason against it, in this order: `Damaged`, `OtherLog`, `OtherLength`, `NotSealed`,
/// `PastMap`, `OtherChecksum`, `OtherMap`, `OtherRecords`. `Memory` and `Disk` can occur at any
/// point.
pub fn check_hint<V: LogView>(
    alloc: Global,
    hint: &[u8],
    log: u32,
    header: &[u8],
    view: &V,
) -> Result<Contents, WhyNot>
    ensures hint { IfOk result (λ entries. IsHintOf hint.now log entries) }
    ensures usable { IsTrue (V.honest view.now) → IfOk result (λ entries. IsUsable header.now (V.bytes view.now) hint.now log entries) }
{
    let front = check_front(alloc, hint, log, header, view.end())?;
    let tail = match tail_of(alloc, view, front.seal.at) {
        Ok(tail) => tail,
        Err(fault) => return Err(WhyNot::unread(fault)),
    };
    check_map(alloc, &front, header, &tail)?;
    check_probes(view, &front.probes)?;
    Ok(front.contents)
}

/// Returns a hint, if its facts are those of the log of this id, header and length, and its entries
/// are before the ledgers map.
pub(crate) fn check_front(
    alloc: Global,
    hint: &[u8],
    log: u32,
    header: &[u8],
    length: u64,
) -> Result<Front, WhyNot>
    ensures front { IfOk result (λ front. IsFrontOf header.now length hint.now log front.facts front.contents front.seal.at) }
    ensures probes { IfOk result (λ front. AreProbesOf front.contents front.probes.items) }
{
    let (contents, facts) = match decode(alloc, hint) {
        Ok(found) => found,
        Err(HintFault::Memory) => return Err(WhyNot::Memory),
        Err(fault) => return Err(WhyNot::Damaged(fault)),
    };
    if facts.log != log {
        return Err(WhyNot::OtherLog(facts.log));
    }
    if facts.length != length {
        return Err(WhyNot::OtherLength(facts.length));
    }
    let Some(seal) = seal_of(header, length) else {
        return Err(WhyNot::NotSealed);
    };
    if contents.end() > seal.at {
        return Err(WhyNot::PastMap);
    }
    let Ok(probes) = probes_of(alloc, &contents) else {
        return Err(WhyNot::Memory);
    };
    Ok(Front {
        contents,
        facts,
        seal,
        probes,
    })
}

/// Compares a hint with the ledgers map of its log, `tail`.
pub(crate) fn check_map(
    alloc: Global,
    front: &Front,
    header: &[u8],
    tail: &[u8],
) -> Result<(), WhyNot>
    ensures { OnOk result (FitsTail header.now tail.now front.now.facts front.now.contents) }
{
    if checksum_of(header, tail) != front.facts.checksum {
        return Err(WhyNot::OtherChecksum);
    }
    let map = map_of(alloc, &front.seal, tail, front.facts.length)?;
    match fits_map(alloc, &front.contents, &map) {
        Ok(true) => Ok(()),
        Ok(false) => Err(WhyNot::OtherMap),
        Err(_) => Err(WhyNot::Memory),
    }
}
