//! What a sealed log has besides its records: the header and the ledgers map.

ghost use Rattle.std.specs.Prelude.{◌≡◌, ◌++◌, ◌≤◌, drop, IsTrue, IfOk, IfSome};
ghost use Rattle.bk_record.specs.Files.{header_length};
ghost use Rattle.bk_crc.specs.Checksum.{IsChecksum};
ghost use Rattle.bk_crc.specs.declared.polynomial.Polynomial.TheVariants.{Castagnoli};
ghost use Rattle.bk_head.specs.Ledgers.{map_of, SpellsMap};
ghost use Rattle.bk_hint_disk.specs.Usable.{IsSealedAt};

use crate::WhyNot;
use bk_crc::{Checksum, Polynomial};
use bk_disk::{DiskFault, LogView};
use bk_head::{HeadFault, Header, place_of_map, read_header, read_map};
use std::alloc::Global;
use std::collections::BTreeMap;

/// The header of a sealed log, and the position of its ledgers map.
#[derive(Drop)]
pub(crate) struct Seal {
    pub(crate) header: Header,
    pub(crate) at: u64,
}

/// Returns what a header tells of a log of this length; `None` if the log is not sealed.
pub(crate) fn seal_of(header: &[u8], length: u64) -> Option<Seal>
    ensures at { IfSome result (λ seal. (header_length ≤ seal.at) × (seal.at ≤ length)) }
    ensures sealed { IfSome result (λ seal. IsSealedAt header.now length seal.at) }
{
    let Ok(header) = read_header(header.first_chunk()?) else {
        return None;
    };
    match place_of_map(length, &header) {
        Ok(Some((at, _))) => Some(Seal { header, at }),
        _ => None,
    }
}

/// Returns the bytes of a view from a position to its end: the ledgers map of a sealed log.
pub(crate) fn tail_of<V: LogView>(alloc: Global, view: &V, at: u64) -> Result<Vec<u8>, DiskFault>
    ensures { IsTrue (V.honest view.now) → IfOk result (λ tail. tail.items ≡ drop at (V.bytes view.now)) }
{
    let end = view.end();
    if end < at {
        return Err(DiskFault::PastEnd);
    }
    view.read_at(alloc, at, end - at)
}

/// Returns the ledgers map of a sealed log of this length, `tail`.
pub(crate) fn map_of(
    alloc: Global,
    seal: &Seal,
    tail: &[u8],
    length: u64,
) -> Result<BTreeMap<u64, u64>, WhyNot>
    ensures { IfOk result (λ map. SpellsMap tail.now (map_of map)) }
{
    if seal.at > length || length - seal.at != tail.len() as u64 {
        return Err(WhyNot::OtherMap);
    }
    if seal.header.map_offset < 0 || seal.header.map_offset as u64 != seal.at {
        return Err(WhyNot::OtherMap);
    }
    match read_map(alloc, tail, length, &seal.header) {
        Ok(Some(map)) => Ok(map),
        Err(HeadFault::Memory) => Err(WhyNot::Memory),
        _ => Err(WhyNot::OtherMap),
    }
}

/// Returns the CRC-32C of the header of a log and its ledgers map.
pub(crate) fn checksum_of(header: &[u8], tail: &[u8]) -> u32
    ensures { IsChecksum Castagnoli (header.now ++ tail.now) result }
{
    let mut checksum = Checksum::new(Polynomial::Castagnoli);
    checksum.update(header);
    checksum.update(tail);
    checksum.finish()
}
