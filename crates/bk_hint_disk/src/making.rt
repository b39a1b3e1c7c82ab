//! Hints made of logs.

ghost use Rattle.std.specs.Prelude.{◌≤◌, IsTrue, IfOk, IfSome};
ghost use Rattle.bk_record.specs.Files.{header_length};
ghost use Rattle.bk_disk.specs.Disk.{view_end};
ghost use Rattle.bk_hint_view.specs.Rows.{AreRecords};
ghost use Rattle.bk_hint_disk.specs.Truth.{IsTrueHint};
ghost use Rattle.bk_hint_disk.specs.Usable.{IsUsableHint};

use crate::sealed::{checksum_of, map_of, seal_of, tail_of};
use crate::{MakeFault, WhyNot};
use bk_disk::LogView;
use bk_hint::{Contents, LogFacts, encode, fits_map};
use bk_log::Scanner;
use bk_record::HEADER_LENGTH;
use std::alloc::Global;

/// Returns the hint of a sealed log of this id, header and view, whose records it scans. The header
/// is the first 1024 bytes of the log. Returns `None` if the log is not sealed, if a record before
/// its ledgers map has a bad length, or if its ledgers map is not that of its entries. A hint that is
/// made is true, and may be used for this log.
///
/// # Errors
///
/// - `Memory`, `Disk`, and `Odd` if the view is not honest.
pub fn make_hint<V: LogView>(
    alloc: Global,
    log: u32,
    header: &[u8],
    view: &V,
) -> Result<Option<Vec<u8>>, MakeFault>
    ensures records { IsTrue (V.honest view.now) → IfOk result (λ made. IfSome made (λ hint. IsTrueHint (V.bytes view.now) hint.items)) }
    ensures usable { IsTrue (V.honest view.now) → IfOk result (λ made. IfSome made (λ hint. IsUsableHint header.now (V.bytes view.now) hint.items log)) }
{
    let length = view.end();
    let Some(seal) = seal_of(header, length) else {
        return Ok(None);
    };
    let Some(contents) = contents_of(alloc, view, seal.at)? else {
        return Ok(None);
    };
    if contents.end() > seal.at {
        return Ok(None);
    }
    let tail = match tail_of(alloc, view, seal.at) {
        Ok(tail) => tail,
        Err(fault) => return Err(MakeFault::of_disk(fault)),
    };
    let map = match map_of(alloc, &seal, &tail, length) {
        Ok(map) => map,
        Err(WhyNot::Memory) => return Err(MakeFault::Memory),
        Err(_) => return Ok(None),
    };
    match fits_map(alloc, &contents, &map) {
        Ok(true) => {}
        Ok(false) => return Ok(None),
        Err(_) => return Err(MakeFault::Memory),
    }
    let facts = LogFacts {
        log,
        length,
        checksum: checksum_of(header, &tail),
    };
    match encode(alloc, &contents, &facts) {
        Ok(hint) => Ok(Some(hint)),
        Err(_) => Err(MakeFault::Memory),
    }
}

/// Returns the entries of a view before a position, `None` if a record has a bad length.
fn contents_of<V: LogView>(alloc: Global, view: &V, end: u64) -> Result<Option<Contents>, MakeFault>
    requires headed { header_length ≤ end }
    requires in_view { IsTrue (V.honest view.now) → end ≤ view_end (V.bytes view.now) }
    ensures { IsTrue (V.honest view.now) → IfOk result (λ found. IfSome found (AreRecords (V.bytes view.now))) }
{
    view.bounds();
    let mut scanner = Scanner::new(view, alloc, HEADER_LENGTH as u64, end);
    let mut contents = Contents::new(alloc);
    loop {
        let found = match scanner.next() {
            Ok(Some(found)) => found,
            Ok(None) => return Ok(Some(contents)),
            Err(fault) => {
                return match MakeFault::of_scan(fault) {
                    Some(fault) => Err(fault),
                    None => Ok(None),
                };
            }
        };
        if !contents.can_push(found.at, found.size) {
            return Ok(None);
        }
        match contents.push(found.key, found.at, found.size) {
            Ok(()) => {}
            Err(_) => return Err(MakeFault::Memory),
        }
    }
}
