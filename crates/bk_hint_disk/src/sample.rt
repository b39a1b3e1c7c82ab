//! A few records of a log, compared with what a hint lists.

ghost use Rattle.std.specs.Prelude.{◌≡◌, IsTrue, IsOk, IfOk, OnOk};
ghost use Rattle.std.specs.List.{All};
ghost use Rattle.bk_hint_disk.specs.Usable.{AreProbesOf, IsHead, IsMet, IsNoted};

use crate::WhyNot;
use bk_disk::{DiskFault, LogView};
use bk_hint::{Contents, EntryCursor, Listed};
use bk_record::{LENGTH_FIELD, RECORD_HEAD};
use byteorder::{BigEndian, ByteOrder};
use std::alloc::{AllocError, Global};

/// The number of records that are compared is at most one more: this many at even distances, and the
/// last one.
const EVEN: u64 = 15;

/// A record that is compared with a log: its entry, and the position of its first 20 bytes.
#[derive(Clone, Copy, Debug)]
pub(crate) struct Probe {
    pub(crate) at: u64,
    pub(crate) entry: Listed,
}

/// Returns at most 16 records of these entries: the first one, the last one, and those between at
/// even distances. Passes the runs twice.
///
/// # Errors
///
/// - `AllocError` if an allocation is refused.
pub(crate) fn probes_of(alloc: Global, contents: &Contents) -> Result<Vec<Probe>, AllocError>
    ensures { IfOk result (λ probes. AreProbesOf contents.now probes.items) }
{
    let mut probes = Vec::new(alloc);
    let Some(last) = contents.len().checked_sub(1) else {
        return Ok(probes);
    };
    let spacing = last / EVEN + 1;
    let mut cursor = contents.cursor();
    let mut place = 0;
    while place < last {
        note(&mut probes, &mut cursor, place)?;
        place = place.saturating_add(spacing);
    }
    note(&mut probes, &mut cursor, last)?;
    Ok(probes)
}

/// Appends the record of the entry at this place, if there is one.
fn note(probes: &mut Vec<Probe>, cursor: &mut EntryCursor<'_>, place: u64) -> Result<(), AllocError>
    ensures same { cursor.new ≡ cursor.old }
    ensures noted { OnOk result (IsNoted cursor.old place probes.old.items probes.new.items) }
{
    if let Some(entry) = cursor.nth(place) {
        let at = entry.at.saturating_sub(LENGTH_FIELD as u64);
        probes.push(Probe { at, entry })?;
    }
    Ok(())
}

/// Compares records of a log with their entries.
///
/// # Errors
///
/// - `OtherRecords` if one is no record of its entry; `Disk`.
pub(crate) fn check_probes<V: LogView>(view: &V, probes: &[Probe]) -> Result<(), WhyNot>
    ensures { IsTrue (V.honest view.now) → OnOk result (All (IsMet (V.bytes view.now)) probes.now) }
{
    for probe in probes {
        check_probe(view, probe)?;
    }
    Ok(())
}

/// Compares a record of a log with its entry.
fn check_probe<V: LogView>(view: &V, probe: &Probe) -> Result<(), WhyNot>
    ensures { IsTrue (V.honest view.now) → OnOk result (IsMet (V.bytes view.now) probe.now) }
{
    let mut head = [0u8; RECORD_HEAD];
    let read = view.read_into(probe.at, &mut head);
    compare(probe, read, &head)
}

/// Compares the first 20 bytes of a record with its entry, if they could be read.
pub(crate) fn compare(
    probe: &Probe,
    read: Result<(), DiskFault>,
    head: &[u8; RECORD_HEAD],
) -> Result<(), WhyNot>
    ensures read { OnOk result (IsOk read) }
    ensures head { OnOk result (IsHead head.now probe.now.entry) }
{
    match read {
        Ok(()) if is_head(head, &probe.entry) => Ok(()),
        Ok(()) => Err(WhyNot::OtherRecords),
        Err(fault) => Err(WhyNot::unread(fault)),
    }
}

/// Returns whether a record of these first bytes is that of an entry.
fn is_head(head: &[u8; RECORD_HEAD], entry: &Listed) -> bool
    ensures { IsTrue result → IsHead head.now entry.now }
{
    let length = BigEndian::read_u32(head);
    let ledger = BigEndian::read_u64(&head[4..]);
    let id = BigEndian::read_u64(&head[12..]);
    u64::from(length) + LENGTH_FIELD as u64 == u64::from(entry.size)
        && ledger == entry.key.ledger()
        && id == entry.key.entry()
}
