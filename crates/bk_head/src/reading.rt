//! Parsing of the ledgers map: batch by batch from the left, so that the error is the first one.

ghost use Rattle.std.specs.Prelude.{◌≡◌, ◌+◌, ◌*◌, ◌<◌, ◌≤◌, ◌^◌, ℕ, List, Option, Result, length, take, drop, min};
ghost use Rattle.std.specs.Prelude.{OnOk, IfOk, IfErr, IfSome, MatchOption, MatchResult};
ghost use Rattle.std.specs.FinMap as ledgers;
ghost use Rattle.bk_head.specs.declared.fault.HeadFault.{HeadFault as Fault};
ghost use Rattle.bk_head.specs.Ledgers.{LedgersMap, map_of, SpellsMap, IsPair, ledgers_of, AreDistinct};
ghost use Rattle.bk_head.specs.Faults.{HasNoBatch, HasPairs, PairFault, FaultAt, FirstFault, ReachesNew, AsksForMemory, OrMemory};
ghost use Rattle.bk_head.specs.Reading.{MapAnswer, WantsMemory, UnlessMemory, answer_value, IsTail, map_place};
ghost use Rattle.bk_head.specs.Parts.{AddsPairs, IsFrontOf, IsSizedBatch, PairRefusal};

use crate::batch::{BATCH_HEAD, IDS_AND_COUNT, PAIR, batch_ids};
use crate::{HeadFault, Header};
use bk_record::{HEADER_LENGTH, IDS_LENGTH, LENGTH_FIELD, MAX_PAYLOAD, RECORD_HEAD};
use byteorder::{BigEndian, ByteOrder};
use std::alloc::Global;
use std::collections::BTreeMap;

/// Parses the ledgers map of a log of `length` bytes whose header was read.
///
/// `tail` is the log from the map's offset to its end; if the offset is not from 1024 to `length`,
/// it can be anything. Returns `None` if offset and count are both 0. Pairs can be in any order, in
/// batches of any size (project rule).
///
/// # Errors
///
/// In this order (project rules):
///
/// - `Negative` if offset or count is negative.
/// - `NotAMap` with the offset, if it is not from 1024 to `length`.
/// - per batch, with the position of its length field in the log: `NotAMap` if no whole record with
///   the ids -1 and -2 is there, `MapLength` if its length does not fit its number of pairs.
/// - per pair of that batch: `Negative` if ledger or size is negative, `Repeated` with the ledger,
///   if the map has it, `Memory` if the map cannot grow. So `Memory` hides no error further
///   left.
/// - `CountDiffers` with the number of ledgers found, if it is not the header's count.
pub fn read_map(
    alloc: Global,
    tail: &[u8],
    length: u64,
    header: &Header,
) -> Result<Option<BTreeMap<u64, u64>>, HeadFault>
    requires { IsTail tail.now length header.now.map_offset }
    ensures answer { UnlessMemory (answer_value result) (WantsMemory tail.now length header.now)
        (MapAnswer tail.now length header.now (answer_value result)) }
    ensures only { (answer : Result (Option LedgersMap) Fault)
        → MapAnswer tail.now length header.now answer → UnlessMemory (answer_value result) (Unit {0}) (answer_value result ≡ answer) }
{
    let Some((offset, count)) = place_of_map(length, header)? else {
        return Ok(None);
    };
    let map = read_batches(alloc, tail, offset)?;
    let found = map.len() as u64;
    if found != count {
        return Err(HeadFault::CountDiffers(found));
    }
    Ok(Some(map))
}

/// Returns offset and number of ledgers of the map in a log of `length` bytes, or `None` if both
/// are 0, as in a log that is not sealed.
///
/// # Errors
///
/// In this order:
///
/// - `Negative` if one of them is negative.
/// - `NotAMap` with the offset, if it is not from 1024 to `length`.
pub fn place_of_map(length: u64, header: &Header) -> Result<Option<(u64, u64)>, HeadFault>
    ensures { result ≡ map_place length header.now.map_offset header.now.count }
{
    if header.map_offset < 0 || header.count < 0 {
        return Err(HeadFault::Negative);
    }
    let offset = header.map_offset as u64;
    let count = header.count as u64;
    if offset == 0 && count == 0 {
        return Ok(None);
    }
    if offset < HEADER_LENGTH as u64 || offset > length {
        return Err(HeadFault::NotAMap(offset));
    }
    Ok(Some((offset, count)))
}

/// Parses the map whose bytes begin at the offset in the log. Errors as for `read_map`.
fn read_batches(alloc: Global, tail: &[u8], offset: u64) -> Result<BTreeMap<u64, u64>, HeadFault>
    requires { offset + length tail.now < 2 ^ 64 }
    ensures ok { IfOk result (λ map. SpellsMap tail.now (map_of map)) }
    ensures err { IfErr result (λ fault. OrMemory fault (AsksForMemory tail.now) (FirstFault offset tail.now fault)) }
{
    let mut map = BTreeMap::new(alloc);
    let mut at = 0;
    while at < tail.len() {
        let pairs = pairs_at(&tail[at..], offset + at as u64)?;
        add_pairs(pairs, &mut map)?;
        at += LENGTH_FIELD + IDS_AND_COUNT + pairs.len();
    }
    Ok(map)
}

/// Returns the bytes of the pairs of the batch at position `at` of the log.
fn pairs_at(bytes: &[u8], at: u64) -> Result<&[u8], HeadFault>
    requires { 0 < length bytes.now }
    ensures ok { IfOk result (λ pairs. HasPairs bytes.now pairs.now) }
    ensures err { IfErr result (λ fault. (before : List (ℕ × ℕ)) → FaultAt at before bytes.now fault) }
{
    let head = &bytes[..BATCH_HEAD.min(bytes.len())];
    let count = pairs_in_batch(head, at, bytes.len() as u64)? as usize;
    Ok(&bytes[BATCH_HEAD..BATCH_HEAD + PAIR * count])
}

/// Returns the number of pairs of the batch at position `at` of a log, of which `left` bytes are
/// left.
///
/// `head` are the first 24 of these bytes, or all if fewer, so a map can be read that does not fit
/// in memory.
///
/// # Errors
///
/// In this order, with the position `at`:
///
/// - `NotAMap` if no whole record with the ids -1 and -2 is there.
/// - `MapLength` if its length does not fit its number of pairs.
pub fn pairs_in_batch(head: &[u8], at: u64, left: u64) -> Result<u32, HeadFault>
    requires some { 0 < left }
    requires shown { length head.now ≡ min BATCH_HEAD left }
    ensures fits { IfOk result (λ count. BATCH_HEAD + PAIR * count ≤ left) }
    ensures ok { IfOk result (λ count. (bytes : List ℕ) → IsFrontOf head.now left bytes
        → HasPairs bytes (take (PAIR * count) (drop BATCH_HEAD bytes))) }
    ensures err { IfErr result (λ fault. (bytes : List ℕ) → IsFrontOf head.now left bytes
        → (before : List (ℕ × ℕ)) → FaultAt at before bytes fault) }
{
    let Some(size) = batch_size(head, left) else {
        return Err(HeadFault::NotAMap(at));
    };
    if size < IDS_AND_COUNT {
        return Err(HeadFault::MapLength(at));
    }
    let count = BigEndian::read_u32(&head[RECORD_HEAD..]);
    if size - IDS_AND_COUNT != PAIR * count as usize {
        return Err(HeadFault::MapLength(at));
    }
    Ok(count)
}

/// Returns the payload length of the whole batch record that begins here, or `None` if there is
/// none.
fn batch_size(head: &[u8], left: u64) -> Option<usize>
    requires shown { length head.now ≡ min BATCH_HEAD left }
    ensures within { IfSome result (λ size. LENGTH_FIELD + size ≤ left) }
    ensures size { MatchOption result ((bytes : List ℕ) → IsFrontOf head.now left bytes → HasNoBatch bytes)
        (λ size. (bytes : List ℕ) → IsFrontOf head.now left bytes → IsSizedBatch size bytes) }
{
    if left < RECORD_HEAD as u64 {
        return None;
    }
    let size = BigEndian::read_u32(head) as usize;
    if size < IDS_LENGTH || size > MAX_PAYLOAD || left - (LENGTH_FIELD as u64) < size as u64 {
        return None;
    }
    if !head[LENGTH_FIELD..].starts_with(&batch_ids()) {
        return None;
    }
    Some(size)
}

/// Adds the pairs of these bytes, 16 each, to a map that has the pairs before them.
///
/// # Errors
///
/// Those of the first pair that cannot be added, in this order; the map may then have some of the
/// pairs:
///
/// - `Negative` if its ledger or its size is negative.
/// - `Repeated` with the ledger, if the map has it.
/// - `Memory` if the map cannot grow.
pub fn add_pairs(bytes: &[u8], map: &mut BTreeMap<u64, u64>) -> Result<(), HeadFault>
    requires { (count : ℕ) × (length bytes.now ≡ 16 * count) }
    ensures { (before : List (ℕ × ℕ))
        → AreDistinct (ledgers_of before) → map_of map.old ≡ ledgers.from_entries before
        → MatchResult result (λ _. AddsPairs before bytes.now (map_of map.new))
        (λ fault. OrMemory fault (ReachesNew before bytes.now) (PairFault before bytes.now fault)) }
{
    for k in 0..bytes.len() / PAIR {
        let pair = &bytes[PAIR * k..PAIR * k + PAIR];
        add_pair(
            BigEndian::read_u64(pair),
            BigEndian::read_u64(&pair[8..]),
            map,
        )?;
    }
    Ok(())
}

/// Adds one pair. After an error the map is not used again.
fn add_pair(ledger: u64, size: u64, map: &mut BTreeMap<u64, u64>) -> Result<(), HeadFault>
    ensures pair { OnOk result (IsPair (ledger, size)) }
    ensures new { OnOk result (ledgers.get (map_of map.old) ledger ≡ None) }
    ensures added { OnOk result (map_of map.new ≡ ledgers.insert (map_of map.old) ledger size) }
    ensures err { IfErr result (λ fault. OrMemory fault (IsPair (ledger, size) × (ledgers.get (map_of map.old) ledger ≡ None))
        (PairRefusal (map_of map.old) (ledger, size) fault)) }
{
    if ledger >> 63 != 0 || size >> 63 != 0 {
        return Err(HeadFault::Negative);
    }
    match map.insert(ledger, size) {
        Ok(None) => Ok(()),
        Ok(Some(_)) => Err(HeadFault::Repeated(ledger)),
        Err(_) => Err(HeadFault::Memory),
    }
}
