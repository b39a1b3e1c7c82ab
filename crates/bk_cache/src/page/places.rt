//! Places of keys among pairs sorted by key.

ghost use Rattle.std.specs.Prelude.{IsTrue, IfOk, IfErr};
ghost use Rattle.std.specs.FinMap.{is_sorted};
ghost use Rattle.bk_record.specs.Key.{key_cmp};
ghost use Rattle.bk_cache.specs.Sorted.{IsAt, IsGapFor};

use super::Pair;
use bk_record::Key;
use std::cmp::Ordering;

/// Returns the place of a key, or the place where it would be inserted. Entries of a ledger mostly
/// have no gaps, so it tries the place that the first key then tells.
#[inline]
pub(super) fn place_of(pairs: &[Pair], key: &Key) -> Result<usize, usize>
    requires { IsTrue (is_sorted key_cmp pairs.now) }
    ensures found { IfOk result (IsAt pairs.now key.now) }
    ensures absent { IfErr result (IsGapFor pairs.now key.now) }
{
    let place = guessed(pairs, key);
    if has_at(pairs, key, place) {
        return Ok(place);
    }
    pairs.binary_search_by_key(key, |(held, _)| *held)
}

/// Same as `place_of`, but tries the place `near` first.
pub(super) fn place_near(pairs: &[Pair], key: &Key, near: usize) -> Result<usize, usize>
    requires { IsTrue (is_sorted key_cmp pairs.now) }
    ensures found { IfOk result (IsAt pairs.now key.now) }
    ensures absent { IfErr result (IsGapFor pairs.now key.now) }
{
    if has_at(pairs, key, near) {
        return Ok(near);
    }
    place_of(pairs, key)
}

/// Same as `place_of`, for a key to be inserted. Keys mostly rise, so it tries the end first.
#[inline]
pub(super) fn place_for(pairs: &[Pair], key: &Key) -> Result<usize, usize>
    requires { IsTrue (is_sorted key_cmp pairs.now) }
    ensures found { IfOk result (IsAt pairs.now key.now) }
    ensures absent { IfErr result (IsGapFor pairs.now key.now) }
{
    let count = pairs.len();
    if count > 0 && pairs[count - 1].0 < *key {
        return Err(count);
    }
    place_of(pairs, key)
}

// Whether the pair at this place has the key.
#[inline]
fn has_at(pairs: &[Pair], key: &Key, place: usize) -> bool
    ensures { IsTrue result → IsAt pairs.now key.now place }
{
    let Some(pair) = pairs.get(place) else {
        return false;
    };
    matches!(pair.0.cmp(key), Ordering::Equal)
}

// The place of a key if no entry is missing between the first one and it.
#[inline]
fn guessed(pairs: &[Pair], key: &Key) -> usize {
    match pairs.first() {
        Some((first, _)) => key.entry().saturating_sub(first.entry()) as usize,
        None => 0,
    }
}
