//! Two lists of the items of a full page and a new one.

ghost use Rattle.std.specs.Prelude.{◌≡◌, ◌≤◌, ◌∷◌, ◌++◌, length, insert, IfOk};

use std::alloc::{AllocError, Global};

/// Greatest number of items of a page.
pub(crate) const MOST: usize = 256;

/// Number of items that stay in a page that is split.
pub(crate) const LOWER: usize = 128;

// Copies items into a list that has this much room.
fn copied<T: Copy>(alloc: Global, room: usize, items: &[T]) -> Result<Vec<T>, AllocError>
    ensures { IfOk result (λ copy. copy.items ≡ items.now) }
{
    let mut copy = Vec::with_capacity(alloc, room)?;
    copy.extend_from_slice(items)?;
    Ok(copy)
}

// Copies items, with a new one between, into a list that has this much room.
fn joined<T: Copy>(
    alloc: Global,
    room: usize,
    front: &[T],
    item: T,
    back: &[T],
) -> Result<Vec<T>, AllocError>
    ensures { IfOk result (λ all. all.items ≡ front.now ++ item ∷ back.now) }
{
    let mut all = Vec::with_capacity(alloc, room)?;
    all.extend_from_slice(front)?;
    all.push(item)?;
    all.extend_from_slice(back)?;
    Ok(all)
}

/// Copies the items of a full page, with a new one at its place, into two lists: the first 128,
/// with no room for more, and the other 129, with room for 256.
pub(crate) fn halves<T: Copy>(
    alloc: Global,
    items: &[T],
    place: usize,
    item: T,
) -> Result<(Vec<T>, Vec<T>), AllocError>
    requires full { length items.now ≡ 256 }
    requires within { place ≤ 256 }
    ensures all { IfOk result (λ parts. parts.0.items ++ parts.1.items ≡ insert items.now place item) }
    ensures stay { IfOk result (λ parts. length parts.0.items ≡ 128) }
    ensures behind { IfOk result (λ parts. length parts.1.items ≡ 129) }
{
    if place < LOWER {
        let lower = joined(
            alloc,
            LOWER,
            &items[..place],
            item,
            &items[place..LOWER - 1],
        )?;
        let upper = copied(alloc, MOST, &items[LOWER - 1..])?;
        Ok((lower, upper))
    } else {
        let lower = copied(alloc, LOWER, &items[..LOWER])?;
        let upper = joined(alloc, MOST, &items[LOWER..place], item, &items[place..])?;
        Ok((lower, upper))
    }
}
