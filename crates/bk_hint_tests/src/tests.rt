//! Reference bytes, made by a program that shares no code with these crates; random lists; and
//! damaged hints.

mod damage;
mod random;
mod reference;
mod writer;

use bk_hint::{Contents, Listed};
use bk_record::Key;
use std::alloc::{AllocError, Global};
use std::test::Fail;

/// Returns the entries as a list.
fn listed(alloc: Global, contents: &Contents) -> Result<Vec<Listed>, AllocError> {
    let mut entries = Vec::new(alloc);
    for entry in contents.iter() {
        entries.push(entry)?;
    }
    Ok(entries)
}

/// Returns the entries of the runs as a list.
fn unrolled(alloc: Global, contents: &Contents) -> Result<Vec<Listed>, Fail> {
    let mut entries = Vec::new(alloc);
    for run in contents.runs() {
        let mut id = run.first.key.entry();
        let mut at = run.first.at;
        let size = run.first.size;
        for _ in 0..=run.again {
            let key = Key::new(run.first.key.ledger(), id).ok_or("key")?;
            entries.push(Listed { key, at, size })?;
            id = id.wrapping_add(1);
            at = at.wrapping_add(u64::from(size));
        }
    }
    Ok(entries)
}
