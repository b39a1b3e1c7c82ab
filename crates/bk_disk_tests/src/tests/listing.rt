//! A disk made of a list of files.

ghost use Rattle.std.specs.Prelude.{◌<◌, ◌^◌, length};

use bk_disk::MemDisk;
use std::alloc::{AllocError, Global};

// A disk of log 1 and log 0, in this order.
pub(super) fn two_files(alloc: Global, one: &[u8], zero: &[u8]) -> Result<MemDisk, AllocError>
    requires one { length one.now < 2 ^ 32 }
    requires zero { length zero.now < 2 ^ 32 }
{
    let mut files = Vec::new(alloc);
    files.push((1, Vec::from_slice(alloc, one)?))?;
    files.push((0, Vec::from_slice(alloc, zero)?))?;
    MemDisk::of(alloc, files)
}
