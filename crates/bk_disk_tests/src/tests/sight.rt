//! What is to be found in a real directory.

use super::change::path_in;
use std::os::unix::fs::MetadataExt;
use std::{fs, io, process};

/// What is to be found in a directory. Names are those in it.
#[derive(Clone, Copy)]
pub(super) enum Sight {
    /// A file has these bytes and no more.
    Has(&'static str, &'static [u8]),
    /// A file has these bytes from a position on.
    HasAt(&'static str, usize, &'static [u8]),
    /// A file has a number of equal bytes and no more: name, byte, number.
    Filled(&'static str, u8, usize),
    /// A file has the number of this process and a line feed.
    HasProcess(&'static str),
    /// Nothing has a name.
    Gone(&'static str),
    /// The directory has so many names, without `writer.lock`.
    Names(usize),
}

/// Returns whether a directory is so.
pub(super) fn is_seen(rt: &HostRuntime, folder: &str, sight: Sight) -> io::Result<bool> {
    match sight {
        Sight::Has(name, bytes) => has(rt, folder, name, bytes),
        Sight::HasAt(name, at, bytes) => has_at(rt, folder, name, at, bytes),
        Sight::Filled(name, byte, n) => is_filled(rt, folder, name, byte, n),
        Sight::HasProcess(name) => has_process(rt, folder, name),
        Sight::Gone(name) => is_gone(rt, folder, name),
        Sight::Names(count) => Ok(names(rt, folder)? == count),
    }
}

// Returns the bytes of a file.
fn bytes_of(rt: &HostRuntime, folder: &str, name: &str) -> io::Result<Vec<u8>> {
    fs::read(rt, path_in(rt, folder, name)?.as_str())
}

fn has(rt: &HostRuntime, folder: &str, name: &str, bytes: &[u8]) -> io::Result<bool> {
    Ok(bytes_of(rt, folder, name)?.as_slice() == bytes)
}

fn has_at(rt: &HostRuntime, folder: &str, name: &str, at: usize, bytes: &[u8]) -> io::Result<bool> {
    match bytes_of(rt, folder, name)?.get(at..) {
        Some(rest) => Ok(rest.starts_with(bytes)),
        None => Ok(false),
    }
}

fn is_filled(rt: &HostRuntime, folder: &str, name: &str, byte: u8, n: usize) -> io::Result<bool> {
    let found = bytes_of(rt, folder, name)?;
    Ok(found.len() == n && found.iter().all(|one| *one == byte))
}

fn has_process(rt: &HostRuntime, folder: &str, name: &str) -> io::Result<bool> {
    let number = format!(in rt.alloc(); "{}\n", process::id(rt.process()))?;
    has(rt, folder, name, number.as_bytes())
}

fn is_gone(rt: &HostRuntime, folder: &str, name: &str) -> io::Result<bool> {
    match fs::symlink_metadata(rt, path_in(rt, folder, name)?.as_str()) {
        Ok(_) => Ok(false),
        Err(reason) => Ok(reason.kind() == io::ErrorKind::NotFound),
    }
}

/// Returns the inode of the file of a name.
pub(super) fn inode_of(rt: &HostRuntime, folder: &str, name: &str) -> io::Result<u64> {
    Ok(fs::symlink_metadata(rt, path_in(rt, folder, name)?.as_str())?.ino())
}

// Returns the number of the names in a directory, without that of the lock.
fn names(rt: &HostRuntime, folder: &str) -> io::Result<usize> {
    let mut count = 0usize;
    for entry in fs::read_dir(rt, folder)? {
        if entry?.file_name() != "writer.lock" {
            count = count.saturating_add(1);
        }
    }
    Ok(count)
}
