//! What somebody else does to a real directory.

use std::alloc::AllocError;
use std::fs::{self, OpenOptions};
use std::io::{self, Write};
use std::os::unix::fs::symlink;

/// What somebody else does to a directory. Names are those in it.
#[derive(Clone, Copy)]
pub(super) enum Change {
    /// Writes a file.
    Write(&'static str, &'static [u8]),
    /// Writes a file of a number of equal bytes: name, byte, number.
    Fill(&'static str, u8, usize),
    /// Writes a file of a length that has bytes at 20: name, bytes, length.
    Marked(&'static str, &'static [u8], usize),
    /// Writes at the end of a file.
    Grow(&'static str, &'static [u8]),
    /// Cuts a file to a length.
    Cut(&'static str, u64),
    /// Makes a link: name, target.
    Link(&'static str, &'static str),
    /// Gives a file a second name: name, file.
    Twin(&'static str, &'static str),
    /// Makes a directory; the directory itself if the name is empty.
    Directory(&'static str),
    /// Renames a file: old name, new name.
    Rename(&'static str, &'static str),
    /// Removes a file.
    Remove(&'static str),
    /// Removes a directory with all that is in it.
    RemoveAll(&'static str),
}

/// Returns the path of a name in a directory.
pub(super) fn path_in(rt: &HostRuntime, folder: &str, name: &str) -> Result<String, AllocError> {
    format!(in rt.alloc(); "{folder}/{name}")
}

/// Changes a directory.
pub(super) fn do_change(rt: &HostRuntime, folder: &str, change: Change) -> io::Result<()> {
    match change {
        Change::Write(name, bytes) => write(rt, folder, name, bytes),
        Change::Fill(name, byte, n) => fill(rt, folder, name, byte, n),
        Change::Marked(name, at_20, length) => marked(rt, folder, name, at_20, length),
        Change::Grow(name, bytes) => grow(rt, folder, name, bytes),
        Change::Cut(name, length) => cut(rt, folder, name, length),
        Change::Link(name, target) => link(rt, folder, name, target),
        Change::Twin(name, of) => twin(rt, folder, name, of),
        Change::Directory(name) => fs::create_dir(rt, path_in(rt, folder, name)?.as_str()),
        Change::Remove(name) => fs::remove_file(rt, path_in(rt, folder, name)?.as_str()),
        Change::RemoveAll(name) => fs::remove_dir_all(rt, path_in(rt, folder, name)?.as_str()),
        Change::Rename(from, to) => rename(rt, folder, from, to),
    }
}

fn write(rt: &HostRuntime, folder: &str, name: &str, bytes: &[u8]) -> io::Result<()> {
    fs::write(rt, path_in(rt, folder, name)?.as_str(), bytes)
}

fn fill(rt: &HostRuntime, folder: &str, name: &str, byte: u8, n: usize) -> io::Result<()> {
    let bytes = vec![in rt.alloc(); byte; n]?;
    write(rt, folder, name, &bytes)
}

fn marked(
    rt: &HostRuntime,
    folder: &str,
    name: &str,
    at_20: &[u8],
    length: usize,
) -> io::Result<()> {
    let mut file = vec![in rt.alloc(); 7u8; 20]?;
    file.extend_from_slice(at_20)?;
    file.resize(length, 9)?;
    write(rt, folder, name, &file)
}

fn grow(rt: &HostRuntime, folder: &str, name: &str, bytes: &[u8]) -> io::Result<()> {
    OpenOptions::new()
        .append(true)
        .open(rt, path_in(rt, folder, name)?.as_str())?
        .write_all(bytes)
}

fn cut(rt: &HostRuntime, folder: &str, name: &str, length: u64) -> io::Result<()> {
    OpenOptions::new()
        .write(true)
        .open(rt, path_in(rt, folder, name)?.as_str())?
        .set_len(length)
}

fn link(rt: &HostRuntime, folder: &str, name: &str, target: &str) -> io::Result<()> {
    symlink(rt, target, path_in(rt, folder, name)?.as_str())
}

fn twin(rt: &HostRuntime, folder: &str, name: &str, of: &str) -> io::Result<()> {
    let file = path_in(rt, folder, of)?;
    fs::hard_link(rt, file.as_str(), path_in(rt, folder, name)?.as_str())
}

fn rename(rt: &HostRuntime, folder: &str, from: &str, to: &str) -> io::Result<()> {
    let old = path_in(rt, folder, from)?;
    fs::rename(rt, old.as_str(), path_in(rt, folder, to)?.as_str())
}
