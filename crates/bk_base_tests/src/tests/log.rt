//! Logs of bytes written by hand, and large logs.

use bk_disk::{LogDisk, MemDisk, MemView};
use bk_record::{Key, Location};
use std::alloc::Global;
use std::process::Abort;

mod fetches;
mod hostile;
mod large;
mod narrow;
mod runs;
mod scans;
mod texts;
mod writes;

/// Start of the header of a log that is not sealed.
const HEAD: [u8; 8] = *b"BKLO\0\0\0\x01";

/// The payload of entry 0 of ledger 1, with the data `hello`.
const HELLO: [u8; 21] = *b"\0\0\0\0\0\0\0\x01\0\0\0\0\0\0\0\0hello";

const HELLO_RECORD: [u8; 25] = *b"\0\0\0\x15\0\0\0\0\0\0\0\x01\0\0\0\0\0\0\0\0hello";

/// A header with this start and zeros after it, then the given bytes.
fn log_of(rt: &impl Abort, alloc: Global, head: &[u8], behind: &[u8]) -> Vec<u8> {
    let mut bytes = Vec::from_slice(alloc, head).expect(rt, "memory");
    bytes.resize(1024, 0).expect(rt, "memory");
    bytes.extend_from_slice(behind).expect(rt, "memory");
    bytes
}

/// A view of a log of these bytes.
fn view_of(rt: &impl Abort, alloc: Global, bytes: &[u8]) -> MemView {
    let mut disk = MemDisk::new(alloc);
    disk.create(alloc, 0).expect(rt, "a new log");
    disk.append(alloc, 0, bytes).expect(rt, "a longer log");
    disk.view(alloc, 0).expect(rt, "a view")
}

fn key(rt: &impl Abort, ledger: u64, entry: u64) -> Key {
    Key::new(ledger, entry).expect(rt, "ids of an entry")
}

fn place(rt: &impl Abort, at: u32) -> Location {
    Location::pack(0, at).expect(rt, "a place behind a header")
}
