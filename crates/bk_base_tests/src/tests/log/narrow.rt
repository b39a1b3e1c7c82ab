//! Records longer than a read: scans of a view that refuses every read of more than 65,536 bytes.

use super::{HEAD, key, log_of, view_of};
use bk_disk::{DiskFault, LogView, MemView};
use bk_log::{Found, Scanner};
use std::alloc::Global;
use std::process::Abort;

/// Greatest number of bytes that are read at once.
const MOST: usize = 65_536;

/// A view that fails if more bytes are read at once.
#[derive(Drop)]
struct Narrow {
    whole: MemView,
}

impl LogView for Narrow {
    ghost use Rattle.std.specs.Prelude.{false, []};

    ghost bytes = { λ _. [] };

    ghost honest = { λ _. false };

    ghost sound = { λ _. false };

    fn bounds(&self) {}

    fn end(&self) -> u64 {
        self.whole.end()
    }

    fn read_into(&self, at: u64, out: &mut [u8]) -> Result<(), DiskFault> {
        if out.len() > MOST {
            return Err(DiskFault::Disk);
        }
        self.whole.read_into(at, out)
    }
}

/// The number of bytes of data of each entry of ledger 1, and position and size of each.
type Case = (&'static [u32], &'static [(u64, u32)]);

/// A record of 65,534 bytes, behind which a length field is cut by the first window's end; and one
/// of 1,048,580 bytes.
static CASES: [Case; 2] = [
    (&[65_514, 1], &[(1028, 65_534), (66_562, 21)]),
    (&[1_048_560], &[(1028, 1_048_580)]),
];

/// Appends the record of an entry.
fn append(rt: &impl Abort, bytes: &mut Vec<u8>, entry: u64, data: u32) {
    let length = data.saturating_add(16).to_be_bytes();
    for part in &[length.as_slice(), &1u64.to_be_bytes(), &entry.to_be_bytes()] {
        bytes.extend_from_slice(part).expect(rt, "memory");
    }
    let end = bytes.len().saturating_add(data as usize);
    bytes.resize(end, b'x').expect(rt, "memory");
}

/// A log of entries with these bytes of data.
fn log_with(rt: &impl Abort, alloc: Global, data: &[u32]) -> Vec<u8> {
    let mut bytes = log_of(rt, alloc, &HEAD, &[]);
    for (entry, length) in data.iter().enumerate() {
        append(rt, &mut bytes, entry as u64, *length);
    }
    bytes
}

/// A scan gives these entries and no more, and nothing is torn.
fn check<V: LogView>(rt: &impl Abort, alloc: Global, view: &V, founds: &[(u64, u32)]) {
    let mut scanner = Scanner::new(view, alloc, 1024, view.end().max(1024));
    for (entry, (at, size)) in founds.iter().enumerate() {
        let found = Found {
            key: key(rt, 1, entry as u64),
            at: *at,
            size: *size,
        };
        assert_eq!(rt; scanner.next(), Ok(Some(found)), "{entry}");
    }
    assert_eq!(rt; scanner.next(), Ok(None));
    assert_eq!(rt; (scanner.torn(), scanner.foreign()), (0, 0));
}

#[test]
fn records_longer_than_a_read_are_found(rt: HostRuntime) {
    let alloc = rt.alloc();
    for (data, founds) in &CASES {
        let whole = view_of(&rt, alloc, &log_with(&rt, alloc, data));
        check(&rt, alloc, &whole, founds);
        check(&rt, alloc, &Narrow { whole }, founds);
    }
}
