//! Tests of what no clause states: that calls answer at all, and what concurrent threads do.
//!
//! A bookie is used in a function over its ledger. A test calls it with std's `Brand` and a blank
//! ledger, and the proof of the call says what `Brand` stands for.
//!
//! Each call of a bookie is made in a function of `calls` without a contract, which keeps the
//! proofs of the tests small.

ghost use Rattle.std.specs.Prelude.{◌≡◌, ◌+◌, true};

use bk_bookie::{AddLedger, Bookie};
use bk_disk::MemDisk;
use bk_record::Key;
use bk_store::{Mark, Receipt, Settings};
use std::alloc::Global;
use std::process::Abort;
use std::sync::ledger::Blank;

mod callers;
mod calls;
mod durable;
mod fencing;
mod leases;
mod many;
mod refused;
mod strangers;
mod working;

/// Settings of these tests.
const SETTINGS: Settings = Settings {
    log_limit: 1_048_576,
    cache_limit: 16_777_216,
    recent: 0,
    slots: 64,
    leases: 1000,
    minor: 200,
    major: 800,
};

/// Returns the payload of an entry with one byte of data.
fn payload(ledger: u8, entry: u16, data: u8) -> [u8; 17] {
    let [high, low] = entry.to_be_bytes();
    let mut payload = [0; 17];
    payload[7] = ledger;
    payload[14] = high;
    payload[15] = low;
    payload[16] = data;
    payload
}

/// Returns the key of an entry.
fn key<R: Abort>(rt: &R, ledger: u8, entry: u16) -> Key {
    Key::new(u64::from(ledger), u64::from(entry)).expect(rt, "a key")
}

/// Returns the mark of a receipt.
fn mark_of(receipt: &Receipt) -> Mark {
    Mark::Add {
        key: receipt.key,
        digest: receipt.digest,
    }
}

/// Returns the receipt with number 100.
fn beyond(receipt: &Receipt) -> Receipt {
    Receipt {
        number: 100,
        key: receipt.key,
        digest: receipt.digest,
    }
}

/// Returns the receipt with another digest.
fn with_other_digest(receipt: &Receipt) -> Receipt {
    Receipt {
        number: receipt.number,
        key: receipt.key,
        digest: [7; 32],
    }
}

/// Opens a bookie with N passes over an empty disk in memory.
fn open<L: AddLedger, R: Abort>(
    rt: &R,
    alloc: Global,
    blank: Blank,
    passes: u32,
    settings: Settings,
    dead: &[u64],
) -> Bookie<L, MemDisk>
    requires name { blank.name ≡ L.name }
    requires parts { blank.parts ≡ L.parts }
    requires each { blank.parts ≡ passes + 1 }
    requires honest { L.honest ≡ true }
{
    match Bookie::open(alloc, blank, passes, MemDisk::new(alloc), settings, dead) {
        Ok(bookie) => bookie,
        Err(_) => panic!(rt; "not opened"),
    }
}
