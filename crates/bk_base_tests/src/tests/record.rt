//! Examples with bytes and numbers written by hand.

ghost use Rattle.std.specs.Prelude.{◌≡◌, ◌≤◌, length, IfOk};
ghost use Rattle.bk_record.specs.Record.{IsPayload};

use bk_record::{Key, Location, Piece, RecordFault, check_add, key_of, read_record, write_record};
use std::alloc::{AllocError, Global};
use std::cmp::Ordering;
use std::test::Fail;

/// The record of entry 0 of ledger 1 with the data `hello`.
const HELLO: [u8; 25] = [
    0, 0, 0, 0x15, 0, 0, 0, 0, 0, 0, 0, 1, 0, 0, 0, 0, 0, 0, 0, 0, 0x68, 0x65, 0x6c, 0x6c, 0x6f,
];

/// A record without a key: its ids are -1 and -2.
const FOREIGN: [u8; 20] = [
    0, 0, 0, 0x10, 0xff, 0xff, 0xff, 0xff, 0xff, 0xff, 0xff, 0xff, 0xff, 0xff, 0xff, 0xff, 0xff,
    0xff, 0xff, 0xfe,
];

#[test]
fn ids_end_at_2_to_63(rt: HostRuntime) -> Result<(), Fail> {
    let last = Key::new(9_223_372_036_854_775_807, 5).ok_or("the last ledger")?;
    assert_eq!(rt; last.ledger(), 9_223_372_036_854_775_807);
    assert_eq!(rt; last.entry(), 5);
    assert_eq!(rt; Key::new(9_223_372_036_854_775_808, 0), None);
    assert_eq!(rt; Key::new(0, 9_223_372_036_854_775_808), None);
    Ok(())
}

#[test]
fn a_location_is_the_log_and_the_payload_behind_its_length(rt: HostRuntime) -> Result<(), Fail> {
    let location = Location::pack(1, 1028).ok_or("the first place of log 1")?;
    assert_eq!(rt; location.log(), 1);
    assert_eq!(rt; location.at(), 1028);
    assert_eq!(rt; location.value(), 4_294_968_324);
    assert_eq!(rt; Location::pack(0, 1027), None);
    assert_eq!(rt; Location::pack(2_147_483_648, 1028), None);
    let last = Location::pack(2_147_483_647, 4_294_967_295).ok_or("the last place")?;
    assert_eq!(rt; last.value(), 9_223_372_036_854_775_807);
    Ok(())
}

/// Two keys, and their order.
static ORDERED: [((u64, u64), (u64, u64), Ordering); 4] = [
    ((1, 5), (2, 0), Ordering::Less),
    ((2, 0), (1, 5), Ordering::Greater),
    ((2, 3), (2, 4), Ordering::Less),
    ((2, 4), (2, 4), Ordering::Equal),
];

#[test]
fn keys_are_ordered_by_ledger_then_entry(rt: HostRuntime) -> Result<(), Fail> {
    for (first, second, order) in &ORDERED {
        let first = Key::new(first.0, first.1).ok_or("the first key")?;
        let second = Key::new(second.0, second.1).ok_or("the second key")?;
        assert_eq!(rt; first.cmp(&second), *order);
    }
    Ok(())
}

/// The length of a payload, the byte that it repeats, and the fault.
static REFUSED: [(usize, u8, Option<RecordFault>); 7] = [
    (0, 0, Some(RecordFault::Short(0))),
    (15, 0xff, Some(RecordFault::Short(15))),
    (16, 0xff, Some(RecordFault::Negative)),
    (16, 0, None),
    (5_000_000, 0x7f, None),
    (5_000_001, 0x7f, Some(RecordFault::TooLong(5_000_001))),
    (5_000_001, 0xff, Some(RecordFault::Negative)),
];

#[test]
fn a_payload_is_refused_by_its_length_and_its_ids(rt: HostRuntime) -> Result<(), Fail> {
    for (length, byte, fault) in &REFUSED {
        let payload = vec![in rt.alloc(); *byte; *length]?;
        assert_eq!(rt; check_add(&payload).err(), *fault, "{length} {byte}");
    }
    assert_eq!(rt; key_of(&HELLO[4..]).ok(), Key::new(1, 0));
    assert_eq!(rt; check_add(&HELLO[4..]).ok(), Key::new(1, 0));
    Ok(())
}

/// Holds too if the one allocation of `write_record` is refused: `out` is then unchanged.
#[test]
fn a_record_is_its_length_and_its_payload(rt: HostRuntime) -> Result<(), Fail> {
    let mut out = vec![in rt.alloc(); 7; 3]?;
    let written = write_record(&HELLO[4..], &mut out);
    if written == Err(RecordFault::Memory) {
        assert_eq!(rt; out.as_slice(), [7, 7, 7].as_slice());
    }
    written?;
    assert_eq!(rt; out.len(), 28);
    assert_eq!(rt; &out[3..], HELLO.as_slice());
    Ok(())
}

/// Bytes with a length at byte 2, and the length.
static BAD: [([u8; 6], i32); 4] = [
    ([9, 9, 0, 0, 0, 7], 7),
    ([9, 9, 0, 0, 0, 15], 15),
    ([9, 9, 0xff, 0xff, 0xff, 0xff], -1),
    ([9, 9, 0x80, 0, 0, 0], -2_147_483_648),
];

#[test]
fn pieces_of_a_log(rt: HostRuntime) {
    assert_eq!(rt; read_record(&HELLO, 0), Piece::Whole { from: 4, to: 25 });
    assert_eq!(rt; read_record(&HELLO, 25), Piece::End);
    assert_eq!(rt; read_record(&FOREIGN, 0), Piece::Foreign { to: 20 });
    assert_eq!(rt; read_record(&HELLO, 24), Piece::Torn { rest: 1 });
    assert_eq!(rt; read_record(&HELLO[..10], 0), Piece::Torn { rest: 10 });
    assert_eq!(rt; read_record(&HELLO[..24], 0), Piece::Torn { rest: 24 });
    for (bytes, length) in &BAD {
        assert_eq!(rt;
            read_record(bytes, 2),
            Piece::Bad {
                at: 2,
                length: *length
            }
        );
    }
    assert_eq!(rt; read_record(&[0, 0, 0, 16], 0), Piece::Torn { rest: 4 });
    assert_eq!(rt;
        read_record(&[0x7f, 0xff, 0xff, 0xff], 0),
        Piece::Torn { rest: 4 }
    );
}

/// A payload of `size` bytes whose ids are 2^63 - 1.
fn payload_of(alloc: Global, size: usize) -> Result<Vec<u8>, AllocError>
    requires { 16 ≤ size }
    ensures { IfOk result (λ payload. length payload.items ≡ size) }
{
    let mut payload = vec![in alloc; 0xff; size]?;
    payload[0] = 0x7f;
    payload[8] = 0x7f;
    Ok(payload)
}

/// Appends `times` records of the payload.
fn write_many(payload: &[u8], times: u32, log: &mut Vec<u8>) -> Result<(), RecordFault>
    requires { IsPayload payload.now }
{
    for _ in 0..times {
        write_record(payload, log)?;
    }
    Ok(())
}

/// Number of records with a key, one after another, at most `most`, and the end of the last one.
fn whole_records(log: &[u8], most: u32) -> (u32, usize) {
    let mut at = 0;
    for count in 0..most {
        if at > log.len() {
            return (count, at);
        }
        match read_record(log, at) {
            Piece::Whole { to, .. } => at = to,
            _ => return (count, at),
        }
    }
    (most, at)
}

/// A record of 2 MiB with the largest ids, and 5,000 small ones after it.
#[test]
fn large_and_many_records_are_read_again(rt: HostRuntime) -> Result<(), Fail> {
    let large = payload_of(rt.alloc(), 2_097_152)?;
    let small = payload_of(rt.alloc(), 18)?;
    let last = Key::new(9_223_372_036_854_775_807, 9_223_372_036_854_775_807);
    assert_eq!(rt; key_of(&large).ok(), last);
    let mut log = Vec::new(rt.alloc());
    write_many(&large, 1, &mut log)?;
    write_many(&small, 5_000, &mut log)?;
    assert_eq!(rt; log.len(), 2_207_156);
    assert_eq!(rt; whole_records(&log, 9_999), (5_001, 2_207_156));
    Ok(())
}

/// Faults, and their texts.
static TEXTS: [(RecordFault, &str); 4] = [
    (RecordFault::Short(15), "short 15"),
    (RecordFault::Negative, "negative number"),
    (RecordFault::TooLong(5_000_001), "too long 5000001"),
    (RecordFault::Memory, "memory"),
];

#[test]
fn faults_as_texts(rt: HostRuntime) -> Result<(), Fail> {
    for (fault, text) in &TEXTS {
        let shown = format!(in rt.alloc(); "{fault}")?;
        assert_eq!(rt; shown.as_str(), *text);
    }
    Ok(())
}
