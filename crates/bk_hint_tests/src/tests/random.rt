//! Random lists, written and read again.

use super::writer::Writer;
use super::{listed, unrolled};
use bk_hint::{Contents, LogFacts, decode, encode};
use bk_record::Key;
use std::test::Fail;

#[test]
fn random_lists_are_read_again(rt: HostRuntime) -> Result<(), Fail> {
    let alloc = rt.alloc();
    for seed in 0..300 {
        let mut writer = Writer::new(seed);
        let (contents, entries) = writer.write(alloc, seed as usize)?;
        assert_eq!(rt;
            listed(alloc, &contents)?.as_slice(),
            entries.as_slice(),
            "{seed}"
        );
        assert_eq!(rt; contents.len(), entries.len() as u64);
        let mut bytes: u64 = 0;
        for entry in &entries {
            bytes = bytes.wrapping_add(u64::from(entry.size));
        }
        assert_eq!(rt; contents.record_bytes(), bytes);
        let facts = LogFacts {
            log: seed as u32,
            length: seed << 32,
            checksum: 7,
        };
        let hint = encode(alloc, &contents, &facts)?;
        assert!(rt; hint.len() <= entries.len().saturating_mul(28).saturating_add(36));
        let (read, told) = decode(alloc, &hint)?;
        assert_eq!(rt; told, facts);
        assert_eq!(rt;
            listed(alloc, &read)?.as_slice(),
            entries.as_slice(),
            "{seed}"
        );
        assert_eq!(rt; read.end(), contents.end());
        let again = encode(alloc, &read, &told)?;
        assert_eq!(rt; again.as_slice(), hint.as_slice(), "{seed}");
    }
    Ok(())
}

#[test]
fn runs_and_places_are_those_of_the_entries(rt: HostRuntime) -> Result<(), Fail> {
    let alloc = rt.alloc();
    for seed in 0..100 {
        let mut writer = Writer::new(seed);
        let (contents, _) = writer.write(alloc, seed as usize)?;
        let entries = listed(alloc, &contents)?;
        assert_eq!(rt;
            unrolled(alloc, &contents)?.as_slice(),
            entries.as_slice(),
            "{seed}"
        );
        let mut cursor = contents.cursor();
        let mut place: u64 = 0;
        for entry in contents.iter() {
            assert_eq!(rt; contents.nth(place), Some(entry), "{seed}");
            assert_eq!(rt; cursor.nth(place), Some(entry), "{seed}");
            place = place.wrapping_add(1);
        }
        assert_eq!(rt; contents.nth(place), None);
        assert_eq!(rt; cursor.nth(place), None);
        assert_eq!(rt; cursor.nth(0), contents.nth(0));
        assert_eq!(rt; contents.nth(u64::MAX), None);
    }
    Ok(())
}

#[test]
fn entries_of_one_size_take_few_bytes(rt: HostRuntime) -> Result<(), Fail> {
    let alloc = rt.alloc();
    let mut contents = Contents::new(alloc);
    assert!(rt; contents.is_empty());
    for entry in 0..10_000 {
        let at = 1028 + 1044 * entry;
        let key = Key::new(5, entry).ok_or("key")?;
        assert!(rt; contents.can_push(at, 1044));
        contents.push(key, at, 1044)?;
    }
    assert_eq!(rt; contents.len(), 10_000);
    assert_eq!(rt; contents.record_bytes(), 10_440_000);
    let mut runs = contents.runs();
    assert_eq!(rt; runs.next().ok_or("first run")?.again, 0);
    assert_eq!(rt; runs.next().ok_or("second run")?.again, 9_998);
    assert!(rt; runs.next().is_none());
    let last = contents.nth(9_999).ok_or("last entry")?;
    assert_eq!(rt; last.key.entry(), 9_999);
    assert_eq!(rt; last.at, 1028 + 1044 * 9_999);
    assert_eq!(rt; contents.nth(10_000), None);
    assert!(rt; !contents.is_empty());
    let facts = LogFacts {
        log: 1,
        length: 2,
        checksum: 3,
    };
    assert_eq!(rt; encode(alloc, &contents, &facts)?.len(), 36 + 24 + 8);
    Ok(())
}
