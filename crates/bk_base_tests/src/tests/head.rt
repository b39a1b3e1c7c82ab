//! Examples of headers and maps, with bytes written by hand.

ghost use Rattle.std.specs.Prelude.{◌<◌, ◌^◌, length};

use bk_head::{HeadFault, Header, read_map};
use std::alloc::Global;
use std::collections::BTreeMap;
use std::test::Fail;

mod faults;
mod headers;
mod maps;
mod writing;

/// The batch at byte 1049: ledger 1 with a size of 25.
const BATCH: [u8; 40] = [
    0, 0, 0, 36, 255, 255, 255, 255, 255, 255, 255, 255, 255, 255, 255, 255, 255, 255, 255, 254, 0,
    0, 0, 1, 0, 0, 0, 0, 0, 0, 0, 1, 0, 0, 0, 0, 0, 0, 0, 25,
];

/// Reads the map at byte 1049, whose bytes are `tail`.
fn read_behind(
    alloc: Global,
    tail: &[u8],
    count: i32,
) -> Result<Option<BTreeMap<u64, u64>>, HeadFault>
    requires { length tail.now < 2 ^ 32 }
{
    let header = Header {
        version: 1,
        map_offset: 1049,
        count,
    };
    read_map(alloc, tail, 1049 + tail.len() as u64, &header)
}

static TEXTS: [(HeadFault, &str); 8] = [
    (HeadFault::BadMagic, "bad magic"),
    (HeadFault::Version(2), "version 2"),
    (HeadFault::Negative, "negative number"),
    (HeadFault::NotAMap(1049), "not a map 1049"),
    (HeadFault::MapLength(1049), "map length 1049"),
    (HeadFault::Repeated(1), "repeated 1"),
    (HeadFault::CountDiffers(0), "count differs 0"),
    (HeadFault::Memory, "memory"),
];

#[test]
fn faults_have_their_texts(rt: HostRuntime) -> Result<(), Fail> {
    for (fault, text) in &TEXTS {
        assert_eq!(rt; fault.to_string(rt.alloc())?.as_str(), *text);
    }
    Ok(())
}
