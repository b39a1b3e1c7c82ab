//! Headers, byte by byte.

use bk_head::{HeadFault, Header, new_header, patch_bytes, place_of_map, read_header};
use std::process::Abort;
use std::test::Fail;

#[test]
fn sealed_header_is_read(rt: HostRuntime) -> Result<(), Fail> {
    let mut bytes = [0; 1024];
    bytes[..20].copy_from_slice(&[
        66, 75, 76, 79, 0, 0, 0, 1, 0, 0, 0, 0, 0, 0, 4, 25, 0, 0, 0, 1,
    ]);
    let header = read_header(&bytes)?;
    assert_eq!(rt;
        header,
        Header {
            version: 1,
            map_offset: 1049,
            count: 1
        }
    );
    bytes[8] = 255;
    bytes[16] = 128;
    let header = read_header(&bytes)?;
    assert!(rt; header.map_offset < 0);
    assert!(rt; header.count < 0);
    Ok(())
}

/// A byte of a new header, its value, and the fault.
static OTHERS: [(usize, u8, HeadFault); 6] = [
    (0, 65, HeadFault::BadMagic),
    (3, 80, HeadFault::BadMagic),
    (4, 1, HeadFault::Version(16_777_217)),
    (6, 1, HeadFault::Version(257)),
    (7, 2, HeadFault::Version(2)),
    (7, 255, HeadFault::Version(255)),
];

#[test]
fn other_versions_and_magics_are_refused(rt: HostRuntime) {
    for (at, byte, fault) in &OTHERS {
        let mut bytes = new_header();
        bytes[*at] = *byte;
        assert_eq!(rt; read_header(&bytes), Err(*fault), "{at} {byte}");
        bytes[1] = 0;
        assert_eq!(rt; read_header(&bytes), Err(HeadFault::BadMagic));
    }
}

#[test]
fn header_of_version_0_has_no_map(rt: HostRuntime) -> Result<(), Fail> {
    let mut bytes = [255; 1024];
    bytes[..8].copy_from_slice(&[66, 75, 76, 79, 0, 0, 0, 0]);
    let header = read_header(&bytes)?;
    assert_eq!(rt;
        header,
        Header {
            version: 0,
            map_offset: 0,
            count: 0
        }
    );
    assert!(rt; place_of_map(1269, &header)?.is_none());
    bytes[7] = 1;
    assert!(rt; read_header(&bytes)?.map_offset < 0);
    bytes[0] = 0;
    assert_eq!(rt; read_header(&bytes), Err(HeadFault::BadMagic));
    Ok(())
}

#[test]
fn new_header_is_magic_version_and_zeros(rt: HostRuntime) {
    let header = new_header();
    assert_eq!(rt; &header[..8], [66, 75, 76, 79, 0, 0, 0, 1].as_slice());
    assert!(rt; header[8..].iter().all(|byte| *byte == 0));
    assert_eq!(rt; patch_bytes(1049, 1), [0, 0, 0, 0, 0, 0, 4, 25, 0, 0, 0, 1]);
}
