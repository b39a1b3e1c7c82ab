//! Maps that are cut or wrong, and the first error of each.

use super::{BATCH, read_behind};
use bk_head::HeadFault;
use std::process::Abort;

#[test]
fn cut_map_is_no_map(rt: HostRuntime) {
    assert_eq!(rt;
        read_behind(rt.alloc(), &BATCH[..0], 1).err(),
        Some(HeadFault::CountDiffers(0))
    );
    for end in 1..40 {
        assert_eq!(rt;
            read_behind(rt.alloc(), &BATCH[..end], 1).err(),
            Some(HeadFault::NotAMap(1049)),
            "{end}"
        );
    }
}

#[test]
fn batch_of_every_wrong_length_is_refused(rt: HostRuntime) {
    for length in 0..60 {
        let mut batch = BATCH;
        batch[3] = length;
        let wanted = match length {
            16..=35 => Some(HeadFault::MapLength(1049)),
            36 => None,
            _ => Some(HeadFault::NotAMap(1049)),
        };
        assert_eq!(rt;
            read_behind(rt.alloc(), &batch, 1).err(),
            wanted,
            "{length}"
        );
    }
}

/// A byte of the batch, its value, and the fault.
static HOSTILE: [(usize, u8, HeadFault); 9] = [
    (0, 255, HeadFault::NotAMap(1049)),
    (4, 0, HeadFault::NotAMap(1049)),
    (19, 255, HeadFault::NotAMap(1049)),
    (20, 127, HeadFault::MapLength(1049)),
    (20, 255, HeadFault::MapLength(1049)),
    (23, 0, HeadFault::MapLength(1049)),
    (23, 2, HeadFault::MapLength(1049)),
    (24, 255, HeadFault::Negative),
    (32, 128, HeadFault::Negative),
];

#[test]
fn hostile_bytes_are_told_by_their_fault(rt: HostRuntime) {
    for (at, byte, fault) in &HOSTILE {
        let mut batch = BATCH;
        batch[*at] = *byte;
        assert_eq!(rt;
            read_behind(rt.alloc(), &batch, 1).err(),
            Some(*fault),
            "{at} {byte}"
        );
    }
}

#[test]
fn repeated_ledger_is_refused(rt: HostRuntime) {
    let mut one = [0; 56];
    one[..40].copy_from_slice(&BATCH);
    one[3] = 52;
    one[23] = 2;
    one[47] = 1;
    assert_eq!(rt;
        read_behind(rt.alloc(), &one, 2).err(),
        Some(HeadFault::Repeated(1))
    );
    let mut two = [0; 80];
    two[..40].copy_from_slice(&BATCH);
    two[40..].copy_from_slice(&BATCH);
    assert_eq!(rt;
        read_behind(rt.alloc(), &two, 2).err(),
        Some(HeadFault::Repeated(1))
    );
    two[43] = 35;
    assert_eq!(rt;
        read_behind(rt.alloc(), &two, 2).err(),
        Some(HeadFault::MapLength(1089))
    );
}
