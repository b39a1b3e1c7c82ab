//! Published checksums, and messages in pieces.
use bk_crc::{Checksum, Polynomial, checksum_of};

#[test]
fn the_nine_digits_have_the_check_values(rt: HostRuntime) {
    assert_eq!(rt;
        checksum_of(Polynomial::Castagnoli, b"123456789"),
        0xe306_9283
    );
    assert_eq!(rt; checksum_of(Polynomial::Ieee, b"123456789"), 0xcbf4_3926);
}

#[test]
fn no_bytes_have_zero(rt: HostRuntime) {
    assert_eq!(rt; checksum_of(Polynomial::Castagnoli, b""), 0);
    assert_eq!(rt; checksum_of(Polynomial::Ieee, b""), 0);
}

/// The 32-byte examples of the CRC-32C appendix of iSCSI.
#[test]
fn iscsi_examples_of_32_bytes(rt: HostRuntime) {
    let mut rising = [0u8; 32];
    let mut falling = [0u8; 32];
    for i in 0..32 {
        rising[i] = i as u8;
        falling[i] = 31 - i as u8;
    }
    assert_eq!(rt; checksum_of(Polynomial::Castagnoli, &[0; 32]), 0x8a91_36aa);
    assert_eq!(rt;
        checksum_of(Polynomial::Castagnoli, &[0xff; 32]),
        0x62a8_ab43
    );
    assert_eq!(rt; checksum_of(Polynomial::Castagnoli, &rising), 0x46dd_794e);
    assert_eq!(rt; checksum_of(Polynomial::Castagnoli, &falling), 0x113f_db5c);
}

#[test]
fn a_sentence_has_its_zip_value(rt: HostRuntime) {
    let sentence = b"The quick brown fox jumps over the lazy dog";
    assert_eq!(rt; checksum_of(Polynomial::Ieee, sentence), 0x414f_a339);
    assert_eq!(rt; checksum_of(Polynomial::Castagnoli, sentence), 0x2262_0404);
}

#[test]
fn pieces_have_the_checksum_of_the_whole(rt: HostRuntime) {
    let whole = b"123456789";
    for cut in 0..10 {
        let mut pieces = Checksum::new(Polynomial::Castagnoli);
        pieces.update(&whole[..cut]);
        pieces.update(&whole[cut..]);
        assert_eq!(rt; pieces.finish(), 0xe306_9283);
    }
}

#[test]
fn a_flipped_bit_changes_it(rt: HostRuntime) {
    let mut bytes = *b"123456789";
    for at in 0..9 {
        bytes[at] ^= 0x10;
        assert_ne!(rt; checksum_of(Polynomial::Castagnoli, &bytes), 0xe306_9283);
        assert_ne!(rt; checksum_of(Polynomial::Ieee, &bytes), 0xcbf4_3926);
        bytes[at] ^= 0x10;
    }
}
