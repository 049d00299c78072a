//! Encoded integers: how they are written, measured and read.

use peers_encint::Read;
use tests_play_data::integers::{first_misread, first_misspelled};

static SPELLED: [(u64, &[u8]); 6] = [
    (239, &[0xEF]),
    (240, &[0xF0, 0]),
    (2_287, &[0xFF, 0x7F]),
    (2_288, &[0xF0, 0x80, 0]),
    (264_432, &[0xF0, 0x80, 0x80, 0]),
    (
        u64::MAX,
        &[0xFF, 0xF0, 0xFE, 0xFE, 0xFE, 0xFE, 0xFE, 0xFE, 0xFE, 0x0E],
    ),
];

#[test]
fn spellings(rt: HostRuntime) {
    assert_eq!(rt; first_misspelled(&SPELLED), None);
}

/// The greatest number with another last byte, and with two bytes in its place; bytes that end early.
static MISSPELLED: [(&[u8], Read); 4] = [
    (
        &[0xFF, 0xF0, 0xFE, 0xFE, 0xFE, 0xFE, 0xFE, 0xFE, 0xFE, 0x0F],
        Read::Over,
    ),
    (
        &[
            0xFF, 0xF0, 0xFE, 0xFE, 0xFE, 0xFE, 0xFE, 0xFE, 0xFE, 0x8E, 0,
        ],
        Read::Over,
    ),
    (&[0xF0], Read::Short),
    (&[], Read::Short),
];

#[test]
fn limits(rt: HostRuntime) {
    assert_eq!(rt; first_misread(&MISSPELLED), None);
}
