//! Encoded integers: how they are written, measured and read.

use peers_encint::{Read, get, len, put};

/// Returns whether the number is written as `bytes`, has their length, and is read from them.
fn is_spelled(number: u64, bytes: &[u8]) -> bool {
    let mut out = [0; 10];
    let length = put(number, &mut out);
    &out[..length] == bytes
        && len(number) == bytes.len()
        && get(bytes) == Read::Value(number, bytes.len())
}

/// Returns the index of the first number that has other bytes.
pub fn first_misspelled(numbers: &[(u64, &[u8])]) -> Option<usize> {
    for (place, (number, bytes)) in numbers.iter().enumerate() {
        if !is_spelled(*number, *bytes) {
            return Some(place);
        }
    }
    None
}

/// Returns the index of the first bytes of which something else is read.
pub fn first_misread(all: &[(&[u8], Read)]) -> Option<usize> {
    for (place, (bytes, read)) in all.iter().enumerate() {
        if get(*bytes) != *read {
            return Some(place);
        }
    }
    None
}
