//! Numbers of integer keys.

use std::alloc::Global;
use table_types::Key;
use update_numbers::{NumberError, Numbers};

/// A call, and what it returns.
pub enum Call {
    /// Gives the next number to a key.
    Give(u32, Result<u32, NumberError>),
    /// Drops a key's numbers; returns whether it had one.
    DropKey(u32, bool),
    /// Returns the numbers above the first of these, at most the second of them, each with its key.
    Above(u32, usize, &'static [(u32, u32)]),
}

/// Returns whether the pairs have these numbers and integer keys.
fn are_pairs(pairs: &[(u32, Key)], expected: &[(u32, u32)]) -> bool {
    if pairs.len() != expected.len() {
        return false;
    }
    for (index, (number, key)) in pairs.iter().enumerate() {
        if *number != expected[index].0 || !key.is_same(&Key::Int(expected[index].1)) {
            return false;
        }
    }
    true
}

fn are_above(numbers: &Numbers, number: u32, most: usize, expected: &[(u32, u32)]) -> bool {
    match numbers.above(number, most) {
        Ok(pairs) => are_pairs(pairs.as_slice(), expected),
        Err(_) => false,
    }
}

fn returns_so(numbers: &mut Numbers, call: &Call) -> bool {
    match call {
        Call::Give(key, answer) => numbers.give(&Key::Int(*key)) == *answer,
        Call::DropKey(key, had) => numbers.drop_key(&Key::Int(*key)) == *had,
        Call::Above(number, most, expected) => are_above(numbers, *number, *most, *expected),
    }
}

/// The first number, from 1, and calls one after another.
pub type Story = (u32, &'static [Call]);

fn failing_call(alloc: Global, first: u32, calls: &[Call]) -> Option<usize> {
    let mut numbers = Numbers::new(alloc, first.max(1));
    for (place, call) in calls.iter().enumerate() {
        if !returns_so(&mut numbers, call) {
            return Some(place);
        }
    }
    None
}

/// Returns the index of the first story of which a call returns something else, and the index of the call.
pub fn first_failing(alloc: Global, stories: &[Story]) -> Option<(usize, usize)> {
    for (place, (first, calls)) in stories.iter().enumerate() {
        if let Some(call) = failing_call(alloc, *first, *calls) {
            return Some((place, call));
        }
    }
    None
}
