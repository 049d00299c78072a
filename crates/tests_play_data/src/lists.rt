//! Lists that mostly have a single element.

use std::alloc::Global;
use table_types::ShortList;

/// Returns whether `list` begins with the bytes that it was made of, and becomes a `Vec` of them.
fn has(alloc: Global, list: ShortList<u8>, bytes: &[u8]) -> Option<bool> {
    let has_them = list.as_slice() == bytes;
    let given = list.into_vec(alloc).ok()?;
    Some(has_them && given.as_slice() == bytes)
}

fn are_made(alloc: Global, bytes: &[u8]) -> Option<bool> {
    let from_slice = ShortList::from_slice(alloc, bytes).ok()?;
    let from_vec = ShortList::from_vec(Vec::from_slice(alloc, bytes).ok()?);
    Some(has(alloc, from_slice, bytes)? && has(alloc, from_vec, bytes)?)
}

/// Returns the index of the first of these lists that a list made of it differs from: made of a slice, or of a `Vec`.
pub fn first_failing(alloc: Global, lists: &[&[u8]]) -> Option<usize> {
    for (place, bytes) in lists.iter().enumerate() {
        if are_made(alloc, *bytes) != Some(true) {
            return Some(place);
        }
    }
    None
}
