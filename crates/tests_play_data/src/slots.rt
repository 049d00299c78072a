//! The slots of the dictionary of server names.

use crate::parts::{are_held, slots};
use std::alloc::Global;

/// Returns whether a copy of slots of which the first holds `s1` has that name there and no other.
pub fn is_copied(alloc: Global) -> Option<bool> {
    let copy = slots(alloc, &[1])?.copy(alloc).ok()?;
    Some(are_held(&copy, &[1]))
}
