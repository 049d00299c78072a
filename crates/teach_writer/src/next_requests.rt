//! The next request for each name, and which slots retain their names at the start.

ghost use Rattle.std.specs.Prelude.{◌≡◌, ◌↔◌, ℕ, true, IsTrue, List, IfOk, length};
ghost use Rattle.known_state.specs.Plans.{keeps_next};
ghost use Rattle.table_types.specs.SlotIds.{slot_count, is_slot};
ghost use Rattle.teach_writer.specs.Retained.{retained_at};
ghost use Rattle.teach_writer.specs.NextRequests.{is_kept, is_first_kept, kept_next, IsRetainedFirst};

use crate::retained::Retained;
use dict_slots::Slots;
use known_state::Request;
use std::alloc::Global;
use std::collections::BTreeMap;
use table_types::{Memory, Name};

/// The next request for a name.
#[derive(Clone, Copy, Debug)]
pub struct NextRequest {
    /// Its index among the requests.
    pub index: usize,
    /// Whether it is kept.
    pub kept: bool,
}

/// Returns whether there is a next request and it is kept.
fn is_kept(next: Option<NextRequest>) -> bool
    ensures { result ≡ is_kept next }
{
    match next {
        Some(next) => next.kept,
        None => false,
    }
}

/// Returns whether there is a first request for `name` and it is kept.
fn is_first_kept(first: &BTreeMap<&[u8], NextRequest>, name: &Name) -> bool
    ensures { result ≡ is_first_kept first.now name.now }
{
    match first.get(name.as_slice()) {
        Some(next) => next.kept,
        None => false,
    }
}

/// Returns three things: for each request, whether the next one for its name is kept; for each request, the next one
/// for its name, if there is one; and for each name, its first request.
pub fn next_kept<'a>(
    alloc: Global,
    requests: &'a [Request],
    keep: &[bool],
) -> Result<
    (
        Vec<bool>,
        Vec<Option<NextRequest>>,
        BTreeMap<&'a [u8], NextRequest>,
    ),
    Memory,
>
    requires { length keep.now ≡ length requests.now }
    ensures next { IfOk result (λ r. r.0.items ≡ kept_next requests.now keep.now) }
    ensures first { IfOk result (λ r. (name : List ℕ) → is_first_kept r.2 name ≡ keeps_next name requests.now keep.now) }
{
    let mut first = BTreeMap::new(alloc);
    let mut next = vec![in alloc; false; requests.len()]?;
    let mut later = vec![in alloc; None; requests.len()]?;
    let mut index = requests.len();
    while index > 0 {
        index -= 1;
        let request = NextRequest {
            index,
            kept: keep[index],
        };
        let after = first.insert(requests[index].name().as_slice(), request)?;
        next[index] = is_kept(after);
        later[index] = after;
    }
    Ok((next, later, first))
}

/// Returns whether a slot retains its name at the start: whether it is the lowest slot that holds that name, and the
/// first request for the name is kept.
fn is_retained_first(slots: &Slots, first: &BTreeMap<&[u8], NextRequest>, slot: u8) -> bool
    requires { is_slot slot ≡ true }
    ensures { IsTrue result ↔ IsRetainedFirst slots.now (λ name. is_first_kept first.now name) slot }
{
    match slots.name(slot) {
        Some(name) => is_first_kept(first, name) && slots.find(name) == Some(slot),
        None => false,
    }
}

/// Returns the slots that retain their names at the start.
pub fn retained_first(slots: &Slots, first: &BTreeMap<&[u8], NextRequest>) -> Retained
    ensures retained { (slot : ℕ) → is_slot slot ≡ true →
        (retained_at result slot ≡ true) ↔ IsRetainedFirst slots.now (λ name. is_first_kept first.now name) slot }
    ensures count { length result ≡ slot_count }
    ensures slots { length slots.now ≡ slot_count }
{
    let mut retained = Retained::none();
    for index in 0..slots.len() {
        let slot = index as u8 + 1;
        retained.set(slot, is_retained_first(slots, first, slot));
    }
    retained
}
