//! One list of calls over both types that hold rows.

use crate::ends::row;
use std::alloc::Global;
use table_rows::{ListRows, MapRows, Rows};
use table_types::{Key, Memory, Row};

/// The most rows that are held.
pub(crate) const MOST_ROWS: usize = 20;

/// A call.
#[derive(Clone, Copy)]
enum Call {
    /// Puts a row: its key, its number, and the ms after the least moment at which it ends, if it does.
    Put(u32, u32, Option<u32>),
    /// Takes out the row of a key.
    Take(u32),
}

/// Returns the call at a place of the list, which looks random. Keys are 1 to 50, and several rows end at one moment or have one
/// number.
fn call_at(place: u32) -> Call {
    let spread = place.wrapping_mul(2_654_435_761);
    let key = (spread >> 16) % 50 + 1;
    let (number, end) = (place % 8 + 1, (spread >> 8) % 16);
    match spread >> 28 {
        0 | 1 | 2 | 3 => Call::Take(key),
        4 | 5 => Call::Put(key, number, None),
        _ => Call::Put(key, number, Some(end)),
    }
}

/// The row that a call returns, and the row that was taken out before it, with its key.
#[derive(Drop)]
struct Reply {
    removed: Option<(Key, Row)>,
    row: Option<Row>,
}

/// Takes out the row that ends first unless there is room for a row of `key`. Returns it with its key.
pub(crate) fn make_room<R: Rows>(
    rows: &mut R,
    alloc: Global,
    key: &Key,
) -> Result<Option<(Key, Row)>, Memory> {
    if rows.len() < MOST_ROWS || rows.get(key).is_some() {
        return Ok(None);
    }
    let Some(first) = rows.first_to_end() else {
        return Ok(None);
    };
    let first = first.copy(alloc)?;
    Ok(match rows.take(&first) {
        Some(row) => Some((first, row)),
        None => None,
    })
}

/// Makes the call, once there is room for its row.
fn reply_of<R: Rows>(rows: &mut R, alloc: Global, call: Call) -> Result<Reply, Memory> {
    match call {
        Call::Put(key, number, end) => {
            let key = Key::Int(key);
            Ok(Reply {
                removed: make_room(rows, alloc, &key)?,
                row: rows.put(key, row(alloc, number, end)?)?,
            })
        }
        Call::Take(key) => Ok(Reply {
            removed: None,
            row: rows.take(&Key::Int(key)),
        }),
    }
}

fn are_same_removed(one: &Option<(Key, Row)>, other: &Option<(Key, Row)>) -> bool {
    match (one, other) {
        (Some(one), Some(other)) => one.0.is_same(&other.0) && one.1.is_same(&other.1),
        (None, None) => true,
        _ => false,
    }
}

fn are_same_replies(one: &Reply, other: &Reply) -> bool {
    let are_same = match (&one.row, &other.row) {
        (Some(one), Some(other)) => one.is_same(other),
        (None, None) => true,
        _ => false,
    };
    are_same && are_same_removed(&one.removed, &other.removed)
}

pub(crate) fn are_same_rows(one: &[(Key, Row)], other: &[(Key, Row)]) -> bool {
    if one.len() != other.len() {
        return false;
    }
    for (index, entry) in one.iter().enumerate() {
        if !entry.0.is_same(&other[index].0) || !entry.1.is_same(&other[index].1) {
            return false;
        }
    }
    true
}

/// Returns whether both hold the same rows.
fn hold_the_same<R: Rows, S: Rows>(one: &R, other: &S) -> Result<bool, Memory> {
    let list = one.list()?;
    let listed = other.list()?;
    Ok(are_same_rows(list.as_slice(), listed.as_slice()))
}

/// Returns whether both list the same ten rows after key 9, or all that there are.
fn list_the_same_part<R: Rows, S: Rows>(one: &R, other: &S) -> Result<bool, Memory> {
    let after = Key::Int(9);
    let list = one.list_after(Some(&after), 10)?;
    let listed = other.list_after(Some(&after), 10)?;
    Ok(are_same_rows(list.as_slice(), listed.as_slice()))
}

/// Returns whether both return the same for the calls of the places from `first` to before `last`.
fn reply_the_same<R: Rows, S: Rows>(
    one: &mut R,
    other: &mut S,
    alloc: Global,
    first: u32,
    last: u32,
) -> Result<bool, Memory> {
    for place in first..last {
        let call = call_at(place);
        let reply = reply_of(one, alloc, call)?;
        if !are_same_replies(&reply, &reply_of(other, alloc, call)?) {
            return Ok(false);
        }
    }
    Ok(true)
}

fn agree_in_all(alloc: Global) -> Result<bool, Memory> {
    let mut map = MapRows::new(alloc);
    let mut list = ListRows::new(alloc);
    let begun = reply_the_same(&mut map, &mut list, alloc, 0, 1_000)?;
    let mut map_copy = map.copy()?;
    let mut list_copy = list.copy()?;
    let ended = reply_the_same(&mut map, &mut list, alloc, 1_000, 2_000)?;
    let same = hold_the_same(&map, &list)? && list_the_same_part(&map, &list)?;
    let copies_ended = reply_the_same(&mut map_copy, &mut list_copy, alloc, 1_000, 2_000)?;
    let copies_same = hold_the_same(&map_copy, &list_copy)? && hold_the_same(&map_copy, &map)?;
    Ok(begun && ended && same && copies_ended && copies_same && map.len() > 10)
}

/// Returns whether both agree over a list of 2,000 calls, after which they also list the same part, and over its second half from
/// copies made in the middle.
pub fn agree(alloc: Global) -> Option<bool> {
    agree_in_all(alloc).ok()
}
