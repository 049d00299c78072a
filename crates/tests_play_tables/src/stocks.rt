//! One list of calls over a stock, and over rows by key whose numbers are counted beside them.

use crate::ends::moment;
use crate::holders::{MOST_ROWS, are_same_rows, make_room};
use std::alloc::Global;
use table_rows::{MapRows, Rows, is_live};
use table_stock::Stock;
use table_types::{Cell, Key, Memory, Moment, Row, ShortList};

/// A call.
#[derive(Clone, Copy)]
enum Call {
    /// Puts a row: its key, and the ms after the least moment at which it ends, if it does.
    Put(u32, Option<u32>),
    /// Removes the rows that aren't live so many ms after the least moment.
    Purge(u32),
}

/// Returns the call at a place of the list, which looks random. Keys are 1 to 50, and several rows end at one moment.
fn call_at(place: u32) -> Call {
    let spread = place.wrapping_mul(2_654_435_761);
    let key = (spread >> 16) % 50 + 1;
    let later = place / 8 + (spread >> 8) % 32;
    match spread >> 28 {
        0 => Call::Purge(later),
        1 | 2 => Call::Put(key, None),
        _ => Call::Put(key, Some(later)),
    }
}

/// Puts a row of `key` under the next number into both, once there is room for it.
fn put_both(
    stock: &mut Stock,
    rows: &mut MapRows,
    alloc: Global,
    key: u32,
    end: Option<u32>,
) -> Result<(), Memory> {
    let next = stock.next();
    if next >= 1 << 32 {
        return Err(Memory);
    }
    let cells = ShortList::from_slice(alloc, &[Cell::Count(next)])?;
    let ends = match end {
        Some(end) => moment(end),
        None => None,
    };
    let row = Row::learned_with(next as u32, ends, cells, None);
    let _removed = make_room(rows, alloc, &Key::Int(key))?;
    let _before = rows.put(Key::Int(key), row.copy(alloc)?)?;
    let full = stock.len() >= MOST_ROWS;
    stock.put(Key::Int(key), row, full)
}

/// Removes the rows that aren't live at `now`, and returns how many there were.
fn purge(rows: &mut MapRows, now: Moment) -> Result<usize, Memory> {
    let list = rows.list()?;
    for (key, row) in list.iter() {
        if !is_live(row, now) {
            let _row = rows.take(key);
        }
    }
    Ok(list.len().saturating_sub(rows.len()))
}

/// Makes the call with both, and returns whether they remove as many rows that have ended.
fn goes_the_same(
    stock: &mut Stock,
    rows: &mut MapRows,
    alloc: Global,
    call: Call,
) -> Result<bool, Memory> {
    match call {
        Call::Put(key, end) => {
            put_both(stock, rows, alloc, key, end)?;
            Ok(true)
        }
        Call::Purge(later) => {
            let now = moment(later).unwrap_or(Moment::least());
            let ended = stock.count_ended(now);
            stock.drop_ended(now);
            Ok(purge(rows, now)? == ended)
        }
    }
}

/// Returns whether the stock goes over the rows above `number`, in ascending order of number.
fn goes_over_rows_above(stock: &Stock, rows: &MapRows, number: u32) -> Result<bool, Memory> {
    let mut last = number;
    let mut count: usize = 0;
    for (key, row) in stock.above(number) {
        let is_held = match rows.get(key) {
            Some(held) => held.is_same(row),
            None => false,
        };
        if !is_held || row.number() <= last {
            return Ok(false);
        }
        last = row.number();
        count = count.saturating_add(1);
    }
    let list = rows.list()?;
    let above = list.iter().filter(|entry| entry.1.number() > number);
    Ok(count == above.count())
}

/// Returns whether both name the same row as the first to end, or none.
fn end_the_same(stock: &Stock, rows: &MapRows) -> bool {
    match (stock.first_to_end(), rows.first_to_end()) {
        (Some(one), Some(other)) => one.is_same(other),
        (None, None) => true,
        _ => false,
    }
}

/// Returns whether both have the same rows: all, those after a key, and those above a number.
fn hold_the_same(stock: &Stock, rows: &MapRows, key: u32) -> Result<bool, Memory> {
    let all = stock.list()?;
    let all_by_key = rows.list()?;
    let part = stock.list_after(Some(&Key::Int(key)), 5)?;
    let part_by_key = rows.list_after(Some(&Key::Int(key)), 5)?;
    let same = are_same_rows(all.as_slice(), all_by_key.as_slice());
    let same_part = are_same_rows(part.as_slice(), part_by_key.as_slice());
    let above = stock.last_number().saturating_sub(key);
    Ok(same && same_part && stock.len() == all.len() && goes_over_rows_above(stock, rows, above)?)
}

/// Returns whether the rows of a stock that is renumbered have the numbers from 1 on.
fn has_new_numbers(stock: &Stock) -> Result<bool, Memory> {
    let renumbered = stock.renumbered()?;
    let mut next: u32 = 1;
    for (_, row) in renumbered.above(0) {
        if row.number() != next {
            return Ok(false);
        }
        next = next.saturating_add(1);
    }
    Ok(renumbered.len() == stock.len() && renumbered.next() == u64::from(next))
}

fn agree_in_all(alloc: Global) -> Result<bool, Memory> {
    let mut stock = Stock::new(alloc, 1);
    let mut rows = MapRows::new(alloc);
    for place in 0..2_000 {
        let counted = goes_the_same(&mut stock, &mut rows, alloc, call_at(place))?;
        let same = hold_the_same(&stock, &rows, place % 60)? && end_the_same(&stock, &rows);
        if !counted || !same {
            return Ok(false);
        }
    }
    Ok(has_new_numbers(&stock)? && stock.len() > 10)
}

/// Returns whether a stock and rows by key agree after each of 2,000 calls, in which the log of the stock is swept many times.
pub fn stock_agrees(alloc: Global) -> Option<bool> {
    agree_in_all(alloc).ok()
}
