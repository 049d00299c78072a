//! Lessons, the known state in which each ends, and what names cost.

ghost use Rattle.std.specs.Prelude.{IfSome};
ghost use Rattle.table_types.specs.Batches.{IsBatchFor};

use crate::parts::{KnownParts, UpdateParts, are_held, known, updates};
use known_state::{Known, Request};
use std::alloc::Global;
use table_types::Batch;
use teach_writer::{Lesson, Pieces, teach};

/// The parts of a known state, updates, the bytes and the prices of their lesson, and the known state after it: the last number of
/// the table, which is defined and selected, and the slots that hold `s1`.
pub struct Taught {
    pub from: KnownParts,
    pub updates: &'static [UpdateParts],
    pub bytes: &'static [u8],
    pub prices: &'static [u64],
    pub last: u32,
    pub held: &'static [u8],
}

/// Makes the known state of these parts, and a batch of the updates for it.
fn prepared(alloc: Global, from: &KnownParts, given: &[UpdateParts]) -> Option<(Known, Batch)>
    ensures { IfSome result (λ made. IsBatchFor made.0.roster made.1) }
{
    let (known, updates) = known(alloc, from).zip(updates(alloc, given))?;
    let batch = Batch::new(alloc, known.roster(), updates).ok()?;
    Some((known, batch))
}

/// Returns whether the table alone is defined, is selected and has its last number, and the slots of `held` alone hold `s1`.
fn stands_at(known: &Known, taught: &Taught) -> bool {
    let received = known.received();
    let id = taught.from.table.id;
    received.count() == 1
        && received.selected() == Some(id)
        && known.last_numbers().last(id) == Some(taught.last)
        && are_held(known.slots(), taught.held)
}

fn is_right(lesson: &Lesson, taught: &Taught) -> bool {
    lesson.bytes.as_slice() == taught.bytes
        && lesson.prices.as_slice() == taught.prices
        && stands_at(&lesson.known, taught)
}

/// Teaches the batch, and returns whether the lesson is right; `None` if memory runs out.
fn teaches(alloc: Global, known: &Known, batch: &Batch, taught: &Taught) -> Option<bool>
    requires { IsBatchFor known.now.roster batch.now }
{
    let lesson = teach(alloc, known, batch).ok()?;
    Some(is_right(&lesson, taught))
}

/// Teaches a copy of the batch to a learner in a copy of the known state, and returns whether the lesson is right.
fn teaches_from_copies(alloc: Global, known: &Known, batch: &Batch, taught: &Taught) -> Option<bool>
    requires { IsBatchFor known.now.roster batch.now }
{
    let known = known.copy(alloc).ok()?;
    let batch = batch.copy().ok()?;
    teaches(alloc, &known, &batch, taught)
}

/// Returns whether the lesson is right if copies of the known state and of the batch are taught.
fn is_taught(alloc: Global, taught: &Taught) -> Option<bool> {
    let (known, batch) = prepared(alloc, &taught.from, taught.updates)?;
    teaches_from_copies(alloc, &known, &batch, taught)
}

/// Returns the index of the first lesson that is another.
pub fn first_failing(alloc: Global, all: &[Taught]) -> Option<usize> {
    for (place, taught) in all.iter().enumerate() {
        if is_taught(alloc, taught) != Some(true) {
            return Some(place);
        }
    }
    None
}

/// Returns whether the next piece is these bytes.
fn gives(pieces: &mut Pieces, bytes: &[u8]) -> bool {
    match pieces.next() {
        Ok(Some(piece)) => piece.as_slice() == bytes,
        _ => false,
    }
}

/// Returns whether the next pieces have these sizes, and are together the bytes.
fn gives_all(pieces: &mut Pieces, bytes: &[u8], sizes: &[usize]) -> bool {
    let mut rest = bytes;
    for size in sizes {
        let (piece, others) = rest.split_at((*size).min(rest.len()));
        if piece.len() != *size || !gives(pieces, piece) {
            return false;
        }
        rest = others;
    }
    rest.is_empty()
}

fn gives_none(pieces: &mut Pieces) -> bool {
    match pieces.next() {
        Ok(piece) => piece.is_none(),
        Err(_) => false,
    }
}

/// Returns whether `end` returns the right prices and the right known state.
fn ends_right(pieces: Pieces, taught: &Taught) -> bool {
    match pieces.end() {
        Ok((prices, known)) => prices.as_slice() == taught.prices && stands_at(&known, taught),
        Err(_) => false,
    }
}

/// Returns whether `end` hands the pieces back, all of which `next` has returned, until `next` returns `None`, which it does twice;
/// and whether `end` then returns what it should.
fn ends_after_none(pieces: Pieces, taught: &Taught) -> bool {
    match pieces.end() {
        Ok(_) => false,
        Err(mut pieces) => {
            let none_left = gives_none(&mut pieces) && gives_none(&mut pieces);
            ends_right(pieces, taught) && none_left
        }
    }
}

/// Returns the pieces, which `end` hands back after the first of them. `None` if the first one isn't these bytes, or if `end`
/// doesn't hand them back.
fn handed_back(mut pieces: Pieces, first: &[u8]) -> Option<Pieces> {
    if !gives(&mut pieces, first) {
        return None;
    }
    match pieces.end() {
        Ok(_) => None,
        Err(pieces) => Some(pieces),
    }
}

/// Returns whether the pieces have these sizes, are together the lesson's bytes, and end right, with `end` called after the first
/// one too.
fn goes_on(pieces: Pieces, taught: &Taught, sizes: &[usize]) -> bool {
    let Some((first, sizes)) = sizes.split_first() else {
        return ends_after_none(pieces, taught);
    };
    let (first, rest) = taught.bytes.split_at((*first).min(taught.bytes.len()));
    match handed_back(pieces, first) {
        Some(mut pieces) => {
            let given = gives_all(&mut pieces, rest, sizes);
            ends_after_none(pieces, taught) && given
        }
        None => false,
    }
}

/// Returns whether the lesson comes in pieces of these sizes although `end` is called after the first one, and hands the pieces
/// back.
pub fn goes_on_after_end(alloc: Global, taught: &Taught, sizes: &[usize]) -> Option<bool> {
    let (known, batch) = prepared(alloc, &taught.from, taught.updates)?;
    let pieces = Pieces::new(alloc, &known, &batch).ok()?;
    Some(goes_on(pieces, taught, sizes))
}

/// A known state, updates, and the size of the message of each with its name read, and with it written.
pub struct Costly {
    pub from: KnownParts,
    pub updates: &'static [UpdateParts],
    pub costs: &'static [(u32, u32)],
}

fn requests(alloc: Global, costly: &Costly) -> Option<Vec<Request>> {
    let (known, batch) = prepared(alloc, &costly.from, costly.updates)?;
    known.costs(alloc, &batch).ok()
}

/// Returns whether a copy of the request is one for `s1` at these costs.
fn is_request(alloc: Global, request: &Request, costs: (u32, u32)) -> Option<bool> {
    let copy = request.copy(alloc).ok()?;
    Some(
        (copy.read_cost(), copy.write_cost()) == costs
            && copy.name().as_slice() == b"s1".as_slice(),
    )
}

fn are_requests(alloc: Global, requests: &[Request], costs: &[(u32, u32)]) -> Option<bool> {
    for (request, costs) in requests.iter().zip(costs) {
        if !is_request(alloc, request, *costs)? {
            return Some(false);
        }
    }
    Some(requests.len() == costs.len())
}

/// Returns whether the requests of these updates are for `s1` at these costs.
pub fn names_cost(alloc: Global, costly: &Costly) -> Option<bool> {
    let requests = requests(alloc, costly)?;
    are_requests(alloc, requests.as_slice(), costly.costs)
}
