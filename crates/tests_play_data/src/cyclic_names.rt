//! 258 updates of one key of `st`, which name 129 servers in turn, twice.

ghost use Rattle.table_types.specs.Batches.{IsBatchFor};
ghost use Rattle.std.specs.Prelude.{IfSome};

use crate::parts::{ST, alone, named, text_key};
use known_state::Known;
use std::alloc::Global;
use table_types::{Batch, Name, ShortList, Update};

/// How many names there are, and how many updates.
const NAMES: u32 = 129;

const UPDATES: u32 = 258;

/// Returns the last decimal digit of a number.
fn digit(number: u32) -> u8 {
    b'0' + (number % 10) as u8
}

/// Makes the name `n000` for 0, and so on.
fn name(alloc: Global, number: u32) -> Option<Name> {
    let digits = [digit(number / 100), digit(number / 10), digit(number)];
    named(alloc, &[b'n', digits[0], digits[1], digits[2]])
}

/// Makes the update of key `k` of `st` at a place from 0.
fn update(alloc: Global, place: u32) -> Option<Update> {
    Some(Update {
        table: 3,
        number: place.saturating_add(1),
        life: Some(30_000),
        key: text_key(alloc, b"k")?,
        values: ShortList::from_slice(alloc, &[]).ok()?,
        name: Some(name(alloc, place % NAMES)?),
    })
}

fn updates(alloc: Global) -> Option<Vec<Update>> {
    let mut updates = Vec::new(alloc);
    for place in 0..UPDATES {
        updates.push(update(alloc, place)?).ok()?;
    }
    Some(updates)
}

/// Makes the known state in which nothing is known of `st`.
fn known(alloc: Global) -> Option<Known> {
    Known::fresh(alloc, alone(alloc, &ST)?).ok()
}

/// Makes the batch of the updates.
fn batch(alloc: Global, known: &Known) -> Option<Batch>
    ensures { IfSome result (λ batch. IsBatchFor known.now.roster batch) }
{
    Batch::new(alloc, known.roster(), updates(alloc)?).ok()
}

/// Makes the known state in which nothing is known of `st`, and the batch of the updates.
pub(crate) fn prepared(alloc: Global) -> Option<(Known, Batch)>
    ensures { IfSome result (λ made. IsBatchFor made.0.roster made.1) }
{
    let known = known(alloc)?;
    let batch = batch(alloc, &known)?;
    Some((known, batch))
}
