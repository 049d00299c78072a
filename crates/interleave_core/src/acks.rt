//! Acknowledgements that arrive at a teacher.

ghost use Rattle.std.specs.Prelude.{◌≡◌, ◌++◌, ◌∷◌, [], IfOk, MatchBool, Ok, OnOk, Some, filter_map, is_some, option_and_then, option_map, true};
ghost use Rattle.std.specs.List.{count_by};
ghost use Rattle.peers_msg.specs.Decoding.{DecoderNext, begun};
ghost use Rattle.peers_msg.specs.Received.{nothing_received};
ghost use Rattle.table_cell.specs.Histories.{CellState};
ghost use Rattle.interleave_core.specs.Acks.{AreAcksOf, AreTaught, HasRoom, HaveRoom, IsTaught, is_of, pair_of, pairs_of};
ghost use Rattle.interleave_core.specs.Moves.{ack_in, acked, acked_all};
ghost use Rattle.interleave_core.specs.Worlds.{cell_at, with_cell};

use crate::cells::index_of;
use learner::Taken;
use peers_msg::{Decoder, Message};
use session_core::ack_of;
use std::alloc::Global;
use table_cell::TableCell;
use table_types::{Memory, Roster};

/// An acknowledgement of a table.
#[derive(Clone, Copy, Debug)]
pub(crate) struct Acknowledgement {
    pub(crate) table: u64,
    pub(crate) number: u32,
}

/// The acknowledgements in some bytes, and how many bytes their messages have.
#[derive(Debug, Drop)]
pub(crate) struct Read {
    pub(crate) acks: Vec<Acknowledgement>,
    pub(crate) used: usize,
}

/// Returns the acknowledgement in `message`, if it is one of a table of `roster`.
fn acknowledged(roster: &Roster, message: &Message) -> Option<Acknowledgement>
    ensures { option_map pair_of result ≡ ack_in roster.now message.now }
{
    match message {
        Message::Ack { table, number } => {
            let taken = Taken::Acked {
                table: *table,
                number: *number,
            };
            let (table, number) = ack_of(&taken, roster)?;
            Some(Acknowledgement { table, number })
        }
        _ => None,
    }
}

/// Appends the acknowledgement in `message`, if it is one of a table of `roster`.
fn append_ack(
    acks: &mut Vec<Acknowledgement>,
    roster: &Roster,
    message: Message,
) -> Result<(), Memory>
    ensures { OnOk result (pairs_of acks.new.items ≡ pairs_of acks.old.items ++ filter_map (ack_in roster.now) (message ∷ [])) }
{
    match acknowledged(roster, &message) {
        Some(ack) => {
            acks.push(ack)?;
            Ok(())
        }
        None => Ok(()),
    }
}

/// Returns a decoder that was fed `first` and then `more`.
fn fed(alloc: Global, first: &[u8], more: &[u8]) -> Result<Decoder, Memory>
    ensures { IfOk result (λ decoder. decoder ≡ record (begun nothing_received) { unread = first.now ++ more.now }) }
{
    let mut decoder = Decoder::new(alloc);
    let Ok(()) = decoder.feed(first) else {
        return Err(Memory);
    };
    let Ok(()) = decoder.feed(more) else {
        return Err(Memory);
    };
    Ok(decoder)
}

/// Returns the next message, or `None` while it isn't whole. Fails with `Memory` if memory runs out, and at a breach, which the
/// bytes of acknowledgements don't have.
fn next(decoder: &mut Decoder) -> Result<Option<Message>, Memory>
    ensures { IfOk result (λ found. DecoderNext decoder.old (Ok found) decoder.new) }
{
    match decoder.next() {
        Ok(found) => Ok(found),
        Err(_) => Err(Memory),
    }
}

/// Reads the whole messages at the front of `unread` and `piece`, which follow one another.
pub(crate) fn read_acks(
    alloc: Global,
    roster: &Roster,
    unread: &[u8],
    piece: &[u8],
) -> Result<Read, Memory>
    ensures { IfOk result (λ read. AreAcksOf roster.now (unread.now ++ piece.now) read) }
{
    let mut decoder = fed(alloc, unread, piece)?;
    let arrived = decoder.waiting();
    let mut acks = Vec::new(alloc);
    while let Some(message) = next(&mut decoder)? {
        append_ack(&mut acks, roster, message)?;
    }
    let used = arrived - decoder.waiting();
    Ok(Read { acks, used })
}

/// Returns how many of the acknowledgements are of `table`.
fn count_of(acks: &[Acknowledgement], table: u64) -> usize
    ensures { result ≡ count_by (is_of table) acks.now }
{
    acks.iter().filter(|ack| ack.table == table).count()
}

/// Returns whether the table of `ack` was taught its number, or a later one, in `session`.
fn is_taught(cells: &[TableCell], session: u32, ack: Acknowledgement) -> bool
    ensures { MatchBool result (IsTaught session cells.now (pair_of ack)) (IsTaught session cells.now (pair_of ack) → ⊥) }
{
    match index_of(cells, ack.table) {
        Some(index) => cells[index].can_ack(session, ack.number),
        None => false,
    }
}

/// Returns whether the table of each of `acks` was taught its number, or a later one, in `session`.
fn are_taught(cells: &[TableCell], session: u32, acks: &[Acknowledgement]) -> bool
    ensures { MatchBool result (AreTaught session cells.now (pairs_of acks.now)) (AreTaught session cells.now (pairs_of acks.now) → ⊥) }
{
    for ack in acks {
        if !is_taught(cells, session, *ack) {
            return false;
        }
    }
    true
}

/// Returns whether `table` has room for its acknowledgements.
fn has_room(cells: &[TableCell], acks: &[Acknowledgement], table: u64) -> bool
    ensures { MatchBool result (HasRoom cells.now (pairs_of acks.now) table) (HasRoom cells.now (pairs_of acks.now) table → ⊥) }
{
    match index_of(cells, table) {
        Some(index) => count_of(acks, table) as u64 <= cells[index].room(),
        None => true,
    }
}

/// Returns whether each table has room for its acknowledgements.
fn have_room(cells: &[TableCell], acks: &[Acknowledgement]) -> bool
    ensures { MatchBool result (HaveRoom cells.now (pairs_of acks.now)) (HaveRoom cells.now (pairs_of acks.now) → ⊥) }
{
    for cell in cells {
        if !has_room(cells, acks, cell.definition().id()) {
            return false;
        }
    }
    true
}

/// Returns whether the tables take the acknowledgements in `session`, made one after another.
pub(crate) fn are_taken(cells: &[TableCell], session: u32, acks: &[Acknowledgement]) -> bool
    ensures { result ≡ is_some (acked_all session (pairs_of acks.now) cells.now) }
{
    are_taught(cells, session, acks) && have_room(cells, acks)
}

/// Makes an acknowledgement that its table takes.
fn make(cells: &mut Vec<TableCell>, session: u32, ack: Acknowledgement) -> Result<(), Memory>
    requires { is_some (option_and_then (acked session ack.number) (cell_at ack.table cells.old.items)) ≡ true }
    ensures { OnOk result ((c : CellState) × (option_and_then (acked session ack.number) (cell_at ack.table cells.old.items) ≡ Some c) × (cells.new.items ≡ with_cell ack.table c cells.old.items)) }
{
    let Some(index) = index_of(cells.as_slice(), ack.table) else {
        return Ok(());
    };
    match cells[index].ack(session, ack.number) {
        Ok(_) => Ok(()),
        Err(_) => Err(Memory),
    }
}

/// Makes acknowledgements that their tables take, one after another.
pub(crate) fn make_each(
    cells: &mut Vec<TableCell>,
    session: u32,
    acks: &[Acknowledgement],
) -> Result<(), Memory>
    requires { is_some (acked_all session (pairs_of acks.now) cells.old.items) ≡ true }
    ensures { OnOk result (acked_all session (pairs_of acks.now) cells.old.items ≡ Some cells.new.items) }
{
    for ack in acks {
        make(cells, session, *ack)?;
    }
    Ok(())
}
