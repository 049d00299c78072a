//! Reading streams message by message, from a known state on.

ghost use Rattle.std.specs.Prelude.{◌≡◌, ◌≢◌, ◌≤◌, ◌⊎◌, ℕ, List, [], length, drop, true, Ok, Some, IfSome, IfNone, IfOk, IfErr};
ghost use Rattle.table_types.specs.declared.update.Update.{Update};
ghost use Rattle.peers_msg.specs.declared.message.Message.TheVariants as messages;
ghost use Rattle.peers_msg.specs.BorrowedMessages.{owned_message};
ghost use Rattle.peers_msg.specs.Fitting.{fits};
ghost use Rattle.peers_msg.specs.Reading.{message_at};
ghost use Rattle.peers_msg.specs.Received.{selected_table};
ghost use Rattle.known_state.specs.Known.{IsTakenBy, Refuses, update_refusal};
ghost use Rattle.price_checker.specs.Readings.{IsNext, IsReading};
ghost use Rattle.price_checker.specs.Verdicts.{BeginsUnrefused, IsDefinition};

use crate::comparison::Comparison;
use crate::verdict::Illegal;
use known_state::{Known, StepError};
use peers_msg::{Message, MessageRef, UpdateRef, front};
use std::alloc::Global;
use table_types::{Memory, Update};

/// What is at the front of the remaining bytes.
#[derive(Debug, Drop)]
enum Next {
    /// A legal message: how the updates carried compare after it, and its length in bytes.
    Read(Comparison, usize),
    /// No legal message.
    Illegal(Illegal),
}

/// What a stream is.
#[derive(Debug, Drop)]
pub enum Reading {
    /// It isn't legal: why, and the place of the first byte of the message that isn't.
    Illegal(Illegal, usize),
    /// It is legal: how the updates it carries compare with the batch.
    Legal(Comparison),
}

/// Applies the message at the front, of `used` bytes, to the known state if it is legal. What the message owns moves
/// into the state.
fn follow_if_legal(
    known: &mut Known,
    updates: &[Update],
    comparison: Comparison,
    message: Message,
    used: usize,
) -> Result<Next, Memory>
    ensures { (rest : List ℕ) → message_at known.old.state.received rest ≡ Ok (Some (message, drop used rest)) → 1 ≤ used → used ≤ length rest →
        IfOk result (λ next. IsNext known.old updates.now comparison rest next known.new) }
{
    if let Some(error) = known.refusal(&message) {
        return Ok(Next::Illegal(Illegal::Step(error)));
    }
    let compared = comparison.after(known.state(), &message, updates);
    known.follow(message)?;
    Ok(Next::Read(compared, used))
}

/// Reads the message at the front of `rest`, and applies it to the known state if it is legal.
fn read_message(
    alloc: Global,
    known: &mut Known,
    updates: &[Update],
    comparison: Comparison,
    rest: &[u8],
) -> Result<Next, Memory>
    requires { rest.now ≢ [] }
    ensures { IfOk result (λ next. IsNext known.old updates.now comparison rest.now next known.new) }
{
    match front(known.received(), rest) {
        Ok(Some((found, used))) => {
            let message = found.to_owned(alloc)?;
            follow_if_legal(known, updates, comparison, message, used)
        }
        Ok(None) => Ok(Next::Illegal(Illegal::Cut)),
        Err(breach) => Ok(Next::Illegal(Illegal::Decode(breach))),
    }
}

/// Returns why the known state refuses an update that was read in place, if it does. Doesn't allocate.
fn refusal_of_update(known: &Known, update: &UpdateRef<'_>) -> Option<StepError>
    requires { fits known.now.state.received (messages.Update update.now) ≡ true }
    ensures { result ≡ update_refusal known.now update.now (selected_table known.now.state.received) }
{
    match known.state().refusal(update.number(), update.name()) {
        Some(refusal) => Some(StepError::from(refusal)),
        None => None,
    }
}

/// Returns why the known state refuses a message that was read in place, if it does. Doesn't allocate, and so leaves it
/// open whether a definition is the roster's.
fn refusal_in_place(known: &Known, message: &MessageRef<'_>) -> Option<StepError>
    requires { fits known.now.state.received (owned_message message.now) ≡ true }
    ensures refused { IfSome result (λ e. Refuses known.now (owned_message message.now) e) }
    ensures taken { IfNone result (IsDefinition (owned_message message.now) ⊎ IsTakenBy known.now (owned_message message.now)) }
{
    match message {
        MessageRef::Update(update) => refusal_of_update(known, update),
        MessageRef::Switch(id) => known.refusal(&Message::Switch(*id)),
        MessageRef::Define(_)
        | MessageRef::Control(_)
        | MessageRef::Error(_)
        | MessageRef::Ack { .. }
        | MessageRef::Other(_) => None,
    }
}

/// Returns what a stream is if it is empty, or if it isn't legal because of the bytes at its front. Doesn't allocate.
fn read_in_place(known: &Known, stream: &[u8]) -> Option<Reading>
    ensures read { IfSome result (λ reading. (us : List Update) → IsReading known.now us stream.now reading) }
    ensures message { IfNone result (BeginsUnrefused known.now stream.now) }
{
    if stream.is_empty() {
        return Some(Reading::Legal(Comparison::Same(0)));
    }
    match front(known.received(), stream) {
        Ok(Some((message, _))) => match refusal_in_place(known, &message) {
            Some(error) => Some(Reading::Illegal(Illegal::Step(error), 0)),
            None => None,
        },
        Ok(None) => Some(Reading::Illegal(Illegal::Cut, 0)),
        Err(breach) => Some(Reading::Illegal(Illegal::Decode(breach), 0)),
    }
}

/// Reads a stream message by message from the known state on, as far as it is legal, and compares what it carries with
/// `updates`.
fn read_messages(
    alloc: Global,
    known: &Known,
    updates: &[Update],
    stream: &[u8],
) -> Result<Reading, Memory>
    ensures { IfOk result (λ reading. IsReading known.now updates.now stream.now reading) }
{
    let mut after = known.copy(alloc)?;
    let mut comparison = Comparison::Same(0);
    let mut place = 0;
    while place < stream.len() {
        match read_message(alloc, &mut after, updates, comparison, &stream[place..])? {
            Next::Read(compared, used) => {
                comparison = compared;
                place += used;
            }
            Next::Illegal(illegal) => return Ok(Reading::Illegal(illegal, place)),
        }
    }
    Ok(Reading::Legal(comparison))
}

/// Reads a stream from the known state on, as far as it is legal, and compares what it carries with `updates`. Allocates
/// only if a whole message is at its front, and then only for a definition or a message that the known state doesn't
/// refuse.
pub fn read(
    alloc: Global,
    known: &Known,
    updates: &[Update],
    stream: &[u8],
) -> Result<Reading, Memory>
    ensures read { IfOk result (λ reading. IsReading known.now updates.now stream.now reading) }
    ensures memory { IfErr result (λ refused. BeginsUnrefused known.now stream.now) }
{
    match read_in_place(known, stream) {
        Some(reading) => Ok(reading),
        None => read_messages(alloc, known, updates, stream),
    }
}
