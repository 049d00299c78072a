//! Performing a session's actions.

ghost use Rattle.std.specs.Prelude.{◌≡◌, ◌≢◌, ◌∷◌, ◌++◌, [], Err, IfErr, IfOk, OnErr, OnOk, Bool, List, ℕ};
ghost use Rattle.peers_devices.specs.Writing.{AreWritten, Balks, written};
ghost use Rattle.table_types.specs.Batches.{IsBatchFor};
ghost use Rattle.known_state.specs.Known.{KnownState};
ghost use Rattle.session_core.specs.declared.action.Action.{Action};
ghost use Rattle.session_core.specs.declared.action.Action.TheVariants as actions;
ghost use Rattle.session_core.specs.declared.event.Event.{Event};
ghost use Rattle.session_core.specs.declared.event.Event.TheVariants as events;
ghost use Rattle.peers_engine.specs.declared.errors.EngineError.TheVariants as errors;
ghost use Rattle.session_core.specs.Keeping.{is_staying};
ghost use Rattle.session_core.specs.Sessions.{SessionState};
ghost use Rattle.session_core.specs.Hearing.{asked_in};
ghost use Rattle.peers_engine.specs.Acting.{Acts, Stops, worker};
ghost use Rattle.peers_engine.specs.Calls.{IsCopied, IsSettled, IsUncopied, moment_at};
ghost use Rattle.teach_writer.specs.Lessons.{IsShortestLesson};
ghost use Rattle.teach_writer.specs.Pieces.{bytes_left};
ghost use Rattle.peers_engine.specs.Doing.{Fails, Falls, IsRefusal, error_text};

use crate::answering::give_answer;
use crate::context::Context;
use crate::errors::EngineError;
use crate::gate::{Gate, Stage};
use crate::tables::{acknowledge, copy, learn, opened_with, reopen, settle};
use crate::writing::{PiecesError, write_lesson_counted, write_pieces_counted};
use known_state::Known;
use peers_devices::{Faults, Writes};
use peers_msg::ErrorKind;
use session_core::{Action, Event, Session};
use std::io::Write;
use std::sync::Wait;
use table_shards::Seat;
use table_types::{Batch, CopyKind};
use teach_writer::Pieces;

/// Writes all of the bytes. Gives up on a write that fails if the writer's count of failed calls is then above `earlier`.
fn send<W: Write + Faults>(
    output: &mut W,
    writes: &mut Writes,
    earlier: u64,
    bytes: &[u8],
) -> Result<(), EngineError>
    ensures ok { OnOk result (AreWritten (written (W.contents output.old) writes.old) (written (W.contents output.new) writes.new) bytes.now) }
    ensures failed { IfErr result (λ e. Falls bytes.now e (written (W.contents output.old) writes.old) (written (W.contents output.new) writes.new)) }
    ensures balks { OnErr result (Balks earlier (W.failed output.new) writes.old writes.new) }
{
    match write_lesson_counted(output, writes, earlier, bytes) {
        Ok(()) => Ok(()),
        Err(fault) => Err(EngineError::Write { sent: fault.sent }),
    }
}

/// Writes an error message, as `send` writes bytes.
pub(crate) fn part<W: Write + Faults>(
    output: &mut W,
    writes: &mut Writes,
    earlier: u64,
    kind: ErrorKind,
) -> Result<(), EngineError>
    ensures ok { OnOk result (AreWritten (written (W.contents output.old) writes.old) (written (W.contents output.new) writes.new) (error_text kind)) }
    ensures failed { IfErr result (λ e. Falls (error_text kind) e (written (W.contents output.old) writes.old) (written (W.contents output.new) writes.new)) }
    ensures balks { OnErr result (Balks earlier (W.failed output.new) writes.old writes.new) }
{
    match kind {
        ErrorKind::Protocol => send(output, writes, earlier, &[1, 0]),
        ErrorKind::SizeLimit => send(output, writes, earlier, &[1, 1]),
    }
}

/// Copies a batch and, if there is one, stops at the gate. `stays` says which moment the copy has (`moment_at`).
pub fn copy_batch<H: Wait, G: Gate>(
    context: &Context<H, G>,
    seat: &mut Seat,
    table: u64,
    kind: CopyKind,
    stays: bool,
) -> Result<Event, EngineError>
    ensures seat { seat.new.number ≡ seat.old.number }
    ensures answer { IfOk result (IsCopied stays context.now.number context.now.moment seat.old table kind seat.new) }
    ensures refused { IfErr result (IsRefusal (seat.new ≡ seat.old) (IsUncopied context.now.shards.now (moment_at stays context.now.moment) context.now.number seat.old table kind seat.new)) }
{
    let copied = copy(context, seat, table, kind, stays)?;
    if let Event::Copied(_, _) = &copied {
        context.gate.at(context.rt, Stage::Copied);
    }
    Ok(copied)
}

/// Plans the lesson of a batch. No table's lock is held. Fails with `Strange` only if the batch isn't one for the tables of the
/// known state.
pub fn plan<H, G>(
    context: &Context<H, G>,
    known: &Known,
    batch: &Batch,
) -> Result<Pieces, EngineError>
    ensures lesson { IfOk result (λ pieces. IsShortestLesson known.now batch.now (bytes_left pieces) pieces.known) }
    ensures refused { IfErr result (IsRefusal (Unit {0}) (IsBatchFor known.now.roster batch.now → ⊥)) }
{
    if !batch.is_for(known.roster()) {
        return Err(EngineError::Strange);
    }
    match Pieces::new(context.alloc, known, batch) {
        Ok(pieces) => Ok(pieces),
        Err(_) => Err(EngineError::Memory),
    }
}

/// Writes the lesson of a batch, starting from `known`. The batch must be the session's latest one when the writing
/// begins. If memory runs out for the lesson's next bytes, any part of it may be written, but not all.
pub(crate) fn teach_batch<H: Wait, G: Gate, W: Write + Faults>(
    context: &Context<H, G>,
    known: &Known,
    output: &mut W,
    writes: &mut Writes,
    seat: &mut Seat,
    batch: &Batch,
) -> Result<Event, EngineError>
    ensures seat { seat.new.number ≡ seat.old.number }
    ensures taught { IfOk result (λ event. (out : List ℕ) × (after : KnownState) × IsShortestLesson known.now batch.now out after
        × (event ≡ events.Written after) × IsSettled context.now.number seat.old batch.now seat.new × AreWritten (written (W.contents output.old) writes.old) (written (W.contents output.new) writes.new) out) }
    ensures failed { (stays : Bool) (session : SessionState) → session.known ≡ known.now
        → IfErr result (λ e. (out : List ℕ) × Fails context.now.shards.now stays context.now.number context.now.moment session seat.old (actions.Teach batch.now) e out seat.new
        × AreWritten (written (W.contents output.old) writes.old) (written (W.contents output.new) writes.new) out) }
    ensures unread { IfErr result (λ e. e ≢ errors.Read) }
    ensures balks { (sent : ℕ) → result ≡ Err (errors.Write sent) → Balks context.now.failures (W.failed output.new) writes.old writes.new }
{
    let pieces = plan(context, known, batch)?;
    context.gate.at(context.rt, Stage::Planned);
    settle(context, seat, batch)?;
    let after = match write_pieces_counted(
        context.alloc,
        output,
        writes,
        context.failures,
        pieces,
    ) {
        Ok((_prices, after)) => after,
        Err(PiecesError::Write { sent }) => return Err(EngineError::Write { sent }),
        Err(PiecesError::Memory { sent: _ }) => return Err(EngineError::Memory),
    };
    context.gate.at(context.rt, Stage::Written);
    Ok(Event::Written(after))
}

/// Performs one action of a session, gives the session its answer, if it has one, and appends what the session then asks for.
///
/// Fails with `Write` if not all of its bytes are written, and leaves the seat as the action does. Fails with `Memory`
/// or `Strange` before any are if the action can't be done; the seat is then as it was, but for the answer of a table that
/// refused, and for the receipt of the close if a table was closed and not opened anew. Fails with `Memory` in the middle
/// of a lesson if memory runs out for its next bytes; the seat is then as the lesson leaves it. If the session refuses the
/// answer, or memory runs out for what the answer asks for, the action was done, and the seat is as the action leaves it.
pub(crate) fn act<H: Wait, G: Gate, W: Write + Faults>(
    context: &Context<H, G>,
    session: &mut Session,
    output: &mut W,
    writes: &mut Writes,
    seat: &mut Seat,
    action: Action,
    given: &mut Vec<Action>,
) -> Result<(), EngineError>
    ensures seat { seat.new.number ≡ seat.old.number }
    ensures manner { is_staying session.new.manner ≡ is_staying session.old.manner }
    ensures done { OnOk result ((answers : List (Event × List Action)) × (out : List ℕ)
        × Acts (worker session.old seat.old context.now.number context.now.moment) (action ∷ []) answers out (worker session.new seat.new context.now.number context.now.moment)
        × (given.new.items ≡ given.old.items ++ asked_in answers)
        × AreWritten (written (W.contents output.old) writes.old) (written (W.contents output.new) writes.new) out) }
    ensures failed { IfErr result (λ e. (answers : List (Event × List Action)) × (out : List ℕ)
        × Stops context.now.shards.now (worker session.old seat.old context.now.number context.now.moment) (action ∷ []) e answers out session.new seat.new
        × AreWritten (written (W.contents output.old) writes.old) (written (W.contents output.new) writes.new) out) }
    ensures unread { IfErr result (λ e. e ≢ errors.Read) }
    ensures balks { (sent : ℕ) → result ≡ Err (errors.Write sent) → Balks context.now.failures (W.failed output.new) writes.old writes.new }
{
    let stays = session.stays();
    match action {
        Action::Send(bytes) => send(output, writes, context.failures, bytes.as_slice()),
        Action::Learn(update) => learn(context, seat, update, stays),
        Action::Reopen(table) => reopen(context, seat, table, opened_with(session.version())),
        Action::Part(kind) => part(output, writes, context.failures, kind),
        Action::Close => Ok(()),
        Action::Ack { table, number } => {
            let answer = acknowledge(context, seat, table, number)?;
            give_answer(session, context.moment, answer, given)
        }
        Action::Copy { table, kind } => {
            let answer = copy_batch(context, seat, table, kind, stays)?;
            give_answer(session, context.moment, answer, given)
        }
        Action::Teach(batch) => {
            let answer = teach_batch(context, session.known(), output, writes, seat, &batch)?;
            give_answer(session, context.moment, answer, given)
        }
    }
}
