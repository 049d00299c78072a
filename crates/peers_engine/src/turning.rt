//! Turns of a session, and events of its node's own.

ghost use Rattle.std.specs.Prelude.{◌≡◌, ◌≢◌, ◌↔◌, [], false, true, Ok, Err, IfErr, IfOk, List, OnErr, OnOk, Option, Some, ℕ};
ghost use Rattle.std.specs.List.{list_all};
ghost use Rattle.std.specs.Io.KnownBytes.{Appends, Consumes, IsAtEnd};
ghost use Rattle.peers_devices.specs.Writing.{AreWritten, Balks, written};
ghost use Rattle.peers_devices.specs.Failures.{Rose};
ghost use Rattle.session_core.specs.declared.action.Action.{Action};
ghost use Rattle.session_core.specs.declared.error.SessionError.{SessionError};
ghost use Rattle.session_core.specs.declared.error.SessionError.TheVariants as refusals;
ghost use Rattle.session_core.specs.declared.event.Event.{Event};
ghost use Rattle.session_core.specs.declared.state.State.TheVariants as states;
ghost use Rattle.session_core.specs.Keeping.{is_staying, progress_in};
ghost use Rattle.session_core.specs.Sessions.{Refuses, ended, state_of};
ghost use Rattle.session_core.specs.Hearing.{asked_in};
ghost use Rattle.peers_engine.specs.declared.errors.EngineError.TheVariants as errors;
ghost use Rattle.peers_engine.specs.declared.outcome.Outcome.TheVariants as outcomes;
ghost use Rattle.peers_engine.specs.declared.turned.Turned.TheVariants as turns;
ghost use Rattle.peers_engine.specs.Acting.{Acts, Stops, worker};
ghost use Rattle.peers_engine.specs.Reading.{IsRead};
ghost use Rattle.peers_engine.specs.Turns.{Breaks, BreaksAt, Halts, HaltsAt, Moves, Receives, Idles, Reacts, StopsTurn, TakesTurn, Turns, Works, WorksInTurn, first_event, is_push};

use crate::context::Context;
use crate::doing::act;
use crate::errors::EngineError;
use crate::gate::Gate;
use crate::outcome::Outcome;
use crate::reading::read_event;
use crate::turned::Turned;
use peers_devices::{Faults, Writes};
use session_core::{Action, Event, Session, State};
use std::alloc::Global;
use std::io::{Read, Write};
use std::sync::Wait;
use table_shards::{Seat, Shards};
use table_types::{CopyKind, Moment};

/// Returns the event with which a turn begins.
pub(crate) fn first_event(state: State) -> Event
    ensures { result ≡ first_event state }
{
    match state {
        State::New => Event::Opened,
        State::Hello | State::Ready | State::Teaching | State::Ended => Event::Turn,
    }
}

/// Performs the actions in order, and returns what the session asks for when it receives their answers.
fn do_all<H: Wait, G: Gate, W: Write + Faults>(
    context: &Context<H, G>,
    session: &mut Session,
    output: &mut W,
    writes: &mut Writes,
    seat: &mut Seat,
    actions: Vec<Action>,
) -> Result<Vec<Action>, EngineError>
    ensures seat { seat.new.number ≡ seat.old.number }
    ensures manner { is_staying session.new.manner ≡ is_staying session.old.manner }
    ensures done { IfOk result (λ given. (answers : List (Event × List Action)) × (out : List ℕ)
        × Acts (worker session.old seat.old context.now.number context.now.moment) actions.items answers out (worker session.new seat.new context.now.number context.now.moment) × (given.items ≡ asked_in answers)
        × AreWritten (written (W.contents output.old) writes.old) (written (W.contents output.new) writes.new) out) }
    ensures failed { IfErr result (λ e. (answers : List (Event × List Action)) × (out : List ℕ)
        × Stops context.now.shards.now (worker session.old seat.old context.now.number context.now.moment) actions.items e answers out session.new seat.new
        × AreWritten (written (W.contents output.old) writes.old) (written (W.contents output.new) writes.new) out) }
    ensures unread { IfErr result (λ e. e ≢ errors.Read) }
    ensures balks { (sent : ℕ) → result ≡ Err (errors.Write sent) → Balks context.now.failures (W.failed output.new) writes.old writes.new }
{
    let mut given = Vec::new(context.alloc);
    for action in actions {
        act(context, session, output, writes, seat, action, &mut given)?;
    }
    Ok(given)
}

/// Returns whether the actions only copy this node's own rows.
pub(crate) fn are_pushes(actions: &[Action]) -> bool
    ensures { result ≡ list_all is_push actions.now }
{
    actions.iter().all(|action| matches!(
        action,
        Action::Copy {
            kind: CopyKind::Push,
            ..
        }
    ))
}

/// Gives the session an event, performs what it asks for, and then what it asks for when it receives the answers, and so on.
/// Returns whether there was nothing to do: no action, or only copies of this node's own rows from tables that had nothing to teach.
///
/// A copy's answer asks for a lesson at most, the end of a lesson for an acknowledgement to be passed on, and its answer for nothing
/// that has one. So nothing is left to do after the fourth list of actions.
fn react<H: Wait, G: Gate, W: Write + Faults>(
    context: &Context<H, G>,
    session: &mut Session,
    output: &mut W,
    writes: &mut Writes,
    seat: &mut Seat,
    event: Event,
) -> Result<bool, EngineError>
    ensures seat { seat.new.number ≡ seat.old.number }
    ensures manner { is_staying session.new.manner ≡ is_staying session.old.manner }
    ensures done { OnOk result ((out : List ℕ) × Reacts (worker session.old seat.old context.now.number context.now.moment) event out (worker session.new seat.new context.now.number context.now.moment)
        × AreWritten (written (W.contents output.old) writes.old) (written (W.contents output.new) writes.new) out) }
    ensures failed { IfErr result (λ e. (out : List ℕ) × Halts context.now.shards.now (worker session.old seat.old context.now.number context.now.moment) event e out session.new seat.new
        × AreWritten (written (W.contents output.old) writes.old) (written (W.contents output.new) writes.new) out) }
    ensures unread { IfErr result (λ e. e ≢ errors.Read) }
    ensures balks { (sent : ℕ) → result ≡ Err (errors.Write sent) → Balks context.now.failures (W.failed output.new) writes.old writes.new }
    ensures idle { result ≡ Ok true → Idles (worker session.old seat.old context.now.number context.now.moment) event (worker session.new seat.new context.now.number context.now.moment) × AreWritten (written (W.contents output.old) writes.old) (written (W.contents output.new) writes.new) [] }
    ensures busy { result ≡ Ok false → (out : List ℕ) × Works (worker session.old seat.old context.now.number context.now.moment) event out (worker session.new seat.new context.now.number context.now.moment) × AreWritten (written (W.contents output.old) writes.old) (written (W.contents output.new) writes.new) out }
    ensures refused { (e : SessionError) → e ≢ refusals.Memory → Refuses session.old.session.phase event e
        → (result ≡ Err (errors.Session e)) × (output.new ≡ output.old) × (writes.new ≡ writes.old) }
{
    let first = session.on(event, context.moment)?;
    let may_idle = are_pushes(first.as_slice());
    let second = do_all(context, session, output, writes, seat, first)?;
    let is_idle = may_idle && second.is_empty();
    let third = do_all(context, session, output, writes, seat, second)?;
    let fourth = do_all(context, session, output, writes, seat, third)?;
    do_all(context, session, output, writes, seat, fourth)?;
    Ok(is_idle)
}

/// Reads once, and reacts to what was read. Returns whether nothing was read.
fn receive<H: Wait, G: Gate, R: Read + Faults, W: Write + Faults>(
    context: &Context<H, G>,
    session: &mut Session,
    input: &mut R,
    output: &mut W,
    writes: &mut Writes,
    seat: &mut Seat,
) -> Result<bool, EngineError>
    ensures seat { seat.new.number ≡ seat.old.number }
    ensures manner { is_staying session.new.manner ≡ is_staying session.old.manner }
    ensures done { OnOk result ((received : Option Event) × (read out : List ℕ) × IsRead (IsAtEnd (R.remaining input.new)) received read
        × Receives (worker session.old seat.old context.now.number context.now.moment) received out (worker session.new seat.new context.now.number context.now.moment)
        × Consumes (R.remaining input.old) (R.remaining input.new) read
        × AreWritten (written (W.contents output.old) writes.old) (written (W.contents output.new) writes.new) out) }
    ensures nothing { result ≡ Ok true → Consumes (R.remaining input.old) (R.remaining input.new) []
        × (session.new ≡ session.old) × (seat.new ≡ seat.old) × (output.new ≡ output.old) × (writes.new ≡ writes.old) }
    ensures something { result ≡ Ok false → (event : Event) × (read out : List ℕ) × IsRead (IsAtEnd (R.remaining input.new)) (Some event) read
        × Reacts (worker session.old seat.old context.now.number context.now.moment) event out (worker session.new seat.new context.now.number context.now.moment)
        × Consumes (R.remaining input.old) (R.remaining input.new) read × AreWritten (written (W.contents output.old) writes.old) (written (W.contents output.new) writes.new) out }
    ensures failed { IfErr result (λ e. (received : Option Event) × (read out : List ℕ) × IsRead (IsAtEnd (R.remaining input.new)) received read
        × HaltsAt context.now.shards.now (worker session.old seat.old context.now.number context.now.moment) received e out session.new seat.new
        × Consumes (R.remaining input.old) (R.remaining input.new) read
        × AreWritten (written (W.contents output.old) writes.old) (written (W.contents output.new) writes.new) out) }
    ensures read { result ≡ Err errors.Read → Rose (R.failed input.old) (R.failed input.new) }
    ensures balks { (sent : ℕ) → result ≡ Err (errors.Write sent) → Balks context.now.failures (W.failed output.new) writes.old writes.new }
{
    match read_event(context.alloc, input)? {
        Some(event) => {
            react(context, session, output, writes, seat, event)?;
            Ok(false)
        }
        None => Ok(true),
    }
}

/// Takes a turn, but leaves it to the caller to end the session after an error. Returns whether there was nothing to do and nothing
/// to read.
fn take_turn<H: Wait, G: Gate, R: Read + Faults, W: Write + Faults>(
    context: &Context<H, G>,
    session: &mut Session,
    input: &mut R,
    output: &mut W,
    writes: &mut Writes,
    seat: &mut Seat,
) -> Result<bool, EngineError>
    ensures seat { seat.new.number ≡ seat.old.number }
    ensures manner { is_staying session.new.manner ≡ is_staying session.old.manner }
    ensures done { OnOk result ((received : Option Event) × (read out : List ℕ) × IsRead (IsAtEnd (R.remaining input.new)) received read
        × TakesTurn (input.new ≡ input.old) (worker session.old seat.old context.now.number context.now.moment) received out (worker session.new seat.new context.now.number context.now.moment)
        × Consumes (R.remaining input.old) (R.remaining input.new) read
        × AreWritten (written (W.contents output.old) writes.old) (written (W.contents output.new) writes.new) out) }
    ensures idle { result ≡ Ok true → Idles (worker session.old seat.old context.now.number context.now.moment) (first_event (state_of session.old.session.phase)) (worker session.new seat.new context.now.number context.now.moment)
        × Consumes (R.remaining input.old) (R.remaining input.new) [] × AreWritten (written (W.contents output.old) writes.old) (written (W.contents output.new) writes.new) [] }
    ensures busy { result ≡ Ok false → (read out : List ℕ) × WorksInTurn (input.new ≡ input.old) (IsAtEnd (R.remaining input.new)) (worker session.old seat.old context.now.number context.now.moment) read out (worker session.new seat.new context.now.number context.now.moment)
        × Consumes (R.remaining input.old) (R.remaining input.new) read × AreWritten (written (W.contents output.old) writes.old) (written (W.contents output.new) writes.new) out }
    ensures failed { IfErr result (λ e. (received : Option Event) × (read out : List ℕ) × IsRead (IsAtEnd (R.remaining input.new)) received read
        × StopsTurn context.now.shards.now (input.new ≡ input.old) (worker session.old seat.old context.now.number context.now.moment) received e out session.new seat.new
        × Consumes (R.remaining input.old) (R.remaining input.new) read
        × AreWritten (written (W.contents output.old) writes.old) (written (W.contents output.new) writes.new) out) }
    ensures read { result ≡ Err errors.Read → Rose (R.failed input.old) (R.failed input.new) }
    ensures balks { (sent : ℕ) → result ≡ Err (errors.Write sent) → Balks context.now.failures (W.failed output.new) writes.old writes.new }
    ensures refused { (e : SessionError) → e ≢ refusals.Memory → Refuses session.old.session.phase (first_event (state_of session.old.session.phase)) e
        → (result ≡ Err (errors.Session e)) × (input.new ≡ input.old) × (output.new ≡ output.old) × (writes.new ≡ writes.old) }
{
    let event = first_event(session.state());
    if react(context, session, output, writes, seat, event)? {
        receive(context, session, input, output, writes, seat)
    } else {
        Ok(false)
    }
}

/// Ends the session after an error.
fn end<H, G>(context: &Context<H, G>, session: &mut Session, error: EngineError)
    ensures ended { session.new.session ≡ ended session.old.session }
    ensures heard { session.new.heard ≡ session.old.heard }
    ensures counts { session.new.counts ≡ session.old.counts }
    ensures progress { progress_in session.new.manner ≡ progress_in session.old.manner }
    ensures manner { is_staying session.new.manner ≡ is_staying session.old.manner }
{
    let event = match error {
        EngineError::Read => Event::ReadFault,
        EngineError::Write { sent: _ } => Event::WriteFault,
        EngineError::Session(_) | EngineError::Memory | EngineError::Strange => Event::End,
    };
    let _closing = session.on(event, context.moment);
}

/// Returns what a turn or an event without an error came to, from whether there was nothing to do.
fn outcome(session: &Session, is_idle: bool) -> Outcome
    ensures closed { (result ≡ outcomes.Closed) ↔ (state_of session.now.session.phase ≡ states.Ended) }
    ensures idled { result ≡ outcomes.Idled → is_idle ≡ true }
    ensures worked { result ≡ outcomes.Worked → is_idle ≡ false }
{
    if session.state() == State::Ended {
        Outcome::Closed
    } else if is_idle {
        Outcome::Idled
    } else {
        Outcome::Worked
    }
}

/// Takes a turn, and ends the session after an error.
pub(crate) fn turn_and_end<H: Wait, G: Gate, R: Read + Faults, W: Write + Faults>(
    context: &Context<H, G>,
    session: &mut Session,
    input: &mut R,
    output: &mut W,
    writes: &mut Writes,
    seat: &mut Seat,
) -> Result<Outcome, EngineError>
    ensures run { OnOk result (Turns context.now.moment session.old session.new) }
    ensures closed { IfOk result (λ outcome. (outcome ≡ outcomes.Closed) ↔ (state_of session.new.session.phase ≡ states.Ended)) }
    ensures idled { result ≡ Ok outcomes.Idled → Idles (worker session.old seat.old context.now.number context.now.moment) (first_event (state_of session.old.session.phase)) (worker session.new seat.new context.now.number context.now.moment)
        × Consumes (R.remaining input.old) (R.remaining input.new) [] × AreWritten (written (W.contents output.old) writes.old) (written (W.contents output.new) writes.new) [] }
    ensures worked { result ≡ Ok outcomes.Worked → (read out : List ℕ) × WorksInTurn (input.new ≡ input.old) (IsAtEnd (R.remaining input.new)) (worker session.old seat.old context.now.number context.now.moment) read out (worker session.new seat.new context.now.number context.now.moment)
        × Consumes (R.remaining input.old) (R.remaining input.new) read × AreWritten (written (W.contents output.old) writes.old) (written (W.contents output.new) writes.new) out }
    ensures broken { OnErr result (Breaks context.now.moment session.old session.new) }
    ensures ended { OnErr result (state_of session.new.session.phase ≡ states.Ended) }
    ensures seat { seat.new.number ≡ seat.old.number }
    ensures manner { is_staying session.new.manner ≡ is_staying session.old.manner }
    ensures written { OnOk result ((received : Option Event) × (read out : List ℕ) × IsRead (IsAtEnd (R.remaining input.new)) received read
        × TakesTurn (input.new ≡ input.old) (worker session.old seat.old context.now.number context.now.moment) received out (worker session.new seat.new context.now.number context.now.moment)
        × Consumes (R.remaining input.old) (R.remaining input.new) read
        × AreWritten (written (W.contents output.old) writes.old) (written (W.contents output.new) writes.new) out) }
    ensures stopped { IfErr result (λ e. (received : Option Event) × (read out : List ℕ) × IsRead (IsAtEnd (R.remaining input.new)) received read
        × StopsTurn context.now.shards.now (input.new ≡ input.old) (worker session.old seat.old context.now.number context.now.moment) received e out session.new seat.new
        × Consumes (R.remaining input.old) (R.remaining input.new) read
        × AreWritten (written (W.contents output.old) writes.old) (written (W.contents output.new) writes.new) out) }
    ensures read { result ≡ Err errors.Read → Rose (R.failed input.old) (R.failed input.new) }
    ensures balks { (sent : ℕ) → result ≡ Err (errors.Write sent) → Balks context.now.failures (W.failed output.new) writes.old writes.new }
    ensures refused { (e : SessionError) → e ≢ refusals.Memory → Refuses session.old.session.phase (first_event (state_of session.old.session.phase)) e
        → (result ≡ Err (errors.Session e)) × (input.new ≡ input.old) × (output.new ≡ output.old) × (writes.new ≡ writes.old) }
    ensures over { state_of session.old.session.phase ≡ states.Ended
        → (result ≡ Err (errors.Session refusals.Ended)) × (input.new ≡ input.old) × (output.new ≡ output.old) × (writes.new ≡ writes.old) }
{
    match take_turn(context, session, input, output, writes, seat) {
        Ok(is_idle) => Ok(outcome(session, is_idle)),
        Err(error) => {
            end(context, session, error);
            Err(error)
        }
    }
}

/// Gives the session an event of this node's own, performs what it asks for, and ends the session after an error.
pub(crate) fn take_and_end<H: Wait, G: Gate, W: Write + Faults>(
    context: &Context<H, G>,
    session: &mut Session,
    output: &mut W,
    writes: &mut Writes,
    seat: &mut Seat,
    event: Event,
) -> Result<Outcome, EngineError>
    ensures run { OnOk result (Moves context.now.moment event session.old session.new) }
    ensures taken { OnOk result ((out : List ℕ) × Reacts (worker session.old seat.old context.now.number context.now.moment) event out (worker session.new seat.new context.now.number context.now.moment)
        × AreWritten (written (W.contents output.old) writes.old) (written (W.contents output.new) writes.new) out) }
    ensures closed { IfOk result (λ outcome. (outcome ≡ outcomes.Closed) ↔ (state_of session.new.session.phase ≡ states.Ended)) }
    ensures idled { result ≡ Ok outcomes.Idled → Idles (worker session.old seat.old context.now.number context.now.moment) event (worker session.new seat.new context.now.number context.now.moment)
        × AreWritten (written (W.contents output.old) writes.old) (written (W.contents output.new) writes.new) [] }
    ensures worked { result ≡ Ok outcomes.Worked → (out : List ℕ) × Works (worker session.old seat.old context.now.number context.now.moment) event out (worker session.new seat.new context.now.number context.now.moment) × AreWritten (written (W.contents output.old) writes.old) (written (W.contents output.new) writes.new) out }
    ensures broken { OnErr result (BreaksAt context.now.moment event session.old session.new) }
    ensures ended { OnErr result (state_of session.new.session.phase ≡ states.Ended) }
    ensures stopped { IfErr result (λ e. (out : List ℕ) × Halts context.now.shards.now (worker session.old seat.old context.now.number context.now.moment) event e out session.new seat.new
        × AreWritten (written (W.contents output.old) writes.old) (written (W.contents output.new) writes.new) out) }
    ensures unread { IfErr result (λ e. e ≢ errors.Read) }
    ensures balks { (sent : ℕ) → result ≡ Err (errors.Write sent) → Balks context.now.failures (W.failed output.new) writes.old writes.new }
    ensures refused { (e : SessionError) → e ≢ refusals.Memory → Refuses session.old.session.phase event e
        → (result ≡ Err (errors.Session e)) × (output.new ≡ output.old) × (writes.new ≡ writes.old) }
    ensures over { state_of session.old.session.phase ≡ states.Ended
        → (result ≡ Err (errors.Session refusals.Ended)) × (output.new ≡ output.old) × (writes.new ≡ writes.old) }
    ensures seat { seat.new.number ≡ seat.old.number }
    ensures manner { is_staying session.new.manner ≡ is_staying session.old.manner }
{
    match react(context, session, output, writes, seat, event) {
        Ok(is_idle) => Ok(outcome(session, is_idle)),
        Err(error) => {
            end(context, session, error);
            Err(error)
        }
    }
}

/// Takes one turn of a session, which has `number` in the tables and works from `seat`. The caller has opened it in
/// each table of its roster; a turn that calls a table in which it isn't open fails with `Strange`.
///
/// The turn opens a new session. For any other it may copy a batch, of at most 512 updates, and write its lesson; if
/// there is nothing to copy, it reads once, at most 4,096 bytes. It performs the session's actions in the order in
/// which the session asks for them.
///
/// The turn holds a table's lock for one call at a time. It holds none while it plans or writes a lesson, or at the
/// gate, at which it stops after a copy, after the plan, and after the lesson is written. It waits as long as a lock,
/// the gate, a read or a write does.
///
/// After an error the session is over. `turn` returns the seat in any case, with the receipts of what was done before the
/// error, and with the latest answer that made no event. It returns `Read` only if the reader's count of failures rose. It
/// returns `Write` for the causes for which `Worker::turn` does, though no contract of `turn` says so; `sent` is below the
/// length of what was being written. After `Memory` a part of a lesson, but not all of it, may
/// be written. The turn skips a read that fails without being counted.
pub fn turn<H: Wait, R: Read + Faults, W: Write + Faults, G: Gate>(
    rt: &H,
    alloc: Global,
    session: &mut Session,
    input: &mut R,
    output: &mut W,
    gate: &G,
    shards: &Shards,
    mut seat: Seat,
    number: u32,
    now: Moment,
) -> (Seat, Result<Turned, EngineError>)
    ensures run { OnOk result.1 (Turns now session.old session.new) }
    ensures closed { IfOk result.1 (λ turned. (turned ≡ turns.Closed) ↔ (state_of session.new.session.phase ≡ states.Ended)) }
    ensures broken { OnErr result.1 (Breaks now session.old session.new) }
    ensures ended { OnErr result.1 (state_of session.new.session.phase ≡ states.Ended) }
    ensures seat { result.0.number ≡ seat.number }
    ensures manner { is_staying session.new.manner ≡ is_staying session.old.manner }
    ensures written { OnOk result.1 ((received : Option Event) × (read out : List ℕ) × IsRead (IsAtEnd (R.remaining input.new)) received read
        × TakesTurn (input.new ≡ input.old) (worker session.old seat number now) received out (worker session.new result.0 number now)
        × Consumes (R.remaining input.old) (R.remaining input.new) read
        × Appends (W.contents output.old) (W.contents output.new) out) }
    ensures stopped { IfErr result.1 (λ e. (received : Option Event) × (read out : List ℕ) × IsRead (IsAtEnd (R.remaining input.new)) received read
        × StopsTurn shards.now (input.new ≡ input.old) (worker session.old seat number now) received e out session.new result.0
        × Consumes (R.remaining input.old) (R.remaining input.new) read
        × Appends (W.contents output.old) (W.contents output.new) out) }
    ensures read { result.1 ≡ Err errors.Read → Rose (R.failed input.old) (R.failed input.new) }
    ensures refused { (e : SessionError) → e ≢ refusals.Memory → Refuses session.old.session.phase (first_event (state_of session.old.session.phase)) e
        → (result.1 ≡ Err (errors.Session e)) × (input.new ≡ input.old) × (output.new ≡ output.old) }
    ensures over { state_of session.old.session.phase ≡ states.Ended
        → (result.1 ≡ Err (errors.Session refusals.Ended)) × (input.new ≡ input.old) × (output.new ≡ output.old) }
{
    let context = Context {
        rt,
        alloc,
        gate,
        shards,
        number,
        moment: now,
        failures: output.failures(),
    };
    let mut writes = Writes::none();
    match turn_and_end(&context, session, input, output, &mut writes, &mut seat) {
        Ok(outcome) => (seat, Ok(outcome.turned())),
        Err(error) => (seat, Err(error)),
    }
}
