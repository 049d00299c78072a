//! A session at work.

ghost use Rattle.std.specs.Prelude.{◌≡◌, ◌≢◌, ◌↔◌, [], ℕ, List, Ok, Option, Err, IfErr, IfOk, OnErr, OnOk};
ghost use Rattle.std.specs.Io.KnownBytes.{Consumes, IsAtEnd};
ghost use Rattle.peers_devices.specs.Writing.{AreWritten, Balks, written};
ghost use Rattle.peers_devices.specs.Failures.{Rose};
ghost use Rattle.session_core.specs.declared.error.SessionError.{SessionError};
ghost use Rattle.session_core.specs.declared.error.SessionError.TheVariants as refusals;
ghost use Rattle.session_core.specs.declared.event.Event.{Event};
ghost use Rattle.session_core.specs.declared.state.State.TheVariants as states;
ghost use Rattle.session_core.specs.Keeping.{is_staying};
ghost use Rattle.session_core.specs.Sessions.{Refuses, state_of};
ghost use Rattle.peers_engine.specs.declared.errors.EngineError.TheVariants as errors;
ghost use Rattle.peers_engine.specs.declared.outcome.Outcome.TheVariants as outcomes;
ghost use Rattle.peers_engine.specs.Acting.{worker};
ghost use Rattle.peers_engine.specs.Reading.{IsRead};
ghost use Rattle.peers_engine.specs.Turns.{Breaks, BreaksAt, Halts, Idles, Moves, Reacts, StopsTurn, TakesTurn, Turns, Works, WorksInTurn, first_event};

use crate::context::Context;
use crate::errors::EngineError;
use crate::gate::{AlwaysOpen, Gate};
use crate::outcome::Outcome;
use crate::turning::{take_and_end, turn_and_end};
use peers_devices::{Faults, Writes};
use session_core::{Event, Session};
use std::alloc::Global;
use std::io::{Read, Write};
use std::sync::Wait;
use table_shards::{Seat, Shards};
use table_types::Moment;

/// A session at work: the session, the seat from which it calls the tables, and its number in them.
#[derive(Drop)]
pub struct Worker {
    /// The session.
    pub session: Session,
    /// The seat from which the session calls the tables.
    pub seat: Seat,
    /// The session's number in the tables.
    pub number: u32,
}

impl Worker {
    /// Takes one turn of the session, as the function `turn` does for one whose parts stand alone. The seat keeps the
    /// receipts of what the turn did, after an error too. Counts the turn's writes to `output` in `writes`.
    ///
    /// Each learn and each copy comes at `now`; for a session that stays it comes at the table's latest moment if that is later.
    pub fn turn<H: Wait, R: Read + Faults, W: Write + Faults, G: Gate>(
        &mut self,
        rt: &H,
        alloc: Global,
        input: &mut R,
        output: &mut W,
        writes: &mut Writes,
        gate: &G,
        shards: &Shards,
        now: Moment,
    ) -> Result<Outcome, EngineError>
        ensures run { OnOk result (Turns now self.old.session self.new.session) }
        ensures closed { IfOk result (λ outcome. (outcome ≡ outcomes.Closed) ↔ (state_of self.new.session.session.phase ≡ states.Ended)) }
        ensures idled { result ≡ Ok outcomes.Idled
            → Idles (worker self.old.session self.old.seat self.old.number now) (first_event (state_of self.old.session.session.phase)) (worker self.new.session self.new.seat self.new.number now)
            × Consumes (R.remaining input.old) (R.remaining input.new) [] × AreWritten (written (W.contents output.old) writes.old) (written (W.contents output.new) writes.new) [] }
        ensures worked { result ≡ Ok outcomes.Worked → (read out : List ℕ) × WorksInTurn (input.new ≡ input.old) (IsAtEnd (R.remaining input.new)) (worker self.old.session self.old.seat self.old.number now) read out (worker self.new.session self.new.seat self.new.number now)
            × Consumes (R.remaining input.old) (R.remaining input.new) read × AreWritten (written (W.contents output.old) writes.old) (written (W.contents output.new) writes.new) out }
        ensures broken { OnErr result (Breaks now self.old.session self.new.session) }
        ensures ended { OnErr result (state_of self.new.session.session.phase ≡ states.Ended) }
        ensures seat { self.new.seat.number ≡ self.old.seat.number }
        ensures number { self.new.number ≡ self.old.number }
        ensures manner { is_staying self.new.session.manner ≡ is_staying self.old.session.manner }
        ensures written { OnOk result ((received : Option Event) × (read out : List ℕ) × IsRead (IsAtEnd (R.remaining input.new)) received read
            × TakesTurn (input.new ≡ input.old) (worker self.old.session self.old.seat self.old.number now) received out (worker self.new.session self.new.seat self.new.number now)
            × Consumes (R.remaining input.old) (R.remaining input.new) read
            × AreWritten (written (W.contents output.old) writes.old) (written (W.contents output.new) writes.new) out) }
        ensures stopped { IfErr result (λ e. (received : Option Event) × (read out : List ℕ) × IsRead (IsAtEnd (R.remaining input.new)) received read
            × StopsTurn shards.now (input.new ≡ input.old) (worker self.old.session self.old.seat self.old.number now) received e out self.new.session self.new.seat
            × Consumes (R.remaining input.old) (R.remaining input.new) read
            × AreWritten (written (W.contents output.old) writes.old) (written (W.contents output.new) writes.new) out) }
        ensures read { result ≡ Err errors.Read → Rose (R.failed input.old) (R.failed input.new) }
        ensures balks { (sent : ℕ) → result ≡ Err (errors.Write sent) → Balks (W.failed output.old) (W.failed output.new) writes.old writes.new }
        ensures refused { (e : SessionError) → e ≢ refusals.Memory → Refuses self.old.session.session.phase (first_event (state_of self.old.session.session.phase)) e
            → (result ≡ Err (errors.Session e)) × (input.new ≡ input.old) × (output.new ≡ output.old) × (writes.new ≡ writes.old) }
        ensures over { state_of self.old.session.session.phase ≡ states.Ended
            → (result ≡ Err (errors.Session refusals.Ended)) × (input.new ≡ input.old) × (output.new ≡ output.old) × (writes.new ≡ writes.old) }
    {
        let context = Context {
            rt,
            alloc,
            gate,
            shards,
            number: self.number,
            moment: now,
            failures: output.failures(),
        };
        turn_and_end(
            &context,
            &mut self.session,
            input,
            output,
            writes,
            &mut self.seat,
        )
    }

    /// Gives the session an event of this node's own and performs what it asks for: a tick, a request for a resync, or word that this
    /// node is up to date. Doesn't read. After an error the session is over, as after one of a turn. Counts its writes to `output` in
    /// `writes`.
    pub fn take<H: Wait, W: Write + Faults>(
        &mut self,
        rt: &H,
        alloc: Global,
        output: &mut W,
        writes: &mut Writes,
        shards: &Shards,
        event: Event,
        now: Moment,
    ) -> Result<Outcome, EngineError>
        ensures run { OnOk result (Moves now event self.old.session self.new.session) }
        ensures taken { OnOk result ((out : List ℕ) × Reacts (worker self.old.session self.old.seat self.old.number now) event out (worker self.new.session self.new.seat self.new.number now)
            × AreWritten (written (W.contents output.old) writes.old) (written (W.contents output.new) writes.new) out) }
        ensures closed { IfOk result (λ outcome. (outcome ≡ outcomes.Closed) ↔ (state_of self.new.session.session.phase ≡ states.Ended)) }
        ensures idled { result ≡ Ok outcomes.Idled → Idles (worker self.old.session self.old.seat self.old.number now) event (worker self.new.session self.new.seat self.new.number now)
            × AreWritten (written (W.contents output.old) writes.old) (written (W.contents output.new) writes.new) [] }
        ensures worked { result ≡ Ok outcomes.Worked → (out : List ℕ) × Works (worker self.old.session self.old.seat self.old.number now) event out (worker self.new.session self.new.seat self.new.number now) × AreWritten (written (W.contents output.old) writes.old) (written (W.contents output.new) writes.new) out }
        ensures broken { OnErr result (BreaksAt now event self.old.session self.new.session) }
        ensures ended { OnErr result (state_of self.new.session.session.phase ≡ states.Ended) }
        ensures stopped { IfErr result (λ e. (out : List ℕ) × Halts shards.now (worker self.old.session self.old.seat self.old.number now) event e out self.new.session self.new.seat
            × AreWritten (written (W.contents output.old) writes.old) (written (W.contents output.new) writes.new) out) }
        ensures unread { IfErr result (λ e. e ≢ errors.Read) }
        ensures balks { (sent : ℕ) → result ≡ Err (errors.Write sent) → Balks (W.failed output.old) (W.failed output.new) writes.old writes.new }
        ensures refused { (e : SessionError) → e ≢ refusals.Memory → Refuses self.old.session.session.phase event e
            → (result ≡ Err (errors.Session e)) × (output.new ≡ output.old) × (writes.new ≡ writes.old) }
        ensures over { state_of self.old.session.session.phase ≡ states.Ended
            → (result ≡ Err (errors.Session refusals.Ended)) × (output.new ≡ output.old) × (writes.new ≡ writes.old) }
        ensures seat { self.new.seat.number ≡ self.old.seat.number }
        ensures number { self.new.number ≡ self.old.number }
        ensures manner { is_staying self.new.session.manner ≡ is_staying self.old.session.manner }
    {
        let context = Context {
            rt,
            alloc,
            gate: &AlwaysOpen,
            shards,
            number: self.number,
            moment: now,
            failures: output.failures(),
        };
        take_and_end(
            &context,
            &mut self.session,
            output,
            writes,
            &mut self.seat,
            event,
        )
    }
}
