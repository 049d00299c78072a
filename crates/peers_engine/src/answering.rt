//! Giving a session the answers to what it asked for.

ghost use Rattle.std.specs.Prelude.{◌≡◌, ◌≢◌, ◌++◌, ℕ, IfErr, List, OnOk, Some};
ghost use Rattle.session_core.specs.declared.action.Action.{Action};
ghost use Rattle.session_core.specs.declared.event.Event.{Event};
ghost use Rattle.session_core.specs.declared.state.State.TheVariants as states;
ghost use Rattle.session_core.specs.Keeping.{is_staying};
ghost use Rattle.session_core.specs.Sessions.{state_of};
ghost use Rattle.session_core.specs.Hearing.{asked_in};
ghost use Rattle.peers_engine.specs.declared.errors.EngineError.TheVariants as errors;
ghost use Rattle.peers_engine.specs.Acting.{DoesNotGoOn, IsGiven};

use crate::errors::EngineError;
use session_core::{Action, Event, Session, State};
use table_types::Moment;

/// Gives the session the answer to an action, and appends what the session then asks for. Gives nothing to a session that
/// is over.
pub(crate) fn give_answer(
    session: &mut Session,
    now: Moment,
    answer: Event,
    given: &mut Vec<Action>,
) -> Result<(), EngineError>
    ensures manner { is_staying session.new.manner ≡ is_staying session.old.manner }
    ensures given { OnOk result ((steps : List (Event × List Action)) × IsGiven session.old now (Some answer) steps session.new
        × (given.new.items ≡ given.old.items ++ asked_in steps)) }
    ensures stuck { IfErr result (λ e. (state_of session.old.session.phase ≢ states.Ended) × DoesNotGoOn session.old now answer e session.new) }
    ensures unwritten { IfErr result (λ e. (sent : ℕ) → e ≢ errors.Write sent) }
{
    if session.state() == State::Ended {
        return Ok(());
    }
    let mut more = session.on(answer, now)?;
    match given.append(&mut more) {
        Ok(()) => Ok(()),
        Err(_) => Err(EngineError::Memory),
    }
}
