//! Plays stories of sessions.

use crate::machine::{After, Asked, Given, Peer, Step, Story};
use crate::sessions::{accepting, connecting};
use learner::Fault;
use session_core::{Action, Event, Session, SessionError, State};
use std::alloc::Global;
use table_types::{Items, Moment};
use tests_play_data::parts::{T1, alone};

/// Makes the session of `peer`.
fn session(alloc: Global, peer: &Peer) -> Option<Session> {
    match peer {
        Peer::Connector => connecting(alloc, alone(alloc, &T1)?, false),
        Peer::Acceptor { up_to_date } => accepting(alloc, alone(alloc, &T1)?, *up_to_date),
    }
}

fn event(alloc: Global, given: &Given) -> Option<Event> {
    Some(match given {
        Given::Opened => Event::Opened,
        Given::Bytes(bytes) => Event::Bytes(Items::new(Vec::from_slice(alloc, *bytes).ok()?)),
        Given::End => Event::End,
        Given::Turn => Event::Turn,
        Given::Nothing(table) => Event::Nothing(*table),
    })
}

fn is_asked(action: &Action, asked: &Asked) -> bool {
    match (action, asked) {
        (Action::Send(bytes), Asked::Send(expected)) => bytes.as_slice() == *expected,
        (Action::Learn(update), Asked::Learn(table, number)) => {
            update.table == *table && update.number == *number
        }
        (Action::Reopen(table), Asked::Reopen(id)) => *table == *id,
        (Action::Copy { table, kind }, Asked::Copy(id, expected)) => {
            *table == *id && *kind == *expected
        }
        (Action::Part(kind), Asked::Part(expected)) => *kind == *expected,
        (Action::Close, Asked::Close) => true,
        _ => false,
    }
}

fn are_asked(actions: &[Action], asked: &[Asked]) -> bool {
    if actions.len() != asked.len() {
        return false;
    }
    for (action, expected) in actions.iter().zip(asked) {
        if !is_asked(action, expected) {
            return false;
        }
    }
    true
}

/// Gives the session an event. It hides what `on` ensures, so that the proofs of its callers don't go through it.
fn answer(
    alloc: Global,
    session: &mut Session,
    given: &Given,
) -> Option<Result<Vec<Action>, SessionError>> {
    let event = event(alloc, given)?;
    Some(session.on(event, Moment::least()))
}

fn is_step(alloc: Global, session: &mut Session, (given, asked, state): &Step) -> bool {
    match answer(alloc, session, given) {
        Some(Ok(actions)) => { are_asked(actions.as_slice(), *asked) && session.state() == *state }
        _ => false,
    }
}

fn makes(alloc: Global, session: &mut Session, runs: &[&[Step]]) -> bool {
    for run in runs {
        for step in *run {
            if !is_step(alloc, session, step) {
                return false;
            }
        }
    }
    true
}

/// Returns whether the session refuses the event for that, and is over.
fn refuses(alloc: Global, session: &mut Session, given: &Given, error: SessionError) -> bool {
    match answer(alloc, session, given) {
        Some(Err(found)) => found == error && session.state() == State::Ended,
        _ => false,
    }
}

fn says(session: &Session, confirmed: bool, fault: Option<Fault>) -> bool {
    session.confirmed() == confirmed && session.fault() == fault
}

fn is_left(alloc: Global, session: &mut Session, after: &After) -> bool {
    match after {
        After::Plain => says(session, false, None),
        After::Confirmed => says(session, true, None),
        After::Fault(fault) => says(session, false, Some(*fault)),
        After::Speaks(version) => {
            says(session, false, None) && session.version() == Some(*version)
        }
        After::Over => {
            says(session, false, None) && refuses(alloc, session, &Given::Turn, SessionError::Ended)
        }
        After::Unasked(given) => {
            says(session, false, None) && refuses(alloc, session, given, SessionError::Unasked)
        }
    }
}

fn is_played(alloc: Global, story: &Story, after: &After) -> bool {
    match session(alloc, &story.peer) {
        Some(mut session) => {
            makes(alloc, &mut session, story.runs) && is_left(alloc, &mut session, after)
        }
        None => false,
    }
}

/// Returns the index of the first of the story's ends that its session doesn't reach, or 0 if it has none.
fn failing_end(alloc: Global, story: &Story) -> Option<usize> {
    for (place, after) in story.after.iter().enumerate() {
        if !is_played(alloc, story, after) {
            return Some(place);
        }
    }
    if story.after.is_empty() {
        Some(0)
    } else {
        None
    }
}

/// Plays the stories. Returns the name of the first that fails, and the index of the end that its session doesn't reach.
pub fn first_failing(alloc: Global, stories: &[Story]) -> Option<(&'static str, usize)> {
    for story in stories {
        if let Some(place) = failing_end(alloc, story) {
            return Some((story.name, place));
        }
    }
    None
}
