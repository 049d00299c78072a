//! What a session asks its caller to do.

ghost use Rattle.std.specs.Prelude.{◌≡◌, ◌++◌, ◌∷◌, [], IfOk, OnOk};
ghost use Rattle.session_core.specs.Actions.{confirms, is_confirmation};

use peers_msg::ErrorKind;
use std::alloc::Global;
use table_types::{Batch, CopyKind, Items, Memory, Update};

/// One thing to do for a session. The caller performs a session's actions in order.
#[derive(Debug, Drop)]
pub enum Action {
    /// Write these bytes.
    Send(Items<u8>),
    /// Learn this update of a table of the roster. A full table skips it.
    Learn(Update),
    /// Pass on that the remote peer acknowledged the updates of a table up to `number`. The answer is `Settled`, or
    /// `Refused` if `number` is above every number taught.
    Ack {
        /// The table's id.
        table: u64,
        /// The number of the last update that the remote peer acknowledged.
        number: u32,
    },
    /// Close the session in the table with this id and open it anew.
    Reopen(u64),
    /// Copy a batch from a table. The answer is `Copied`, or `Nothing` if the table has nothing to teach.
    Copy {
        /// The table's id.
        table: u64,
        /// Which rows to copy: this node's own, or every row in a resync.
        kind: CopyKind,
    },
    /// Write the lesson of this batch, starting from the session's known state. The answer is `Written`.
    Teach(Batch),
    /// Write this error message and close the connection.
    Part(ErrorKind),
    /// Close the connection.
    Close,
}

/// Appends an action.
pub(crate) fn push(actions: &mut Vec<Action>, action: Action) -> Result<(), Memory>
    ensures { OnOk result (actions.new.items ≡ actions.old.items ++ (action ∷ [])) }
{
    actions.push(action)?;
    Ok(())
}

/// Returns a list of this one action.
pub(crate) fn only(alloc: Global, action: Action) -> Result<Vec<Action>, Memory>
    ensures { IfOk result (λ actions. actions.items ≡ action ∷ []) }
{
    let mut actions = Vec::new(alloc);
    push(&mut actions, action)?;
    Ok(actions)
}

/// Returns whether an action sends resync confirmed.
fn is_confirmation(action: &Action) -> bool
    ensures { result ≡ is_confirmation action.now }
{
    match action {
        Action::Send(bytes) => bytes.as_slice() == [0, 3].as_slice(),
        Action::Learn(_)
        | Action::Ack {
            table: _,
            number: _,
        }
        | Action::Reopen(_)
        | Action::Copy { table: _, kind: _ }
        | Action::Teach(_)
        | Action::Part(_)
        | Action::Close => false,
    }
}

/// Returns whether one of the actions sends resync confirmed.
pub(crate) fn confirms(actions: &[Action]) -> bool
    ensures { result ≡ confirms actions.now }
{
    for action in actions {
        if is_confirmation(action) {
            return true;
        }
    }
    false
}
