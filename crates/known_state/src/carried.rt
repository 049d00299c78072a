//! What messages carry.

ghost use Rattle.std.specs.Prelude.{◌≡◌, ◌∷◌, [], ◌↔◌, Some, IsTrue, List, option_map};
ghost use Rattle.table_types.specs.declared.update.Update.{Update};
ghost use Rattle.peers_msg.specs.declared.message.Message.TheVariants as messages;
ghost use Rattle.known_state.specs.State.{State, Step, name_of};
ghost use Rattle.known_state.specs.Effects.{selected_number};

use crate::state::State;
use peers_msg::UpdateMsg;
use table_types::{Name, Update, are_same_values};

/// Returns whether `name` and `other` are the same name, or both absent.
fn is_called(name: Option<&[u8]>, other: &Option<Name>) -> bool
    ensures { IsTrue result ↔ (option_map (λ name. name.now) name.entry ≡ other.now) }
{
    match (name, other) {
        (Some(name), Some(other)) => name == other.as_slice(),
        (None, None) => true,
        _ => false,
    }
}

/// Returns whether `found` is `table` and `number`.
fn is_numbered(found: Option<(u64, u32)>, table: u64, number: u32) -> bool
    ensures { IsTrue result ↔ (found ≡ Some (table, number)) }
{
    found == Some((table, number))
}

impl State {
    /// Returns whether an update message that is legal in this state carries `update`: whether its life, key and values
    /// are the update's own, and its table, number and name resolve here to the update's.
    pub fn carries(&self, sent: &UpdateMsg, update: &Update) -> bool
        ensures { (us : List Update) (after : State) → Step self.now (messages.Update sent.now) us after →
            IsTrue result ↔ (us ≡ update.now ∷ []) }
    {
        let found = self.number(sent.number());
        let name = self.name(sent.name().lend());
        is_numbered(found, update.table, update.number)
            && sent.life() == update.life
            && sent.key().is_same(&update.key)
            && are_same_values(sent.values(), update.values.as_slice())
            && is_called(name, &update.name)
    }
}
