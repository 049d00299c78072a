//! What messages do to a state.

ghost use Rattle.std.specs.Prelude.{◌≡◌, ℕ, List, true, Some};
ghost use Rattle.table_types.specs.declared.update.Update.{Update};
ghost use Rattle.peers_msg.specs.declared.message.Message.{Message};
ghost use Rattle.peers_msg.specs.Fitting.{fits};
ghost use Rattle.known_state.specs.State.{State, Step};
ghost use Rattle.known_state.specs.Effects.{IsEffect, carried_by, made, message_refusal, written_by};
ghost use Rattle.known_state.specs.declared.effect.Effect.{Effect};
ghost use Rattle.known_state.specs.declared.effect.Refusal.{Refusal};
ghost use Rattle.known_state.specs.declared.effect.Refusal.TheVariants as refusals;

use peers_msg::NameField;
use table_types::{Memory, Name, TableDef};
use thiserror::Error;

/// Why an update makes no step: the first cause that applies, in this order.
#[derive(Clone, Copy, Debug, PartialEq, Eq, Error)]
pub enum Refusal {
    /// No table is selected, or the update is incremental and the selected table has no last number.
    #[error("an incremental update of a table without a number")]
    NoNumber,
    /// The update reads its name from a slot that holds none.
    #[error("a name read from an empty slot")]
    EmptySlot,
    /// Out of memory.
    #[error("memory")]
    Memory,
}

impl From<Memory> for Refusal {
    ghost from_gives = { λ _ e. e ≡ refusals.Memory };

    fn from(_refused: Memory) -> Refusal {
        Refusal::Memory
    }
}

/// What an update changes in a state: the number it sets, and the name it writes.
#[derive(Debug, Drop)]
pub struct ResolvedUpdate {
    /// The selected id.
    pub table: u64,
    /// The update's own number, or one more than the table's last, modulo 2^32.
    pub number: u32,
    /// The slot that the update writes, 1 to 128, and the name.
    pub written: Option<(u8, Name)>,
}

impl ResolvedUpdate {
    /// Returns what an update of the selected table, `table`, with `number` and `field` changes. Consumes `field`.
    pub(crate) fn of(table: u64, number: u32, field: NameField) -> ResolvedUpdate
        ensures table { result.table ≡ table }
        ensures number { result.number ≡ number }
        ensures written { result.written ≡ written_by field }
    {
        let written = match field {
            NameField::Written(slot, name) => Some((slot, name)),
            NameField::NotStored | NameField::NoName | NameField::Held(_) => None,
        };
        ResolvedUpdate {
            table,
            number,
            written,
        }
    }
}

/// What a message does to a state, with all that the message owns (HAProxy, doc/peers-v2.0.txt, "Stick Table
/// Messages").
#[derive(Debug, Drop)]
pub enum Effect {
    /// No change: a control message, an error, an acknowledgement, or a message of another class or type.
    Nothing,
    /// Defines and selects the table.
    Define(TableDef),
    /// Selects the id.
    Select(u64),
    /// Makes the number the table's last, and writes the name, if there is one, to its slot.
    Update(ResolvedUpdate),
}

/// Effects agree with the definition of `Step`. The effect of a message that fits is its only step: the step carries
/// the update with its table, number and name resolved, and leads to the state that the effect makes. A message that is
/// refused makes no step.
pub fn effects_are_steps()
    ensures step { (s : State) (m : Message) (effect : Effect) → fits s.received m ≡ true → IsEffect s m effect →
        Step s m (carried_by s m effect) (made s effect) }
    ensures only { (s e : State) (m : Message) (us : List Update) (effect : Effect) → IsEffect s m effect → Step s m us e →
        (us ≡ carried_by s m effect) × (e ≡ made s effect) }
    ensures refused { (s e : State) (m : Message) (us : List Update) (refusal : Refusal) →
        message_refusal s m ≡ Some refusal → Step s m us e → ⊥ }
{}
