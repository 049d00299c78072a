//! Comparing what a stream carries with a batch.

ghost use Rattle.std.specs.Prelude.{◌≡◌, ◌++◌, ◌∷◌, ◌≤◌, List, length};
ghost use Rattle.table_types.specs.declared.update.Update.{Update};
ghost use Rattle.peers_msg.specs.declared.message.Message.TheVariants as messages;
ghost use Rattle.price_checker.specs.declared.comparison.Comparison.TheVariants as comparisons;
ghost use Rattle.price_checker.specs.Readings.{ComparesNext};

use known_state::State;
use peers_msg::{Message, UpdateMsg};
use table_types::Update;

/// How the updates that a stream has carried so far compare with those of a batch.
#[derive(Clone, Copy, Debug)]
pub enum Comparison {
    /// They are this many of the batch's first updates.
    Same(usize),
    /// They differ from this index on: an update differs, or the batch has ended.
    Apart(usize),
}

/// Returns how the updates carried compare after one more update, if those before it were the batch's first `count`
/// ones.
fn after_update(count: usize, state: &State, sent: &UpdateMsg, updates: &[Update]) -> Comparison
    ensures { ComparesNext state.now (messages.Update sent.now) updates.now (comparisons.Same count) result }
{
    match updates.get(count) {
        Some(update) if state.carries(sent, update) => Comparison::Same(count + 1),
        _ => Comparison::Apart(count),
    }
}

impl Comparison {
    /// Returns how the updates carried compare after `message`, which is legal in `state`.
    pub fn after(self, state: &State, message: &Message, updates: &[Update]) -> Comparison
        ensures { ComparesNext state.now message.now updates.now self result }
    {
        match (self, message) {
            (Comparison::Same(count), Message::Update(sent)) => {
                after_update(count, state, sent, updates)
            }
            _ => self,
        }
    }
}
