//! What determines the cost of a lesson.

ghost use Rattle.std.specs.Prelude.{◌≡◌, OnOk, OnErr, option_map};
ghost use Rattle.peers_msg.specs.Received.{selected_table};
ghost use Rattle.known_state.specs.Cost.{knowledge_of, knowledge_after, is_selected};
ghost use Rattle.known_state.specs.Knowing.{known_so_far};

use crate::known::Known;
use crate::last_numbers::LastNumbers;
use peers_msg::Received;
use std::alloc::Global;
use table_types::{Memory, Update};

/// What determines the cost of a lesson after some of its updates: which ids are defined, which one is selected, and
/// the last number of each defined id.
#[derive(Drop)]
pub struct KnowledgeSoFar<'a> {
    /// The known state at the start of the lesson.
    known: &'a Known,
    selected: Option<u64>,
    /// The last number of each table that had an update in the lesson.
    sent: LastNumbers,
}

fn selected_id(received: &Received) -> Option<u64>
    ensures { result ≡ option_map (λ table. table.id) (selected_table received.now) }
{
    match received.selected_table() {
        Some(table) => Some(table.id()),
        None => None,
    }
}

/// Returns the last number of `table`, if it is defined and has one.
fn last_known(known: &Known, table: u64) -> Option<u32>
    ensures { result ≡ (knowledge_of known.now.state).last table }
{
    match known.received().table(table) {
        Some(_) => known.last_numbers().last(table),
        None => None,
    }
}

impl<'a> KnowledgeSoFar<'a> {
    /// Returns what determines the cost of a lesson that starts from `known`. Doesn't allocate.
    pub fn of(alloc: Global, known: &'a Known) -> KnowledgeSoFar<'a>
        ensures { known_so_far result ≡ knowledge_of known.now.state }
    {
        KnowledgeSoFar {
            known,
            selected: selected_id(known.received()),
            sent: LastNumbers::new(alloc),
        }
    }

    /// Returns whether the table `id` is defined.
    pub fn is_defined(&self, id: u64) -> bool
        ensures { result ≡ (known_so_far self.now).is_defined id }
    {
        self.sent.last(id).is_some() || self.known.received().table(id).is_some()
    }

    /// Returns whether the table `id` is selected.
    pub fn is_selected(&self, id: u64) -> bool
        ensures { result ≡ is_selected (known_so_far self.now).selected id }
    {
        self.selected == Some(id)
    }

    /// Returns the last number of the table `id`, if it is defined and has one.
    pub fn last(&self, id: u64) -> Option<u32>
        ensures { result ≡ (known_so_far self.now).last id }
    {
        match self.sent.last(id) {
            Some(number) => Some(number),
            None => last_known(self.known, id),
        }
    }

    /// Records an update: its table is then defined and selected, and its number is the table's last. After `Memory`
    /// nothing has changed.
    pub fn follow(&mut self, update: &Update) -> Result<(), Memory>
        ensures followed { OnOk result (known_so_far self.new ≡ knowledge_after (known_so_far self.old) update.now) }
        ensures stays { OnErr result (self.new ≡ self.old) }
    {
        self.sent.set(update.table, update.number)?;
        self.selected = Some(update.table);
        Ok(())
    }
}
