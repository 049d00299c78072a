//! The names that are held at the start.

ghost use Rattle.std.specs.Prelude.{◌≡◌, ◌≤◌, ◌<◌, None, length, option_copied, slice_index_or};
ghost use Rattle.price_checker.specs.NamesHeld.{AreFew, slots_held};

use dict_slots::Slots;
use table_types::Name;

/// The names that are held at the start of a batch: these names, at most 128, or those that the slots hold.
#[derive(Clone, Copy)]
pub enum Held<'a> {
    Names(&'a [Name]),
    Slots(&'a Slots),
}

impl<'a> Held<'a> {
    /// Returns the number of names, or of slots.
    pub fn len(self) -> usize
        requires few { AreFew self }
        ensures count { result ≡ length (slots_held self.entry) }
        ensures most { result ≤ 128 }
    {
        match self {
            Held::Names(names) => names.len(),
            Held::Slots(slots) => slots.len(),
        }
    }

    /// Returns the name at this index, or `None` if the slot there is empty.
    pub fn name(self, index: usize) -> Option<&'a Name>
        requires few { AreFew self }
        requires within { (index < length (slots_held self)) × (index < 128) }
        ensures { option_copied result ≡ slice_index_or (slots_held self.entry) index None }
    {
        match self {
            Held::Names(names) => names.get(index),
            Held::Slots(slots) => slots.name(index as u8 + 1),
        }
    }
}
