//! The ids of the slots of the dictionary of server names.

ghost use Rattle.std.specs.Prelude.{◌≡◌};
ghost use Rattle.table_types.specs.SlotIds.{is_slot};

/// The number of slots in the dictionary of server names, which is also the greatest slot id (profile).
pub const SLOT_COUNT: usize = 128;

/// Returns whether a number is the id of a slot in the dictionary of server names: 1 to 128 (profile).
pub fn is_slot(slot: u64) -> bool
    ensures { result ≡ is_slot slot }
{
    1 <= slot && slot <= SLOT_COUNT as u64
}
