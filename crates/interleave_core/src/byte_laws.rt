//! Names and keys are bytes: laws of a roster, of a batch and of a lesson. A law of values goes over them, and changes nothing.

ghost use Rattle.std.specs.Prelude.{ℕ, List};
ghost use Rattle.std.specs.List.{AllByRecursion};
ghost use Rattle.peers_msg.specs.Integers.{IsBytes};
ghost use Rattle.table_types.specs.declared.update.Update.{Update};
ghost use Rattle.known_state.specs.Known.{KnownState};
ghost use Rattle.teach_writer.specs.Lessons.{IsShortestLesson};
ghost use Rattle.interleave_core.specs.Bytes.{IsKeyOfBytes, IsNamedInBytes, IsOfBytes};

use table_types::{Batch, Key, Roster, Update};

/// Shows that the numbers of a slice of bytes are bytes.
fn slice_is_bytes(bytes: &[u8])
    ensures { IsBytes bytes.now }
{}

/// Shows that an address, a string or a binary key is bytes.
fn key_is_bytes(key: &Key)
    ensures { IsKeyOfBytes key.now }
{
    match key {
        Key::Int(_) => {}
        Key::Ip4(address) => slice_is_bytes(address),
        Key::Ip6(address) => slice_is_bytes(address),
        Key::Str(bytes) | Key::Bin(bytes) => slice_is_bytes(bytes.as_slice()),
    }
}

/// Shows that the key and the name of an update are bytes.
fn update_is_bytes(update: &Update)
    ensures { IsOfBytes update.now }
{
    key_is_bytes(&update.key);
    if let Some(name) = &update.name {
        slice_is_bytes(name.as_slice());
    }
}

/// Shows that the names of a roster's tables are bytes.
pub fn a_roster_is_named_in_bytes(roster: &Roster)
    ensures { AllByRecursion IsNamedInBytes roster.now }
{
    for table in roster.tables() {
        slice_is_bytes(table.name());
    }
}

/// Shows that the keys and names of a batch's updates are bytes.
pub fn a_batch_is_of_bytes(batch: &Batch)
    ensures { AllByRecursion IsOfBytes batch.now }
{
    for update in batch.updates() {
        update_is_bytes(update);
    }
}

/// Shows that a shortest lesson is bytes if the names of the tables, and the keys and names of the batch, are.
pub fn a_lesson_is_bytes()
    ensures { (known after : KnownState) (batch : List Update) (bytes : List ℕ) → AllByRecursion IsNamedInBytes known.roster → AllByRecursion IsOfBytes batch →
        IsShortestLesson known batch bytes after → IsBytes bytes }
{}
