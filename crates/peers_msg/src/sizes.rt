//! The sizes of messages in bytes.

ghost use Rattle.std.specs.Prelude.{◌≡◌, ◌≤◌, ◌<◌, ◌+◌, ◌++◌, ◌^◌, true, length, flat_map, if◌then◌else◌};
ghost use Rattle.peers_encint.specs.Integers.{spelling};
ghost use Rattle.table_types.specs.Tables.{rise_from, is_definition};
ghost use Rattle.peers_msg.specs.declared.name_field.NameField.TheVariants as names;
ghost use Rattle.peers_msg.specs.declared.message.Message.TheVariants as messages;
ghost use Rattle.peers_msg.specs.Borrowed.{is_named, owned_name};
ghost use Rattle.peers_msg.specs.Messages.{key_bytes, is_small, most_data};
ghost use Rattle.peers_msg.specs.Spelling.{counted, key_text, value_text, name_text, update_text, optional_word, period_text, bits_of, definition_text, size_of};

use crate::message::{Message, UpdateMsg};
use crate::name_field_ref::NameFieldRef;
use peers_encint::len;
use table_types::{DataType, Key, Name, TableDef, Value};

/// Returns the size of `count` bytes with their encoded length before them.
pub fn counted_size(count: usize) -> usize
    requires { count < 2 ^ 63 }
    ensures exact { result ≡ length (spelling count) + count }
    ensures within { result ≤ 10 + count }
{
    len(count as u64) + count
}

/// Returns the size of an optional number.
fn optional_size(word: Option<u32>) -> usize
    ensures exact { result ≡ length (optional_word word) }
    ensures within { result ≤ 4 }
{
    match word {
        Some(_) => 4,
        None => 0,
    }
}

fn key_size(key: &Key) -> usize
    requires { key_bytes key.now ≤ 8192 }
    ensures exact { result ≡ length (key_text key.now) }
    ensures within { result ≤ 8202 }
{
    match key {
        Key::Int(_) => 4,
        Key::Ip4(address) => address.as_slice().len(),
        Key::Ip6(address) => address.as_slice().len(),
        Key::Str(text) => counted_size(text.len()),
        Key::Bin(bytes) => bytes.len(),
    }
}

fn value_size(value: &Value) -> usize
    ensures exact { result ≡ length (value_text value.now) }
    ensures within { result ≤ 30 }
{
    match value {
        Value::Count(count) => len(*count),
        Value::Rate {
            elapsed,
            current,
            previous,
        } => len(u64::from(*elapsed)) + len(u64::from(*current)) + len(u64::from(*previous)),
    }
}

fn values_size(values: &[Value]) -> usize
    requires { length values.now ≤ 20 }
    ensures exact { result ≡ length (flat_map value_text values.now) }
    ensures within { result ≤ 600 }
{
    let mut total = 0;
    for value in values {
        total += value_size(value);
    }
    total
}

/// Returns the size of a slot and the name written to it.
pub fn written_size(slot: u8, name: &[u8]) -> usize
    requires { length name.now ≤ 255 }
    ensures exact { result ≡ length (spelling slot ++ counted name.now) }
    ensures within { result ≤ 275 }
{
    len(u64::from(slot)) + counted_size(name.len())
}

fn name_size(name: NameFieldRef<'_>) -> usize
    requires { is_named (owned_name name) ≡ true }
    ensures exact { result ≡ length (name_text (owned_name name.entry)) }
    ensures within { result ≤ 285 }
{
    match name {
        NameFieldRef::NotStored => 0,
        NameFieldRef::NoName => len(0),
        NameFieldRef::Held(slot) => counted_size(len(u64::from(slot))),
        NameFieldRef::Written(slot, name) => counted_size(written_size(slot, name)),
    }
}

/// Returns the size of the data of an update with these fields.
pub fn fields_size(
    number: Option<u32>,
    life: Option<u32>,
    key: &Key,
    values: &[Value],
    name: NameFieldRef<'_>,
) -> usize
    requires small { is_small key.now values.now ≡ true }
    requires named { is_named (owned_name name) ≡ true }
    ensures exact { result ≡ length (update_text (record { number = number; life = life; key = key.now; values = values.now; name = owned_name name.entry })) }
    ensures within { result ≤ most_data }
{
    let words = optional_size(number) + optional_size(life);
    let row = key_size(key) + values_size(values);
    words + row + name_size(name)
}

/// Returns the size of an update's data.
pub fn update_size(update: &UpdateMsg) -> usize
    ensures exact { result ≡ length (update_text update.now) }
    ensures within { result ≤ most_data }
{
    let (number, life) = (update.number(), update.life());
    fields_size(
        number,
        life,
        update.key(),
        update.values(),
        update.name().lend(),
    )
}

/// Returns the data types as bits.
pub fn bits(types: &[(DataType, Option<u32>)]) -> u64
    requires { rise_from 0 types.now ≡ true }
    ensures { result ≡ bits_of types.now }
{
    let mut bits = 0;
    for entry in types {
        bits += 1 << entry.0.id();
    }
    bits
}

fn period_size(entry: &(DataType, Option<u32>)) -> usize
    ensures exact { result ≡ length (period_text entry.now) }
    ensures within { result ≤ 20 }
{
    match entry.1 {
        Some(period) => len(u64::from(entry.0.id())) + len(u64::from(period)),
        None => 0,
    }
}

fn periods_size(types: &[(DataType, Option<u32>)]) -> usize
    requires { length types.now ≤ 20 }
    ensures exact { result ≡ length (flat_map period_text types.now) }
    ensures within { result ≤ 400 }
{
    let mut total = 0;
    for entry in types {
        total += period_size(entry);
    }
    total
}

/// Returns the size of a definition's data.
#[tactic(auto, using(crate::proofs::DataLengths::types_short))]
pub fn definition_size(table: &TableDef) -> usize
    ensures exact { result ≡ length (definition_text table.now) }
    ensures within { result ≤ most_data }
    ensures defined { is_definition table.now ≡ true }
{
    let named = len(table.id()) + counted_size(table.name().len());
    let keyed = len(u64::from(table.kind().number())) + len(table.key_length());
    let types = table.types();
    named + keyed + len(bits(types)) + len(u64::from(table.expire())) + periods_size(types)
}

/// Returns the size of a message with `count` bytes of data.
pub fn framed_size(count: usize) -> usize
    requires { count < 2 ^ 63 }
    ensures exact { result ≡ 2 + (length (spelling count) + count) }
    ensures within { result ≤ 12 + count }
{
    2 + counted_size(count)
}

/// Returns the size of a name field that reads the name from a slot, and of one that writes the slot.
fn name_sizes(name: &Name) -> (usize, usize)
    ensures read { result.0 ≡ length (name_text (names.Held 1)) }
    ensures written { result.1 ≡ length (name_text (names.Written 1 name.now)) }
    ensures less { result.0 < result.1 }
    ensures within { result.1 ≤ 285 }
{
    (
        counted_size(len(1)),
        counted_size(written_size(1, name.as_slice())),
    )
}

/// Returns the size of an update message whose name is read from a slot, and of one that writes the slot. Both are the
/// same for all 128 slots. Doesn't allocate.
#[tactic(auto, unfolding(crate::specs::Spelling::size_of, crate::specs::Spelling::spelled))]
pub fn named_sizes(
    number: Option<u32>,
    life: Option<u32>,
    key: &Key,
    values: &[Value],
    name: &Name,
) -> (usize, usize)
    requires { is_small key.now values.now ≡ true }
    ensures read { result.0 ≡ size_of (messages.Update (record { number = number; life = life; key = key.now; values = values.now; name = names.Held 1 })) }
    ensures written { result.1 ≡ size_of (messages.Update (record { number = number; life = life; key = key.now; values = values.now; name = names.Written 1 name.now })) }
    ensures less { result.0 < result.1 }
    ensures within { result.1 ≤ 32768 }
{
    let words = optional_size(number) + optional_size(life);
    let row = words + key_size(key) + values_size(values);
    let (read, written) = name_sizes(name);
    (framed_size(row + read), framed_size(row + written))
}

/// Returns the size of an update message without a name, for a table that stores names or for one that doesn't. Doesn't
/// allocate.
#[tactic(auto, unfolding(crate::specs::Spelling::size_of, crate::specs::Spelling::spelled))]
pub fn nameless_size(
    number: Option<u32>,
    life: Option<u32>,
    key: &Key,
    values: &[Value],
    stores_name: bool,
) -> usize
    requires { is_small key.now values.now ≡ true }
    ensures exact { result ≡ size_of (messages.Update (record { number = number; life = life; key = key.now; values = values.now; name = if stores_name then names.NoName else names.NotStored })) }
    ensures within { result ≤ 32768 }
{
    let name = if stores_name {
        NameFieldRef::NoName
    } else {
        NameFieldRef::NotStored
    };
    framed_size(fields_size(number, life, key, values, name))
}

/// Returns the size of a table's definition as a message. Doesn't allocate.
#[tactic(auto, unfolding(crate::specs::Spelling::size_of, crate::specs::Spelling::spelled))]
pub fn define_size(table: &TableDef) -> usize
    ensures exact { result ≡ size_of (messages.Define table.now) }
    ensures within { result ≤ 16396 }
{
    framed_size(definition_size(table))
}

/// Returns the size of a switch to `id`. Doesn't allocate.
#[tactic(auto, unfolding(crate::specs::Spelling::size_of, crate::specs::Spelling::spelled))]
pub fn switch_size(id: u64) -> usize
    ensures exact { result ≡ size_of (messages.Switch id) }
    ensures within { result ≤ 22 }
{
    framed_size(len(id))
}

/// Returns the size of a message. Doesn't allocate.
#[tactic(auto, unfolding(crate::specs::Spelling::size_of, crate::specs::Spelling::spelled))]
pub fn size(message: &Message) -> usize
    ensures { result ≡ size_of message.now }
{
    match message {
        Message::Control(_) | Message::Error(_) => 2,
        Message::Define(table) => define_size(table),
        Message::Switch(id) => switch_size(*id),
        Message::Ack { table, .. } => framed_size(len(*table) + 4),
        Message::Update(update) => framed_size(update_size(update)),
        Message::Other(other) if other.message_type() < 128 => 2,
        Message::Other(other) => framed_size(other.body().len()),
    }
}
