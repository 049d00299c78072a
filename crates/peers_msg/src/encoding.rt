//! The bytes of messages. Room for the whole message is reserved before its first byte is appended, so only the reservation
//! can fail. Each function below that appends a part requires room for it.

ghost use Rattle.std.specs.Prelude.{◌≡◌, ◌≤◌, ◌<◌, ◌+◌, ◌^◌, ◌++◌, ◌∷◌, [], List, true, length, flat_map, vec_len, vec_capacity, IfOk, OnOk, OnErr};
ghost use Rattle.peers_encint.specs.Integers.{spelling};
ghost use Rattle.table_types.specs.Tables.{rise_from};
ghost use Rattle.table_types.specs.declared.key.Key.{Key};
ghost use Rattle.table_types.specs.declared.update.Value.{Value};
ghost use Rattle.peers_msg.specs.declared.name_field.NameField.{NameField};
ghost use Rattle.peers_msg.specs.declared.message.Message.TheVariants as messages;
ghost use Rattle.peers_msg.specs.Borrowed.{is_named, owned_name};
ghost use Rattle.peers_msg.specs.Messages.{is_small};
ghost use Rattle.peers_msg.specs.Spelling.{word, optional_word, counted, key_text, value_text, name_text, update_text, update_type, bits_of, period_text, definition_text, control_type, error_type, spelled, Spells};

use crate::control::{Control, ErrorKind};
use crate::message::{Message, Other};
use crate::name_field_ref::NameFieldRef;
use crate::sizes::{bits, definition_size, fields_size, framed_size, written_size};
use peers_encint::len;
use std::alloc::Global;
use table_types::{DataType, Key, Memory, TableDef, Value};

fn append_bytes(out: &mut Vec<u8>, bytes: &[u8])
    requires room { vec_len out.old + length (bytes.now) ≤ vec_capacity out.old }
    ensures appended { out.new.items ≡ out.old.items ++ bytes.now }
    ensures room { vec_len out.new + vec_capacity out.old ≤ vec_len out.old + length (bytes.now) + vec_capacity out.new }
{
    match out.extend_from_slice(bytes) {
        Ok(()) => {}
        Err(_) => unreachable!(),
    }
}

/// Appends the spelling of a number of 240 or more.
fn append_long(out: &mut Vec<u8>, n: u64)
    requires long { 240 ≤ n }
    requires room { vec_len out.old + length (spelling n) ≤ vec_capacity out.old }
    ensures appended { out.new.items ≡ out.old.items ++ spelling n }
    ensures room { vec_len out.new + vec_capacity out.old ≤ vec_len out.old + length (spelling n) + vec_capacity out.new }
{
    out.push_reserved(240 | (n & 15) as u8);
    let mut rest = (n - 240) >> 4;
    while rest >= 128 {
        out.push_reserved((rest & 255) as u8 | 128);
        rest = (rest - 128) >> 7;
    }
    out.push_reserved(rest as u8);
}

fn append_integer(out: &mut Vec<u8>, n: u64)
    requires room { vec_len out.old + length (spelling n) ≤ vec_capacity out.old }
    ensures appended { out.new.items ≡ out.old.items ++ spelling n }
    ensures room { vec_len out.new + vec_capacity out.old ≤ vec_len out.old + length (spelling n) + vec_capacity out.new }
{
    if n < 240 {
        out.push_reserved(n as u8);
    } else {
        append_long(out, n);
    }
}

/// Appends a number as four bytes in big-endian order.
fn append_word(out: &mut Vec<u8>, n: u32)
    requires room { vec_len out.old + length (word n) ≤ vec_capacity out.old }
    ensures appended { out.new.items ≡ out.old.items ++ word n }
    ensures room { vec_len out.new + vec_capacity out.old ≤ vec_len out.old + length (word n) + vec_capacity out.new }
{
    append_bytes(out, &n.to_be_bytes());
}

fn append_optional(out: &mut Vec<u8>, n: Option<u32>)
    requires room { vec_len out.old + length (optional_word n) ≤ vec_capacity out.old }
    ensures appended { out.new.items ≡ out.old.items ++ optional_word n }
    ensures room { vec_len out.new + vec_capacity out.old ≤ vec_len out.old + length (optional_word n) + vec_capacity out.new }
{
    if let Some(n) = n {
        append_word(out, n);
    }
}

/// Appends bytes, with their encoded length first.
fn append_counted(out: &mut Vec<u8>, bytes: &[u8])
    requires room { vec_len out.old + length (counted bytes.now) ≤ vec_capacity out.old }
    ensures appended { out.new.items ≡ out.old.items ++ counted bytes.now }
    ensures room { vec_len out.new + vec_capacity out.old ≤ vec_len out.old + length (counted bytes.now) + vec_capacity out.new }
{
    append_integer(out, bytes.len() as u64);
    append_bytes(out, bytes);
}

fn append_key(out: &mut Vec<u8>, key: &Key)
    requires room { vec_len out.old + length (key_text key.now) ≤ vec_capacity out.old }
    ensures appended { out.new.items ≡ out.old.items ++ key_text key.now }
    ensures room { vec_len out.new + vec_capacity out.old ≤ vec_len out.old + length (key_text key.now) + vec_capacity out.new }
{
    match key {
        Key::Int(number) => append_word(out, *number),
        Key::Ip4(address) => append_bytes(out, address.as_slice()),
        Key::Ip6(address) => append_bytes(out, address.as_slice()),
        Key::Str(text) => append_counted(out, text.as_slice()),
        Key::Bin(bytes) => append_bytes(out, bytes.as_slice()),
    }
}

fn append_value(out: &mut Vec<u8>, value: &Value)
    requires room { vec_len out.old + length (value_text value.now) ≤ vec_capacity out.old }
    ensures appended { out.new.items ≡ out.old.items ++ value_text value.now }
    ensures room { vec_len out.new + vec_capacity out.old ≤ vec_len out.old + length (value_text value.now) + vec_capacity out.new }
{
    match value {
        Value::Count(count) => append_integer(out, *count),
        Value::Rate {
            elapsed,
            current,
            previous,
        } => {
            append_integer(out, u64::from(*elapsed));
            append_integer(out, u64::from(*current));
            append_integer(out, u64::from(*previous));
        }
    }
}

fn append_values(out: &mut Vec<u8>, values: &[Value])
    requires room { vec_len out.old + length (flat_map value_text values.now) ≤ vec_capacity out.old }
    ensures appended { out.new.items ≡ out.old.items ++ flat_map value_text values.now }
    ensures room { vec_len out.new + vec_capacity out.old ≤ vec_len out.old + length (flat_map value_text values.now) + vec_capacity out.new }
{
    for value in values {
        append_value(out, value);
    }
}

fn append_name(out: &mut Vec<u8>, name: NameFieldRef<'_>)
    requires named { is_named (owned_name name) ≡ true }
    requires room { vec_len out.old + length (name_text (owned_name name)) ≤ vec_capacity out.old }
    ensures appended { out.new.items ≡ out.old.items ++ name_text (owned_name name.entry) }
    ensures room { vec_len out.new + vec_capacity out.old ≤ vec_len out.old + length (name_text (owned_name name.entry)) + vec_capacity out.new }
{
    match name {
        NameFieldRef::NotStored => {}
        NameFieldRef::NoName => append_integer(out, 0),
        NameFieldRef::Held(slot) => {
            let slot = u64::from(slot);
            append_integer(out, len(slot) as u64);
            append_integer(out, slot);
        }
        NameFieldRef::Written(slot, name) => {
            append_integer(out, written_size(slot, name) as u64);
            append_integer(out, u64::from(slot));
            append_counted(out, name);
        }
    }
}

/// Appends the data of an update with these fields.
fn append_fields(
    out: &mut Vec<u8>,
    number: Option<u32>,
    life: Option<u32>,
    key: &Key,
    values: &[Value],
    name: NameFieldRef<'_>,
)
    requires named { is_named (owned_name name) ≡ true }
    requires room { vec_len out.old + length (update_text (record { number = number; life = life; key = key.now; values = values.now; name = owned_name name })) ≤ vec_capacity out.old }
    ensures { out.new.items ≡ out.old.items ++ update_text (record { number = number; life = life; key = key.now; values = values.now; name = owned_name name.entry }) }
{
    append_optional(out, number);
    append_optional(out, life);
    append_key(out, key);
    append_values(out, values);
    append_name(out, name);
}

/// Appends a rate's id and period, or nothing for another type.
fn append_period(out: &mut Vec<u8>, entry: &(DataType, Option<u32>))
    requires room { vec_len out.old + length (period_text entry.now) ≤ vec_capacity out.old }
    ensures appended { out.new.items ≡ out.old.items ++ period_text entry.now }
    ensures room { vec_len out.new + vec_capacity out.old ≤ vec_len out.old + length (period_text entry.now) + vec_capacity out.new }
{
    if let Some(period) = entry.1 {
        append_integer(out, u64::from(entry.0.id()));
        append_integer(out, u64::from(period));
    }
}

fn append_periods(out: &mut Vec<u8>, types: &[(DataType, Option<u32>)])
    requires room { vec_len out.old + length (flat_map period_text types.now) ≤ vec_capacity out.old }
    ensures appended { out.new.items ≡ out.old.items ++ flat_map period_text types.now }
    ensures room { vec_len out.new + vec_capacity out.old ≤ vec_len out.old + length (flat_map period_text types.now) + vec_capacity out.new }
{
    for entry in types {
        append_period(out, entry);
    }
}

/// Appends what a table stores: its data types as bits, its expire, and the periods of its rates.
fn append_stored(out: &mut Vec<u8>, table: &TableDef)
    requires rising { rise_from 0 table.now.types ≡ true }
    requires room { vec_len out.old + length (spelling (bits_of table.now.types) ++ (spelling table.now.expire ++ flat_map period_text table.now.types)) ≤ vec_capacity out.old }
    ensures appended { out.new.items ≡ out.old.items ++ (spelling (bits_of table.now.types) ++ (spelling table.now.expire ++ flat_map period_text table.now.types)) }
    ensures room { vec_len out.new + vec_capacity out.old ≤ vec_len out.old + length (spelling (bits_of table.now.types) ++ (spelling table.now.expire ++ flat_map period_text table.now.types)) + vec_capacity out.new }
{
    let types = table.types();
    append_integer(out, bits(types));
    append_integer(out, u64::from(table.expire()));
    append_periods(out, types);
}

fn append_definition(out: &mut Vec<u8>, table: &TableDef)
    requires room { vec_len out.old + length (definition_text table.now) ≤ vec_capacity out.old }
    ensures appended { out.new.items ≡ out.old.items ++ definition_text table.now }
    ensures room { vec_len out.new + vec_capacity out.old ≤ vec_len out.old + length (definition_text table.now) + vec_capacity out.new }
{
    append_integer(out, table.id());
    append_counted(out, table.name());
    append_integer(out, u64::from(table.kind().number()));
    append_integer(out, table.key_length());
    append_stored(out, table);
}

/// Returns the type of a control message.
fn control_type(control: Control) -> u8
    ensures { result ≡ control_type control }
{
    control as u8
}

/// Returns the type of an error message.
fn error_type(error: ErrorKind) -> u8
    ensures { result ≡ error_type error }
{
    error as u8
}

/// Returns the type of an update with this number and this life.
fn update_type(number: Option<u32>, life: Option<u32>) -> u8
    ensures { (key : Key) (values : List Value) (name : NameField) →
        result ≡ update_type (record { number = number; life = life; key = key; values = values; name = name }) }
{
    match (number, life) {
        (Some(_), None) => 128,
        (None, None) => 129,
        (Some(_), Some(_)) => 133,
        (None, Some(_)) => 134,
    }
}

/// Appends a message without data.
fn append_pair(out: &mut Vec<u8>, class: u8, message_type: u8) -> Result<(), Memory>
    ensures appended { OnOk result (out.new.items ≡ out.old.items ++ (class ∷ (message_type ∷ []))) }
    ensures stays { OnErr result (out.new.items ≡ out.old.items) }
{
    out.reserve(2)?;
    out.push_reserved(class);
    out.push_reserved(message_type);
    Ok(())
}

/// Reserves room for a message with `count` bytes of data, and appends what precedes the data: class, type and the
/// encoded length.
fn append_header(out: &mut Vec<u8>, class: u8, message_type: u8, count: usize) -> Result<(), Memory>
    requires { count < 2 ^ 63 }
    ensures appended { OnOk result (out.new.items ≡ out.old.items ++ (class ∷ (message_type ∷ spelling count))) }
    ensures room { OnOk result (vec_len out.new + count ≤ vec_capacity out.new) }
    ensures stays { OnErr result (out.new.items ≡ out.old.items) }
{
    out.reserve(framed_size(count))?;
    out.push_reserved(class);
    out.push_reserved(message_type);
    append_integer(out, count as u64);
    Ok(())
}

#[tactic(auto, unfolding(crate::specs::Spelling::spelled))]
fn append_other(out: &mut Vec<u8>, other: &Other) -> Result<(), Memory>
    ensures appended { OnOk result (out.new.items ≡ out.old.items ++ spelled (messages.Other other.now)) }
    ensures stays { OnErr result (out.new.items ≡ out.old.items) }
{
    if other.message_type() < 128 {
        append_pair(out, other.class(), other.message_type())
    } else {
        append_header(out, other.class(), other.message_type(), other.body().len())?;
        append_bytes(out, other.body());
        Ok(())
    }
}

/// Appends the bytes of an update with these fields, as `append` does with the update's message. Allocates at most once.
///
/// # Errors
/// `Memory` if memory runs out. `out` is then unchanged.
#[tactic(auto, unfolding(crate::specs::Spelling::spelled))]
pub fn append_update(
    out: &mut Vec<u8>,
    number: Option<u32>,
    life: Option<u32>,
    key: &Key,
    values: &[Value],
    name: NameFieldRef<'_>,
) -> Result<(), Memory>
    requires small { is_small key.now values.now ≡ true }
    requires named { is_named (owned_name name) ≡ true }
    ensures appended { OnOk result (out.new.items ≡ out.old.items
        ++ spelled (messages.Update (record { number = number; life = life; key = key.now; values = values.now; name = owned_name name.entry }))) }
    ensures stays { OnErr result (out.new.items ≡ out.old.items) }
{
    let size = fields_size(number, life, key, values, name);
    append_header(out, 10, update_type(number, life), size)?;
    append_fields(out, number, life, key, values, name);
    Ok(())
}

/// Appends the bytes of a message. Allocates at most once, for as many bytes as `size` returns.
///
/// # Errors
/// `Memory` if memory runs out. `out` is then unchanged.
#[tactic(auto, unfolding(crate::specs::Spelling::spelled))]
pub fn append(out: &mut Vec<u8>, message: &Message) -> Result<(), Memory>
    ensures appended { OnOk result (out.new.items ≡ out.old.items ++ spelled message.now) }
    ensures stays { OnErr result (out.new.items ≡ out.old.items) }
{
    match message {
        Message::Control(control) => append_pair(out, 0, control_type(*control))?,
        Message::Error(error) => append_pair(out, 1, error_type(*error))?,
        Message::Define(table) => {
            append_header(out, 10, 130, definition_size(table))?;
            append_definition(out, table);
        }
        Message::Switch(id) => {
            append_header(out, 10, 131, len(*id))?;
            append_integer(out, *id);
        }
        Message::Ack { table, number } => {
            append_header(out, 10, 132, len(*table) + 4)?;
            append_integer(out, *table);
            append_word(out, *number);
        }
        Message::Update(update) => {
            let (number, life) = (update.number(), update.life());
            let name = update.name().lend();
            append_update(out, number, life, update.key(), update.values(), name)?;
        }
        Message::Other(other) => append_other(out, other)?,
    }
    Ok(())
}

/// Returns the bytes of a message. Allocates once.
///
/// # Errors
/// `Memory` if memory runs out.
pub fn encode(alloc: Global, message: &Message) -> Result<Vec<u8>, Memory>
    ensures spelled { IfOk result (λ bytes. Spells message.now bytes.items) }
{
    let mut bytes = Vec::new(alloc);
    append(&mut bytes, message)?;
    Ok(bytes)
}
