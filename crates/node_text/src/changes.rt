//! Changes of rows.
ghost use Rattle.std.specs.Prelude.{◌≡◌, ◌++◌, ◌∷◌, [], Err, IfOk, IfSome, None, OnOk, map};
ghost use Rattle.table_types.specs.DataTypes.{name_of};
ghost use Rattle.node_text.specs.Changes.{IsChange, IsNoChange, change_text};
ghost use Rattle.node_text.specs.Numbers.{spaced};

use crate::error::LineError;
use crate::names::{name, push_stored_name};
use crate::numbers::{number, number32, push_spaced};
use crate::tables::type_named;
use std::alloc::{AllocError, Global};
use table_types::{Change, DataType};

/// Reads a change: `add TYPE N`, `take TYPE N`, `put TYPE N`, `rate TYPE N` or `name NAME`.
#[tactic(auto, using(crate::proofs::ChangesRead::other_count))]
pub fn change_of(alloc: Global, words: &[&[u8]]) -> Result<Change, LineError>
    ensures written { IfOk result (IsChange (map (λ word. word.now) words.now)) }
    ensures refused { result ≡ Err LineError.Refused → IsNoChange (map (λ word. word.now) words.now) }
{
    match words {
        [kind, word] => name_change(alloc, kind, word),
        [kind, data_type, word] => number_change(kind, data_type, word).ok_or(LineError::Refused),
        _ => Err(LineError::Refused),
    }
}

/// Reads a change of the name; `-` stands for none.
#[tactic(auto, using(crate::proofs::ChangesRead::no_name))]
fn name_change(alloc: Global, kind: &[u8], word: &[u8]) -> Result<Change, LineError>
    ensures written { IfOk result (IsChange (kind.now ∷ word.now ∷ [])) }
    ensures refused { result ≡ Err LineError.Refused → IsNoChange (kind.now ∷ word.now ∷ []) }
{
    match (kind, word) {
        (b"name", b"-") => Ok(Change::SetName(None)),
        (b"name", word) => Ok(Change::SetName(Some(name(alloc, word)?))),
        _ => Err(LineError::Refused),
    }
}

/// Reads a change of the value of a data type.
#[tactic(auto, using(crate::proofs::ChangesRead::no_number))]
fn number_change(kind: &[u8], data_type: &[u8], word: &[u8]) -> Option<Change>
    ensures written { IfSome result (IsChange (kind.now ∷ data_type.now ∷ word.now ∷ [])) }
    ensures refused { result ≡ None → IsNoChange (kind.now ∷ data_type.now ∷ word.now ∷ []) }
{
    let data_type = type_named(data_type)?;
    match kind {
        b"add" => Some(Change::Add(data_type, number(word, u64::MAX)?)),
        b"take" => Some(Change::Take(data_type, number(word, u64::MAX)?)),
        b"put" => Some(Change::Put(data_type, number(word, u64::MAX)?)),
        b"rate" => Some(Change::AddRate(data_type, number32(word)?)),
        _ => None,
    }
}

/// Appends a space and `change`.
pub(crate) fn push_change(text: &mut Vec<u8>, change: &Change) -> Result<(), AllocError>
    ensures { OnOk result (text.new.items ≡ text.old.items ++ change_text change.now) }
{
    match change {
        Change::Add(data_type, number) => {
            text.extend_from_slice(b" add ")?;
            push_type_and_number(text, *data_type, *number)
        }
        Change::Take(data_type, number) => {
            text.extend_from_slice(b" take ")?;
            push_type_and_number(text, *data_type, *number)
        }
        Change::Put(data_type, number) => {
            text.extend_from_slice(b" put ")?;
            push_type_and_number(text, *data_type, *number)
        }
        Change::AddRate(data_type, number) => {
            text.extend_from_slice(b" rate ")?;
            push_type_and_number(text, *data_type, u64::from(*number))
        }
        Change::SetName(name) => {
            text.extend_from_slice(b" name")?;
            push_stored_name(text, true, name.as_ref())
        }
    }
}

/// Appends a data type and a number.
fn push_type_and_number(
    text: &mut Vec<u8>,
    data_type: DataType,
    number: u64,
) -> Result<(), AllocError>
    ensures { OnOk result (text.new.items ≡ text.old.items ++ (name_of data_type ++ spaced number)) }
{
    text.extend_from_slice(data_type.name().as_bytes())?;
    push_spaced(text, number)
}
