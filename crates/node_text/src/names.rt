//! Names of tables and servers.
ghost use Rattle.std.specs.Prelude.{◌≡◌, ◌++◌, Err, IfOk, OnOk, option_copied, true};
ghost use Rattle.table_types.specs.Names.{is_name};
ghost use Rattle.node_text.specs.Names.{is_plain, may_name, name_text, stored_text};

use crate::bytes::push_hexadecimal;
use crate::error::LineError;
use crate::words::is_text;
use std::alloc::{AllocError, Global};
use table_types::Name;

/// Returns whether `word` may be a name: a text that isn't `-`.
pub(crate) fn may_name(word: &[u8]) -> bool
    ensures { result ≡ may_name word.now }
{
    match word {
        [b'-'] => false,
        _ => is_text(word),
    }
}

/// Reads a name: a text of 1 to 255 bytes that isn't `-`.
pub fn name(alloc: Global, word: &[u8]) -> Result<Name, LineError>
    ensures written { IfOk result (λ name. (name ≡ word.now) × (is_name name ≡ true) × (may_name name ≡ true)) }
    ensures refused { result ≡ Err LineError.Refused → is_name word.now ≡ true → may_name word.now ≡ true → ⊥ }
{
    if !may_name(word) {
        return Err(LineError::Refused);
    }
    Name::new(Vec::from_slice(alloc, word)?).ok_or(LineError::Refused)
}

/// Reads a name, or `-` for none.
pub(crate) fn name_or_none(alloc: Global, word: &[u8]) -> Result<Option<Name>, LineError> {
    if word == b"-".as_slice() {
        return Ok(None);
    }
    Ok(Some(name(alloc, word)?))
}

/// Appends a space and `name`, or a space and `-` for none; nothing unless the table stores a name.
pub fn push_stored_name(
    text: &mut Vec<u8>,
    stored: bool,
    name: Option<&Name>,
) -> Result<(), AllocError>
    ensures { OnOk result (text.new.items ≡ text.old.items ++ stored_text stored (option_copied name.entry)) }
{
    match name {
        _ if !stored => Ok(()),
        None => text.extend_from_slice(b" -"),
        Some(name) => {
            text.push(b' ')?;
            push_name(text, name.as_slice())
        }
    }
}

/// Appends `name` if it is plain, or else `~` and its bytes in hexadecimal.
///
/// A peer chooses the names, so no byte of one may end the line, and none may read as another.
fn push_name(text: &mut Vec<u8>, name: &[u8]) -> Result<(), AllocError>
    ensures { OnOk result (text.new.items ≡ text.old.items ++ name_text name.now) }
{
    if is_plain(name) {
        text.extend_from_slice(name)
    } else {
        text.push(b'~')?;
        push_hexadecimal(text, name)
    }
}

/// Returns whether `name` is plain: a text that neither begins with `~` nor is `-`.
fn is_plain(name: &[u8]) -> bool
    ensures { result ≡ is_plain name.now }
{
    match name {
        [b'-'] | [b'~', ..] => false,
        _ => is_text(name),
    }
}
