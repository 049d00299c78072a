//! Copies of rows for a session.
ghost use Rattle.std.specs.Prelude.{◌≡◌, ◌++◌, IfSome, OnOk};
ghost use Rattle.node_text.specs.Calls.{IsCall};
ghost use Rattle.node_text.specs.Copies.{copy_kind_name, copy_text};

use crate::calls::Call;
use crate::numbers::{moment, number_from_one, number32, push_spaced, push_word_and_number};
use std::alloc::AllocError;
use table_types::{Batch, CopyKind};

/// The greatest limit of a call that copies.
const GREATEST_LIMIT: u32 = Batch::MOST as u32;

/// Reads a call `copy SESSION KIND LIMIT MOMENT`, where KIND is `push`, `resync` or `standing`, from the words after the first.
pub(crate) fn copy_of(words: &[&[u8]]) -> Option<Call>
    ensures { IfSome result IsCall }
{
    let [session, kind, limit, word] = words else {
        return None;
    };
    Some(Call::Copy {
        session: number32(session)?,
        kind: copy_kind_of(kind)?,
        limit: number_from_one(limit, GREATEST_LIMIT)? as usize,
        moment: moment(word)?,
    })
}

/// Returns the kind of copies that `word` names.
pub(crate) fn copy_kind_of(word: &[u8]) -> Option<CopyKind> {
    match word {
        b"push" => Some(CopyKind::Push),
        b"resync" => Some(CopyKind::Resync),
        b"standing" => Some(CopyKind::Standing),
        _ => None,
    }
}

/// Returns the word for a kind of copies.
fn copy_kind_name(kind: CopyKind) -> &'static str
    ensures { result.now ≡ copy_kind_name kind }
{
    match kind {
        CopyKind::Push => "push",
        CopyKind::Resync => "resync",
        CopyKind::Standing => "standing",
    }
}

/// Appends the call of a copy, as `copy_of` reads it. `moment` is in milliseconds.
pub(crate) fn push_copy(
    text: &mut Vec<u8>,
    session: u32,
    kind: CopyKind,
    limit: usize,
    moment: u64,
) -> Result<(), AllocError>
    ensures { OnOk result (text.new.items ≡ text.old.items ++ copy_text session kind limit moment) }
{
    push_word_and_number(text, "copy ", u64::from(session))?;
    text.push(b' ')?;
    text.extend_from_slice(copy_kind_name(kind).as_bytes())?;
    push_spaced(text, limit as u64)?;
    push_spaced(text, moment)
}
