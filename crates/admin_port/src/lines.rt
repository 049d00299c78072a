//! Words of lines, and their ends.
ghost use Rattle.std.specs.Prelude.{◌≡◌, ◌∷◌, ◌++◌, [], OnOk};

use std::alloc::AllocError;

/// Appends `words`.
pub(crate) fn push_words(text: &mut Vec<u8>, words: &str) -> Result<(), AllocError>
    ensures { OnOk result (text.new.items ≡ text.old.items ++ words.now) }
{
    text.extend_from_slice(words.as_bytes())
}

/// Appends `word` and `value`.
pub(crate) fn push_field(text: &mut Vec<u8>, word: &str, value: &[u8]) -> Result<(), AllocError>
    ensures { OnOk result (text.new.items ≡ text.old.items ++ (word.now ++ value.now)) }
{
    push_words(text, word)?;
    text.extend_from_slice(value)
}

/// Appends LF.
pub(crate) fn push_line_end(text: &mut Vec<u8>) -> Result<(), AllocError>
    ensures { OnOk result (text.new.items ≡ text.old.items ++ 10 ∷ []) }
{
    text.push(b'\n')?;
    Ok(())
}
