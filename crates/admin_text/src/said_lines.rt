//! Lines that say something to operators.
ghost use Rattle.std.specs.Prelude.{◌≡◌, ◌++◌, OnOk, codes, true};
ghost use Rattle.std.specs.Fmt.{decimal};
ghost use Rattle.admin_text.specs.SaidLines.{Adds, AddsPrintable, is_printable};

use node_text::push_word_and_number;
use table_types::Memory;

/// Appends `line `, `number`, `between`, `sentence` with `?` in the place of a byte outside 32 to 126, and LF.
pub(crate) fn push_numbered(
    text: &mut Vec<u8>,
    number: usize,
    between: &str,
    sentence: &str,
) -> Result<(), Memory>
    ensures { OnOk result (Adds (codes "line " ++ (decimal number ++ between.now)) text.old.items text.new.items) }
{
    push_word_and_number(text, "line ", number as u64)?;
    push_line(text, between, sentence)
}

/// Appends `head`, `sentence` with `?` in the place of a byte outside 32 to 126, and LF.
pub(crate) fn push_line(text: &mut Vec<u8>, head: &str, sentence: &str) -> Result<(), Memory>
    ensures { OnOk result (Adds head.now text.old.items text.new.items) }
{
    text.extend_from_slice(head.as_bytes())?;
    push_printable(text, sentence.as_bytes())?;
    text.push(b'\n')?;
    Ok(())
}

/// Appends lines that are there already.
pub(crate) fn push_lines(text: &mut Vec<u8>, lines: &[u8]) -> Result<(), Memory>
    ensures { OnOk result (text.new.items ≡ text.old.items ++ lines.now) }
{
    text.extend_from_slice(lines)?;
    Ok(())
}

/// Appends the bytes, with `?` in the place of one outside 32 to 126.
fn push_printable(text: &mut Vec<u8>, bytes: &[u8]) -> Result<(), Memory>
    ensures { OnOk result (AddsPrintable text.old.items text.new.items) }
{
    for byte in bytes {
        text.push(printable(*byte))?;
    }
    Ok(())
}

/// Returns `byte`, or `?` if it is outside 32 to 126.
fn printable(byte: u8) -> u8
    ensures { is_printable result ≡ true }
{
    match byte {
        b' '..=b'~' => byte,
        _ => b'?',
    }
}
