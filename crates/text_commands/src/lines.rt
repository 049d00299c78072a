//! Lines of what is printed of a table.
ghost use Rattle.std.specs.Prelude.{◌≡◌, ◌++◌, [], OnOk, option_copied};
ghost use Rattle.text_commands.specs.Answers.{Adds, line, refused};

use table_types::Memory;

/// Appends `words` and LF.
pub(crate) fn push_line(text: &mut Vec<u8>, words: &str) -> Result<(), Memory>
    ensures { OnOk result (text.new.items ≡ text.old.items ++ line words.now) }
{
    text.extend_from_slice(words.as_bytes())?;
    end_line(text)
}

/// Appends LF.
pub(crate) fn end_line(text: &mut Vec<u8>) -> Result<(), Memory>
    ensures { OnOk result (text.new.items ≡ text.old.items ++ line []) }
{
    text.push(b'\n')?;
    Ok(())
}

/// Appends the line of the refusal with the name `name`. A refusal without a name says that memory ran out.
pub(crate) fn push_refusal(text: &mut Vec<u8>, name: Option<&str>) -> Result<(), Memory>
    ensures { OnOk result (Adds (refused (option_copied name.entry)) text.old.items text.new.items) }
{
    match name {
        Some(name) => push_line(text, name),
        None => Err(Memory),
    }
}
