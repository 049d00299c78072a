//! Texts that are read line by line.
ghost use Rattle.std.specs.Prelude.{◌≡◌, Err, ℕ};
ghost use Rattle.node_text.specs.Scripts.{IsLineOf, line_count};

use crate::error::{LineError, SceneError};
use crate::words::cut;
use std::alloc::Global;

/// What is read from a text, line by line.
pub trait LineReader {
    /// What each line keeps, in a text of this many lines.
    ghost is_sound: { ℕ → Self → Type 0 };

    /// Reads `line`, which is line `number`, from 1, without its LF. If it is refused, no later line is read.
    fn read_line(&mut self, alloc: Global, number: usize, line: &[u8]) -> Result<(), LineError>
        ensures { (count : ℕ) → is_sound count self.old → IsLineOf count number → is_sound count self.new };
}

/// Reads the lines of `text` in order, up to the first that is refused, which `Line` names. Each line ends with LF; a last
/// line without it is refused.
pub fn read_lines<T: LineReader>(
    alloc: Global,
    text: &[u8],
    reader: &mut T,
) -> Result<(), SceneError>
    ensures sound { T.is_sound (line_count text.now) reader.old → T.is_sound (line_count text.now) reader.new }
    ensures line { (number : ℕ) → result ≡ Err (SceneError.Line number) → IsLineOf (line_count text.now) number }
{
    let mut rest = text;
    let mut number = 1;
    while let Some((line, after)) = cut(rest, b'\n') {
        match reader.read_line(alloc, number, line) {
            Ok(()) => {}
            Err(LineError::Memory) => return Err(SceneError::Memory),
            Err(LineError::Refused) => return Err(SceneError::Line(number)),
        }
        rest = after;
        number += 1;
    }
    if rest.is_empty() {
        Ok(())
    } else {
        Err(SceneError::Line(number))
    }
}
