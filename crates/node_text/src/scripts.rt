//! Scripts: the calls that the subcommand `table` makes of one table.
ghost use Rattle.std.specs.Prelude.{◌≡◌, Err, IfOk, IfSome, ℕ};
ghost use Rattle.node_text.specs.Scripts.{IsLineOf, IsScript, line_count};

use crate::calls::{Call, call_of};
use crate::error::{LineError, SceneError};
use crate::lines::{LineReader, read_lines};
use crate::script_tables::{ScriptTable, is_setting};
use crate::tables::table_of;
use crate::words::words_of;
use std::alloc::Global;
use table_types::TableDef;

/// What a script says.
#[derive(Debug, Drop)]
pub struct Script {
    /// The table.
    pub table: ScriptTable,
    /// The calls in the order of their lines, each with the number of its line, from 1.
    pub calls: Vec<(usize, Call)>,
    /// The number of the line after these calls that is refused, if one is. A call may still refuse an earlier line.
    pub refused: Option<usize>,
}

/// Reads a script, line by line, up to the first line that breaks a rule whatever the calls before it return.
///
/// Each line ends with LF. An empty line and one that begins with `#` say nothing. `Line` names a line that is refused before
/// the script has a table; `Scene` means that the script says nothing.
pub fn read_script(alloc: Global, text: &[u8]) -> Result<Script, SceneError>
    ensures script { IfOk result (IsScript (line_count text.now)) }
    ensures line { (number : ℕ) → result ≡ Err (SceneError.Line number) → IsLineOf (line_count text.now) number }
{
    let mut script: Option<Script> = None;
    match read_lines(alloc, text, &mut script) {
        Ok(()) => up_to(script, None),
        Err(SceneError::Line(number)) => up_to(script, Some(number)),
        Err(error) => Err(error),
    }
}

/// Returns what was read before line `refused`, or before the end if no line is refused.
fn up_to(script: Option<Script>, refused: Option<usize>) -> Result<Script, SceneError>
    ensures script { (count : ℕ) → IfSome script (IsScript count) → IfSome refused (IsLineOf count) → IfOk result (IsScript count) }
    ensures line { (count number : ℕ) → IfSome refused (IsLineOf count) → result ≡ Err (SceneError.Line number) → IsLineOf count number }
{
    match (script, refused) {
        (Some(mut script), refused) => {
            script.refused = refused;
            Ok(script)
        }
        (None, Some(number)) => Err(SceneError::Line(number)),
        (None, None) => Err(SceneError::Scene),
    }
}

impl LineReader for Option<Script> {
    ghost is_sound = { λ count script. IfSome script (IsScript count) };

    /// Reads a line. If it is refused, the script keeps what was read before.
    fn read_line(&mut self, alloc: Global, number: usize, line: &[u8]) -> Result<(), LineError> {
        let words = words_of(alloc, line)?;
        let [kind, words @ ..] = words.as_slice() else {
            return Ok(());
        };
        match self {
            Some(script) => script.read_words(alloc, number, kind, words),
            None if *kind == b"table".as_slice() => {
                *self = Some(Script::new(alloc, table_of(alloc, words)?));
                Ok(())
            }
            None => Err(LineError::Refused),
        }
    }
}

impl Script {
    /// Returns a script that says no more than its table.
    fn new(alloc: Global, table: TableDef) -> Script
        ensures { (count : ℕ) → IsScript count result }
    {
        Script {
            table: ScriptTable::new(table),
            calls: Vec::new(alloc),
            refused: None,
        }
    }

    /// Reads a line after that of the table, from its first word and those after it. The settings come before the calls.
    fn read_words(
        &mut self,
        alloc: Global,
        number: usize,
        kind: &[u8],
        words: &[&[u8]],
    ) -> Result<(), LineError>
        ensures { (count : ℕ) → IsScript count self.old → IsLineOf count number → IsScript count self.new }
    {
        if is_setting(kind) {
            return self.read_setting(kind, words);
        }
        let call = call_of(alloc, &self.table.definition, kind, words)?;
        self.calls.push((number, call))?;
        Ok(())
    }

    /// Reads a line that sets something of the table.
    fn read_setting(&mut self, kind: &[u8], words: &[&[u8]]) -> Result<(), LineError>
        ensures { (count : ℕ) → IsScript count self.old → IsScript count self.new }
    {
        if !self.calls.is_empty() {
            return Err(LineError::Refused);
        }
        self.table.read_setting(kind, words)
    }
}
