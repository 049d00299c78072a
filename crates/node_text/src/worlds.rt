//! Scripts of worlds: the tables, the sessions, and the steps and questions of the subcommand `world`.
ghost use Rattle.std.specs.Prelude.{◌≡◌, ◌<◌, [], Err, IfOk, IfSome, is_some, vec_len, ℕ};
ghost use Rattle.table_types.specs.Rosters.{has_id};
ghost use Rattle.node_text.specs.Scripts.{IsLineOf, line_count};
ghost use Rattle.node_text.specs.Worlds.{IsWorldScript, IsWorldScriptSoFar, definitions, has_like, session_count};

use crate::error::{LineError, SceneError};
use crate::limits::push_within;
use crate::lines::{LineReader, read_lines};
use crate::numbers::{number, number_from_one};
use crate::script_tables::{ScriptTable, is_setting};
use crate::tables::{are_alike, table_of};
use crate::versions::versions_of;
use crate::words::words_of;
use crate::world_lines::WorldLine;
use std::alloc::Global;
use table_types::{Roster, TableDef, Version};

/// The most sessions of a world.
const MOST_SESSIONS: u32 = 16;

/// What the script of a world says.
#[derive(Debug, Drop)]
pub struct WorldScript {
    /// The tables in the order of their lines: 1 to 64, with distinct ids and names.
    pub tables: Vec<ScriptTable>,
    /// The version of each session, in order, if a line says how many there are: 1 to 16.
    pub versions: Option<Vec<Version>>,
    /// The steps and the questions in the order of their lines. A question is about a table and a session that are there.
    pub lines: Vec<WorldLine>,
    /// Whether a line that sets something came. After it no table may come.
    pub(crate) settings_began: bool,
}

/// Reads the script of a world, line by line.
///
/// Each line ends with LF. An empty line and one that begins with `#` say nothing. `Line` names the first line that breaks a
/// rule or a limit; `Scene` means that the script says nothing.
pub fn read_world(alloc: Global, text: &[u8]) -> Result<WorldScript, SceneError>
    ensures world { IfOk result IsWorldScript }
    ensures line { (number : ℕ) → result ≡ Err (SceneError.Line number) → IsLineOf (line_count text.now) number }
{
    let mut script = WorldScript::new(alloc);
    read_lines(alloc, text, &mut script)?;
    if script.tables.is_empty() {
        return Err(SceneError::Scene);
    }
    Ok(script)
}

impl LineReader for WorldScript {
    ghost is_sound = { λ _ script. IsWorldScriptSoFar script };

    /// Reads a line into the script. After a refusal the script must not be used.
    fn read_line(&mut self, alloc: Global, _number: usize, line: &[u8]) -> Result<(), LineError> {
        let words = words_of(alloc, line)?;
        match words.as_slice() {
            [] => Ok(()),
            [kind, words @ ..] => self.read_words(alloc, kind, words),
        }
    }
}

impl WorldScript {
    /// Returns a script of no lines.
    fn new(alloc: Global) -> WorldScript
        ensures { IsWorldScriptSoFar result }
    {
        WorldScript {
            tables: Vec::new(alloc),
            versions: None,
            lines: Vec::new(alloc),
            settings_began: false,
        }
    }

    /// Reads a line into the script, from its first word and those after it. The tables come first, then the settings.
    fn read_words(&mut self, alloc: Global, kind: &[u8], words: &[&[u8]]) -> Result<(), LineError>
        ensures { IsWorldScriptSoFar self.old → IsWorldScriptSoFar self.new }
    {
        if kind == b"table".as_slice() {
            return self.read_table(alloc, words);
        }
        if self.tables.is_empty() {
            return Err(LineError::Refused);
        }
        if kind == b"sessions".as_slice() || is_setting(kind) {
            return self.read_setting(alloc, kind, words);
        }
        let line = self.line_of(alloc, kind, words)?;
        self.lines.push(line)?;
        Ok(())
    }

    /// Reads a line `table`, which must come before all lines of other kinds.
    fn read_table(&mut self, alloc: Global, words: &[&[u8]]) -> Result<(), LineError>
        ensures { IsWorldScriptSoFar self.old → IsWorldScriptSoFar self.new }
    {
        if self.settings_began || !self.lines.is_empty() {
            return Err(LineError::Refused);
        }
        let table = table_of(alloc, words)?;
        if has_like(self.tables.as_slice(), &table) {
            return Err(LineError::Refused);
        }
        push_within(&mut self.tables, Roster::MOST, ScriptTable::new(table))
    }

    /// Reads a line `sessions COUNT VERSIONS..`, or one that sets something of a table, which must come before all steps and
    /// questions.
    fn read_setting(&mut self, alloc: Global, kind: &[u8], words: &[&[u8]]) -> Result<(), LineError>
        ensures { IsWorldScriptSoFar self.old → IsWorldScriptSoFar self.new }
    {
        if !self.lines.is_empty() {
            return Err(LineError::Refused);
        }
        self.settings_began = true;
        let [word, words @ ..] = words else {
            return Err(LineError::Refused);
        };
        if kind == b"sessions".as_slice() {
            return self.read_sessions(alloc, word, words);
        }
        let index = self.index_of(word).ok_or(LineError::Refused)?;
        self.tables[index].read_setting(kind, words)
    }

    /// Reads the number of sessions and the version of each, in order: 2.1 for each if no word comes after the number.
    fn read_sessions(
        &mut self,
        alloc: Global,
        word: &[u8],
        words: &[&[u8]],
    ) -> Result<(), LineError>
        ensures { self.old.lines.items ≡ [] → IsWorldScriptSoFar self.old → IsWorldScriptSoFar self.new }
    {
        let count = number_from_one(word, MOST_SESSIONS).ok_or(LineError::Refused)?;
        if self.versions.is_some() {
            return Err(LineError::Refused);
        }
        self.versions = Some(versions_of(alloc, count as usize, words)?);
        Ok(())
    }

    /// Returns the index of the table whose id `word` writes.
    fn index_of(&self, word: &[u8]) -> Option<usize>
        ensures { IfSome result (λ index. index < vec_len self.now.tables) }
    {
        let id = number(word, u64::MAX)?;
        for (index, table) in self.tables.iter().enumerate() {
            if table.definition.id() == id {
                return Some(index);
            }
        }
        None
    }

    /// Returns the table with the id `id`.
    pub(crate) fn table(&self, id: u64) -> Option<&TableDef>
        ensures { is_some result ≡ has_id id (definitions self.now.tables.items) }
    {
        for table in &self.tables {
            if table.definition.id() == id {
                return Some(&table.definition);
            }
        }
        None
    }

    /// Returns the number of sessions.
    pub(crate) fn session_count(&self) -> usize
        ensures { result ≡ session_count self.now }
    {
        match &self.versions {
            Some(versions) => versions.len(),
            None => 1,
        }
    }
}

/// Returns whether one of the tables has the id or the name of `table`.
fn has_like(tables: &[ScriptTable], table: &TableDef) -> bool
    ensures { result ≡ has_like table.now (definitions tables.now) }
{
    for other in tables {
        if are_alike(table, &other.definition) {
            return true;
        }
    }
    false
}
