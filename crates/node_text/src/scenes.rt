//! Scenes: what `lesson`, `check`, `learn` and a node read.
use crate::error::{LineError, SceneError};
use crate::lines::{LineReader, read_lines};
use crate::words::words_of;
use dict_slots::Slots;
use std::alloc::Global;
use table_types::{Moment, TableDef, Update};

/// What a scene says.
#[derive(Debug, Drop)]
pub struct Scene {
    /// The tables in the order of their lines: 1 to 64, with distinct ids and names.
    pub tables: Vec<TableDef>,
    /// The ids of the tables that are defined at the start, each once.
    pub defined: Vec<u64>,
    /// The id of the table that is selected at the start, a defined one.
    pub selected: Option<u64>,
    /// The id and the last number of defined tables at the start, at most one for each table.
    pub last: Vec<(u64, u32)>,
    /// The names in dictionary slots at the start.
    pub slots: Slots,
    /// The updates in the order of their lines: at most 4,096, each of which fits its table.
    pub updates: Vec<Update>,
    /// The learner's moment.
    pub moment: Option<Moment>,
    /// The pieces of the stream, joined.
    pub stream: Vec<u8>,
    /// The prices, if a line has them.
    pub prices: Option<Vec<u64>>,
    /// Whether a line other than one of a table came. After it no table may come.
    pub(crate) tables_ended: bool,
}

/// Reads a scene, line by line.
///
/// Each line ends with LF. An empty line and one that begins with `#` say nothing. `Line` names the first line that breaks a
/// rule or a limit; `Scene` means that the scene has no table.
pub fn read_scene(alloc: Global, text: &[u8]) -> Result<Scene, SceneError> {
    let mut scene = Scene::new(alloc);
    read_lines(alloc, text, &mut scene)?;
    if scene.tables.is_empty() {
        return Err(SceneError::Scene);
    }
    Ok(scene)
}

impl Scene {
    /// Returns a scene of no lines.
    fn new(alloc: Global) -> Scene {
        Scene {
            tables: Vec::new(alloc),
            defined: Vec::new(alloc),
            selected: None,
            last: Vec::new(alloc),
            slots: Slots::new(alloc),
            updates: Vec::new(alloc),
            moment: None,
            stream: Vec::new(alloc),
            prices: None,
            tables_ended: false,
        }
    }
}

impl LineReader for Scene {
    ghost is_sound = { λ _ _. Unit {0} };

    /// Reads a line into the scene. After a refusal the scene must not be used.
    fn read_line(&mut self, alloc: Global, _number: usize, line: &[u8]) -> Result<(), LineError> {
        let words = words_of(alloc, line)?;
        match words.as_slice() {
            [] => Ok(()),
            [kind, words @ ..] => self.read_words(alloc, kind, words),
        }
    }
}
