//! The answers to questions about a world, and what is printed of them. A question about what isn't there prints nothing.
ghost use Rattle.std.specs.Prelude.{◌≡◌, ◌++◌, IfNone, IfSome, List, None, OnOk, Some, ℕ};
ghost use Rattle.std.specs.Fmt.{decimal};
ghost use Rattle.interleave_core.specs.Worlds.{ConnectionState, cell_at, connection_at};
ghost use Rattle.text_commands.specs.Worlds.{AnswersEvents, AnswersLearner, AnswersRows, AnswersSession, AreCounts, session_line};

use crate::lines::end_line;
use crate::listing::{push_events, push_listed, push_rows};
use interleave_core::{Way, World};
use std::alloc::Global;
use table_types::Memory;

/// Appends the line of a session: how far it is, and how many bytes are on their way in it.
pub(crate) fn push_session(
    alloc: Global,
    world: &World,
    text: &mut Vec<u8>,
    session: u32,
) -> Result<(), Memory>
    ensures { OnOk result ((more : List ℕ) × AnswersSession session (connection_at session world.now.connections) more × (text.new.items ≡ text.old.items ++ more)) }
{
    match counts_of(world, session) {
        Some(counts) => push_counts(alloc, text, session, counts),
        None => Ok(()),
    }
}

/// Appends the line of a session with these counts.
fn push_counts(
    alloc: Global,
    text: &mut Vec<u8>,
    session: u32,
    counts: Counts,
) -> Result<(), Memory>
    ensures { OnOk result (text.new.items ≡ text.old.items
        ++ session_line session counts.copied counts.taught counts.applied counts.learner counts.teacher) }
{
    push_count(alloc, text, b"session ", session as u64)?;
    push_count(alloc, text, b" copied ", counts.copied as u64)?;
    push_count(alloc, text, b" taught ", counts.taught as u64)?;
    push_count(alloc, text, b" applied ", counts.applied as u64)?;
    push_count(alloc, text, b" learner ", counts.learner as u64)?;
    push_count(alloc, text, b" teacher ", counts.teacher as u64)?;
    end_line(text)
}

/// Appends a word and a number.
fn push_count(alloc: Global, text: &mut Vec<u8>, word: &[u8], count: u64) -> Result<(), Memory>
    ensures { OnOk result (text.new.items ≡ text.old.items ++ (word.now ++ decimal count)) }
{
    text.extend_from_slice(word)?;
    Ok(text.extend_from_slice(format!(in alloc; "{count}")?.as_bytes())?)
}

/// How far a session is: how many batches wait to be taught, how many updates were taught and applied since its connection
/// began, and how many bytes are on their way to its learner and to its teacher.
#[derive(Clone, Copy)]
struct Counts {
    copied: usize,
    taught: usize,
    applied: usize,
    learner: usize,
    teacher: usize,
}

/// Returns how far a session is, if it is there.
fn counts_of(world: &World, session: u32) -> Option<Counts>
    ensures there { IfSome result (λ counts. (s : ConnectionState) × (connection_at session world.now.connections ≡ Some s) × AreCounts s counts.copied counts.taught counts.applied counts.learner counts.teacher) }
    ensures none { IfNone result (connection_at session world.now.connections ≡ None) }
{
    Some(Counts {
        copied: world.copied(session)?.len(),
        taught: world.taught(session)?.len(),
        applied: world.applied(session)?.len(),
        learner: world.pipe(session, Way::ToLearner)?.len(),
        teacher: world.pipe(session, Way::ToTeacher)?.len(),
    })
}

/// Appends the line with the number of a table's rows, and a line for each row in ascending order of key.
pub(crate) fn push_table_rows(
    alloc: Global,
    world: &World,
    text: &mut Vec<u8>,
    table: u64,
) -> Result<(), Memory>
    ensures { OnOk result ((more : List ℕ) × AnswersRows (cell_at table world.now.cells) more × (text.new.items ≡ text.old.items ++ more)) }
{
    match world.cell(table) {
        Some(cell) => push_rows(alloc, cell, text),
        None => Ok(()),
    }
}

/// Appends the line with the number of the rows that the learner of a session has of a table, and a line for each row in
/// ascending order of key.
pub(crate) fn push_learner(
    alloc: Global,
    world: &World,
    text: &mut Vec<u8>,
    session: u32,
    table: u64,
) -> Result<(), Memory>
    ensures { OnOk result ((more : List ℕ) × AnswersLearner table (connection_at session world.now.connections) (cell_at table world.now.cells) more × (text.new.items ≡ text.old.items ++ more)) }
{
    match (world.learner(session), world.cell(table)) {
        (Some(learner), Some(cell)) => {
            let rows = learner.rows(table)?;
            push_listed(alloc, text, cell.definition(), rows.as_slice())
        }
        _ => Ok(()),
    }
}

/// Appends the line with the number of a table's events, and with how many more may come.
pub(crate) fn push_table_events(
    alloc: Global,
    world: &World,
    text: &mut Vec<u8>,
    table: u64,
) -> Result<(), Memory>
    ensures { OnOk result ((more : List ℕ) × AnswersEvents (cell_at table world.now.cells) more × (text.new.items ≡ text.old.items ++ more)) }
{
    match world.cell(table) {
        Some(cell) => push_events(alloc, cell, text),
        None => Ok(()),
    }
}
