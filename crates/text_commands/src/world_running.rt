//! Runs a world: makes the steps of a script in turn, and answers the questions in between.
ghost use Rattle.std.specs.Prelude.{◌≡◌, ◌++◌, IfOk, List, OnOk, map, option_map, ℕ};
ghost use Rattle.std.specs.List.{AllByRecursion};
ghost use Rattle.interleave_core.specs.Worlds.{WorldState};
ghost use Rattle.node_text.specs.ScriptTables.{IsScriptTable};
ghost use Rattle.node_text.specs.Worlds.{IsWorldScript, versions_or_one};
ghost use Rattle.text_commands.specs.Running.{cell_of};
ghost use Rattle.text_commands.specs.Worlds.{Answers, IsWorldPrinted, PrintLines, PrintsLine, step_of};

use crate::cells::cell_of;
use crate::world_answers::{push_learner, push_session, push_table_events, push_table_rows};
use interleave_core::{Step, Way, World, run};
use node_text::{ScriptTable, WorldLine, WorldQuestion, WorldScript, WorldStep};
use std::alloc::Global;
use table_cell::TableCell;
use table_types::{Memory, Version};

/// Returns what the script of a world prints.
pub(crate) fn printed(alloc: Global, script: WorldScript) -> Result<Vec<u8>, Memory>
    requires { IsWorldScript script }
    ensures { IfOk result (λ text. IsWorldPrinted script text.items) }
{
    let WorldScript {
        tables,
        versions,
        lines,
        ..
    } = script;
    let versions = versions_or_one(alloc, versions)?;
    let world = World::new(alloc, cells_of(alloc, tables)?, versions)?;
    let mut text = Vec::new(alloc);
    run_lines(alloc, world, lines, &mut text)?;
    Ok(text)
}

/// Returns the versions of the sessions, in order: one session of 2.1 if the script has no line about them.
fn versions_or_one(alloc: Global, versions: Option<Vec<Version>>) -> Result<Vec<Version>, Memory>
    ensures { IfOk result (λ all. all.items ≡ versions_or_one (option_map (λ given. given.items) versions)) }
{
    match versions {
        Some(versions) => Ok(versions),
        None => Ok(vec![in alloc; Version::V21]?),
    }
}

/// Returns the new tables of a script, in their order.
fn cells_of(alloc: Global, tables: Vec<ScriptTable>) -> Result<Vec<TableCell>, Memory>
    requires { AllByRecursion IsScriptTable tables.items }
    ensures { IfOk result (λ cells. cells.items ≡ map cell_of tables.items) }
{
    let mut cells = Vec::with_capacity(alloc, tables.len())?;
    for table in tables {
        cells.push(cell_of(alloc, table)?)?;
    }
    Ok(cells)
}

/// Makes the steps, and appends the answers to the questions.
fn run_lines(
    alloc: Global,
    world: World,
    lines: Vec<WorldLine>,
    text: &mut Vec<u8>,
) -> Result<(), Memory>
    ensures { OnOk result ((more : List ℕ) × (e : WorldState) × PrintLines world lines.items more e × (text.new.items ≡ text.old.items ++ more)) }
{
    let mut world = world;
    for line in lines {
        world = run_line(alloc, world, line, text)?;
    }
    Ok(())
}

/// Makes a step, or appends the answer to a question. Returns the world after it.
fn run_line(
    alloc: Global,
    world: World,
    line: WorldLine,
    text: &mut Vec<u8>,
) -> Result<World, Memory>
    ensures { IfOk result (λ after. (more : List ℕ) × PrintsLine world line more after × (text.new.items ≡ text.old.items ++ more)) }
{
    match line {
        WorldLine::Step(step) => run(world, &[step_of(step)]),
        WorldLine::Question(question) => {
            push_answer(alloc, &world, text, question)?;
            Ok(world)
        }
    }
}

/// Appends the answer to a question.
fn push_answer(
    alloc: Global,
    world: &World,
    text: &mut Vec<u8>,
    question: WorldQuestion,
) -> Result<(), Memory>
    ensures { OnOk result ((more : List ℕ) × Answers world.now question more × (text.new.items ≡ text.old.items ++ more)) }
{
    match question {
        WorldQuestion::Session(session) => push_session(alloc, world, text, session),
        WorldQuestion::Rows(table) => push_table_rows(alloc, world, text, table),
        WorldQuestion::Learner { session, table } => push_learner(
            alloc, world, text, session, table,
        ),
        WorldQuestion::Events(table) => push_table_events(alloc, world, text, table),
    }
}

/// Returns the world's step that a line says.
fn step_of(step: WorldStep) -> Step
    ensures { result ≡ step_of step }
{
    match step {
        WorldStep::Track {
            table,
            key,
            change,
            moment,
        } => Step::Track {
            table,
            key,
            change,
            moment,
        },
        WorldStep::Learn {
            session,
            update,
            moment,
        } => Step::Learn {
            session,
            update,
            moment,
        },
        WorldStep::Copy {
            session,
            table,
            kind,
            limit,
            moment,
        } => Step::Copy {
            session,
            table,
            kind,
            limit,
            moment,
        },
        WorldStep::Teach(session) => Step::Teach { session },
        WorldStep::DeliverToLearner {
            session,
            count,
            moment,
        } => Step::Deliver {
            session,
            way: Way::ToLearner,
            count,
            moment,
        },
        WorldStep::DeliverToTeacher {
            session,
            count,
            moment,
        } => Step::Deliver {
            session,
            way: Way::ToTeacher,
            count,
            moment,
        },
        WorldStep::Ack(session) => Step::Ack { session },
        WorldStep::Break(session) => Step::Break { session },
        WorldStep::Reopen(session) => Step::Reopen { session },
        WorldStep::Purge { table, moment } => Step::Purge { table, moment },
    }
}
