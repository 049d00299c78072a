//! Runs of a script: its calls, made in turn.
ghost use Rattle.std.specs.Prelude.{◌≡◌, ◌≤◌, ◌++◌, ℕ, Err, IfErr, IfOk, List, OnOk, option_copied};
ghost use Rattle.std.specs.List.{AllByRecursion};
ghost use Rattle.node_text.specs.Calls.{IsCall};
ghost use Rattle.node_text.specs.Scripts.{IsScript};
ghost use Rattle.text_commands.specs.Endings.{IsEarly};
ghost use Rattle.text_commands.specs.Running.{IsPrinted, PrintAll, Prints, batch_at};

use crate::answers::{
    acknowledge, checkpoint, close, learn, open, purge, renumber, settle, slide, track,
};
use crate::cells::cell_of;
use crate::endings::Ending;
use crate::listing::{push_copied, push_event_at, push_events, push_rows};
use node_text::{Call, Script};
use std::alloc::Global;
use table_cell::TableCell;
use table_types::Batch;

/// A script's run: its table, the batches that the table has returned, and the text printed so far.
#[derive(Drop)]
struct Run {
    cell: TableCell,
    given: Vec<Batch>,
    text: Vec<u8>,
}

/// Returns what a script prints. Refuses a script with a refused line.
pub(crate) fn printed(alloc: Global, script: Script) -> Result<Vec<u8>, Ending>
    requires { (count : ℕ) × IsScript count script }
    ensures printed { IfOk result (λ text. IsPrinted script text.items) }
    ensures early { IfErr result IsEarly }
    ensures line { (number : ℕ) → result ≡ Err (Ending.Line number) → 1 ≤ number }
{
    let Script {
        table,
        calls,
        refused,
    } = script;
    let mut run = Run {
        cell: cell_of(alloc, table)?,
        given: Vec::new(alloc),
        text: Vec::new(alloc),
    };
    run.make_all(alloc, calls)?;
    match refused {
        Some(number) => Err(Ending::Line(number)),
        None => Ok(run.text),
    }
}

impl Run {
    /// Makes the calls, each with the number of its line, and appends what they print.
    fn make_all(&mut self, alloc: Global, calls: Vec<(usize, Call)>) -> Result<(), Ending>
        requires { AllByRecursion (λ call. (1 ≤ call.0) × IsCall call.1) calls.items }
        ensures printed { OnOk result ((text : List ℕ) × PrintAll self.old.cell self.old.given.items calls.items text self.new.cell
            × (self.new.text.items ≡ self.old.text.items ++ text)) }
        ensures early { IfErr result IsEarly }
        ensures line { (number : ℕ) → result ≡ Err (Ending.Line number) → 1 ≤ number }
    {
        for (number, call) in calls {
            self.make(alloc, number, call)?;
        }
        Ok(())
    }

    /// Makes `call`, which is in line `number`, and appends what it prints.
    fn make(&mut self, alloc: Global, number: usize, call: Call) -> Result<(), Ending>
        requires { (1 ≤ number) × IsCall call }
        ensures printed { OnOk result ((text : List ℕ) × Prints self.old.cell self.old.given.items call text self.new.cell self.new.given.items
            × (self.new.text.items ≡ self.old.text.items ++ text)) }
        ensures early { IfErr result IsEarly }
        ensures line { (number : ℕ) → result ≡ Err (Ending.Line number) → 1 ≤ number }
    {
        let Run { cell, given, text } = self;
        match call {
            Call::Settle { session, batch } => match batch_at(given.as_slice(), batch) {
                Some(batch) => settle(cell, text, session, batch)?,
                None => return Err(Ending::Line(number)),
            },
            Call::Copy {
                session,
                kind,
                limit,
                moment,
            } => {
                let answer = cell.copy(session, kind, limit, moment);
                push_copied(alloc, cell.definition(), given, text, answer)?;
            }
            Call::Open { session, version } => open(cell, text, session, version)?,
            Call::Close(session) => close(cell, text, session)?,
            Call::Track {
                seat,
                key,
                change,
                moment,
            } => track(alloc, cell, text, seat, key, change, moment)?,
            Call::Learn {
                session,
                update,
                moment,
            } => learn(alloc, cell, text, session, update, moment)?,
            Call::Ack { session, number } => acknowledge(cell, text, session, number)?,
            Call::Purge(moment) => purge(alloc, cell, text, moment)?,
            Call::Checkpoint => checkpoint(cell, text)?,
            Call::Slide => slide(alloc, cell, text)?,
            Call::Renumber => renumber(cell, text)?,
            Call::Events => push_events(alloc, cell, text)?,
            Call::Event(place) => push_event_at(cell, text, place)?,
            Call::Rows => push_rows(alloc, cell, text)?,
        }
        Ok(())
    }
}

/// Returns the batch at `place`, from 1, of those in `given`.
fn batch_at(given: &[Batch], place: u64) -> Option<&Batch>
    ensures { option_copied result ≡ batch_at given.now place }
{
    if place == 0 {
        return None;
    }
    given.get((place - 1) as usize)
}
