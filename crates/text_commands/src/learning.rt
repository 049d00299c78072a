//! The subcommand `learn`.
ghost use Rattle.std.specs.Prelude.{◌≡◌, ◌≢◌, ◌++◌, ℕ, Ok, Err, IfErr, IfOk, OnOk, flat_map, string_bytes};
ghost use Rattle.std.specs.Io.KnownBytes.{Appends};
ghost use Rattle.learner.specs.declared.fault.Fault.{Fault};
ghost use Rattle.learner.specs.declared.fault.Fault.TheVariants as faults;
ghost use Rattle.learner.specs.Learning.{Learning};
ghost use Rattle.node_text.specs.Rows.{row_line};
ghost use Rattle.node_text.specs.declared.scenes.Scene.{Scene};
ghost use Rattle.text_commands.specs.Endings.{IsEarly, line_of};
ghost use Rattle.text_commands.specs.Learning.{AreInRisingId, EndsLearn, IsLearned, IsPrinted, MakeNoRoster, acks_text, rows_text};

use crate::endings::Ending;
use learner::{Fault, Learner};
use node_text::{Scene, push_acks, push_row, read_scene};
use peers_devices::{Faults, read_to_end, write_all};
use std::alloc::Global;
use std::collections::BTreeMap;
use std::io::{Read, Write};
use table_types::{Key, Memory, Roster, RosterError, Row, TableDef};

/// Reads a scene, feeds its stream to a learner of its tables at its moment, and writes the learner's rows and the
/// acknowledgements that are due.
///
/// If the stream has a fault, it writes the rows so far and no acknowledgement, and to `errors` the fault's name. If it ends
/// early for another reason, it writes nothing to `output`, unless a device failed.
pub fn learn<R: Read + Faults, W: Write + Faults, E: Write + Faults>(
    alloc: Global,
    input: &mut R,
    output: &mut W,
    errors: &mut E,
) -> Ending
    ensures done { result ≡ Ending.Done → (scene : Scene) × (count : ℕ) × (l : Learning) × IsLearned scene (Ok count) l
        × Appends (W.contents output.old) (W.contents output.new) (rows_text l ++ acks_text l) }
    ensures fault { (fault : Fault) → result ≡ Ending.Stream fault → (scene : Scene) × (l : Learning) × (fault ≢ faults.Memory) × IsLearned scene (Err fault) l
        × Appends (W.contents output.old) (W.contents output.new) (rows_text l) }
    ensures silent { result ≢ Ending.Done → ((fault : Fault) → result ≢ Ending.Stream fault) → result ≢ Ending.Device → output.new ≡ output.old }
    ensures ends { EndsLearn result }
    ensures said { result ≢ Ending.Device → Appends (E.contents errors.old) (E.contents errors.new) (line_of result) }
{
    let Learned { text, ending, line } = match learned_of(alloc, input) {
        Ok(learned) => learned,
        Err(ending) => return ending.said(alloc, errors),
    };
    match write_all(output, text.as_slice()) {
        Ok(()) => ending.written(errors, line.as_str()),
        Err(_) => Ending::device(errors),
    }
}

/// What is printed for a scene, how the subcommand then ends, and the line of that ending.
#[derive(Debug, Drop)]
struct Learned {
    text: Vec<u8>,
    ending: Ending,
    line: String,
}

/// Returns what is printed for the scene that `input` has.
fn learned_of<R: Read + Faults>(alloc: Global, input: &mut R) -> Result<Learned, Ending>
    ensures printed { IfOk result (λ learned. (scene : Scene) × IsPrinted scene learned.text.items learned.ending) }
    ensures line { IfOk result (λ learned. string_bytes learned.line ≡ line_of learned.ending) }
    ensures early { IfErr result IsEarly }
{
    let text = read_to_end(alloc, input)?;
    let scene = read_scene(alloc, text.as_slice())?;
    let (text, ending) = printed_for(alloc, scene)?;
    let line = ending.line(alloc)?;
    Ok(Learned { text, ending, line })
}

/// Returns what is printed for a scene, and how the subcommand then ends.
fn printed_for(alloc: Global, scene: Scene) -> Result<(Vec<u8>, Ending), Ending>
    ensures printed { IfOk result (λ learned. IsPrinted scene learned.0.items learned.1) }
    ensures early { IfErr result IsEarly }
{
    let (mut learner, answer) = fed(alloc, scene)?;
    let printed = printed_after(alloc, &mut learner, answer);
    drop(learner);
    printed
}

/// Returns what is printed of a learner that returned `answer` when a scene's stream was fed to it, and how the subcommand
/// then ends.
fn printed_after(
    alloc: Global,
    learner: &mut Learner,
    answer: Result<usize, Fault>,
) -> Result<(Vec<u8>, Ending), Ending>
    ensures printed { (scene : Scene) → IsLearned scene answer learner.old → IfOk result (λ printed. IsPrinted scene printed.0.items printed.1) }
    ensures early { IfErr result IsEarly }
{
    let mut text = Vec::new(alloc);
    push_all_rows(&mut text, learner)?;
    match answer {
        Ok(_) => {
            push_due_acks(&mut text, learner)?;
            Ok((text, Ending::Done))
        }
        Err(Fault::Memory) => Err(Ending::Memory),
        Err(fault) => Ok((text, Ending::Stream(fault))),
    }
}

/// Feeds the scene's stream to a learner of its tables. Returns the learner, and what `feed` returned.
fn fed(alloc: Global, scene: Scene) -> Result<(Learner, Result<usize, Fault>), Ending>
    ensures fed { IfOk result (λ fed. IsLearned scene fed.1 fed.0) }
    ensures early { IfErr result IsEarly }
{
    let Scene {
        tables,
        moment,
        stream,
        ..
    } = scene;
    let Some(moment) = moment else {
        return Err(Ending::Scene);
    };
    let mut learner = Learner::new(alloc, rising_roster(tables)?)?;
    let answer = learner.feed(stream.as_slice(), moment);
    Ok((learner, answer))
}

/// Returns the roster of `tables` in ascending order of id.
pub fn rising_roster(mut tables: Vec<TableDef>) -> Result<Roster, RosterError>
    ensures rising { IfOk result (λ roster. AreInRisingId tables.items roster) }
    ensures refused { IfErr result (MakeNoRoster tables.items) }
{
    tables.sort_unstable_by_key(|table| table.id());
    let roster = Roster::new(tables)?;
    Ok(roster)
}

/// Appends a line for each row, in ascending order of table id (the order of the learner's roster) and then of key.
fn push_all_rows(text: &mut Vec<u8>, learner: &Learner) -> Result<(), Memory>
    ensures { OnOk result (text.new.items ≡ text.old.items ++ rows_text learner.now) }
{
    for table in learner.roster().tables() {
        match learner.table(table.id()) {
            Some(rows) => push_rows(text, table, rows)?,
            None => {}
        }
    }
    Ok(())
}

/// Appends a line for each row of a table, in ascending order of key.
fn push_rows(text: &mut Vec<u8>, table: &TableDef, rows: &BTreeMap<Key, Row>) -> Result<(), Memory>
    ensures { OnOk result (text.new.items ≡ text.old.items ++ flat_map (row_line table.now) rows.now.entries) }
{
    for (key, row) in rows.iter() {
        push_row(text, table, key, row)?;
    }
    Ok(())
}

/// Appends a line for each acknowledgement that is due. After that none is due.
fn push_due_acks(text: &mut Vec<u8>, learner: &mut Learner) -> Result<(), Memory>
    ensures { OnOk result (text.new.items ≡ text.old.items ++ acks_text learner.old) }
{
    let acks = learner.acks()?;
    push_acks(text, acks.as_slice())?;
    Ok(())
}
