//! The subcommand `lesson`.
ghost use Rattle.std.specs.Prelude.{◌≡◌, ◌≢◌, ℕ, List, map, IfErr, IfOk};
ghost use Rattle.std.specs.Io.KnownBytes.{Appends};
ghost use Rattle.peers_msg.specs.Spelling.{spelled, stream_of};
ghost use Rattle.peers_msg.specs.declared.message.Message.{Message};
ghost use Rattle.node_text.specs.Lessons.{printed};
ghost use Rattle.node_text.specs.declared.scenes.Scene.{Scene};
ghost use Rattle.text_commands.specs.Endings.{IsEarly, line_of};
ghost use Rattle.text_commands.specs.Teaching.{EndsLesson, IsLesson};

use crate::endings::Ending;
use crate::settings::setting_of;
use node_text::{Scene, printed_lesson, read_scene};
use peers_devices::{Faults, read_to_end, write_all};
use std::alloc::Global;
use std::io::{Read, Write};
use teach_writer::{Lesson, teach};

/// Reads a scene, and writes a shortest lesson that teaches its updates, and the prices that show that it is one.
///
/// If it ends early, it writes to `errors` a line that says why, and nothing to `output`, unless a device failed.
pub fn lesson<R: Read + Faults, W: Write + Faults, E: Write + Faults>(
    alloc: Global,
    input: &mut R,
    output: &mut W,
    errors: &mut E,
) -> Ending
    ensures done { result ≡ Ending.Done → (scene : Scene) × (messages : List Message) × (prices : List ℕ) × IsLesson scene messages prices
        × Appends (W.contents output.old) (W.contents output.new) (printed (map spelled messages) prices) }
    ensures silent { result ≢ Ending.Done → result ≢ Ending.Device → output.new ≡ output.old }
    ensures ends { EndsLesson result }
    ensures said { result ≢ Ending.Device → Appends (E.contents errors.old) (E.contents errors.new) (line_of result) }
{
    let text = match lesson_text(alloc, input) {
        Ok(text) => text,
        Err(ending) => return ending.said(alloc, errors),
    };
    match write_all(output, text.as_slice()) {
        Ok(()) => Ending::Done,
        Err(_) => Ending::device(errors),
    }
}

/// Returns what is printed for the scene that `input` has.
fn lesson_text<R: Read + Faults>(alloc: Global, input: &mut R) -> Result<Vec<u8>, Ending>
    ensures text { IfOk result (λ text. (scene : Scene) × (messages : List Message) × (prices : List ℕ) × IsLesson scene messages prices
        × (text.items ≡ printed (map spelled messages) prices)) }
    ensures early { IfErr result IsEarly }
{
    let text = read_to_end(alloc, input)?;
    let scene = read_scene(alloc, text.as_slice())?;
    let lesson = lesson_of(alloc, scene)?;
    let text = printed_lesson(alloc, lesson.bytes.as_slice(), lesson.prices.as_slice())?;
    Ok(text)
}

/// Returns the lesson of a scene.
fn lesson_of(alloc: Global, scene: Scene) -> Result<Lesson, Ending>
    ensures lesson { IfOk result (λ lesson. (messages : List Message) × (lesson.bytes ≡ stream_of messages) × IsLesson scene messages lesson.prices) }
    ensures early { IfErr result IsEarly }
{
    let setting = setting_of(alloc, scene)?;
    Ok(teach(alloc, &setting.known, &setting.batch)?)
}
