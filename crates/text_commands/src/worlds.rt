//! The subcommand `world`.
ghost use Rattle.std.specs.Prelude.{◌≡◌, ◌≢◌, ◌≤◌, ℕ, Err, IfErr, IfOk, List};
ghost use Rattle.std.specs.Io.KnownBytes.{Appends};
ghost use Rattle.node_text.specs.declared.worlds.WorldScript.{WorldScript};
ghost use Rattle.text_commands.specs.Endings.{IsEarly, line_of};
ghost use Rattle.text_commands.specs.Worlds.{EndsWorld, IsWorldPrinted};

use crate::endings::Ending;
use crate::world_running::printed;
use node_text::read_world;
use peers_devices::{Faults, read_to_end, write_all};
use std::alloc::Global;
use std::io::{Read, Write};

/// Reads a script, makes its world, makes each step in turn, and writes the answers to the questions in between.
///
/// A step that can't be made changes nothing, and is no fault. If the subcommand ends early, it writes to `errors` a line that
/// says why, and nothing to `output`, unless a device failed.
pub fn world<R: Read + Faults, W: Write + Faults, E: Write + Faults>(
    alloc: Global,
    input: &mut R,
    output: &mut W,
    errors: &mut E,
) -> Ending
    ensures done { result ≡ Ending.Done → (script : WorldScript) × (text : List ℕ) × IsWorldPrinted script text
        × Appends (W.contents output.old) (W.contents output.new) text }
    ensures silent { result ≢ Ending.Done → result ≢ Ending.Device → output.new ≡ output.old }
    ensures ends { EndsWorld result }
    ensures said { result ≢ Ending.Device → Appends (E.contents errors.old) (E.contents errors.new) (line_of result) }
{
    let text = match answers(alloc, input) {
        Ok(text) => text,
        Err(ending) => return ending.said(alloc, errors),
    };
    match write_all(output, text.as_slice()) {
        Ok(()) => Ending::Done,
        Err(_) => Ending::device(errors),
    }
}

/// Returns what is printed for the script that `input` has.
fn answers<R: Read + Faults>(alloc: Global, input: &mut R) -> Result<Vec<u8>, Ending>
    ensures printed { IfOk result (λ text. (script : WorldScript) × IsWorldPrinted script text.items) }
    ensures early { IfErr result IsEarly }
    ensures line { (number : ℕ) → result ≡ Err (Ending.Line number) → 1 ≤ number }
{
    let script = read_to_end(alloc, input)?;
    let script = read_world(alloc, script.as_slice())?;
    let text = printed(alloc, script)?;
    Ok(text)
}
