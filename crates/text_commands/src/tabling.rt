//! The subcommand `table`.
ghost use Rattle.std.specs.Prelude.{◌≡◌, ◌≢◌, ◌≤◌, ℕ, Err, List, IfErr, IfOk};
ghost use Rattle.std.specs.Io.KnownBytes.{Appends};
ghost use Rattle.node_text.specs.declared.scripts.Script.{Script};
ghost use Rattle.node_text.specs.Scripts.{IsScript};
ghost use Rattle.text_commands.specs.Endings.{IsEarly, line_of};
ghost use Rattle.text_commands.specs.Running.{EndsTable, IsPrinted};

use crate::endings::Ending;
use crate::running::printed;
use node_text::{Script, read_script};
use peers_devices::{Faults, read_to_end, write_all};
use std::alloc::Global;
use std::io::{Read, Write};

/// Reads a script, makes its table, and writes what the table returns for each of its calls, in turn.
///
/// A call that the table refuses is no fault: `table` writes the refusal's name. If the subcommand ends early, it writes to
/// `errors` a line that says why, and nothing to `output`, unless a device failed.
pub fn table<R: Read + Faults, W: Write + Faults, E: Write + Faults>(
    alloc: Global,
    input: &mut R,
    output: &mut W,
    errors: &mut E,
) -> Ending
    ensures done { result ≡ Ending.Done → (script : Script) × (text : List ℕ) × IsPrinted script text
        × Appends (W.contents output.old) (W.contents output.new) text }
    ensures silent { result ≢ Ending.Done → result ≢ Ending.Device → output.new ≡ output.old }
    ensures ends { EndsTable result }
    ensures said { result ≢ Ending.Device → Appends (E.contents errors.old) (E.contents errors.new) (line_of result) }
{
    let text = match answers(alloc, input) {
        Ok(text) => text,
        Err(ending) => return ending.said(alloc, errors),
    };
    match write_all(output, text.as_slice()) {
        Ok(()) => Ending::Done,
        Err(_) => Ending::device(errors),
    }
}

/// Returns what is printed for the script that `input` has.
fn answers<R: Read + Faults>(alloc: Global, input: &mut R) -> Result<Vec<u8>, Ending>
    ensures printed { IfOk result (λ text. (script : Script) × IsPrinted script text.items) }
    ensures early { IfErr result IsEarly }
    ensures line { (number : ℕ) → result ≡ Err (Ending.Line number) → 1 ≤ number }
{
    let script = script_of(alloc, input)?;
    let text = printed(alloc, script)?;
    Ok(text)
}

/// Returns the script that `input` has, and drops its text.
fn script_of<R: Read + Faults>(alloc: Global, input: &mut R) -> Result<Script, Ending>
    ensures script { IfOk result (λ script. (count : ℕ) × IsScript count script) }
    ensures early { IfErr result IsEarly }
    ensures line { (number : ℕ) → result ≡ Err (Ending.Line number) → 1 ≤ number }
{
    let text = read_to_end(alloc, input)?;
    Ok(read_script(alloc, text.as_slice())?)
}
