//! The subcommand `check`.
ghost use Rattle.std.specs.Prelude.{◌≡◌, ◌≢◌, IfErr, IfOk, string_bytes};
ghost use Rattle.std.specs.Io.KnownBytes.{Appends};
ghost use Rattle.price_checker.specs.declared.verdict.Verdict.{Verdict};
ghost use Rattle.node_text.specs.Verdicts.{verdict_line};
ghost use Rattle.node_text.specs.declared.scenes.Scene.{Scene};
ghost use Rattle.text_commands.specs.Checking.{EndsCheck, HasVerdict, IsVerdict, ending_of};
ghost use Rattle.text_commands.specs.Endings.{IsEarly, line_of};

use crate::endings::Ending;
use crate::settings::setting_of;
use node_text::{Scene, printed_verdict, read_scene};
use peers_devices::{Faults, read_to_end, write_all};
use price_checker::{Verdict, verify};
use std::alloc::Global;
use std::io::{Read, Write};

/// Reads a scene, and writes the verdict on its stream and prices: whether the stream is legal for the learner of the scene,
/// whether it teaches the scene's updates, and whether the prices show that no shorter stream does.
///
/// It ends with `Done` only if the stream is a shortest one, and with `NotShortest` on every other verdict. If it ends early,
/// it writes to `errors` a line that says why, and nothing to `output`, unless a device failed.
pub fn check<R: Read + Faults, W: Write + Faults, E: Write + Faults>(
    alloc: Global,
    input: &mut R,
    output: &mut W,
    errors: &mut E,
) -> Ending
    ensures verdict { HasVerdict result → (scene : Scene) × (verdict : Verdict) × IsVerdict scene verdict × (result ≡ ending_of verdict)
        × Appends (W.contents output.old) (W.contents output.new) (verdict_line verdict) }
    ensures silent { (HasVerdict result → ⊥) → result ≢ Ending.Device → output.new ≡ output.old }
    ensures ends { EndsCheck result }
    ensures said { result ≢ Ending.Device → Appends (E.contents errors.old) (E.contents errors.new) (line_of result) }
{
    let (text, ending) = match verdict_text(alloc, input) {
        Ok(found) => found,
        Err(ending) => return ending.said(alloc, errors),
    };
    match write_all(output, text.as_bytes()) {
        Ok(()) => ending,
        Err(_) => Ending::device(errors),
    }
}

/// Returns the line of the verdict on the scene that `input` has, and how the subcommand then ends.
fn verdict_text<R: Read + Faults>(alloc: Global, input: &mut R) -> Result<(String, Ending), Ending>
    ensures verdict { IfOk result (λ found. (scene : Scene) × (verdict : Verdict) × IsVerdict scene verdict × (found.1 ≡ ending_of verdict)
        × (string_bytes found.0 ≡ verdict_line verdict)) }
    ensures early { IfErr result IsEarly }
{
    let text = read_to_end(alloc, input)?;
    let scene = read_scene(alloc, text.as_slice())?;
    let verdict = verdict_of(alloc, scene)?;
    let line = printed_verdict(alloc, verdict)?;
    Ok((line, ending_of(verdict)))
}

/// Returns the verdict on the stream and the prices of a scene.
fn verdict_of(alloc: Global, scene: Scene) -> Result<Verdict, Ending>
    ensures verdict { IfOk result (λ verdict. IsVerdict scene verdict) }
    ensures early { IfErr result IsEarly }
{
    let setting = setting_of(alloc, scene)?;
    let (known, batch) = (&setting.known, &setting.batch);
    let (stream, prices) = (setting.stream.as_slice(), setting.prices.as_slice());
    Ok(verify(alloc, known, batch, stream, prices)?)
}

/// Returns how the subcommand ends after `verdict`.
fn ending_of(verdict: Verdict) -> Ending
    ensures { result ≡ ending_of verdict }
{
    match verdict {
        Verdict::Shortest(_) => Ending::Done,
        _ => Ending::NotShortest,
    }
}
