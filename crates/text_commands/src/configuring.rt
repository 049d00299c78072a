//! The subcommand `run --check`, and the configuration that `run` reads.
ghost use Rattle.std.specs.Prelude.{◌≡◌, ◌≢◌, ◌⊎◌, IfErr, IfOk, OnOk};
ghost use Rattle.std.specs.Io.KnownBytes.{Appends};
ghost use Rattle.admin_text.specs.Configurations.{IsConfiguration};
ghost use Rattle.text_commands.specs.Configuring.{EndsConfiguration, IsRead, IsSaid, IsTaken, IsWarned};

use crate::endings::Ending;
use admin_text::{Configuration, ConfigurationError, Warnings, checked_configuration};
use peers_devices::{Faults, read_to_end, write_all};
use std::alloc::Global;
use std::io::{Read, Write};

/// Reads a configuration, and ends with `Done` if a node can be run with it. It opens nothing, and writes only to `errors`: the lines
/// that say why a configuration is refused, or what in one that isn't is surely meant otherwise.
pub fn check_configuration<R: Read + Faults, E: Write + Faults>(
    alloc: Global,
    input: &mut R,
    errors: &mut E,
) -> Ending
    ensures ends { EndsConfiguration result }
    ensures said { IsSaid (R.remaining input.old) (E.contents errors.old) (E.contents errors.new) result }
{
    let text = match read_to_end(alloc, input) {
        Ok(text) => text,
        Err(error) => return Ending::from(error).said(alloc, errors),
    };
    match checked_configuration(alloc, text.as_slice()) {
        Ok((configuration, warnings)) => {
            drop(configuration);
            said(errors, warnings.said.as_slice(), Ending::Done)
        }
        Err(ConfigurationError::Refused(refusal)) => {
            said(errors, refusal.said.as_slice(), Ending::Configuration)
        }
        Err(ConfigurationError::Memory) => Ending::Memory.said(alloc, errors),
    }
}

/// Returns the configuration that `input` has, with what in it is surely meant otherwise, or how the subcommand ends without one. Then
/// `errors` has the lines that say why.
pub fn configuration_of<R: Read + Faults, E: Write + Faults>(
    alloc: Global,
    input: &mut R,
    errors: &mut E,
) -> Result<(Configuration, Warnings), Ending>
    ensures configuration { IfOk result (λ read. IsConfiguration read.0) }
    ensures read { IfOk result (λ read. IsRead (R.remaining input.old) read.0) }
    ensures warned { IfOk result (λ read. IsWarned (R.remaining input.old) read.1.said.items) }
    ensures silent { OnOk result (E.contents errors.new ≡ E.contents errors.old) }
    ensures faultless { OnOk result (IsTaken (R.remaining input.old)) }
    ensures refused { IfErr result (λ ending. (ending ≢ Ending.Done) × EndsConfiguration ending) }
    ensures said { IfErr result (IsSaid (R.remaining input.old) (E.contents errors.old) (E.contents errors.new)) }
{
    let text = match read_to_end(alloc, input) {
        Ok(text) => text,
        Err(error) => return Err(Ending::from(error).said(alloc, errors)),
    };
    match checked_configuration(alloc, text.as_slice()) {
        Ok(checked) => Ok(checked),
        Err(ConfigurationError::Refused(refusal)) => Err(said(
            errors,
            refusal.said.as_slice(),
            Ending::Configuration,
        )),
        Err(ConfigurationError::Memory) => Err(Ending::Memory.said(alloc, errors)),
    }
}

/// Writes lines to `errors`, and returns this ending, or `Device` if the writer failed.
fn said<E: Write + Faults>(errors: &mut E, lines: &[u8], ending: Ending) -> Ending
    ensures ends { (result ≡ ending) ⊎ (result ≡ Ending.Device) }
    ensures said { result ≢ Ending.Device → Appends (E.contents errors.old) (E.contents errors.new) lines.now }
{
    match write_all(errors, lines) {
        Ok(()) => ending,
        Err(_) => Ending::Device,
    }
}
