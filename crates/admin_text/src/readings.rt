//! Configurations as they are read, line by line.
ghost use Rattle.std.specs.Prelude.{◌≡◌, Err, IfErr, IfOk, OnOk, Result, Ok, map, true};
ghost use Rattle.admin_text.specs.Configurations.{IsConfiguration};
ghost use Rattle.admin_text.specs.Lines.{IsRead};
ghost use Rattle.admin_text.specs.Readings.{AreRead, IsFirst, IsNoted};
ghost use Rattle.admin_text.specs.Refusals.{IsFaultless, IsRefusalOf, names_fault};
ghost use Rattle.admin_text.specs.SoFar.{IsSaidBy};
ghost use Rattle.admin_text.specs.Statements.{said_by};
ghost use Rattle.admin_text.specs.Warnings.{AreWarningsOf};
ghost use Rattle.admin_text.specs.declared.faults.Fault.{Fault};
ghost use Rattle.admin_text.specs.declared.refusals.Refusal.{Refusal};
ghost use Rattle.admin_text.specs.declared.settings.Setting.{Setting};

use crate::configurations::Configuration;
use crate::error::ConfigurationError;
use crate::faults::{FaultyLine, MOST_FAULTS};
use crate::line_refusals::LineRefusal;
use crate::lines::read_line;
use crate::refusals::{Refusal, lacking_of, push_fault, push_lacking};
use crate::said_lines::push_lines;
use crate::so_far::ConfigurationSoFar;
use crate::statements::Statement;
use crate::warnings::{Warnings, warnings_beside};
use std::alloc::Global;
use table_types::Memory;

/// What was read of a configuration.
#[derive(Drop)]
pub(crate) struct Reading {
    so_far: ConfigurationSoFar,
    /// The lines that are refused.
    faults: Vec<FaultyLine>,
    /// A line for each of them.
    said: Vec<u8>,
}

impl Reading {
    /// Returns what is read of no lines.
    fn new(alloc: Global) -> Reading
        ensures { IsFirst result }
    {
        Reading {
            so_far: ConfigurationSoFar::new(alloc),
            faults: Vec::new(alloc),
            said: Vec::new(alloc),
        }
    }

    /// Reads one of `lines`, which comes after the lines `before`.
    fn read(
        &mut self,
        alloc: Global,
        lines: &[Statement<'_>],
        before: &[Statement<'_>],
        line: &Statement<'_>,
    ) -> Result<(), Memory>
        ensures { OnOk result ((outcome : Result Setting Fault) × IsRead (map said_by before.now) (map (λ word. word.now) line.now.words.items) outcome × IsNoted line.now.number outcome self.old self.new) }
    {
        match read_line(alloc, before, line.words.as_slice()) {
            Ok(setting) => self.so_far.add(setting),
            Err(LineRefusal::Fault(fault)) => push_fault(
                alloc,
                &mut self.faults,
                &mut self.said,
                lines,
                line,
                fault,
            ),
            Err(LineRefusal::Memory) => Err(Memory),
        }
    }

    /// Returns the configuration of these lines, which were read up to the twentieth fault, with its warnings, or what is wrong with them.
    fn finish(
        self,
        alloc: Global,
        lines: &[Statement<'_>],
    ) -> Result<(Configuration, Warnings), ConfigurationError>
        requires { AreRead (map said_by lines.now) self }
        ensures configuration { IfOk result (λ read. IsConfiguration read.0) }
        ensures said { IfOk result (λ read. IsSaidBy (map said_by lines.now) read.0) }
        ensures warned { IfOk result (λ read. AreWarningsOf (map said_by lines.now) read.1) }
        ensures taken { IsFaultless (map said_by lines.now) → IfErr result (λ error. error ≡ ConfigurationError.Memory) }
        ensures faultless { OnOk result (IsFaultless (map said_by lines.now)) }
        ensures refused { (refusal : Refusal) → result ≡ Err (ConfigurationError.Refused refusal) → IsRefusalOf (map said_by lines.now) refusal }
        ensures faulty { (refusal : Refusal) → result ≡ Err (ConfigurationError.Refused refusal) → names_fault refusal ≡ true }
    {
        let Reading {
            so_far,
            faults,
            mut said,
        } = self;
        let lacking = lacking_of(alloc, faults.as_slice(), lines, MOST_FAULTS - faults.len())?;
        push_lacking(&mut said, lacking.as_slice())?;
        let warnings = warnings_beside(alloc, faults.as_slice(), lines)?;
        push_lines(&mut said, warnings.said.as_slice())?;
        let refusal = Refusal {
            faults,
            lacking,
            warnings,
            said,
        };
        if refusal.names_fault() {
            return Err(ConfigurationError::Refused(refusal));
        }
        match so_far.whole() {
            Some(configuration) => Ok((configuration, refusal.warnings)),
            None => unreachable!(),
        }
    }
}

/// Reads the lines of a configuration, up to the twentieth that is refused.
fn read_lines(alloc: Global, lines: &[Statement<'_>]) -> Result<Reading, Memory>
    ensures { IfOk result (AreRead (map said_by lines.now)) }
{
    let mut reading = Reading::new(alloc);
    for (index, line) in lines.iter().enumerate() {
        reading.read(alloc, lines, &lines[..index], line)?;
        if reading.faults.len() == MOST_FAULTS {
            return Ok(reading);
        }
    }
    Ok(reading)
}

/// Returns the configuration that these lines make, with its warnings, or what is wrong with them.
pub(crate) fn configuration_of(
    alloc: Global,
    lines: &[Statement<'_>],
) -> Result<(Configuration, Warnings), ConfigurationError>
    ensures configuration { IfOk result (λ read. IsConfiguration read.0) }
    ensures said { IfOk result (λ read. IsSaidBy (map said_by lines.now) read.0) }
    ensures warned { IfOk result (λ read. AreWarningsOf (map said_by lines.now) read.1) }
    ensures taken { IsFaultless (map said_by lines.now) → IfErr result (λ error. error ≡ ConfigurationError.Memory) }
    ensures faultless { OnOk result (IsFaultless (map said_by lines.now)) }
    ensures refused { (refusal : Refusal) → result ≡ Err (ConfigurationError.Refused refusal) → IsRefusalOf (map said_by lines.now) refusal }
    ensures faulty { (refusal : Refusal) → result ≡ Err (ConfigurationError.Refused refusal) → names_fault refusal ≡ true }
{
    read_lines(alloc, lines)?.finish(alloc, lines)
}
