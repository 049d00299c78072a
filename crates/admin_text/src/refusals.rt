//! What is wrong with a configuration, line by line.
ghost use Rattle.std.specs.Prelude.{◌≡◌, ◌∷◌, ◌++◌, ℕ, List, [], IfOk, OnOk, map, take, true};
ghost use Rattle.admin_text.specs.Refusals.{head_of, is_lacking, lacking_head, lacking_of, names_fault, refuses_meant};
ghost use Rattle.admin_text.specs.SaidLines.{Adds, AreLines};
ghost use Rattle.admin_text.specs.Statements.{said_by};

use crate::before::line_of;
use crate::faults::{Fault, FaultyLine};
use crate::line_kinds::LineKind;
use crate::meant_kinds::is_meant;
use crate::said_lines::{push_line, push_numbered};
use crate::sentences::{lacking_sentence, sentence};
use crate::statements::Statement;
use crate::warnings::{Warnings, names_line};
use std::alloc::Global;
use table_types::Memory;

/// What a configuration without one of these lines lacks.
const NEEDED: [LineKind; 3] = [LineKind::Node, LineKind::Listen, LineKind::Table];

/// What is wrong with a configuration, at most 20 faults, and what is surely meant otherwise in the lines that aren't refused.
#[derive(Debug, Drop)]
pub struct Refusal {
    /// The lines that are refused, in order.
    pub faults: Vec<FaultyLine>,
    /// The kinds of lines that lack.
    pub lacking: Vec<LineKind>,
    /// The warnings of the other lines; none beside 20 lines that are refused.
    pub warnings: Warnings,
    /// A line for each of these faults that says what is wanted, in bytes 32 to 126, and behind them the lines of the warnings.
    pub said: Vec<u8>,
}

impl Refusal {
    /// Returns whether it names a fault.
    pub(crate) fn names_fault(&self) -> bool
        ensures { result ≡ names_fault self.now }
    {
        !(self.faults.is_empty() && self.lacking.is_empty())
    }
}

/// Appends the fault of one of `lines` to `faults`, and the line that says it to `said`.
pub(crate) fn push_fault(
    alloc: Global,
    faults: &mut Vec<FaultyLine>,
    said: &mut Vec<u8>,
    lines: &[Statement<'_>],
    line: &Statement<'_>,
    fault: Fault,
) -> Result<(), Memory>
    ensures listed { OnOk result (faults.new.items ≡ faults.old.items ++ record { number = line.now.number; fault = fault } ∷ []) }
    ensures said { OnOk result (Adds (head_of (record { number = line.now.number; fault = fault })) said.old.items said.new.items) }
{
    let sentence = sentence(alloc, lines, line.words.as_slice(), fault)?;
    let number = line.number;
    faults.push(FaultyLine { number, fault })?;
    push_numbered(said, number, ": ", sentence.as_str())
}

/// Appends a line for each of these kinds, which lack.
pub(crate) fn push_lacking(said: &mut Vec<u8>, lacking: &[LineKind]) -> Result<(), Memory>
    ensures { OnOk result ((heads : List (List ℕ)) → AreLines heads said.old.items → AreLines (heads ++ map lacking_head lacking.now) said.new.items) }
{
    for kind in lacking {
        push_line(said, "configuration: ", lacking_sentence(*kind))?;
    }
    Ok(())
}

/// Returns the kinds of the first `most` lines that lack beside these faults.
pub(crate) fn lacking_of(
    alloc: Global,
    faults: &[FaultyLine],
    lines: &[Statement<'_>],
    most: usize,
) -> Result<Vec<LineKind>, Memory>
    ensures { IfOk result (λ lacking. lacking.items ≡ take most (lacking_of faults.now (map said_by lines.now))) }
{
    let lacking = NEEDED
        .iter()
        .copied()
        .filter(|kind| is_lacking(faults, lines, *kind))
        .take(most);
    Ok(lacking.collect(alloc)?)
}

/// Returns whether none of the lines is of `kind`, and none that one of the faults names is plainly meant to be.
fn is_lacking(faults: &[FaultyLine], lines: &[Statement<'_>], kind: LineKind) -> bool
    ensures { result ≡ is_lacking faults.now (map said_by lines.now) kind }
{
    line_of(lines, kind).is_none() && !refuses_meant(faults, lines, kind)
}

/// Returns whether one of the lines that the faults name is plainly meant to be of `kind`.
fn refuses_meant(faults: &[FaultyLine], lines: &[Statement<'_>], kind: LineKind) -> bool
    ensures { result ≡ refuses_meant faults.now (map said_by lines.now) kind }
{
    for line in lines {
        if names_line(faults, line.number) && is_meant(kind, line.words.as_slice()) {
            return true;
        }
    }
    false
}
