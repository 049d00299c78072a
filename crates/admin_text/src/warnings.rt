//! What is legal in a configuration, and surely meant otherwise.
ghost use Rattle.std.specs.Prelude.{◌≡◌, ◌++◌, Option, IfOk, OnOk, map, not, option_to_list};
ghost use Rattle.admin_text.specs.MeantKinds.{has_meant};
ghost use Rattle.admin_text.specs.Places.{IsPlaceOf};
ghost use Rattle.admin_text.specs.SaidLines.{AreLines};
ghost use Rattle.admin_text.specs.Statements.{said_by};
ghost use Rattle.admin_text.specs.Warnings.{AreNoWarnings, AreWarningsAmong, AreWarningsBeside, IsOutside, line_warnings, names_line, peers_heads, table_warnings, unnamed, warned, warned_head};
ghost use Rattle.admin_text.specs.declared.line_kinds.LineKind.TheVariants as kinds;
ghost use Rattle.admin_text.specs.declared.places.Place.{Place};
ghost use Rattle.admin_text.specs.declared.warnings.Warning.{Warning};

use crate::address_warnings::{outside_warning_of, place_warning};
use crate::faults::{FaultyLine, MOST_FAULTS};
use crate::line_kinds::LineKind;
use crate::meant_kinds::has_meant;
use crate::places::{Place, place_of, places_of};
use crate::said_lines::{push_line, push_numbered};
use crate::section_warnings::{may_use_section, section_warning};
use crate::statements::Statement;
use crate::table_warnings::{
    expire_warning, length_warning, name_warning, period_warning, server_warning,
};
use crate::warning_sentences::warning_sentence;
use std::alloc::Global;
use table_types::{DataType, Memory};

/// What is legal in a line, and surely meant otherwise. Other lines are given by their numbers.
#[derive(Clone, Copy, Debug, PartialEq, Eq)]
pub enum Warning {
    /// Requests come to the port at which the node listens, which this line says.
    Port(usize),
    /// HTTP comes to an address that this line gives the node already.
    Overlap(usize),
    /// The peer is at the address at which the node listens, which this line says.
    Own(usize),
    /// This line has a peer at the address.
    Shared(usize),
    /// The peer may not come from its own address.
    Outside,
    /// The section's name stands before the name of no table.
    Unused,
    /// The length of strings is HAProxy's `len`, it seems.
    Length,
    /// The name has a section in front, which doesn't go over the wire.
    Section,
    /// Rows live longer than HAProxy's may.
    Expire,
    /// The data type at this place has a longer period than HAProxy's may have.
    Period(usize),
    /// HAProxy adds this data type wherever it adds another one that the table stores.
    Lacks(DataType),
}

/// A warning of a line.
#[derive(Clone, Copy, Debug, PartialEq, Eq)]
pub struct WarnedLine {
    /// The number of the line, from 1.
    pub number: usize,
    /// What is surely meant otherwise.
    pub warning: Warning,
}

/// What is legal in a configuration, and surely meant otherwise.
#[derive(Debug, Drop)]
pub struct Warnings {
    /// The lines, in order. One may stand here several times.
    pub lines: Vec<WarnedLine>,
    /// Whether there are no peers.
    pub no_peers: bool,
    /// A line for each warning that says what is meant, in bytes 32 to 126.
    pub said: Vec<u8>,
}

impl Warnings {
    /// Returns that there is none.
    fn none(alloc: Global) -> Warnings
        ensures { AreNoWarnings result }
    {
        Warnings {
            lines: Vec::new(alloc),
            no_peers: false,
            said: Vec::new(alloc),
        }
    }

    /// Notes the warnings of a line, if all addresses are these, and `some` says whether a table is one of a peers section.
    fn note_line(
        &mut self,
        alloc: Global,
        all: &[Place],
        some: bool,
        line: &Statement<'_>,
    ) -> Result<(), Memory>
        ensures listed { OnOk result ((place : Option Place) × (outside : Option Warning) × IsPlaceOf (said_by line.now) place × IsOutside place (map (λ word. word.now) line.now.words.items) outside × (self.new.lines.items ≡ self.old.lines.items ++ warned line.now.number (line_warnings all.now some place outside (map (λ word. word.now) line.now.words.items)))) }
        ensures said { AreLines (map warned_head self.old.lines.items) self.old.said.items → OnOk result (AreLines (map warned_head self.new.lines.items) self.new.said.items) }
        ensures no_peers { self.new.no_peers ≡ self.old.no_peers }
    {
        let words = line.words.as_slice();
        let place = place_of(line);
        let outside = outside_warning_of(alloc, place, words)?;
        self.note(alloc, line, place_warning(all, place))?;
        self.note(alloc, line, outside)?;
        self.note(alloc, line, section_warning(some, words))?;
        self.note_table(alloc, line)
    }

    /// Notes the warnings of the line of a table.
    fn note_table(&mut self, alloc: Global, line: &Statement<'_>) -> Result<(), Memory>
        ensures listed { OnOk result (self.new.lines.items ≡ self.old.lines.items ++ warned line.now.number (table_warnings (map (λ word. word.now) line.now.words.items))) }
        ensures said { AreLines (map warned_head self.old.lines.items) self.old.said.items → OnOk result (AreLines (map warned_head self.new.lines.items) self.new.said.items) }
        ensures no_peers { self.new.no_peers ≡ self.old.no_peers }
    {
        let words = line.words.as_slice();
        self.note(alloc, line, name_warning(words))?;
        self.note(alloc, line, length_warning(words))?;
        self.note(alloc, line, expire_warning(words))?;
        self.note(alloc, line, period_warning(words))?;
        self.note(alloc, line, server_warning(words))
    }

    /// Notes a warning of a line, if there is one.
    fn note(
        &mut self,
        alloc: Global,
        line: &Statement<'_>,
        warning: Option<Warning>,
    ) -> Result<(), Memory>
        ensures listed { OnOk result (self.new.lines.items ≡ self.old.lines.items ++ warned line.now.number (option_to_list warning)) }
        ensures said { AreLines (map warned_head self.old.lines.items) self.old.said.items → OnOk result (AreLines (map warned_head self.new.lines.items) self.new.said.items) }
        ensures no_peers { self.new.no_peers ≡ self.old.no_peers }
    {
        let Some(warning) = warning else {
            return Ok(());
        };
        let number = line.number;
        let sentence = warning_sentence(alloc, line.words.as_slice(), warning)?;
        self.lines.push(WarnedLine { number, warning })?;
        push_numbered(&mut self.said, number, ": warning: ", sentence.as_str())
    }

    /// Notes that there are no peers, if no line is even meant to be one of a peer. This is the last one.
    fn note_peers(&mut self, lines: &[Statement<'_>]) -> Result<(), Memory>
        ensures no_peers { self.new.no_peers ≡ not (has_meant kinds.Peer (map said_by lines.now)) }
        ensures listed { self.new.lines.items ≡ self.old.lines.items }
        ensures said { AreLines (map warned_head self.old.lines.items) self.old.said.items → OnOk result (AreLines (map warned_head self.new.lines.items ++ peers_heads self.new.no_peers) self.new.said.items) }
    {
        self.no_peers = !has_meant(lines, LineKind::Peer);
        if self.no_peers {
            push_line(&mut self.said, "configuration: warning: ", NO_PEERS)?;
        }
        Ok(())
    }
}

/// What is said if there are no peers.
const NO_PEERS: &str =
    "add a line \"peer NAME [ADDRESS] [from NETWORK..]\", as in \"peer lb1 10.0.0.1:10000\"; without one the tables aren't shared with any peer";

/// Returns what is legal in these lines, and surely meant otherwise: in those that none of these faults names, if there are fewer than 20.
pub(crate) fn warnings_beside(
    alloc: Global,
    faults: &[FaultyLine],
    lines: &[Statement<'_>],
) -> Result<Warnings, Memory>
    ensures { IfOk result (AreWarningsBeside faults.now (map said_by lines.now)) }
{
    if faults.len() < MOST_FAULTS {
        warnings_among(alloc, faults, lines)
    } else {
        Ok(Warnings::none(alloc))
    }
}

/// Returns what is legal in these lines, and surely meant otherwise, in those that none of these faults names.
fn warnings_among(
    alloc: Global,
    faults: &[FaultyLine],
    lines: &[Statement<'_>],
) -> Result<Warnings, Memory>
    ensures { IfOk result (AreWarningsAmong (unnamed faults.now (map said_by lines.now)) (map said_by lines.now)) }
{
    let all = places_of(alloc, lines)?;
    let some = may_use_section(lines);
    let mut warnings = Warnings::none(alloc);
    for line in lines {
        if !names_line(faults, line.number) {
            warnings.note_line(alloc, all.as_slice(), some, line)?;
        }
    }
    warnings.note_peers(lines)?;
    Ok(warnings)
}

/// Returns whether one of the faults is that of the line with this number.
pub(crate) fn names_line(faults: &[FaultyLine], number: usize) -> bool
    ensures { result ≡ names_line faults.now number }
{
    for faulty in faults {
        if faulty.number == number {
            return true;
        }
    }
    false
}
