//! The names of a configuration.
ghost use Rattle.std.specs.Prelude.{◌≡◌};
ghost use Rattle.node_text.specs.Names.{is_dash};
ghost use Rattle.admin_text.specs.NameFaults.{is_label, name_at, name_fault};
ghost use Rattle.admin_text.specs.Outcomes.{Gives, fault_in};

use crate::faults::{Fault, NameFault};
use crate::line_refusals::LineRefusal;
use node_text::is_text;
use std::alloc::Global;
use table_types::{Name, is_name};

/// The most bytes of a name.
const LONGEST_NAME: usize = 255;

/// Reads the name at `place`.
pub(crate) fn read_name(alloc: Global, place: usize, word: &[u8]) -> Result<Name, LineRefusal>
    ensures { Gives (λ outcome. outcome ≡ name_at place word.now) result }
{
    if let Some(fault) = fault_at(place, word) {
        return Err(LineRefusal::Fault(fault));
    }
    Ok(Name::from_slice(alloc, word)?)
}

/// Returns why the word at `place` isn't a name.
pub(crate) fn fault_at(place: usize, word: &[u8]) -> Option<Fault>
    ensures { result ≡ fault_in (name_at place word.now) }
{
    if is_label(word) {
        None
    } else {
        Some(Fault::Name(place, name_fault(word)))
    }
}

/// Returns whether `word` is a name: 1 to 255 bytes of 33 to 126, and not `-`.
fn is_label(word: &[u8]) -> bool
    ensures { result ≡ is_label word.now }
{
    is_name(word) && !is_dash(word) && is_text(word)
}

/// Returns why `word` isn't a name.
fn name_fault(word: &[u8]) -> NameFault
    ensures { result ≡ name_fault word.now }
{
    if is_dash(word) {
        NameFault::Dash
    } else if is_text(word) && word.len() > LONGEST_NAME {
        NameFault::Long(word.len())
    } else {
        NameFault::Bytes
    }
}

/// Returns whether `word` is `-`.
fn is_dash(word: &[u8]) -> bool
    ensures { result ≡ is_dash word.now }
{
    matches!(word, [b'-'])
}
