//! A section that is legal, and surely meant otherwise.
ghost use Rattle.std.specs.Prelude.{◌≡◌, map, option_copied};
ghost use Rattle.admin_text.specs.Statements.{said_by};
ghost use Rattle.admin_text.specs.Warnings.{begins_slash, gives_section_table, has_section_table, may_use_section, section_warning};

use crate::before::line_of;
use crate::line_kinds::LineKind;
use crate::statements::Statement;
use crate::warnings::Warning;

/// Returns that the section's name stands before the name of no table, if these are the words of a section and `some` says that no table
/// may be one of a peers section.
pub(crate) fn section_warning(some: bool, words: &[&[u8]]) -> Option<Warning>
    ensures { result ≡ section_warning some (map (λ word. word.now) words.now) }
{
    if LineKind::Section.has(words) && !some {
        Some(Warning::Unused)
    } else {
        None
    }
}

/// Returns whether one of the lines may give a table of a peers section: one does, or none gives a table, which is a fault.
pub(crate) fn may_use_section(lines: &[Statement<'_>]) -> bool
    ensures { result ≡ may_use_section (map said_by lines.now) }
{
    line_of(lines, LineKind::Table).is_none() || has_section_table(lines)
}

/// Returns whether one of the lines gives a table of a peers section.
fn has_section_table(lines: &[Statement<'_>]) -> bool
    ensures { result ≡ has_section_table (map said_by lines.now) }
{
    for line in lines {
        if gives_section_table(line.words.as_slice()) {
            return true;
        }
    }
    false
}

/// Returns whether these are the words of a table of a peers section, whose name begins with `/`. Its id may lack, which is a fault.
fn gives_section_table(words: &[&[u8]]) -> bool
    ensures { result ≡ gives_section_table (map (λ word. word.now) words.now) }
{
    LineKind::Table.has(words)
        && (begins_slash(words.get(1).copied()) || begins_slash(words.get(2).copied()))
}

/// Returns whether the word begins with `/`.
fn begins_slash(name: Option<&[u8]>) -> bool
    ensures { result ≡ begins_slash (option_copied name.entry) }
{
    match name {
        Some([first, ..]) => *first == b'/',
        _ => false,
    }
}
