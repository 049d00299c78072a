//! Names of tables, as requests and answers have them.
ghost use Rattle.std.specs.Prelude.{◌≡◌, ◌++◌, IfOk, OnOk, option_copied};
ghost use Rattle.admin_port.specs.TableNames.{is_of_section, shown_name, shown_section, table_named, table_with_name, wire_name};
ghost use Rattle.admin_text.specs.TableSettings.{definitions};

use admin_text::TableSetting;
use std::alloc::{AllocError, Global};
use table_types::{Name, TableDef, is_same_name};

/// Returns whether a table is one of the peers section's own: its name begins with `/`.
fn is_of_section(name: &[u8]) -> bool
    ensures { result ≡ is_of_section name.now }
{
    matches!(name, [b'/', ..])
}

/// Returns what stands before the name of a table where it is shown: the section's name if the table is one of the section's own.
fn shown_section<'a>(section: &'a Option<Name>, name: &[u8]) -> &'a [u8]
    ensures { result.now ≡ shown_section section.now name.now }
{
    match section {
        Some(section) if is_of_section(name) => section.as_slice(),
        _ => &[],
    }
}

/// Appends the name of a table as it is shown.
pub fn push_table_name(
    text: &mut Vec<u8>,
    section: &Option<Name>,
    name: &[u8],
) -> Result<(), AllocError>
    ensures { OnOk result (text.new.items ≡ text.old.items ++ shown_name section.now name.now) }
{
    text.extend_from_slice(shown_section(section, name))?;
    text.extend_from_slice(name)
}

/// Returns the name of a table as it is shown.
pub fn table_name(alloc: Global, section: &Option<Name>, name: &[u8]) -> Result<Vec<u8>, AllocError>
    ensures { IfOk result (λ shown. shown.items ≡ shown_name section.now name.now) }
{
    let mut shown = Vec::new(alloc);
    push_table_name(&mut shown, section, name)?;
    Ok(shown)
}

/// Returns the table that `word` names: by its name on the wire, or as it is shown.
pub fn table_named<'a>(
    section: &Option<Name>,
    tables: &'a [TableSetting],
    word: &[u8],
) -> Option<&'a TableDef>
    ensures { option_copied result ≡ table_named section.now (definitions tables.now) word.now }
{
    match table_with_name(tables, word) {
        Some(table) => Some(table),
        None => table_with_name(tables, wire_name(section, word)),
    }
}

/// Returns the table with this name on the wire.
fn table_with_name<'a>(tables: &'a [TableSetting], name: &[u8]) -> Option<&'a TableDef>
    ensures { option_copied result ≡ table_with_name name.now (definitions tables.now) }
{
    for table in tables {
        if is_same_name(table.definition.name(), name) {
            return Some(&table.definition);
        }
    }
    None
}

/// Returns `word` without the section's name, if that stands before the name of one of the section's own tables.
fn wire_name<'a>(section: &Option<Name>, word: &'a [u8]) -> &'a [u8]
    ensures { result.now ≡ wire_name section.now word.now }
{
    let Some(section) = section else {
        return word;
    };
    match word.strip_prefix(section.as_slice()) {
        Some(rest) if is_of_section(rest) => rest,
        _ => word,
    }
}
