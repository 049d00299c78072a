//! Tables and their rows as HAProxy prints them.
ghost use Rattle.std.specs.Prelude.{◌≡◌, ◌≤◌, ◌++◌, IfSome, OnOk, flat_map, option_copied, true};
ghost use Rattle.std.specs.List.{list_all};
ghost use Rattle.table_types.specs.Tables.{has_its_period, is_definition};
ghost use Rattle.admin_port.specs.ShownTables.{left_at, live_line, period_text, server_text, shown_header, shown_kind, shown_row, shown_value, shown_values, value_at};

use crate::lines::{push_field, push_line_end, push_words};
use crate::shown_keys::{push_escaped, push_shown_key};
use crate::shown_rates::shown_rate;
use crate::table_names::push_table_name;
use node_text::{push_number, push_word_and_number};
use std::alloc::{AllocError, Global};
use table_rows::is_live;
use table_types::{Cell, DataType, Key, KeyKind, Moment, Name, Row, Shape, TableDef};

/// Returns HAProxy's word for a kind of keys.
pub(crate) fn shown_kind(kind: KeyKind) -> &'static str
    ensures { result.now ≡ shown_kind kind }
{
    match kind {
        KeyKind::Integer => "integer",
        KeyKind::Ip4 => "ip",
        KeyKind::Ip6 => "ipv6",
        KeyKind::String => "string",
        KeyKind::Binary => "binary",
    }
}

/// Appends the header of a table, which may store `size` rows and stores `used`.
#[tactic(auto, unfolding(crate::specs::ShownTables::shown_header))]
pub fn push_table_header(
    text: &mut Vec<u8>,
    section: &Option<Name>,
    table: &TableDef,
    size: u32,
    used: u64,
) -> Result<(), AllocError>
    ensures { OnOk result (text.new.items ≡ text.old.items ++ shown_header section.now table.now size used) }
{
    push_words(text, "# table: ")?;
    push_table_name(text, section, table.name())?;
    push_field(text, ", type: ", shown_kind(table.kind()).as_bytes())?;
    push_word_and_number(text, ", size:", u64::from(size))?;
    push_word_and_number(text, ", used:", used)?;
    push_line_end(text)
}

/// Appends the line of each of `rows` that is live at `moment`, in order.
pub fn push_live_rows(
    alloc: Global,
    text: &mut Vec<u8>,
    table: &TableDef,
    rows: &[(Key, Row)],
    moment: Moment,
) -> Result<(), AllocError>
    ensures { OnOk result (text.new.items ≡ text.old.items ++ flat_map (live_line table.now moment) rows.now) }
{
    for (key, row) in rows {
        push_live_row(alloc, text, table, key, row, moment)?;
    }
    Ok(())
}

/// Appends the line of a row, or nothing if it isn't live at `moment`.
fn push_live_row(
    alloc: Global,
    text: &mut Vec<u8>,
    table: &TableDef,
    key: &Key,
    row: &Row,
    moment: Moment,
) -> Result<(), AllocError>
    ensures { OnOk result (text.new.items ≡ text.old.items ++ live_line table.now moment (key.now, row.now)) }
{
    if is_live(row, moment) {
        push_shown_row(alloc, text, table, key, row, moment)
    } else {
        Ok(())
    }
}

/// Appends the line of a row at `moment`.
#[tactic(auto, unfolding(crate::specs::ShownTables::shown_row))]
fn push_shown_row(
    alloc: Global,
    text: &mut Vec<u8>,
    table: &TableDef,
    key: &Key,
    row: &Row,
    moment: Moment,
) -> Result<(), AllocError>
    ensures { OnOk result (text.new.items ≡ text.old.items ++ shown_row table.now moment (key.now, row.now)) }
{
    push_words(text, "0x0: key=")?;
    push_shown_key(alloc, text, key)?;
    push_word_and_number(text, " use=0 exp=", left_at(row.ends(), moment))?;
    push_shown_values(text, table, row, moment)?;
    push_line_end(text)?;
    Ok(())
}

/// Returns the milliseconds until the end, or 0 if there is none.
fn left_at(ends: Option<Moment>, moment: Moment) -> u64
    ensures { result ≡ left_at moment ends }
{
    match ends {
        Some(end) => end.milliseconds().saturating_sub(moment.milliseconds()),
        None => 0,
    }
}

/// Appends the values of a row, in ascending order of the types' ids.
fn push_shown_values(
    text: &mut Vec<u8>,
    table: &TableDef,
    row: &Row,
    moment: Moment,
) -> Result<(), AllocError>
    ensures { OnOk result (text.new.items ≡ text.old.items ++ shown_values moment row.now.name table.now.types row.now.cells) }
{
    // That no period is 0 is known of a table once it is asked for its id.
    let _id = table.id();
    let mut cells = row.cells();
    for (data_type, period) in table.types() {
        match (data_type.shape(), cells) {
            (Shape::Name, _) => push_server(text, *data_type, row.name())?,
            (_, [cell, rest @ ..]) => {
                push_shown_value(text, *data_type, *period, *cell, moment)?;
                cells = rest;
            }
            (_, []) => {}
        }
    }
    Ok(())
}

/// Appends a space and the value of a data type.
#[tactic(auto, unfolding(crate::specs::ShownTables::shown_value))]
fn push_shown_value(
    text: &mut Vec<u8>,
    data_type: DataType,
    period: Option<u32>,
    cell: Cell,
    moment: Moment,
) -> Result<(), AllocError>
    requires { IfSome period (λ p. 1 ≤ p) }
    ensures { OnOk result (text.new.items ≡ text.old.items ++ shown_value moment (data_type, period) cell) }
{
    text.push(b' ')?;
    push_words(text, data_type.name())?;
    push_period(text, period)?;
    text.push(b'=')?;
    push_number(text, value_at(cell, period, moment))
}

/// Appends the period of a rate in brackets, or nothing for a data type without a period.
fn push_period(text: &mut Vec<u8>, period: Option<u32>) -> Result<(), AllocError>
    ensures { OnOk result (text.new.items ≡ text.old.items ++ period_text period) }
{
    match period {
        Some(period) => {
            push_word_and_number(text, "(", u64::from(period))?;
            push_words(text, ")")
        }
        None => Ok(()),
    }
}

/// Returns the value of a cell at `moment`: that of a rate with this period, or a count as it is.
fn value_at(cell: Cell, period: Option<u32>, moment: Moment) -> u64
    requires { IfSome period (λ p. 1 ≤ p) }
    ensures { result ≡ value_at moment period cell }
{
    match (period, cell) {
        (Some(period), cell) => shown_rate(cell, period, moment),
        (None, Cell::Count(count)) => count,
        (None, Cell::Rate { current, .. }) => u64::from(current),
    }
}

/// Appends a space and the name of the server, or `-` for none.
#[tactic(auto, unfolding(crate::specs::ShownTables::server_text))]
fn push_server(
    text: &mut Vec<u8>,
    data_type: DataType,
    name: Option<&Name>,
) -> Result<(), AllocError>
    ensures { OnOk result (text.new.items ≡ text.old.items ++ server_text data_type (option_copied name.entry)) }
{
    text.push(b' ')?;
    push_words(text, data_type.name())?;
    text.push(b'=')?;
    match name {
        Some(name) => push_escaped(text, name.as_slice()),
        None => push_words(text, "-"),
    }
}
