//! The families of metrics that have a sample for each table.
ghost use Rattle.std.specs.Prelude.{◌≡◌, ◌++◌, OnOk};
ghost use Rattle.admin_port.specs.TableMetrics.{column_family, column_help, column_kind, column_name, column_sample, named_sample, table_families, typed_sample};

use crate::samples::{Label, push_head, push_sample};
use crate::shown_tables::shown_kind;
use crate::table_names::table_name;
use std::alloc::{AllocError, Global};
use table_types::{Name, TableDef};

/// What is counted of a table.
#[derive(Debug, Drop)]
pub struct TableMetrics<'a> {
    /// The table.
    pub table: &'a TableDef,
    /// The greatest number of rows that it stores.
    pub size: u32,
    /// The number of rows that it stores, ended ones among them.
    pub used: u64,
    /// The number of its events.
    pub events: u64,
    /// The number that its next change takes.
    pub next_number: u64,
    /// The number of rows that new ones displaced, since it was full.
    pub displaced: u64,
}

/// What a family has of each table.
#[derive(Clone, Copy)]
enum Column {
    /// The greatest number of rows.
    Size,
    /// The number of rows.
    Used,
    /// The number of events.
    Events,
    /// The next number.
    NextNumber,
    /// The number of rows displaced.
    Displaced,
}

impl Column {
    /// Returns the name of the family.
    fn name(self) -> &'static str
        ensures { result.now ≡ column_name self }
    {
        match self {
            Column::Size => "haproxy_sticktable_size",
            Column::Used => "haproxy_sticktable_used",
            Column::Events => "digbaro_table_events_total",
            Column::NextNumber => "digbaro_table_next_number",
            Column::Displaced => "digbaro_rows_displaced_total",
        }
    }

    /// Returns `counter` if the values only go up, and otherwise `gauge`.
    fn kind(self) -> &'static str
        ensures { result.now ≡ column_kind self }
    {
        match self {
            Column::Size | Column::Used | Column::NextNumber => "gauge",
            Column::Events | Column::Displaced => "counter",
        }
    }

    /// Returns what the family measures.
    fn help(self) -> &'static str
        ensures { result.now ≡ column_help self }
    {
        match self {
            Column::Size => "Stick table size.",
            Column::Used => "Number of entries used in this stick table.",
            Column::Events => "Events of this table.",
            Column::NextNumber => "Number that the next change of this table takes.",
            Column::Displaced => "Rows of this table that new ones displaced, since it was full.",
        }
    }
}

/// Appends the families that have a sample for each table.
pub(crate) fn push_table_families(
    alloc: Global,
    text: &mut Vec<u8>,
    section: &Option<Name>,
    tables: &[TableMetrics<'_>],
) -> Result<(), AllocError>
    ensures { OnOk result (text.new.items ≡ text.old.items ++ table_families section.now tables.now) }
{
    push_column(alloc, text, section, tables, Column::Size)?;
    push_column(alloc, text, section, tables, Column::Used)?;
    push_column(alloc, text, section, tables, Column::Events)?;
    push_column(alloc, text, section, tables, Column::NextNumber)?;
    push_column(alloc, text, section, tables, Column::Displaced)
}

/// Appends the family that has `column` of each table.
#[tactic(auto, unfolding(crate::specs::TableMetrics::column_family))]
fn push_column(
    alloc: Global,
    text: &mut Vec<u8>,
    section: &Option<Name>,
    tables: &[TableMetrics<'_>],
    column: Column,
) -> Result<(), AllocError>
    ensures { OnOk result (text.new.items ≡ text.old.items ++ column_family section.now column tables.now) }
{
    push_head(text, column.name(), column.kind(), column.help())?;
    for table in tables {
        push_table(alloc, text, section, table, column)?;
    }
    Ok(())
}

/// Appends the sample that has `column` of a table.
#[tactic(auto, unfolding(crate::specs::TableMetrics::column_sample))]
fn push_table(
    alloc: Global,
    text: &mut Vec<u8>,
    section: &Option<Name>,
    table: &TableMetrics<'_>,
    column: Column,
) -> Result<(), AllocError>
    ensures { OnOk result (text.new.items ≡ text.old.items ++ column_sample section.now column table.now) }
{
    let name = column.name();
    match column {
        Column::Size => push_typed(
            alloc,
            text,
            name,
            section,
            table.table,
            u64::from(table.size),
        ),
        Column::Used => push_typed(alloc, text, name, section, table.table, table.used),
        Column::Events => push_named(alloc, text, name, section, table.table, table.events),
        Column::NextNumber => push_named(
            alloc,
            text,
            name,
            section,
            table.table,
            table.next_number,
        ),
        Column::Displaced => push_named(alloc, text, name, section, table.table, table.displaced),
    }
}

/// Appends a sample of a table with its name and its type.
#[tactic(auto, unfolding(crate::specs::TableMetrics::typed_sample))]
fn push_typed(
    alloc: Global,
    text: &mut Vec<u8>,
    name: &str,
    section: &Option<Name>,
    table: &TableDef,
    value: u64,
) -> Result<(), AllocError>
    ensures { OnOk result (text.new.items ≡ text.old.items ++ typed_sample name.now section.now table.now value) }
{
    let shown = table_name(alloc, section, table.name())?;
    let kind = shown_kind(table.kind());
    let labels = [
        Label {
            name: "name",
            value: shown.as_slice(),
        },
        Label {
            name: "type",
            value: kind.as_bytes(),
        },
    ];
    push_sample(text, name, labels.as_slice(), value)
}

/// Appends a sample of a table with its name.
#[tactic(auto, unfolding(crate::specs::TableMetrics::named_sample))]
fn push_named(
    alloc: Global,
    text: &mut Vec<u8>,
    name: &str,
    section: &Option<Name>,
    table: &TableDef,
    value: u64,
) -> Result<(), AllocError>
    ensures { OnOk result (text.new.items ≡ text.old.items ++ named_sample name.now section.now table.now value) }
{
    let shown = table_name(alloc, section, table.name())?;
    let labels = [Label {
        name: "name",
        value: shown.as_slice(),
    }];
    push_sample(text, name, labels.as_slice(), value)
}
