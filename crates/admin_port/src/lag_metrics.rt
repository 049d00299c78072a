//! The families of metrics that say what each peer lacks of each table.
ghost use Rattle.std.specs.Prelude.{◌≡◌, ◌++◌, OnOk};
ghost use Rattle.admin_port.specs.LagMetrics.{column_family, column_help, column_name, lag_families, lag_line, lag_lines, lag_sample};
ghost use Rattle.admin_port.specs.Samples.{pairs_of};

use crate::peer_metrics::PeerMetrics;
use crate::samples::{Label, push_head, push_sample, push_seconds};
use crate::table_names::table_name;
use std::alloc::{AllocError, Global};
use table_types::{Name, TableDef};

/// What a peer lacks of a table: the rows that are still to be pushed to it, or to be acknowledged by it.
#[derive(Clone, Copy, Debug)]
pub struct TableLag<'a> {
    /// The table.
    pub table: &'a TableDef,
    /// The number of these rows.
    pub rows: u64,
    /// The time since the last change of the one that changed first, in milliseconds.
    pub age: u64,
}

/// What a family has of each peer and table.
#[derive(Clone, Copy)]
enum Column {
    /// The number of rows.
    Rows,
    /// The age of the oldest one.
    Age,
}

impl Column {
    /// Returns the name of the family.
    fn name(self) -> &'static str
        ensures { result.now ≡ column_name self }
    {
        match self {
            Column::Rows => "digbaro_peer_lag_rows",
            Column::Age => "digbaro_peer_lag_seconds",
        }
    }

    /// Returns what the family measures.
    fn help(self) -> &'static str
        ensures { result.now ≡ column_help self }
    {
        match self {
            Column::Rows => "Rows of this table that this peer has not acknowledged.",
            Column::Age =>
                "Age of the oldest row of this table that this peer has not acknowledged.",
        }
    }
}

/// Appends the families that have a sample for each table of each peer.
pub(crate) fn push_lag_families(
    alloc: Global,
    text: &mut Vec<u8>,
    section: &Option<Name>,
    peers: &[PeerMetrics<'_>],
) -> Result<(), AllocError>
    ensures { OnOk result (text.new.items ≡ text.old.items ++ lag_families section.now peers.now) }
{
    push_column(alloc, text, section, peers, Column::Rows)?;
    push_column(alloc, text, section, peers, Column::Age)
}

/// Appends the family that has `column`.
#[tactic(auto, unfolding(crate::specs::LagMetrics::column_family))]
fn push_column(
    alloc: Global,
    text: &mut Vec<u8>,
    section: &Option<Name>,
    peers: &[PeerMetrics<'_>],
    column: Column,
) -> Result<(), AllocError>
    ensures { OnOk result (text.new.items ≡ text.old.items ++ column_family section.now column peers.now) }
{
    push_head(text, column.name(), "gauge", column.help())?;
    for peer in peers {
        push_peer(alloc, text, section, peer, column)?;
    }
    Ok(())
}

/// Appends the samples that have `column` of a peer.
#[tactic(auto, unfolding(crate::specs::LagMetrics::lag_lines))]
fn push_peer(
    alloc: Global,
    text: &mut Vec<u8>,
    section: &Option<Name>,
    peer: &PeerMetrics<'_>,
    column: Column,
) -> Result<(), AllocError>
    ensures { OnOk result (text.new.items ≡ text.old.items ++ lag_lines section.now column peer.now) }
{
    for lag in &peer.lags {
        push_lag(alloc, text, section, peer.name, lag, column)?;
    }
    Ok(())
}

/// Appends the sample that has `column` of what a peer lacks of a table.
#[tactic(auto, unfolding(crate::specs::LagMetrics::lag_line))]
fn push_lag(
    alloc: Global,
    text: &mut Vec<u8>,
    section: &Option<Name>,
    peer: &Name,
    lag: &TableLag<'_>,
    column: Column,
) -> Result<(), AllocError>
    ensures { OnOk result (text.new.items ≡ text.old.items ++ lag_line section.now peer.now column lag.now) }
{
    let shown = table_name(alloc, section, lag.table.name())?;
    let labels = [
        Label {
            name: "peer",
            value: peer.as_slice(),
        },
        Label {
            name: "name",
            value: shown.as_slice(),
        },
    ];
    push_value(text, column, labels.as_slice(), lag)
}

/// Appends a sample with these labels.
fn push_value(
    text: &mut Vec<u8>,
    column: Column,
    labels: &[Label<'_>],
    lag: &TableLag<'_>,
) -> Result<(), AllocError>
    ensures { OnOk result (text.new.items ≡ text.old.items ++ lag_sample column (pairs_of labels.now) lag.now) }
{
    match column {
        Column::Rows => push_sample(text, column.name(), labels, lag.rows),
        Column::Age => push_seconds(text, column.name(), labels, lag.age),
    }
}
