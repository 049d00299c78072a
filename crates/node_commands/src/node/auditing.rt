//! The audit of a node's tables, once its sessions are over.

ghost use Rattle.std.specs.Prelude.{◌≡◌, ◌⊎◌, IfErr, IfOk, IsTrue};
ghost use Rattle.text_commands.specs.declared.endings.Ending.TheVariants as endings;
ghost use Rattle.node_commands.specs.Auditing.{AreTablesOf, IsAuditOf, IsTableOf};

use crate::locks::audit_of;
use crate::node::loading::{FIRST, NodeTables};
use std::alloc::Global;
use table_cell::TableCell;
use table_shards::{Audit, Seat, UnlockedTable};
use table_types::{Memory, TableDef};
use text_commands::Ending;

/// Returns whether the table has this definition, and its history begins with the new table that the node made.
fn is_table_of(definition: &TableDef, cell: &TableCell) -> bool
    ensures { IsTrue result → IsTableOf definition.now cell.now }
{
    cell.definition().is_same(definition) && cell.begins_new(TableCell::MOST_ROWS, false, FIRST)
}

/// Returns whether `is_table_of` is true of each definition and the table at its place, and there are as many tables as definitions.
#[tactic(auto, using(crate::proofs::AuditingLaws::one_more_table, crate::proofs::AuditingLaws::no_more_tables))]
fn are_tables_of(definitions: &[TableDef], tables: &[UnlockedTable]) -> bool
    ensures { IsTrue result → AreTablesOf definitions.now tables.now }
{
    let mut rest = definitions;
    for table in tables {
        let Some((definition, others)) = rest.split_first() else {
            return false;
        };
        if !is_table_of(definition, &table.cell) {
            return false;
        }
        rest = others;
    }
    rest.is_empty()
}

/// Audits the tables with the seat from which they were loaded and those of the sessions. Fails with `Device` if the audit finds a
/// fault, or a table isn't the one that the node made; no contract of a lock says which table it holds.
pub(crate) fn audited(
    alloc: Global,
    tables: NodeTables,
    mut seats: Vec<Seat>,
) -> Result<Audit, Ending>
    ensures audit { IfOk result (IsAuditOf tables seats.items) }
    ensures early { IfErr result (λ ending. (ending ≡ endings.Memory) ⊎ (ending ≡ endings.Device)) }
{
    let NodeTables {
        roster,
        shards,
        loader,
    } = tables;
    seats.insert(0, loader).map_err(Memory::from)?;
    let audit = audit_of(alloc, shards, seats)?;
    if are_tables_of(roster.tables(), audit.tables()) {
        Ok(audit)
    } else {
        Err(Ending::Device)
    }
}
