//! What stays the same while a session's worker is at work.

use std::alloc::Global;
use table_shards::Shards;
use table_types::Moment;

/// What a session's worker needs, and what stays the same throughout a turn.
#[derive(Drop)]
pub struct Context<'a, H, G> {
    /// The runtime with which the worker waits for locks.
    pub rt: &'a H,
    /// The allocator.
    pub alloc: Global,
    /// The gate at which the worker stops between its steps.
    pub gate: &'a G,
    /// The tables, each with its lock.
    pub shards: &'a Shards,
    /// The session's number in the tables.
    pub number: u32,
    /// The moment of the turn.
    pub moment: Moment,
    /// The number of calls of the worker's writer that had failed when the turn began, or 0 if it has none.
    pub failures: u64,
}
