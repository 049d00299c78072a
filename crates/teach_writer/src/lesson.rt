//! Lessons.

use known_state::Known;
use retention_flow::PlanError;
use table_types::{Items, Memory};
use thiserror::Error;

/// Why there is no lesson. The arguments are unchanged.
#[derive(Clone, Copy, Debug, PartialEq, Eq, Error)]
pub enum TeachError {
    /// Out of memory.
    #[error("memory")]
    Memory,
}

impl From<Memory> for TeachError {
    fn from(_refused: Memory) -> TeachError {
        TeachError::Memory
    }
}

impl From<PlanError> for TeachError {
    fn from(refused: PlanError) -> TeachError {
        match refused {
            PlanError::Memory => TeachError::Memory,
        }
    }
}

/// The stream that teaches a learner one batch.
#[derive(Debug, Drop)]
pub struct Lesson {
    /// The bytes of its messages, one after another.
    pub bytes: Items<u8>,
    /// Where its messages end: for each of them, how many bytes there are up to its end.
    pub ends: Items<usize>,
    /// For each update of the batch that has a name, whether the lesson reads it from a slot.
    pub keep: Items<bool>,
    /// One price for each update of the batch that has a name. The prices prove that no legal stream that carries the
    /// batch is shorter. With `keep` they are the plan that the lesson follows.
    pub prices: Items<u64>,
    /// What the learner knows after it.
    pub known: Known,
}
