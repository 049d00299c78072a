//! The gate at which a session's worker stops between its steps.

use std::sync::Wait;

/// How far a batch has progressed.
#[derive(Clone, Copy, Debug, PartialEq, Eq)]
pub enum Stage {
    /// The batch is copied from its table.
    Copied,
    /// The batch's lesson is planned, and none of its bytes are written.
    Planned,
    /// The batch's lesson is written.
    Written,
}

/// A gate at which a session's worker stops after each step of a batch. The worker holds no table's lock there.
pub trait Gate {
    /// Stops the worker at `stage`; it goes on once the call returns.
    fn at<R: Wait>(&self, rt: &R, stage: Stage);
}

/// A gate that never stops anybody.
#[derive(Clone, Copy, Debug)]
pub struct AlwaysOpen;

impl Gate for AlwaysOpen {
    fn at<R: Wait>(&self, _: &R, _: Stage) {}
}
