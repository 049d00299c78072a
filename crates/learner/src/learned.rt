//! How much was learned.

/// How much was learned from some bytes.
#[derive(Clone, Copy, Debug)]
pub struct Learned {
    /// The number of rows that were put.
    pub rows: usize,
    /// The length of the learned messages in bytes.
    pub used: usize,
}
