//! Why a command line chooses nothing.

use thiserror::Error;

/// Why `options` refused the words. The words are only read.
#[derive(Clone, Copy, Debug, PartialEq, Eq, Error)]
pub enum OptionsError {
    /// The words are no command line of this program, or ask for help or the version.
    #[error("not a command line of this program")]
    Words,
    /// Memory ran out while they were read, whatever they are.
    #[error("memory")]
    Memory,
}
