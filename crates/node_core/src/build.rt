//! What the program is built from.

/// The version of the program.
pub const VERSION: &str = "0.1.0";

/// The kit of Rattle that builds the program.
pub const KIT: &str = "rattle-kit-13f";
