//! The numbers of a table's updates, and the keys that have them.
#![tactic(auto)]

mod numbers;
mod rising;

pub use numbers::{NumberError, Numbers};
pub use rising::Rising;
