//! The rows of a stick table with their numbers: a stock, in ascending order of number. Lists in blocks, which don't move when
//! they grow.
#![tactic(auto)]

mod above;
mod blocks;
mod log;
mod slots;
mod stock;

pub use above::Above;
pub use blocks::Blocks;
pub use stock::Stock;
