//! Plays the examples of sessions and devices that only a call can show: an example is data, written in short, and a function of
//! this crate makes the calls and compares. The library has no tests, so it is proved once. A function that returns an index
//! returns that of the first example that fails. If memory runs out, an example counts as failed.
//! All other examples go through the program, to a far side of its own (`bin/checks`).
#![tactic(auto)]

pub mod devices;
pub mod failures;
pub mod fused;
pub mod gates;
pub mod hellos;
mod lasting;
pub mod machine;
mod narrow;
pub mod rounds;
mod sessions;
mod sides;
pub mod tables;
pub mod turns;
mod waiting;
mod whole;
pub mod workers;
pub mod worlds;

pub use narrow::Then;
