//! Plays the examples of tables that only a call can show: of update numbers, of both types that hold rows, of tables under locks,
//! with seats, audits and rounds, and of calls for which memory runs out. The library has no tests, so it is proved once. Others
//! begin with its seats, tracks and threads that wait for each other. A function that returns an `Option` returns `None` also if
//! memory runs out, so that a test of what it returns fails.
#![tactic(auto)]

pub mod audits;
pub mod calls;
mod cells;
mod ends;
pub mod growth;
pub mod holders;
pub mod locks;
pub mod next_rounds;
pub mod numbers;
mod round;
mod seats;
pub mod stocks;
pub mod swaps;
mod tracks;
mod two_seats;

pub use tracks::{comes, count, track};
pub use two_seats::TwoSeats;
