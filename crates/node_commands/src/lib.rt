//! The subcommands that need threads or sockets. `serve` and `join` each run one session with another node over TCP, in which
//! each node teaches the other its rows. `round` has threads change a table while a session's worker teaches the changes, and audits the
//! table. Each writes its output, and returns how it ended.
//!
//! `node` has the node behind `serve` and `join`: it also runs over any reader and writer.
#![tactic(auto)]

mod link;
mod locks;
pub mod node;
mod printing;
mod rounds;
mod sockets;

pub use link::Link;
pub use rounds::{
    RoundSize, StartGate, a_round_counts_its_tracks, gated_round, round, track_all, work,
};
pub use sockets::{join, serve};
