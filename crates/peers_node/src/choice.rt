//! What a command line asks for.

use node_commands::Link;

/// The most threads of a round.
pub(crate) const MOST_THREADS: u32 = 8;

/// The most updates that a thread of a round tracks.
pub(crate) const MOST_TRACKS: u32 = 1_000;

/// The most rounds.
pub(crate) const MOST_ROUNDS: u32 = 100;

/// The most turns of a session.
pub(crate) const MOST_TURNS: u32 = 1_000_000;

/// The most sessions of a node that serves.
pub(crate) const MOST_SESSIONS: u32 = 16;

/// The last port.
pub(crate) const LAST_PORT: u32 = 65_535;

/// The subcommand that was chosen, with its options.
#[derive(Debug, Drop)]
pub enum Options {
    /// Read a scene and write its lesson.
    Lesson,
    /// Read a scene and write the verdict on its stream and prices.
    Check,
    /// Read a scene and write what a learner makes of its stream.
    Learn,
    /// Read a script and write what a table answers to its calls.
    Table,
    /// Read a script, make its world's steps, and write the answers to its questions.
    World,
    /// Read a configuration, and run a node with it until it is stopped.
    Run {
        /// Whether to say only whether a node can be run with it.
        checks: bool,
    },
    /// Run rounds, one after another.
    Round {
        /// The number of threads: 1 to 8.
        threads: u32,
        /// The number of times each of them tracks in a round: 1 to 1,000.
        tracks: u32,
        /// The number of rounds: 1 to 100.
        rounds: u32,
    },
    /// Read a scene, wait for another node to connect, as often as there are sessions, and teach it the rows.
    Serve(Link),
    /// Read a scene, connect to a node that serves, and take its rows.
    Join(Link),
}
