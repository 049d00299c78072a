//! What a configuration says of the log.

use node_core::Level;

/// What goes into the log, and how its lines begin.
#[derive(Clone, Copy, Debug, PartialEq, Eq)]
pub struct LogSetting {
    /// The last level whose lines are written: `Level::Info` unless a line says otherwise.
    pub level: Level,
    /// Whether a line begins with the number that systemd's journal takes for its level, in the place of its time.
    pub journal: bool,
}
