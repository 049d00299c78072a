//! The subcommands `lesson`, `check`, `learn`, `table`, `world` and `run --check`. Each reads a scene, a script or a configuration from a
//! reader, writes its output and its errors to writers, and returns how it ended.
#![tactic(auto)]

mod answers;
mod cells;
mod checking;
mod configuring;
mod endings;
mod laws;
mod learning;
mod lines;
mod listing;
mod running;
mod settings;
mod tabling;
mod teaching;
mod world_answers;
mod world_running;
mod worlds;

pub use checking::check;
pub use configuring::{check_configuration, configuration_of};
pub use endings::Ending;
pub use laws::taught_lessons_are_shortest;
pub use learning::{learn, rising_roster};
pub use tabling::table;
pub use teaching::lesson;
pub use worlds::world;
