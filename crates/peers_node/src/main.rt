//! The node's program, which shares HAProxy stick tables over the peers protocol. The command line chooses a subcommand,
//! which reads its input, writes its output, and returns the exit status.
#![tactic(auto)]

mod choice;
mod command_line;
mod options_error;
mod program;
mod run;
mod settings;
mod standard;

pub use choice::Options;
pub use command_line::{Refusal, options, read_words};
pub use node_commands::{Link, RoundSize, join, round, serve};
pub use options_error::OptionsError;
use std::process::ExitCode;
pub use text_commands::{Ending, check, check_configuration, learn, lesson, table, world};

fn main(rt: HostRuntime) -> ExitCode {
    ExitCode::from(run::status(&rt, &rt))
}
