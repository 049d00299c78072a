//! The program's subcommands and options, for clap.
ghost use Rattle.std.specs.Prelude.{◌≡◌, IfOk, false};
ghost use Rattle.clap.specs.Words.{app_of, new_app, rule_of};
ghost use Rattle.clap.specs.declared.builder.command.Command.TheViews.{out-Command as fields_of};
ghost use Rattle.peers_node.specs.CommandLine.{alone, meeting, name_option, number_option, numbered, optional_number, program, round, rounds, running, scenes, scripts, serving, tables, teaching, top};

use crate::choice::{LAST_PORT, MOST_ROUNDS, MOST_SESSIONS, MOST_THREADS, MOST_TRACKS, MOST_TURNS};
use crate::settings::{
    flag, required, requiring_subcommand, up_to, with_about, with_after_help, with_help,
    with_help_by_default, with_long, with_option, with_parser, with_value_name, with_version,
};
use clap::{Arg, Command};
use node_core::VERSION;
use std::alloc::{AllocError, Global};

/// Makes the program without its subcommands.
fn top<'a>(alloc: Global) -> Command<'a>
    ensures { app_of result ≡ top }
{
    let program = with_about(
        with_version(Command::new(alloc, "peers_node"), VERSION),
        "Shares HAProxy stick tables over the peers protocol",
    );
    let program = with_after_help(
        program,
        "A scene, for table and world a script, or for run a configuration, is read on standard input; docs/FORMATS.md says how they are written.",
    );
    with_help_by_default(requiring_subcommand(program))
}

/// Makes the program with `lesson` and `check`.
fn teaching<'a>(alloc: Global) -> Result<Command<'a>, AllocError>
    ensures { IfOk result (λ command. app_of command ≡ teaching) }
{
    let lesson = bare(
        alloc,
        "lesson",
        "Reads a scene, and writes a stream that teaches its updates",
    );
    let check = bare(
        alloc,
        "check",
        "Reads a scene, and says whether its stream teaches its updates in the fewest bytes",
    );
    top(alloc).subcommand(lesson)?.subcommand(check)
}

/// Makes the program with `lesson`, `check` and `learn`.
fn scenes<'a>(alloc: Global) -> Result<Command<'a>, AllocError>
    ensures { IfOk result (λ command. app_of command ≡ scenes) }
{
    let learn = bare(
        alloc,
        "learn",
        "Reads a scene, and writes the rows and acknowledgements of a learner of its stream",
    );
    teaching(alloc)?.subcommand(learn)
}

/// Makes the program with `lesson`, `check`, `learn` and `table`.
fn tables<'a>(alloc: Global) -> Result<Command<'a>, AllocError>
    ensures { IfOk result (λ command. app_of command ≡ tables) }
{
    let table = bare(
        alloc,
        "table",
        "Reads a script, and writes what a table answers to each of its calls",
    );
    scenes(alloc)?.subcommand(table)
}

/// Makes the program with all subcommands that read a scene or a script.
fn scripts<'a>(alloc: Global) -> Result<Command<'a>, AllocError>
    ensures { IfOk result (λ command. app_of command ≡ scripts) }
{
    let world = bare(
        alloc,
        "world",
        "Reads a script, and writes what becomes of tables and their learners in its steps",
    );
    tables(alloc)?.subcommand(world)
}

/// Makes a required option with a text as its value.
fn name_option<'a>(alloc: Global, name: &'a str, value: &'a str) -> Arg<'a>
    ensures rule { rule_of result ≡ name_option name.entry.now }
    ensures own { result.global ≡ false }
{
    required(with_value_name(with_long(Arg::new(alloc, name), name), value))
}

/// Makes a required option with a number from 1 to `most` as its value.
fn number_option<'a>(alloc: Global, name: &'a str, value: &'a str, most: u32) -> Arg<'a>
    ensures rule { rule_of result ≡ number_option name.entry.now most }
    ensures own { result.global ≡ false }
{
    with_parser(name_option(alloc, name, value), up_to(most))
}

/// Makes an option that may be left out, with a number from 1 to `most` as its value.
fn optional_number<'a>(alloc: Global, name: &'a str, value: &'a str, most: u32) -> Arg<'a>
    ensures rule { rule_of result ≡ optional_number name.entry.now most }
    ensures own { result.global ≡ false }
{
    let option = with_value_name(with_long(Arg::new(alloc, name), name), value);
    with_parser(option, up_to(most))
}

/// Makes a subcommand without options.
fn bare<'a>(alloc: Global, name: &'a str, about: &'a str) -> Command<'a>
    ensures app { app_of result ≡ new_app name.entry.now }
    ensures local { (fields_of result).has_globals ≡ false }
{
    with_about(Command::new(alloc, name), about)
}

/// Makes the subcommand that runs rounds, without their number.
fn round<'a>(alloc: Global) -> Result<Command<'a>, AllocError>
    ensures app { IfOk result (λ command. app_of command ≡ round) }
    ensures local { IfOk result (λ command. (fields_of command).has_globals ≡ false) }
{
    let round = bare(
        alloc,
        "round",
        "Lets threads change a table while a session copies it, and audits what they did",
    );
    let threads = number_option(alloc, "threads", "T", MOST_THREADS);
    let round = with_option(round, with_help(threads, "How many threads track"))?;
    let tracks = number_option(alloc, "tracks", "N", MOST_TRACKS);
    with_option(
        round,
        with_help(tracks, "How often each of them does in a round"),
    )
}

/// Makes the subcommand that runs rounds.
fn rounds<'a>(alloc: Global) -> Result<Command<'a>, AllocError>
    ensures app { IfOk result (λ command. app_of command ≡ rounds) }
    ensures local { IfOk result (λ command. (fields_of command).has_globals ≡ false) }
{
    let rounds = optional_number(alloc, "rounds", "R", MOST_ROUNDS);
    with_option(
        round(alloc)?,
        with_help(rounds, "How many rounds follow one another, 1 by default"),
    )
}

/// Makes the subcommand that runs a node that stays.
fn running<'a>(alloc: Global) -> Result<Command<'a>, AllocError>
    ensures app { IfOk result (λ command. app_of command ≡ running) }
    ensures local { IfOk result (λ command. (fields_of command).has_globals ≡ false) }
{
    let run = bare(
        alloc,
        "run",
        "Reads a configuration, and runs a node that stays until it is stopped at its admin port",
    );
    let check = flag(with_long(Arg::new(alloc, "check"), "check"));
    with_option(
        run,
        with_help(
            check,
            "Only says whether a node can be run with the configuration, and opens nothing",
        ),
    )
}

/// Makes a subcommand with the numbers of a link as options.
fn numbered<'a>(alloc: Global, name: &'a str, about: &'a str) -> Result<Command<'a>, AllocError>
    ensures app { IfOk result (λ command. app_of command ≡ numbered name.entry.now) }
    ensures local { IfOk result (λ command. (fields_of command).has_globals ≡ false) }
{
    let command = bare(alloc, name, about);
    let turns = number_option(alloc, "turns", "N", MOST_TURNS);
    let command = with_option(
        command,
        with_help(turns, "How many turns the session makes at most"),
    )?;
    let port = number_option(alloc, "port", "P", LAST_PORT);
    with_option(command, with_help(port, "The port of 127.0.0.1"))
}

/// Makes a subcommand with the options of a link.
fn meeting<'a>(alloc: Global, name: &'a str, about: &'a str) -> Result<Command<'a>, AllocError>
    ensures app { IfOk result (λ command. app_of command ≡ meeting name.entry.now) }
    ensures local { IfOk result (λ command. (fields_of command).has_globals ≡ false) }
{
    let command = numbered(alloc, name, about)?;
    let own = name_option(alloc, "name", "A");
    let command = with_option(command, with_help(own, "The name of this node"))?;
    let peer = name_option(alloc, "peer", "B");
    with_option(command, with_help(peer, "The name of the other node"))
}

/// Makes the subcommand that waits for other nodes.
fn serving<'a>(alloc: Global) -> Result<Command<'a>, AllocError>
    ensures app { IfOk result (λ command. app_of command ≡ serving) }
    ensures local { IfOk result (λ command. (fields_of command).has_globals ≡ false) }
{
    let serve = meeting(
        alloc,
        "serve",
        "Reads a scene, waits for a node to connect, and teaches it the scene's rows",
    )?;
    let sessions = optional_number(alloc, "sessions", "S", MOST_SESSIONS);
    with_option(
        serve,
        with_help(
            sessions,
            "How many connections it takes, each in a session of its own (1 if not given)",
        ),
    )
}

/// Makes the program with all subcommands that need no other node.
fn alone<'a>(alloc: Global) -> Result<Command<'a>, AllocError>
    ensures { IfOk result (λ command. app_of command ≡ alone) }
{
    scripts(alloc)?
        .subcommand(rounds(alloc)?)?
        .subcommand(running(alloc)?)
}

/// Makes the program with all its subcommands.
pub fn command<'a>(alloc: Global) -> Result<Command<'a>, AllocError>
    ensures { IfOk result (λ command. app_of command ≡ program) }
{
    let join = meeting(
        alloc,
        "join",
        "Reads a scene, connects to a node that serves, and takes all its rows",
    )?;
    alone(alloc)?.subcommand(serving(alloc)?)?.subcommand(join)
}
