//! From the words of the command line to the exit status.
ghost use Rattle.std.specs.Prelude.{◌≤◌};

use crate::choice::Options;
use crate::command_line::{Refusal, read_words};
use crate::options_error::OptionsError;
use crate::standard::{held, reader_of_errors};
use node_commands::{Link, RoundSize, join, round, serve};
use peers_devices::{Counting, Faults, write_all};
use staying_node::{check_input, run};
use std::alloc::{AllocError, Global};
use std::fs::Files;
use std::io::{ErrorKind, Read, Write};
use std::net::{Net, TcpListener, TcpStream};
use std::sync::Wait;
use std::thread::Threads;
use std::time::Clock;
use std::{env, process};
use text_commands::{Ending, check, learn, lesson, table, world};

/// The exit status if the command line is refused or asks for help.
const WORDS: u8 = 2;

/// The text for words that are no command line, if memory runs out for a longer one.
const NO_COMMAND_LINE: &str = "error: not a command line of this program\n";

/// What is said besides of words that give `run` a file.
const NO_FILE: &str = "The configuration is read from standard input: peers_node run < FILE\n";

/// Runs the subcommand that the command line chooses and returns the exit status. `runner` starts its threads and opens
/// its sockets.
pub fn status<
    R: Threads
        + Wait
        + Clock
        + Files
        + Sync
        + Copy
        + Send
        + Net<Listener = TcpListener, Stream = TcpStream>
        + 'static,
>(rt: &HostRuntime, runner: &R) -> u8
where
    R::File: Send + Sync,
    R::Dir: Send + Sync,
{
    let alloc = rt.alloc();
    let _held = held(rt, alloc);
    let mut errors = Counting::new(rt.stderr());
    match arguments(rt) {
        Ok(arguments) => match texts(alloc, arguments.as_slice()) {
            Ok(words) => dispatched(rt, runner, words.as_slice(), &mut errors),
            Err(_) => Ending::Memory.said(alloc, &mut errors).status(),
        },
        Err(OptionsError::Words) => said("error: an argument isn't text\n", &mut errors),
        Err(OptionsError::Memory) => Ending::Memory.said(alloc, &mut errors).status(),
    }
}

/// Returns the words of the command line, or `Words` if one of them isn't text.
fn arguments(rt: &HostRuntime) -> Result<Vec<String>, OptionsError> {
    match env::args(rt) {
        Ok(arguments) => match arguments.collect(rt.alloc()) {
            Ok(words) => Ok(words),
            Err(_) => Err(OptionsError::Memory),
        },
        Err(error) if error.kind() == ErrorKind::OutOfMemory => Err(OptionsError::Memory),
        Err(_) => Err(OptionsError::Words),
    }
}

fn texts<'a>(alloc: Global, arguments: &'a [String]) -> Result<Vec<&'a str>, AllocError> {
    let mut words = Vec::new(alloc);
    for argument in arguments {
        words.push(argument.as_str())?;
    }
    Ok(words)
}

/// Runs the subcommand that `words` choose. All but `learn`, whose frame is small, run in functions that aren't inlined, so that
/// the stack holds the frame of only one of them.
#[tactic(auto, using(crate::proofs::Choices::few_threads, crate::proofs::Choices::some_rounds))]
fn dispatched<
    'a,
    R: Threads
        + Wait
        + Clock
        + Files
        + Sync
        + Copy
        + Send
        + Net<Listener = TcpListener, Stream = TcpStream>
        + 'static,
    E: Write + Faults,
>(rt: &HostRuntime, runner: &R, words: &'a [&'a str], errors: &mut E) -> u8
where
    R::File: Send + Sync,
    R::Dir: Send + Sync,
{
    let alloc = rt.alloc();
    let mut input = Counting::new(rt.stdin());
    let mut output = Counting::new(rt.stdout());
    match read_words(alloc, words) {
        Ok(Options::Lesson) => run_lesson(alloc, &mut input, &mut output, errors),
        Ok(Options::Check) => run_check(alloc, &mut input, &mut output, errors),
        Ok(Options::Learn) => learn(alloc, &mut input, &mut output, errors).status(),
        Ok(Options::Table) => run_table(alloc, &mut input, &mut output, errors),
        Ok(Options::World) => run_world(alloc, &mut input, &mut output, errors),
        Ok(Options::Run { checks: true }) => run_configuration_check(alloc, &mut input, errors),
        Ok(Options::Run { checks: false }) => {
            let log = Counting::new(rt.stderr());
            let _reader = reader_of_errors(rt);
            let pid = process::id(rt.process());
            run_node(runner, alloc, pid, &mut input, errors, log)
        }
        Ok(
            Options::Round {
                threads,
                tracks,
                rounds,
            },
        ) => {
            let size = RoundSize {
                threads,
                tracks,
                rounds,
            };
            run_round(runner, alloc, size, &mut output, errors)
        }
        Ok(Options::Serve(link)) => run_serve(runner, alloc, link, &mut input, &mut output, errors),
        Ok(Options::Join(link)) => run_join(runner, alloc, link, &mut input, &mut output, errors),
        Err(refusal) => refused(alloc, words, &refusal, errors),
    }
}

#[inline(never)]
fn run_lesson<I: Read + Faults, O: Write + Faults, E: Write + Faults>(
    alloc: Global,
    input: &mut I,
    output: &mut O,
    errors: &mut E,
) -> u8 {
    lesson(alloc, input, output, errors).status()
}

#[inline(never)]
fn run_check<I: Read + Faults, O: Write + Faults, E: Write + Faults>(
    alloc: Global,
    input: &mut I,
    output: &mut O,
    errors: &mut E,
) -> u8 {
    check(alloc, input, output, errors).status()
}

#[inline(never)]
fn run_table<I: Read + Faults, O: Write + Faults, E: Write + Faults>(
    alloc: Global,
    input: &mut I,
    output: &mut O,
    errors: &mut E,
) -> u8 {
    table(alloc, input, output, errors).status()
}

#[inline(never)]
fn run_world<I: Read + Faults, O: Write + Faults, E: Write + Faults>(
    alloc: Global,
    input: &mut I,
    output: &mut O,
    errors: &mut E,
) -> u8 {
    world(alloc, input, output, errors).status()
}

#[inline(never)]
fn run_configuration_check<I: Read + Faults, E: Write + Faults>(
    alloc: Global,
    input: &mut I,
    errors: &mut E,
) -> u8 {
    check_input(alloc, input, errors).status()
}

#[inline(never)]
fn run_node<
    R: Threads
        + Wait
        + Clock
        + Files
        + Sync
        + Copy
        + Send
        + Net<Listener = TcpListener, Stream = TcpStream>
        + 'static,
    I: Read + Faults,
    E: Write + Faults,
    L: Write + Faults + Send + Drop + 'static,
>(runner: &R, alloc: Global, pid: u32, input: &mut I, errors: &mut E, log: L) -> u8
where
    R::File: Send + Sync,
    R::Dir: Send + Sync,
{
    run(runner, alloc, pid, input, errors, log).status()
}

#[inline(never)]
fn run_round<R: Threads + Wait + Sync, O: Write + Faults, E: Write + Faults>(
    runner: &R,
    alloc: Global,
    size: RoundSize,
    output: &mut O,
    errors: &mut E,
) -> u8
    requires threads { size.threads ≤ 8 }
    requires rounds { 1 ≤ size.rounds }
{
    round(runner, alloc, size, output, errors).status()
}

#[inline(never)]
fn run_serve<
    R: Threads + Wait + Sync + Net<Listener = TcpListener, Stream = TcpStream>,
    I: Read + Faults,
    O: Write + Faults,
    E: Write + Faults,
>(runner: &R, alloc: Global, link: Link, input: &mut I, output: &mut O, errors: &mut E) -> u8 {
    serve(runner, alloc, link, input, output, errors).status()
}

#[inline(never)]
fn run_join<
    R: Wait + Net<Listener = TcpListener, Stream = TcpStream>,
    I: Read + Faults,
    O: Write + Faults,
    E: Write + Faults,
>(runner: &R, alloc: Global, link: Link, input: &mut I, output: &mut O, errors: &mut E) -> u8 {
    join(runner, alloc, link, input, output, errors).status()
}

/// Returns whether a word is an option.
fn is_option(word: &str) -> bool {
    match word.as_bytes().first() {
        Some(byte) => *byte == b'-',
        None => false,
    }
}

/// Returns whether one of the words is no option.
fn has_plain_word(words: &[&str]) -> bool {
    for word in words {
        if !is_option(word) {
            return true;
        }
    }
    false
}

/// Returns whether `run` is chosen and a word that is no option stands behind it, such as the name of a file.
fn has_file(words: &[&str]) -> bool {
    let [_, command, rest @ ..] = words else {
        return false;
    };
    *command == "run" && has_plain_word(rest)
}

/// Returns what is wrong with the words.
fn text_of(alloc: Global, words: &[&str], refusal: &Refusal) -> Result<String, AllocError> {
    let text = refusal.text(alloc)?;
    if !has_file(words) {
        return Ok(text);
    }
    let (wrong, hint) = (text.as_str(), NO_FILE);
    format!(in alloc; "{wrong}\n{hint}")
}

/// Writes why the words are refused.
fn refused<E: Write + Faults>(
    alloc: Global,
    words: &[&str],
    refusal: &Refusal,
    errors: &mut E,
) -> u8 {
    match refusal.cause() {
        OptionsError::Memory => Ending::Memory.said(alloc, errors).status(),
        OptionsError::Words => match text_of(alloc, words, refusal) {
            Ok(text) => said(text.as_str(), errors),
            Err(_) => said(NO_COMMAND_LINE, errors),
        },
    }
}

/// Writes what is wrong with the words.
fn said<E: Write + Faults>(text: &str, errors: &mut E) -> u8 {
    match write_all(errors, text.as_bytes()) {
        Ok(()) => WORDS,
        Err(_) => Ending::device(errors).status(),
    }
}
