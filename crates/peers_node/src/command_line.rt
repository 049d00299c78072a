//! Reading the command line.
ghost use Rattle.std.specs.Prelude.{◌≡◌, ℕ, List, Err, IfErr, IfOk, IfSome, None, Ok, codes, option_map, true};
ghost use Rattle.clap.specs.Words.{first_of, found_of, rows_of, subcommand_of, subcommand_rows_of};
ghost use Rattle.table_types.specs.Names.{is_name};
ghost use Rattle.node_commands.specs.declared.link.Link.{Link};
ghost use Rattle.peers_node.specs.declared.choice.Options.{Options};
ghost use Rattle.peers_node.specs.declared.choice.Options.TheVariants as choices;
ghost use Rattle.peers_node.specs.declared.options_error.OptionsError.TheVariants as errors;
ghost use Rattle.peers_node.specs.Choices.{TakesNone, name_of};
ghost use Rattle.peers_node.specs.CommandLine.{Chooses, HasFlag, HasLink, HasName, HasNumber, HasNumberOr, HasOptions, Meets, Refuses, cause_of, faults_of, program, texts};

use crate::choice::{
    LAST_PORT, MOST_ROUNDS, MOST_SESSIONS, MOST_THREADS, MOST_TRACKS, MOST_TURNS, Options,
};
use crate::options_error::OptionsError;
use crate::program::command;
use clap::error::ErrorKind;
use clap::{ArgMatches, Error};
use node_commands::Link;
use std::alloc::{AllocError, Global};
use table_types::{Name, is_name};

/// Reads the words of a command line, the program's name first.
///
/// Returns `Words` if they are no command line of this program; a call for help or for the version is none. Returns
/// `Memory` if memory runs out while clap reads them or while the names of a link are copied, whatever the words are.
pub fn options<'a>(alloc: Global, words: &'a [&'a str]) -> Result<Options, OptionsError>
    ensures ok { IfOk result (Chooses (texts words.now)) }
    ensures words { result ≡ Err OptionsError.Words → (chosen : Options) → Chooses (texts words.now) chosen → ⊥ }
{
    match read_words(alloc, words) {
        Ok(chosen) => Ok(chosen),
        Err(refusal) => Err(refusal.cause()),
    }
}

/// Why words choose nothing.
#[derive(Debug, Drop)]
pub enum Refusal {
    /// clap refused them, or they ask for help or the version, or memory ran out.
    Parser(Error),
    /// They name no subcommand.
    NoCommand,
    /// A name in them isn't 1 to 255 bytes without NUL.
    NoName,
}

impl Refusal {
    /// Returns whether the words were refused or memory ran out.
    pub fn cause(&self) -> OptionsError
        ensures { result ≡ cause_of self.now }
    {
        match self {
            Refusal::Parser(error) => match error.kind() {
                ErrorKind::OutOfMemory => OptionsError::Memory,
                _ => OptionsError::Words,
            },
            Refusal::NoCommand => OptionsError::Words,
            Refusal::NoName => OptionsError::Words,
        }
    }

    /// Returns the text for the user: what is wrong with the words and how the program is called, or the help.
    pub fn text(&self, alloc: Global) -> Result<String, AllocError> {
        match self {
            Refusal::Parser(error) => format!(in alloc; "{error}"),
            Refusal::NoCommand => String::from_str(alloc, "error: no command given\n"),
            Refusal::NoName => String::from_str(
                alloc,
                "error: a name is 1 to 255 bytes without NUL\n",
            ),
        }
    }
}

impl From<AllocError> for Refusal {
    ghost from_gives = { λ _ refusal. cause_of refusal ≡ errors.Memory };

    fn from(refused: AllocError) -> Refusal {
        Refusal::Parser(Error::from(refused))
    }
}

/// Reads the words of a command line as `options` does. A refusal says why.
// It isn't inlined, so that clap's part of the stack is given back before a subcommand runs.
#[inline(never)]
pub fn read_words<'a>(alloc: Global, words: &'a [&'a str]) -> Result<Options, Refusal>
    ensures ok { IfOk result (Chooses (texts words.now)) }
    ensures refused { IfErr result (Refuses (faults_of (texts words.now)) (subcommand_of program (texts words.now))) }
{
    match command(alloc)?.try_get_matches_from(words) {
        Ok(matches) => match chosen(alloc, &matches)? {
            Some(choice) => Ok(choice),
            None => match matches.subcommand() {
                Some(_) => Err(Refusal::NoName),
                None => Err(Refusal::NoCommand),
            },
        },
        Err(error) => Err(Refusal::Parser(error)),
    }
}

/// Returns the choice whose subcommand clap met, with its options.
#[tactic(auto, using(crate::proofs::Choices::has_none))]
fn chosen(alloc: Global, matches: &ArgMatches<'_>) -> Result<Option<Options>, AllocError>
    ensures some { IfOk result (λ found. IfSome found (Meets (subcommand_rows_of matches.now))) }
    ensures none { result ≡ Ok None → (chosen : Options) → Meets (subcommand_rows_of matches.now) chosen → ⊥ }
{
    match matches.subcommand() {
        Some(("run", options)) => Ok(Some(Options::Run {
            checks: flag_met(options, "check"),
        })),
        Some(("round", options)) => Ok(round_met(options)),
        Some(("serve", options)) => match serve_met(alloc, options)? {
            Some(link) => Ok(Some(Options::Serve(link))),
            None => Ok(None),
        },
        Some(("join", options)) => match link_met(alloc, options, 1)? {
            Some(link) => Ok(Some(Options::Join(link))),
            None => Ok(None),
        },
        Some((name, _)) => Ok(named(name)),
        None => Ok(None),
    }
}

/// Returns the choice of this name whose options have no values.
fn named(name: &str) -> Option<Options>
    ensures some { IfSome result (λ choice. (name.now ≡ name_of choice) × TakesNone choice) }
    ensures none { result ≡ None → (chosen : Options) → TakesNone chosen → name.now ≡ name_of chosen → ⊥ }
{
    match name {
        "lesson" => Some(Options::Lesson),
        "check" => Some(Options::Check),
        "learn" => Some(Options::Learn),
        "table" => Some(Options::Table),
        "world" => Some(Options::World),
        _ => None,
    }
}

/// Returns the rounds that the options ask for.
fn round_met(options: &ArgMatches<'_>) -> Option<Options>
    ensures some { IfSome result (λ choice. (codes "round" ≡ name_of choice) × HasOptions (rows_of (found_of options.now)) choice) }
    ensures none { result ≡ None → (threads tracks rounds : ℕ) → HasOptions (rows_of (found_of options.now)) (choices.Round threads tracks rounds) → ⊥ }
{
    let Some(threads) = number_met(options, "threads", MOST_THREADS) else {
        return None;
    };
    let Some(tracks) = number_met(options, "tracks", MOST_TRACKS) else {
        return None;
    };
    let Some(rounds) = number_or(options, "rounds", MOST_ROUNDS, 1) else {
        return None;
    };
    Some(Options::Round {
        threads,
        tracks,
        rounds,
    })
}

/// Returns the link that the options give to a node that serves.
fn serve_met(alloc: Global, options: &ArgMatches<'_>) -> Result<Option<Link>, AllocError>
    ensures some { IfOk result (λ found. IfSome found (λ link. HasOptions (rows_of (found_of options.now)) (choices.Serve link))) }
    ensures none { result ≡ Ok None → (link : Link) → HasOptions (rows_of (found_of options.now)) (choices.Serve link) → ⊥ }
{
    let Some(sessions) = number_or(options, "sessions", MOST_SESSIONS, 1) else {
        return Ok(None);
    };
    link_met(alloc, options, sessions)
}

/// Returns the link of this number of sessions that the options give, with copies of its names.
fn link_met(
    alloc: Global,
    options: &ArgMatches<'_>,
    sessions: u32,
) -> Result<Option<Link>, AllocError>
    ensures some { IfOk result (λ found. IfSome found (λ link. HasLink (rows_of (found_of options.now)) link × (link.sessions ≡ sessions))) }
    ensures none { result ≡ Ok None → (link : Link) → HasLink (rows_of (found_of options.now)) link → ⊥ }
{
    let Some(turns) = number_met(options, "turns", MOST_TURNS) else {
        return Ok(None);
    };
    let Some(port) = number_met(options, "port", LAST_PORT) else {
        return Ok(None);
    };
    let Some(name) = name_met(options, "name") else {
        return Ok(None);
    };
    let Some(peer) = name_met(options, "peer") else {
        return Ok(None);
    };
    Ok(Some(Link {
        turns,
        sessions,
        port: port as u16,
        name: owned_name(alloc, name)?,
        peer: owned_name(alloc, peer)?,
    }))
}

/// Returns the number of `option` if clap met it and it is 1 to `most`.
fn number_met(matches: &ArgMatches<'_>, option: &str, most: u32) -> Option<u32>
    ensures some { IfSome result (λ number. HasNumber (rows_of (found_of matches.now)) option.now most number) }
    ensures none { result ≡ None → (number : ℕ) → HasNumber (rows_of (found_of matches.now)) option.now most number → ⊥ }
{
    match matches.get_one::<u32>(option) {
        Some(number) if 1 <= number && number <= most => Some(number),
        _ => None,
    }
}

/// Returns the number of `option` if it is 1 to `most`, or `otherwise` if clap didn't meet the option.
fn number_or(matches: &ArgMatches<'_>, option: &str, most: u32, otherwise: u32) -> Option<u32>
    ensures some { IfSome result (λ number. HasNumberOr (rows_of (found_of matches.now)) option.now most otherwise number) }
    ensures none { result ≡ None → (number : ℕ) → HasNumberOr (rows_of (found_of matches.now)) option.now most otherwise number → ⊥ }
{
    match text_met(matches, option) {
        Some(_) => number_met(matches, option, most),
        None => Some(otherwise),
    }
}

/// Returns the text of `option` if clap met it and its text is a name.
fn name_met<'a>(matches: &ArgMatches<'a>, option: &str) -> Option<&'a str>
    ensures some { IfSome result (λ name. HasName (rows_of (found_of matches.now)) option.now name.now) }
    ensures none { result ≡ None → (name : List ℕ) → HasName (rows_of (found_of matches.now)) option.now name → ⊥ }
{
    match text_met(matches, option) {
        Some(text) if is_name(text.as_bytes()) => Some(text),
        _ => None,
    }
}

/// Returns whether clap met the flag `option`.
fn flag_met(matches: &ArgMatches<'_>, option: &str) -> bool
    ensures { HasFlag (rows_of (found_of matches.now)) option.now result }
{
    match text_met(matches, option) {
        Some(text) => text == "true",
        None => false,
    }
}

/// Returns the text of `option` if clap met it.
fn text_met<'a>(matches: &ArgMatches<'a>, option: &str) -> Option<&'a str>
    ensures { option_map (λ text. text.now) result ≡ first_of option.now (rows_of (found_of matches.now)) }
{
    matches.get_str(option)
}

/// Copies a name.
fn owned_name(alloc: Global, text: &str) -> Result<Name, AllocError>
    requires { is_name text.now ≡ true }
    ensures { IfOk result (λ name. name ≡ text.now) }
{
    match Name::from_slice(alloc, text.as_bytes()) {
        Ok(name) => Ok(name),
        Err(_) => Err(AllocError),
    }
}
