//! One setting each of a clap command or option. Each function takes any command or option, and its contract says what the
//! setting changes of it.
ghost use Rattle.std.specs.Prelude.{◌≡◌, IfOk, Some, false, pos, true};
ghost use Rattle.clap.specs.Simple.{on_top};
ghost use Rattle.clap.specs.Words.{app_of, rule_of, with_rule};
ghost use Rattle.clap.specs.declared.builder.action.ArgAction.TheVariants as actions;
ghost use Rattle.clap.specs.declared.builder.value_parser.ValueParser.TheVariants as parsers;
ghost use Rattle.clap.specs.declared.builder.command.Command.TheViews.{out-Command as fields_of};

use clap::builder::ValueParser;
use clap::{Arg, ArgAction, Command, value_parser};
use std::alloc::AllocError;

/// Adds the text that the help begins with.
pub(crate) fn with_about<'a>(command: Command<'a>, about: &'a str) -> Command<'a>
    ensures app { app_of result ≡ app_of command.entry }
    ensures local { (fields_of result).has_globals ≡ (fields_of command.entry).has_globals }
{
    command.about(about)
}

/// Adds a version.
pub(crate) fn with_version<'a>(command: Command<'a>, version: &'a str) -> Command<'a>
    ensures { app_of result ≡ on_top (λ s. record s { has_version = true }) (app_of command.entry) }
{
    command.version(version)
}

/// Adds a text after the help.
pub(crate) fn with_after_help<'a>(command: Command<'a>, text: &'a str) -> Command<'a>
    ensures { app_of result ≡ app_of command.entry }
{
    command.after_help(text)
}

/// Has the command refuse words that name no subcommand.
pub(crate) fn requiring_subcommand<'a>(command: Command<'a>) -> Command<'a>
    ensures { app_of result ≡ on_top (λ s. record s { subcommand_required = true }) (app_of command.entry) }
{
    command.subcommand_required(true)
}

/// Has the command show its help if it gets no words.
pub(crate) fn with_help_by_default<'a>(command: Command<'a>) -> Command<'a>
    ensures { app_of result ≡ on_top (λ s. record s { arg_required_else_help = true }) (app_of command.entry) }
{
    command.arg_required_else_help(true)
}

/// Adds an option.
pub(crate) fn with_option<'a>(
    command: Command<'a>,
    option: Arg<'a>,
) -> Result<Command<'a>, AllocError>
    requires { option.global ≡ false }
    ensures app { IfOk result (λ c. app_of c ≡ with_rule (app_of command.entry) (rule_of option.entry)) }
    ensures local { IfOk result (λ c. (fields_of c).has_globals ≡ (fields_of command.entry).has_globals) }
{
    command.arg(option)
}

/// Has the option spelled with two hyphens and `name`.
pub(crate) fn with_long<'a>(option: Arg<'a>, name: &'a str) -> Arg<'a>
    ensures rule { rule_of result ≡ record (rule_of option.entry) { long = Some name.entry.now } }
    ensures own { result.global ≡ option.entry.global }
{
    option.long(name)
}

/// Gives the option one value, which the help calls `value`.
pub(crate) fn with_value_name<'a>(option: Arg<'a>, value: &'a str) -> Arg<'a>
    ensures rule { rule_of result ≡ record (rule_of option.entry) { value_names = 1 } }
    ensures own { result.global ≡ option.entry.global }
{
    option.value_name(value)
}

/// Makes the option a flag, which has no value.
pub(crate) fn flag<'a>(option: Arg<'a>) -> Arg<'a>
    ensures rule { rule_of result ≡ record (rule_of option.entry) { action = Some actions.SetTrue } }
    ensures own { result.global ≡ option.entry.global }
{
    option.action(ArgAction::SetTrue)
}

/// Makes the option required.
pub(crate) fn required<'a>(option: Arg<'a>) -> Arg<'a>
    ensures rule { rule_of result ≡ record (rule_of option.entry) { required = true } }
    ensures own { result.global ≡ option.entry.global }
{
    option.required(true)
}

/// Adds the option's text in the help.
pub(crate) fn with_help<'a>(option: Arg<'a>, text: &'a str) -> Arg<'a>
    ensures rule { rule_of result ≡ rule_of option.entry }
    ensures own { result.global ≡ option.entry.global }
{
    option.help(text)
}

/// Returns the parser of numbers from 1 to `most`.
pub(crate) fn up_to<'a>(most: u32) -> ValueParser<'a>
    ensures { result ≡ parsers.Signed (pos 1) (pos most) }
{
    value_parser!(u32).range(1..=i64::from(most))
}

/// Has `parser` read the option's value.
pub(crate) fn with_parser<'a>(option: Arg<'a>, parser: ValueParser<'a>) -> Arg<'a>
    ensures rule { rule_of result ≡ record (rule_of option.entry) { parser = Some parser.entry } }
    ensures own { result.global ≡ option.entry.global }
{
    option.value_parser(parser)
}
