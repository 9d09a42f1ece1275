//! The command line as clap is told of it.
ghost use Rattle.std.specs.Prelude.{◌≡◌, IfOk, false};
ghost use Rattle.clap.specs.Words.{app_of, rule_of, with_subcommand};
ghost use Rattle.command_line.specs.Command.{number_rule, optional_rule, program_app, word_app};

use clap::builder::ValueParser;
use clap::{Arg, Command};
use std::alloc::{AllocError, Global};

/// A program's command, without its words.
pub fn program<'a>(alloc: Global, name: &'a str, about: &'a str, after: &'a str) -> Command<'a>
    ensures app { app_of result ≡ program_app name.entry.now }
{
    Command::new(alloc, name)
        .about(about)
        .after_help(after)
        .disable_help_subcommand(true)
}

/// A number that a word takes, in digits, before which one `+` may stand, from `least` to `most`.
pub fn number<'a>(alloc: Global, id: &'a str, least: u64, most: u64, help: &'a str) -> Arg<'a>
    ensures rule { rule_of result ≡ number_rule id.entry.now least most }
    ensures local { result.global ≡ false }
{
    Arg::new(alloc, id)
        .required(true)
        .value_parser(ValueParser::unsigned(least, most))
        .help(help)
}

/// A number that a word may take, in digits, before which one `+` may stand, from `least` to `most`.
pub fn optional_number<'a>(
    alloc: Global,
    id: &'a str,
    least: u64,
    most: u64,
    help: &'a str,
) -> Arg<'a>
    ensures rule { rule_of result ≡ optional_rule id.entry.now least most }
    ensures local { result.global ≡ false }
{
    Arg::new(alloc, id)
        .value_parser(ValueParser::unsigned(least, most))
        .help(help)
}

/// A command with one more word, which takes no values.
pub fn with_word<'a>(
    alloc: Global,
    command: Command<'a>,
    name: &'a str,
    about: &'a str,
) -> Result<Command<'a>, AllocError>
    ensures app { IfOk result (λ c. app_of c ≡ with_subcommand (app_of command.entry) (word_app name.entry.now).top) }
{
    command.subcommand(Command::new(alloc, name).about(about))
}
