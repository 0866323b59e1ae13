//! The parts of a command line: how options and commands are put together, and how arguments are read.
ghost use Rattle.std.specs.Prelude.{◌≡◌, true, false, map, IfOk, MatchResult};
ghost use Rattle.clap.specs.Words.{app_of, fault_of, found_of, is_simple_and_free, rows_of, rule_of, with_rule, with_subcommand, App, HasKind, Rule};
ghost use Rattle.drf_app.specs.Arguments.{flag, top_line, HasEntered, HasFlag};
ghost use Rattle.drf_app.specs.Line.{drf_line, IsRefused};

use crate::line::drf_line;
use clap::{Arg, ArgAction, ArgMatches, Command, Error};
use std::alloc::{AllocError, Global};
use std::convert::AsStr;

/// The version that `drf --version` prints.
const VERSION: &str = "0.1.0";

/// Returns `drf` without any command.
pub(crate) fn top_line<'a>(alloc: Global) -> Command<'a>
    ensures { app_of result ≡ top_line }
{
    Command::new(alloc, "drf")
        .about("Divides the machines of a cluster among teams by Dominant Resource Fairness")
        .version(VERSION)
        .subcommand_required(true)
        .disable_help_subcommand(true)
}

/// Returns the flag `--NAME`.
pub(crate) fn flag<'a>(alloc: Global, name: &'a str, help: &'a str) -> Arg<'a>
    ensures rule { rule_of result ≡ flag name.now }
    ensures local { result.global ≡ false }
{
    Arg::new(alloc, name)
        .long(name)
        .help(help)
        .action(ArgAction::SetTrue)
}

/// Adds an argument to a command, or passes the error on. No `?` is used where commands are put together: the proof of each exit would cover the
/// release of everything that is owned there.
pub(crate) fn with_argument<'a>(
    command: Result<Command<'a>, AllocError>,
    argument: Arg<'a>,
) -> Result<Command<'a>, AllocError>
    requires { argument.global ≡ false }
    ensures { (form : App) (rule : Rule) → IfOk command.entry (λ c. app_of c ≡ form) → rule_of argument.entry ≡ rule
        → IfOk result (λ c. app_of c ≡ with_rule form rule) }
{
    command?.arg(argument)
}

/// Adds a command to a command line, or passes the error of either on.
pub(crate) fn with_command<'a>(
    line: Result<Command<'a>, AllocError>,
    command: Result<Command<'a>, AllocError>,
) -> Result<Command<'a>, AllocError>
    ensures { (form part : App) → IfOk line.entry (λ c. app_of c ≡ form) → IfOk command.entry (λ c. app_of c ≡ part) → part.top.is_plain ≡ true
        → IfOk result (λ c. app_of c ≡ with_subcommand form part.top) }
{
    let line = line?;
    line.subcommand(command?)
}

/// Returns whether a flag is set.
pub(crate) fn flag_of(command: &ArgMatches, name: &str) -> bool
    ensures { HasFlag (rows_of (found_of command.now)) name.now result }
{
    command.get_flag(name)
}

/// Parses arguments, the first of which is the program's name. Returns the name of the command, and its own arguments. Errors: help or the version was
/// asked for, the arguments are wrong, or memory ran out.
pub(crate) fn enter<'a, S: AsStr>(
    line: Command<'a>,
    words: &'a [S],
) -> Result<(&'a str, ArgMatches<'a>), Error>
    requires simple { is_simple_and_free (app_of line) ≡ true }
    requires required { (app_of line).top.subcommand_required ≡ true }
    ensures { MatchResult result
        (λ command. HasEntered (app_of line.entry) (map S.text words.now) command.0.now (rows_of (found_of command.1)))
        (HasKind (fault_of (app_of line.entry) (map S.text words.now))) }
{
    let mut matches = line.try_get_matches_from(words)?;
    let Some(command) = matches.remove_subcommand() else {
        unreachable!()
    };
    Ok(command)
}

/// Parses the arguments of `drf`, as [`enter`] does.
pub(crate) fn read_arguments<'a, S: AsStr>(
    alloc: Global,
    words: &'a [S],
) -> Result<(&'a str, ArgMatches<'a>), Error>
    ensures { MatchResult result
        (λ command. HasEntered drf_line (map S.text words.now) command.0.now (rows_of (found_of command.1))) (IsRefused (map S.text words.now)) }
{
    let line = drf_line(alloc)?;
    enter(line, words)
}
