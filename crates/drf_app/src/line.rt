//! The command line: each command with its options and its help texts.
ghost use Rattle.std.specs.Prelude.{◌≡◌, false, IfOk};
ghost use Rattle.clap.specs.Words.{app_of, rule_of};
ghost use Rattle.drf_app.specs.Line.{agent_option, audit_line, check_line, client_option, drf_line, drive_line, explain_line, file_arguments, from_option, lint_line, timestamp_option, run_line, save_line, show_line};

use crate::arguments::{flag, top_line, with_argument, with_command};
use clap::builder::ValueParser;
use clap::{Arg, ArgAction, Command};
use drf_rows::LATEST_TIMESTAMP;
use std::alloc::{AllocError, Global};

/// The names of the two values of `--client` in help.
const CLIENT_NAMES: &[&str] = &["FRAMEWORK", "ROLE"];

/// The most files that `drive` takes.
pub(crate) const MOST_FILES: usize = 64;

/// Returns the option `--from STATE`.
fn from_option<'a>(alloc: Global) -> Arg<'a>
    ensures rule { rule_of result ≡ from_option }
    ensures local { result.global ≡ false }
{
    Arg::new(alloc, "from")
        .long("from")
        .value_name("STATE")
        .help("Starts from the state in this file, which `save` wrote, instead of an empty cluster")
        .action(ArgAction::Set)
}

/// Returns the command `run`.
fn run_line<'a>(alloc: Global) -> Result<Command<'a>, AllocError>
    ensures { IfOk result (λ line. app_of line ≡ run_line) }
{
    let line = Command::new(alloc, "run")
        .about("Replies to each event line of standard input with one line on standard output")
        .after_help("Example: drf run < examples/day.jsonl")
        .arg(flag(
            alloc,
            "echo",
            "Writes each line, as it was read, before its reply: a journal",
        ));
    let ask = flag(
        alloc,
        "ask",
        "Also answers questions such as `?report`, `?explain 5000`, `?offers f1`, `?tasks`, `?state` and `?tables`, which are not events and are not in a journal",
    );
    with_argument(with_argument(line, ask), from_option(alloc))
}

/// Returns the command `check`.
fn check_line<'a>(alloc: Global) -> Result<Command<'a>, AllocError>
    ensures { IfOk result (λ line. app_of line ≡ check_line) }
{
    Command::new(alloc, "check")
        .about("Verifies that each reply in the journal on standard input is right")
        .after_help("Example: drf run --echo < examples/day.jsonl | drf check")
        .arg(from_option(alloc))
}

/// Returns the command `audit`.
fn audit_line<'a>(alloc: Global) -> Result<Command<'a>, AllocError>
    ensures { IfOk result (λ line. app_of line ≡ audit_line) }
{
    Command::new(alloc, "audit")
        .about(
            "Prints what each machine has, what is free on it and how many offers and tasks it has, after the event lines of standard input",
        )
        .after_help("Example: drf audit < examples/day.jsonl")
        .arg(from_option(alloc))
}

/// Returns the command `show`.
fn show_line<'a>(alloc: Global) -> Result<Command<'a>, AllocError>
    ensures { IfOk result (λ line. app_of line ≡ show_line) }
{
    let line = Command::new(alloc, "show")
        .about(
            "Shows the state after the event lines or the journal on standard input: who has what, and how full each table is",
        )
        .after_help("Example: drf show < examples/day.jsonl")
        .arg(flag(
            alloc,
            "json",
            "Prints one JSON object per line, for programs",
        ));
    with_argument(line, from_option(alloc))
}

/// Returns the option `--at TIMESTAMP`.
fn timestamp_option<'a>(alloc: Global) -> Arg<'a>
    ensures rule { rule_of result ≡ timestamp_option }
    ensures local { result.global ≡ false }
{
    Arg::new(alloc, "at")
        .long("at")
        .help(
            "The time of that cycle, in milliseconds; without it, the latest timestamp of the lines",
        )
        .value_parser(ValueParser::Unsigned(0, LATEST_TIMESTAMP))
        .action(ArgAction::Set)
}

/// Returns the option `--client FRAMEWORK ROLE`.
fn client_option<'a>(alloc: Global) -> Arg<'a>
    ensures rule { rule_of result ≡ client_option }
    ensures local { result.global ≡ false }
{
    Arg::new(alloc, "client")
        .long("client")
        .value_names(CLIENT_NAMES)
        .help(
            "Explains this framework in this role on each agent, with the clients that are offered something there before it",
        )
        .action(ArgAction::Set)
}

/// Returns the option `--agent NAME`.
fn agent_option<'a>(alloc: Global) -> Arg<'a>
    ensures rule { rule_of result ≡ agent_option }
    ensures local { result.global ≡ false }
{
    Arg::new(alloc, "agent")
        .long("agent")
        .value_name("NAME")
        .help("Explains each client on this agent")
        .action(ArgAction::Set)
}

/// Returns the command `explain`.
fn explain_line<'a>(alloc: Global) -> Result<Command<'a>, AllocError>
    ensures { IfOk result (λ line. app_of line ≡ explain_line) }
{
    let line = Command::new(alloc, "explain")
        .about(
            "Says what the next cycle would offer to which client, and why other clients would get nothing, after the event lines of standard input",
        )
        .after_help(
            "Examples: head -12 examples/day.jsonl | drf explain; head -12 examples/day.jsonl | drf explain --client batch data",
        )
        .arg(timestamp_option(alloc));
    let each = flag(
        alloc,
        "each",
        "Explains each client on each agent, even where too little is left to offer",
    );
    let line = with_argument(line, each);
    let line = with_argument(line, client_option(alloc));
    let line = with_argument(line, agent_option(alloc));
    let summary = flag(
        alloc,
        "summary",
        "For each client: counts the agents on which it is offered something, or nothing and why, and names the clients that come before it",
    );
    let line = with_argument(line, summary);
    with_argument(line, from_option(alloc))
}

/// Returns the command `save`.
fn save_line<'a>(alloc: Global) -> Result<Command<'a>, AllocError>
    ensures { IfOk result (λ line. app_of line ≡ save_line) }
{
    let line = Command::new(alloc, "save")
        .about("Writes the state after the event lines or the journal on standard input")
        .after_help(
            "Example: drf save < monday.jsonl > monday.state, then drf run --from monday.state < tuesday.jsonl",
        )
        .arg(flag(
            alloc,
            "epoch",
            "Ends all offers, and begins the counts of offers and events again; needed when the history is full",
        ));
    with_argument(line, from_option(alloc))
}

/// Returns the command `lint`.
fn lint_line<'a>(alloc: Global) -> Result<Command<'a>, AllocError>
    ensures { IfOk result (λ line. app_of line ≡ lint_line) }
{
    Command::new(alloc, "lint")
        .about(
            "Reports each line of standard input that is not an event, what is wrong with it, and where; the exit status is then 3",
        )
        .after_help("Example: drf lint < examples/day.jsonl")
        .arg(flag(
            alloc,
            "write",
            "Writes each event in its normal form to standard output, and reports the other lines on standard error",
        ))
}

/// Returns the arguments `FILE..` of `drive`.
fn file_arguments<'a>(alloc: Global) -> Arg<'a>
    ensures rule { rule_of result ≡ file_arguments }
    ensures local { result.global ≡ false }
{
    Arg::new(alloc, "FILE")
        .help("Files of event lines, 1 to 64")
        .required(true)
        .num_args(1..=MOST_FILES)
        .action(ArgAction::Append)
}

/// Returns the command `drive`.
fn drive_line<'a>(alloc: Global) -> Result<Command<'a>, AllocError>
    ensures { IfOk result (λ line. app_of line ≡ drive_line) }
{
    let line = Command::new(alloc, "drive")
        .about(
            "Runs files of event lines concurrently, each on a thread of its own, and writes the journal",
        )
        .after_help("Example: drf drive examples/first.jsonl examples/teams.jsonl | drf check")
        .arg(from_option(alloc));
    with_argument(line, file_arguments(alloc))
}

/// Returns the whole command line.
pub(crate) fn drf_line<'a>(alloc: Global) -> Result<Command<'a>, AllocError>
    ensures { IfOk result (λ line. app_of line ≡ drf_line) }
{
    let top = top_line(alloc).after_help(
        "The script ./drf has one more command: serve, which starts the service (HTTP, web page).",
    );
    let line = with_command(Ok(top), run_line(alloc));
    let line = with_command(line, check_line(alloc));
    let line = with_command(line, audit_line(alloc));
    let line = with_command(line, show_line(alloc));
    let line = with_command(line, explain_line(alloc));
    let line = with_command(line, save_line(alloc));
    let line = with_command(line, lint_line(alloc));
    with_command(line, drive_line(alloc))
}
