//! What the arguments of a command ask for.
ghost use Rattle.std.specs.Prelude.{◌≡◌, [], map, take, unwrap_or, option_map, codes};
ghost use Rattle.clap.specs.Words.{all_of, found_of, rows_of};
ghost use Rattle.drf_app.specs.Line.{asked_by, asked_for, asked_of_client, name_of, IsCommand, SaysTimestamp, SaysRequest, SaysScope, SaysTask};

use crate::arguments::flag_of;
use crate::line::MOST_FILES;
use clap::ArgMatches;
use drf_rows::LATEST_TIMESTAMP;
use drf_why::Whom;

/// Which clients and agents `explain` writes about.
#[derive(Clone, Copy)]
pub enum Scope<'a> {
    /// The clients on each agent, in order, as long as enough is left to offer.
    Short,
    /// Each client on each agent, or those that the arguments name.
    Each(Whom<'a>),
    /// A summary for each client.
    Summary,
    /// The arguments ask for several of these, which is an error.
    Several,
}

/// What a command does. `drive` is not a task: its threads wait for each other.
#[derive(Clone, Copy)]
pub enum Task<'a> {
    /// Replies to event lines; with `echo`, writes each line as it was read before its reply; with `ask`, answers questions.
    Run { echo: bool, ask: bool },
    /// Verifies a journal.
    Check,
    /// Prints the total and the free resources of each agent after the events.
    Audit,
    /// Says what the cycle at a time (milliseconds) would offer after the events, and why it would offer nothing. The clock never goes back: 0 means
    /// its current time.
    Explain { at: u64, scope: Scope<'a> },
    /// Writes the state after the events; with `epoch`, without offers and with counts restarted.
    Save { epoch: bool },
    /// Shows the state after the events as tables; with `json`, as lines for programs.
    Show { json: bool },
    /// Reports what is wrong with lines that are not events; with `write`, writes the events in their written form.
    Lint { write: bool },
}

/// What the arguments ask for.
#[derive(Clone, Copy)]
pub struct Request<'a> {
    pub task: Task<'a>,
    /// The file with the state that the task starts from; without it the cluster is empty.
    pub from: Option<&'a str>,
}

/// Returns the value of `--at` (milliseconds), at most the latest timestamp; 0 without it.
fn timestamp_of(explain: &ArgMatches) -> u64
    ensures { SaysTimestamp (rows_of (found_of explain.now)) result }
{
    match explain.get_one::<u64>("at") {
        Some(at) => at.min(LATEST_TIMESTAMP),
        None => 0,
    }
}

/// Returns the scope that the two values of `--client` name.
fn client_scope<'a>(client: &[&'a str]) -> Scope<'a>
    ensures { asked_for result ≡ asked_of_client (map (λ text. text.now) client.now) }
{
    let [framework, role] = client else {
        return Scope::Several;
    };
    Scope::Each(Whom::Client { framework, role })
}

/// Returns the scope for these options, of which only one may be given beside `--each`.
fn scope_by<'a>(
    each: bool,
    summary: bool,
    agent: Option<&'a str>,
    client: Option<&[&'a str]>,
) -> Scope<'a>
    ensures { asked_for result
        ≡ asked_by each summary (option_map (λ name. name.now) agent.entry) (option_map (λ texts. map (λ text. text.now) texts.now) client.entry) }
{
    match (summary, agent, client) {
        (false, None, None) if each => Scope::Each(Whom::All),
        (false, None, None) => Scope::Short,
        (true, None, None) => Scope::Summary,
        (false, Some(name), None) => Scope::Each(Whom::Agent(name)),
        (false, None, Some(client)) => client_scope(client),
        _ => Scope::Several,
    }
}

/// Returns the scope that the arguments of `explain` ask for.
fn scope_of<'a>(explain: &ArgMatches<'a>) -> Scope<'a>
    ensures { SaysScope (rows_of (found_of explain.now)) result }
{
    let each = flag_of(explain, "each");
    let summary = flag_of(explain, "summary");
    let agent = explain.get_str("agent");
    let client = explain.get_strs("client");
    scope_by(each, summary, agent, client)
}

/// Returns the task of a command, by its name and its arguments.
fn task_of<'a>(name: &str, command: &ArgMatches<'a>) -> Task<'a>
    requires command { IsCommand name.now }
    requires task { ¬ (name.now ≡ codes "drive") }
    ensures name { name.now ≡ name_of result }
    ensures says { SaysTask (rows_of (found_of command.now)) result }
{
    if name == "run" {
        let echo = flag_of(command, "echo");
        let ask = flag_of(command, "ask");
        return Task::Run { echo, ask };
    }
    if name == "check" {
        return Task::Check;
    }
    if name == "audit" {
        return Task::Audit;
    }
    if name == "explain" {
        let at = timestamp_of(command);
        let scope = scope_of(command);
        return Task::Explain { at, scope };
    }
    if name == "save" {
        let epoch = flag_of(command, "epoch");
        return Task::Save { epoch };
    }
    if name == "show" {
        let json = flag_of(command, "json");
        return Task::Show { json };
    }
    let write = flag_of(command, "write");
    Task::Lint { write }
}

/// Returns the request of a command, by its name and its arguments.
pub(crate) fn request_of<'a>(name: &str, command: &ArgMatches<'a>) -> Request<'a>
    requires command { IsCommand name.now }
    requires task { ¬ (name.now ≡ codes "drive") }
    ensures name { name.now ≡ name_of result.task }
    ensures says { SaysRequest (rows_of (found_of command.now)) result }
{
    let task = task_of(name, command);
    let from = command.get_str("from");
    Request { task, from }
}

/// Returns the first 64 of some names.
fn first_names<'m, 'a>(names: &'m [&'a str]) -> &'m [&'a str]
    ensures { result.now ≡ take 64 names.now }
{
    &names[..names.len().min(MOST_FILES)]
}

/// Returns the files that the arguments of `drive` name, at most 64.
pub(crate) fn files_of<'m, 'a>(drive: &'m ArgMatches<'a>) -> &'m [&'a str]
    ensures { map (λ name. name.now) result.now ≡ take 64 (unwrap_or (all_of (codes "FILE") (rows_of (found_of drive.now))) []) }
{
    first_names(drive.get_strs("FILE").unwrap_or_default())
}
