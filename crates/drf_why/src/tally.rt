//! The outcomes of each client, counted over the agents.
ghost use Rattle.std.specs.Prelude.{◌≡◌, codes, map, List, [], ◌∷◌, ◌++◌, IfOk, OnOk};
ghost use Rattle.std.specs.List.{flat_map};
ghost use Rattle.std.specs.Option.{option_copied, option_map_or};
ghost use Rattle.drf_rows.specs.Client.{path_of};
ghost use Rattle.drf_rows.specs.declared.rows.Rows.{Rows};
ghost use Rattle.drf_rows.specs.Held.{client_of, active_clients};
ghost use Rattle.drf_role.specs.Parts.{text_of};
ghost use Rattle.serde_json.specs.Data.{number, put as with_member, string, unsigned};
ghost use Rattle.serde_json.specs.View.{members_view, view};
ghost use Rattle.drf_why.specs.Passers.{Turn, one_more, passers_by};
ghost use Rattle.drf_why.specs.Places.{IsFound, findings_of, turn_of};
ghost use Rattle.drf_why.specs.Shares.{AreSharesIn};
ghost use Rattle.drf_why.specs.Tally.{active_in, active_one, more_if, tally_lines, tally_of, tally_text, tally_value, tallies_of, with_counts, with_outcome, with_passed, with_turn};

use crate::passer::Passers;
use crate::passer_line::write_passers;
use crate::pick::first_outcome;
use crate::shares::Shares;
use crate::taking::{begins_with_grant, has_taker};
use crate::turn::FoundTurn;
use drf_bundle::Bundle;
use drf_explain::{Finding, Outcome, TurnReported};
use drf_hash::HashKey;
use drf_role::{ClientPath, NodePath};
use drf_rows::{ClientRow, FrameworkRow, Report, Rows};
use serde_json::{Map, Value, json, put};
use std::alloc::{AllocError, Global};

/// The outcomes of a client, counted in agents. No count rises above 2^64 - 1.
#[derive(Drop)]
pub struct Tally {
    pub client: ClientPath,
    /// It is granted something.
    pub granted: u64,
    /// A filter covers what it could have there.
    pub held_back: u64,
    /// A limit leaves too little.
    pub over_limit: u64,
    /// What it could have is less than the smallest offer.
    pub below_threshold: u64,
    /// Everything that was free has been granted.
    pub nothing_left: u64,
    /// Everything that is free is reserved for other roles.
    pub reserved: u64,
    /// The agent is inactive, so no client is tried.
    pub inactive: u64,
    /// Nothing is free on the agent, so no client is tried.
    pub nothing_free: u64,
    /// It is granted nothing, and a client before it is granted a part of what it would be granted if it were tried first.
    pub passed: u64,
    /// The clients that pass it over.
    pub passers: Passers,
}

/// Adds 1, up to 2^64 - 1.
fn raise(count: &mut u64)
    ensures { count.new ≡ one_more count.old }
{
    *count = count.saturating_add(1);
}

/// Adds 1 if `more` is set, up to 2^64 - 1.
fn raise_if(more: bool, count: &mut u64)
    ensures { count.new ≡ more_if more count.old }
{
    if more {
        raise(count);
    }
}

impl Tally {
    /// Returns the tally of a client before any agent is counted.
    fn new(alloc: Global, key: HashKey, client: ClientPath) -> Tally
        ensures { result ≡ tally_of [] client }
    {
        Tally {
            client,
            granted: 0,
            held_back: 0,
            over_limit: 0,
            below_threshold: 0,
            nothing_left: 0,
            reserved: 0,
            inactive: 0,
            nothing_free: 0,
            passed: 0,
            passers: Passers::new(alloc, key),
        }
    }

    /// Counts the outcome of the client on one agent, if the client is tried there.
    fn count_outcome(&mut self, outcome: Option<&Outcome>)
        ensures { self.new ≡ with_outcome (option_copied outcome.entry) self.old }
    {
        let Some(outcome) = outcome else {
            return;
        };
        match outcome {
            Outcome::Grant(_) => raise(&mut self.granted),
            Outcome::HeldBack { .. } => raise(&mut self.held_back),
            Outcome::OverLimit { .. } => raise(&mut self.over_limit),
            Outcome::BelowThreshold => raise(&mut self.below_threshold),
            Outcome::NothingLeft => raise(&mut self.nothing_left),
            Outcome::ReservedForOthers => raise(&mut self.reserved),
        }
    }

    /// Counts the clients that pass this client over on one agent. `own` is the client's own finding there, `earlier` are the grants before it,
    /// and `bundle` is what it would be granted if it were tried first.
    fn count_passers(
        &mut self,
        own: &[Finding],
        earlier: &[&Finding],
        bundle: Option<&Bundle>,
    ) -> Result<(), AllocError>
        ensures { OnOk result (self.new
            ≡ with_passed (passers_by own.now (findings_of earlier.now) (option_map_or (λ b. b) (option_copied bundle.entry) [])) self.old) }
    {
        if begins_with_grant(own) {
            return Ok(());
        }
        let Some(bundle) = bundle else {
            return Ok(());
        };
        raise_if(has_taker(earlier, bundle), &mut self.passed);
        self.passers.count_takers(earlier, bundle)
    }

    /// Counts the client's result in one agent's turn.
    fn take(&mut self, turn: &FoundTurn) -> Result<(), AllocError>
        requires { IsFound turn.now }
        ensures { OnOk result (self.new ≡ with_turn (turn_of turn.now) self.old) }
    {
        let own = turn.own(&self.client);
        let earlier = turn.grants_before(&self.client);
        let bundle = turn.first_bundle(&self.client);
        self.count_outcome(first_outcome(own));
        raise_if(turn.inactive, &mut self.inactive);
        raise_if(turn.nothing_free, &mut self.nothing_free);
        self.count_passers(own, earlier, bundle)?;
        Ok(())
    }
}

/// Counts a turn in each tally.
fn take_in_each(tallies: &mut [Tally], turn: &FoundTurn) -> Result<(), AllocError>
    requires { IsFound turn.now }
    ensures { OnOk result (tallies.new ≡ map (with_turn (turn_of turn.now)) tallies.old) }
{
    for tally in tallies.iter_mut() {
        tally.take(turn)?;
    }
    Ok(())
}

/// Counts a turn in each tally. Clients are found by hashes that begin with `key`. Returns an error if memory runs out.
pub fn take_turn(tallies: &mut [Tally], key: HashKey, turn: &TurnReported) -> Result<(), AllocError>
    ensures { OnOk result ((rows : Rows) (turns : List Turn) → tallies.old ≡ tallies_of rows turns
        → tallies.new ≡ tallies_of rows (turns ++ (turn.now.reported.items, turn.now.untouched.items) ∷ [])) }
{
    let found = FoundTurn::of(*turn.reported.allocator(), key, turn)?;
    take_in_each(tallies, &found)?;
    Ok(())
}

/// Adds the tally of a client of a framework, unless the client is suppressed.
fn add_tally(
    alloc: Global,
    key: HashKey,
    framework: &FrameworkRow,
    client: &ClientRow,
    tallies: &mut Vec<Tally>,
) -> Result<(), AllocError>
    ensures { OnOk result (tallies.new.items ≡ tallies.old.items ++ map (λ c. tally_of [] (path_of c)) (active_one framework.now client.now)) }
{
    if !client.suppressed {
        let client = ClientPath::new(alloc, &client.role, &framework.name)?;
        tallies.push(Tally::new(alloc, key, client))?;
    }
    Ok(())
}

/// Adds the tallies of those clients of a framework that are not suppressed, in their order.
fn add_tallies(
    alloc: Global,
    key: HashKey,
    framework: &FrameworkRow,
    tallies: &mut Vec<Tally>,
) -> Result<(), AllocError>
    ensures { OnOk result (tallies.new.items ≡ tallies.old.items ++ map (λ c. tally_of [] (path_of c)) (active_in framework.now)) }
{
    let clients = framework.clients.as_slice();
    for client in clients {
        add_tally(alloc, key, framework, client, tallies)?;
    }
    Ok(())
}

/// Returns empty tallies of all clients that are not suppressed, in order of registration.
pub fn tallies(alloc: Global, key: HashKey, rows: &Rows) -> Result<Vec<Tally>, AllocError>
    ensures { IfOk result (λ tallies. tallies.items ≡ tallies_of rows.now []) }
{
    let mut tallies = Vec::new(alloc);
    let frameworks = rows.frameworks.as_slice();
    for framework in frameworks {
        add_tallies(alloc, key, framework, &mut tallies)?;
    }
    Ok(tallies)
}

/// Adds a member with a number to a JSON object.
fn put_count(
    alloc: Global,
    members: &mut Map<String, Value>,
    name: &str,
    count: u64,
) -> Result<(), AllocError>
    ensures { OnOk result (members_view members.new.entries ≡ with_member name.now (number (unsigned count)) (members_view members.old.entries)) }
{
    let count = json!(in alloc; (count))?;
    put(members, alloc, name, count)
}

/// Adds the counts of a tally to a JSON object.
fn put_counts(
    alloc: Global,
    members: &mut Map<String, Value>,
    tally: &Tally,
) -> Result<(), AllocError>
    ensures { OnOk result (members_view members.new.entries ≡ with_counts tally.now (members_view members.old.entries)) }
{
    put_count(alloc, members, "BelowThreshold", tally.below_threshold)?;
    put_count(alloc, members, "Grant", tally.granted)?;
    put_count(alloc, members, "HeldBack", tally.held_back)?;
    put_count(alloc, members, "Inactive", tally.inactive)?;
    put_count(alloc, members, "NothingFree", tally.nothing_free)?;
    put_count(alloc, members, "NothingLeft", tally.nothing_left)?;
    put_count(alloc, members, "OverLimit", tally.over_limit)?;
    put_count(alloc, members, "ReservedForOthers", tally.reserved)?;
    put_count(alloc, members, "passed", tally.passed)?;
    Ok(())
}

/// Adds the client of a tally to a JSON object.
fn put_client(
    alloc: Global,
    members: &mut Map<String, Value>,
    client: &ClientPath,
) -> Result<(), AllocError>
    ensures { OnOk result (members_view members.new.entries ≡ with_member (codes "client") (string (text_of client.now)) (members_view members.old.entries)) }
{
    let node = client.node(client.len())?;
    let text = json!(in alloc; (node.text()))?;
    put(members, alloc, "client", text)
}

fn tally_value(alloc: Global, tally: &Tally) -> Result<Value, AllocError>
    ensures { IfOk result (λ value. view value ≡ tally_value tally.now) }
{
    let mut members = Map::new(alloc);
    put_counts(alloc, &mut members, tally)?;
    put_client(alloc, &mut members, &tally.client)?;
    Ok(Value::Object(members))
}

fn tally_line(alloc: Global, tally: &Tally) -> Result<Vec<u8>, AllocError>
    ensures { IfOk result (λ text. text.items ≡ tally_text tally.now) }
{
    let value = tally_value(alloc, tally)?;
    let mut text = value.to_vec(alloc)?;
    text.push(b'\n')?;
    Ok(text)
}

fn write_tally(
    alloc: Global,
    shares: &Shares,
    tally: &Tally,
    text: &mut Vec<u8>,
) -> Result<(), AllocError>
    requires { AreSharesIn shares.now }
    ensures { OnOk result (text.new.items ≡ text.old.items ++ tally_lines shares.now.report.now tally.now) }
{
    let line = tally_line(alloc, tally)?;
    text.extend_from_slice(&line)?;
    write_passers(alloc, shares, &tally.client, &tally.passers, text)
}

fn write_each(
    alloc: Global,
    shares: &Shares,
    tallies: &[Tally],
    text: &mut Vec<u8>,
) -> Result<(), AllocError>
    requires { AreSharesIn shares.now }
    ensures { OnOk result (text.new.items ≡ text.old.items ++ flat_map (tally_lines shares.now.report.now) tallies.now) }
{
    for tally in tallies {
        write_tally(alloc, shares, tally, text)?;
    }
    Ok(())
}

/// Appends a line of compact JSON for each tally, with keys in byte order, followed by the lines of the clients that pass that client over.
/// The shares are those of the report, not those of the turn in which a client is passed over.
pub fn write_tallies(
    alloc: Global,
    key: HashKey,
    report: &Report,
    tallies: &[Tally],
    text: &mut Vec<u8>,
) -> Result<(), AllocError>
    ensures { OnOk result (text.new.items ≡ text.old.items ++ flat_map (tally_lines report.now) tallies.now) }
{
    let shares = Shares::of(alloc, key, report)?;
    write_each(alloc, &shares, tallies, text)?;
    Ok(())
}
