//! The findings of a turn, with an index of clients and grants.
ghost use Rattle.std.specs.Prelude.{◌≡◌, [], filter, IfOk};
ghost use Rattle.std.specs.List.{list_any};
ghost use Rattle.std.specs.Option.{option_copied, option_map_or};
ghost use Rattle.drf_why.specs.Passers.{bundle_in};
ghost use Rattle.drf_why.specs.Pick.{earlier_on, is_grant, is_inactive, is_nothing_free, own_on};
ghost use Rattle.drf_why.specs.Places.{IsFound, findings_of};

use crate::grants::Grants;
use crate::pick::{is_inactive, is_nothing_free, own_at};
use crate::places::Places;
use crate::taking::bundle_in;
use drf_bundle::Bundle;
use drf_explain::{Finding, TurnReported};
use drf_hash::HashKey;
use drf_role::ClientPath;
use std::alloc::{AllocError, Global};

/// The findings of a turn, the index of each client, and the grants.
#[derive(Drop)]
pub(crate) struct FoundTurn<'a> {
    pub(crate) turn: &'a TurnReported,
    pub(crate) reported: Places,
    pub(crate) untouched: Places,
    pub(crate) grants: Grants<'a>,
    pub(crate) inactive: bool,
    pub(crate) nothing_free: bool,
}

fn has_inactive(findings: &[Finding]) -> bool
    ensures { result ≡ list_any is_inactive findings.now }
{
    findings.iter().any(|finding| is_inactive(finding))
}

fn has_nothing_free(findings: &[Finding]) -> bool
    ensures { result ≡ list_any is_nothing_free findings.now }
{
    findings.iter().any(|finding| is_nothing_free(finding))
}

impl<'a> FoundTurn<'a> {
    /// Builds the index. Each finding is looked at once.
    pub(crate) fn of(
        alloc: Global,
        key: HashKey,
        turn: &'a TurnReported,
    ) -> Result<FoundTurn<'a>, AllocError>
        ensures found { IfOk result IsFound }
        ensures turn { IfOk result (λ found. found.turn.now ≡ turn.now) }
    {
        let reported = turn.reported.as_slice();
        let places = Places::of(alloc, key, reported)?;
        let untouched = Places::of(alloc, key, turn.untouched.as_slice())?;
        let grants = Grants::of(alloc, reported)?;
        Ok(FoundTurn {
            turn,
            reported: places,
            untouched,
            grants,
            inactive: has_inactive(reported),
            nothing_free: has_nothing_free(reported),
        })
    }

    /// Returns the client's first finding in the turn, or an empty slice.
    pub(crate) fn own(&self, client: &ClientPath) -> &[Finding]
        requires { IsFound self.now }
        ensures { result.now ≡ own_on client.now self.now.turn.now.reported.items }
    {
        own_at(self.turn.reported.as_slice(), self.reported.get(client))
    }

    /// Returns the grants before the client's first finding.
    pub(crate) fn grants_before(&self, client: &ClientPath) -> &[&'a Finding]
        requires { IsFound self.now }
        ensures { findings_of result.now ≡ filter is_grant (earlier_on client.now self.now.turn.now.reported.items) }
    {
        let all = self.grants.all.as_slice();
        let Some(place) = self.reported.get(client) else {
            return &all[..0];
        };
        let before = self.grants.before[place];
        &all[..before]
    }

    /// Returns what a client would be granted if it were tried first, if that is anything.
    pub(crate) fn first_bundle(&self, client: &ClientPath) -> Option<&Bundle>
        requires { IsFound self.now }
        ensures { option_map_or (λ bundle. bundle) (option_copied result) [] ≡ bundle_in (own_on client.now self.now.turn.now.untouched.items) }
    {
        let own = own_at(self.turn.untouched.as_slice(), self.untouched.get(client));
        bundle_in(own)
    }
}
