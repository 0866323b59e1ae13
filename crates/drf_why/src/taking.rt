//! Which clients are granted a part of what another client could have been granted (`specs/Passers`).
ghost use Rattle.std.specs.Prelude.{◌≡◌, [], not};
ghost use Rattle.std.specs.List.{flat_map, list_any};
ghost use Rattle.std.specs.Option.{option_copied, option_map_or, option_to_list};
ghost use Rattle.drf_rows.specs.Offers.{is_empty};
ghost use Rattle.drf_why.specs.Passers.{begins_with_grant, bundle_in, bundle_of, is_in_both, taker_in, takes_of};
ghost use Rattle.drf_why.specs.Places.{findings_of};

use crate::pick::{first_outcome, is_granted};
use drf_bundle::{Bundle, Resource};
use drf_explain::{Finding, Outcome};
use drf_role::ClientPath;

/// Returns whether the resource is not empty, and the bundle has some of the same name and reservation.
fn is_in_both(bundle: &Bundle, resource: &Resource) -> bool
    ensures { result ≡ is_in_both bundle.now resource.now }
{
    match bundle.get(&resource.label, &resource.role) {
        Some(value) => 0 < resource.value.amount() && 0 < value.amount(),
        None => false,
    }
}

/// Returns whether the first bundle has some of a resource that the second bundle has too.
fn takes_of(taken: &Bundle, bundle: &Bundle) -> bool
    ensures { result ≡ takes_of taken.now bundle.now }
{
    let resources = taken.entries();
    resources
        .iter()
        .any(|resource| is_in_both(bundle, resource))
}

/// Returns whether an outcome grants a part of the bundle.
fn is_taking(outcome: &Outcome, bundle: &Bundle) -> bool
    ensures { result ≡ takes_of (bundle_of outcome.now) bundle.now }
{
    match outcome {
        Outcome::Grant(taken) => takes_of(taken, bundle),
        _ => false,
    }
}

/// Returns the client of a finding, if the finding grants it a part of the bundle.
pub(crate) fn taker_in<'a>(finding: &'a Finding, bundle: &Bundle) -> Option<&'a ClientPath>
    ensures { option_to_list (option_copied result) ≡ taker_in bundle.now finding.now }
{
    let Finding::Tried {
        client,
        outcome,
        ..
    } = finding
    else {
        return None;
    };
    if !is_taking(outcome, bundle) {
        return None;
    }
    Some(client)
}

fn is_taker(finding: &Finding, bundle: &Bundle) -> bool
    ensures { result ≡ not (is_empty (taker_in bundle.now finding.now)) }
{
    taker_in(finding, bundle).is_some()
}

fn any_taker(findings: &[&Finding], bundle: &Bundle) -> bool
    ensures { result ≡ list_any (λ finding. not (is_empty (taker_in bundle.now finding.now))) findings.now }
{
    findings.iter().any(|finding| is_taker(finding, bundle))
}

/// Returns whether one of the findings grants a part of the bundle.
pub(crate) fn has_taker(findings: &[&Finding], bundle: &Bundle) -> bool
    ensures { result ≡ not (is_empty (flat_map (taker_in bundle.now) (findings_of findings.now))) }
{
    any_taker(findings, bundle)
}

/// Returns whether the first of the findings is a grant.
pub(crate) fn begins_with_grant(findings: &[Finding]) -> bool
    ensures { result ≡ begins_with_grant findings.now }
{
    match first_outcome(findings) {
        Some(outcome) => is_granted(outcome),
        None => false,
    }
}

/// Returns the bundle that the first of the findings grants, if it is a grant.
pub(crate) fn bundle_in(findings: &[Finding]) -> Option<&Bundle>
    ensures { option_map_or (λ bundle. bundle) (option_copied result) [] ≡ bundle_in findings.now }
{
    match first_outcome(findings) {
        Some(Outcome::Grant(bundle)) => Some(bundle),
        _ => None,
    }
}
