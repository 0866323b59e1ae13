//! Updates what roles consume when the rows change, if it is known. Releasing needs no memory.
#![tactic(auto)]

ghost use Rattle.std.specs.Prelude.{◌≡◌, ◌+◌, ◌<◌, ◌≤◌, ◌^◌, Bool, IfSome, Some, is_some, map, OnOk, OnErr, if◌then◌else◌};
ghost use Rattle.drf_role.specs.Text.{Text};
ghost use Rattle.drf_role.specs.Path.{Path, same_path};
ghost use Rattle.drf_rows.specs.Quota.{unreserved_in, reserved_in};
ghost use Rattle.drf_gates.specs.quota.Allowance.{used_by, used_where};
ghost use Rattle.drf_tables.specs.Inside.{agent_row};
ghost use Rattle.drf_tables.specs.limits.Recounting.{IsRaisedIf, reserved_at};

use crate::registry::Registry;
use crate::tables::Agent;
use drf_bundle::Bundle;
use drf_gates::{Consumption, QuotaLimits};
use drf_role::{Name, Role};
use std::alloc::AllocError;

/// Follows a change of the limit of a role. It needs no memory.
pub(crate) fn follow_limit(consumption: &mut Option<Consumption>, limits: &QuotaLimits, role: &Role)
    ensures { consumption.new ≡ consumption.old }
{
    if let Some(counted) = consumption {
        counted.follow(limits, role);
    }
}

/// Subtracts a bundle that a client of the role no longer holds. It needs no memory.
pub(crate) fn release_held(consumption: &mut Option<Consumption>, role: &Role, bundle: &Bundle)
    requires { IfSome consumption.old (λ used. (label : Text) → unreserved_in label bundle.now ≤ used_by used role.now label) }
    ensures counted { is_some consumption.new ≡ is_some consumption.old }
    ensures raised { IsRaisedIf consumption.new consumption.old (λ test label. if test role.now then unreserved_in label bundle.now else 0) }
{
    if let Some(counted) = consumption {
        counted.release_unreserved(role, bundle);
    }
}

/// Subtracts the reserved resources of a bundle that an agent no longer has. It needs no memory.
pub(crate) fn release_total(consumption: &mut Option<Consumption>, total: &Bundle)
    requires { IfSome consumption.old (λ used. (role : Path) (label : Text) → reserved_in (same_path role) label total.now ≤ used_by used role label) }
    ensures counted { is_some consumption.new ≡ is_some consumption.old }
    ensures raised { IsRaisedIf consumption.new consumption.old (λ test label. reserved_in test label total.now) }
{
    if let Some(counted) = consumption {
        counted.release_reserved(total);
    }
}

/// Subtracts the reserved resources of the total of an agent. It needs no memory.
pub(crate) fn release_agent(
    consumption: &mut Option<Consumption>,
    agents: &Registry<Agent>,
    name: &Name,
)
    requires { IfSome consumption.old (λ used. (role : Path) (label : Text)
        → reserved_at (map agent_row agents.now.entries) name.now (same_path role) label ≤ used_by used role label) }
    ensures counted { is_some consumption.new ≡ is_some consumption.old }
    ensures raised { IsRaisedIf consumption.new consumption.old (reserved_at (map agent_row agents.now.entries) name.now) }
{
    let Some(agent) = agents.get(name) else {
        return;
    };
    release_total(consumption, &agent.total);
}

/// Adds the reserved resources of a bundle that an agent gets. If memory runs out, what roles consume does not change.
pub(crate) fn consume_total(
    consumption: &mut Option<Consumption>,
    total: &Bundle,
) -> Result<(), AllocError>
    requires { IfSome consumption.old (λ used. (test : Path → Bool) (label : Text)
        → used_where test used label + reserved_in test label total.now < 2 ^ 64) }
    ensures ok { OnOk result (IsRaisedIf consumption.old consumption.new (λ test label. reserved_in test label total.now)) }
    ensures err { OnErr result (IsRaisedIf consumption.old consumption.new (λ _ _. 0)) }
    ensures counted { is_some consumption.new ≡ is_some consumption.old }
{
    match consumption {
        Some(counted) => counted.consume_reserved(total),
        None => Ok(()),
    }
}

/// Adds the reserved resources of a bundle that an agent gets. If memory runs out, what roles consume becomes unknown.
pub(crate) fn recount_total(consumption: &mut Option<Consumption>, total: &Bundle)
    requires { IfSome consumption.old (λ used. (test : Path → Bool) (label : Text)
        → used_where test used label + reserved_in test label total.now < 2 ^ 64) }
    ensures { IfSome consumption.new (λ after. IsRaisedIf consumption.old (Some after) (λ test label. reserved_in test label total.now)) }
{
    if consume_total(consumption, total).is_err() {
        *consumption = None;
    }
}
