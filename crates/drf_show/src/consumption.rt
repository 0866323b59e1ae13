//! The consumption of roles, computed from rows, and the lines of their limits.
ghost use Rattle.std.specs.Prelude.{◌≡◌, ◌+◌, ◌<◌, ◌^◌, [], Bool, map, IfOk, OnOk};
ghost use Rattle.drf_role.specs.Text.{Text};
ghost use Rattle.drf_role.specs.Path.{Path};
ghost use Rattle.drf_rows.specs.Holdings.{holding_of_offer, holding_of_task};
ghost use Rattle.drf_rows.specs.Quota.{consumption_where, held_unreserved, reserved_for};
ghost use Rattle.drf_gates.specs.quota.Allowance.{IsConsumptionOf, IsRaisedBy, used_where};
ghost use Rattle.drf_show.specs.Consuming.{limit_line_by, used_of};
ghost use Rattle.drf_show.specs.Shown.{limit_lines};

use crate::limits::LimitLine;
use drf_bundle::Quantities;
use drf_gates::{Consumption, QuotaLimits};
use drf_hash::HashKey;
use drf_role::Role;
use drf_rows::{AgentRow, LimitRow, OfferRow, Rows, TaskRow};
use std::alloc::{AllocError, Global};

/// Returns an empty consumption, which will have totals for the roles that have a limit.
fn none_under(alloc: Global, key: HashKey, limits: &[LimitRow]) -> Result<Consumption, AllocError>
    ensures { IfOk result (λ consumption. consumption ≡ []) }
{
    let mut kept = QuotaLimits::new(alloc, key);
    for row in limits {
        kept.set(&row.role, row.limit.copy()?)?;
    }
    Ok(Consumption::new(alloc, &kept))
}

/// Adds what offers consume.
fn consume_offers(consumption: &mut Consumption, offers: &[OfferRow]) -> Result<(), AllocError>
    requires { (test : Path → Bool) (label : Text)
        → used_where test consumption.old label + held_unreserved test (map holding_of_offer offers.now) label < 2 ^ 64 }
    ensures { OnOk result (IsRaisedBy consumption.old consumption.new (λ test label. held_unreserved test (map holding_of_offer offers.now) label)) }
{
    for offer in offers {
        consumption.consume_unreserved(&offer.role, &offer.bundle)?;
    }
    Ok(())
}

/// Adds what tasks consume.
fn consume_tasks(consumption: &mut Consumption, tasks: &[TaskRow]) -> Result<(), AllocError>
    requires { (test : Path → Bool) (label : Text)
        → used_where test consumption.old label + held_unreserved test (map holding_of_task tasks.now) label < 2 ^ 64 }
    ensures { OnOk result (IsRaisedBy consumption.old consumption.new (λ test label. held_unreserved test (map holding_of_task tasks.now) label)) }
{
    for task in tasks {
        consumption.consume_unreserved(&task.role, &task.bundle)?;
    }
    Ok(())
}

/// Adds what agents have reserved for roles.
fn consume_agents(consumption: &mut Consumption, agents: &[AgentRow]) -> Result<(), AllocError>
    requires { (test : Path → Bool) (label : Text)
        → used_where test consumption.old label + reserved_for test agents.now label < 2 ^ 64 }
    ensures { OnOk result (IsRaisedBy consumption.old consumption.new (λ test label. reserved_for test agents.now label)) }
{
    for agent in agents {
        consumption.consume_reserved(&agent.total)?;
    }
    Ok(())
}

/// Returns the consumption of all roles that have a limit.
fn consumption_of(alloc: Global, key: HashKey, rows: &Rows) -> Result<Consumption, AllocError>
    requires { (test : Path → Bool) (label : Text) → consumption_where test rows.now label < 2 ^ 64 }
    ensures { IfOk result (IsConsumptionOf rows.now) }
{
    let mut consumption = none_under(alloc, key, rows.limits.as_slice())?;
    consume_offers(&mut consumption, rows.offers.as_slice())?;
    consume_tasks(&mut consumption, rows.tasks.as_slice())?;
    consume_agents(&mut consumption, rows.agents.as_slice())?;
    Ok(consumption)
}

/// Returns what a role consumes of the scalars that its limit names.
fn consumed(
    alloc: Global,
    consumption: &Consumption,
    role: &Role,
    limit: &Quantities,
) -> Result<Quantities, AllocError>
    ensures { IfOk result (λ amounts. amounts ≡ used_of consumption.now role.now limit.now) }
{
    let mut amounts = Quantities::empty(alloc);
    let entries = limit.entries();
    for entry in entries {
        let amount = consumption.amount(role, entry.label.text());
        amounts.set(entry.label.copy()?, amount)?;
    }
    Ok(amounts)
}

fn limit_line(
    alloc: Global,
    consumption: &Consumption,
    row: &LimitRow,
) -> Result<LimitLine, AllocError>
    ensures { IfOk result (λ line. line ≡ limit_line_by consumption.now row.now) }
{
    Ok(LimitLine {
        role: row.role.copy()?,
        limit: row.limit.copy()?,
        consumed: consumed(alloc, consumption, &row.role, &row.limit)?,
    })
}

/// Returns the lines of limits, given the consumption.
fn lines_under(
    alloc: Global,
    consumption: &Consumption,
    limits: &[LimitRow],
) -> Result<Vec<LimitLine>, AllocError>
    ensures { IfOk result (λ lines. lines.items ≡ map (limit_line_by consumption.now) limits.now) }
{
    let mut lines = Vec::with_capacity(alloc, limits.len())?;
    for row in limits {
        lines.push(limit_line(alloc, consumption, row)?)?;
    }
    Ok(lines)
}

/// Returns a line for each limit.
pub(crate) fn limit_lines(
    alloc: Global,
    key: HashKey,
    rows: &Rows,
) -> Result<Vec<LimitLine>, AllocError>
    requires { (test : Path → Bool) (label : Text) → consumption_where test rows.now label < 2 ^ 64 }
    ensures { IfOk result (λ lines. lines.items ≡ limit_lines rows.now) }
{
    let consumption = consumption_of(alloc, key, rows)?;
    lines_under(alloc, &consumption, rows.limits.as_slice())
}
