//! Late refusals: those of `reserve`, `unreserve` and `set_agent` that depend on free, held or consumed resources, and
//! the cases after these. Deciding them can need memory.
ghost use Rattle.std.specs.Prelude.{◌≡◌, ◌++◌, ◌≤◌, true, length, Some, None, IfOk};
ghost use Rattle.drf_bundle.specs.Bundle.{is_unreserved};
ghost use Rattle.drf_rows.specs.Consistent.{IsConsistent};
ghost use Rattle.drf_rows.specs.Members.{has_agent};
ghost use Rattle.drf_rows.specs.Step.{first_case};
ghost use Rattle.drf_rows.specs.Totals.{is_not_free};
ghost use Rattle.drf_laws.specs.Kept.{AreFew};
ghost use Rattle.drf_core.specs.refusal.Cases.{cases_of_names, cases_of_reserved, cases_of_total, cases_of_unreserved, early_refusal_of, late_cases_of};

use crate::refusal::first_case;
use drf_amount::Algebra;
use drf_bundle::Bundle;
use drf_role::{Name, Role};
use drf_rows::{Event, Limits, Refusal};
use drf_tables::{Tables, is_too_large};
use std::alloc::AllocError;

/// Returns whether the agent is registered and its free resources do not cover these.
fn is_not_free(tables: &Tables, agent: &Name, resources: &Bundle) -> Result<bool, AllocError>
    ensures { IfOk result (λ lacks. lacks ≡ is_not_free tables.now.rows agent.now resources.now) }
{
    match tables.free_on(agent)? {
        Some(free) => Ok(!free.covers(resources)),
        None => Ok(false),
    }
}

/// Returns the late refusal of a `reserve`, if there is one: the resources are not free, or a limit does not admit them.
fn refuse_reserved(
    tables: &mut Tables,
    agent: &Name,
    role: &Role,
    resources: &Bundle,
) -> Result<Option<Refusal>, AllocError>
    requires { length tables.old.rows.agents ≤ 4096 }
    ensures value { IfOk result (λ refusal. refusal ≡ first_case (cases_of_reserved tables.old.rows agent.now role.now resources.now)) }
    ensures same { tables.new.rows ≡ tables.old.rows }
{
    tables.count_consumption()?;
    let lacks = is_not_free(tables, agent, resources)?;
    let amounts = resources.quantities();
    Ok(first_case(&[
        (lacks, Refusal::NotCovered),
        (!tables.admits(role, amounts), Refusal::OverLimit),
    ]))
}

/// Returns the late refusal of an `unreserve`, if there is one: the reserved resources are not free.
fn refuse_unreserved(
    tables: &Tables,
    agent: &Name,
    role: &Role,
    resources: &Bundle,
) -> Result<Option<Refusal>, AllocError>
    requires { is_unreserved resources.now ≡ true }
    ensures { IfOk result (λ refusal. refusal ≡ first_case (cases_of_unreserved tables.now.rows agent.now role.now resources.now)) }
{
    let reserved = resources.relabel(role)?;
    let lacks = is_not_free(tables, agent, &reserved)?;
    Ok(first_case(&[(lacks, Refusal::NotCovered)]))
}

/// Returns why a registered agent cannot have a total: it does not cover the held resources, or it is too large.
fn refuse_total(
    tables: &Tables,
    agent: &Name,
    total: &Bundle,
) -> Result<Option<Refusal>, AllocError>
    requires known { has_agent tables.now.rows agent.now ≡ true }
    requires consistent { IsConsistent tables.now.rows }
    ensures { IfOk result (λ refusal. refusal ≡ first_case (cases_of_total tables.now.rows agent.now total.now)) }
{
    let held = tables.held_on(agent)?;
    Ok(first_case(&[
        (!total.covers(&held), Refusal::NotCovered),
        (is_too_large(total), Refusal::TooLarge),
    ]))
}

/// Returns why a registered agent cannot have a total that `refuse_total` allows: the scalars of all agents would have too many
/// names.
fn refuse_names(
    limits: &Limits,
    tables: &Tables,
    agent: &Name,
    total: &Bundle,
) -> Result<Option<Refusal>, AllocError>
    requires known { has_agent tables.now.rows agent.now ≡ true }
    requires consistent { IsConsistent tables.now.rows }
    requires right { first_case (cases_of_total tables.now.rows agent.now total.now) ≡ None }
    ensures { IfOk result (λ refusal. refusal ≡ first_case (cases_of_names limits.now tables.now.rows agent.now total.now)) }
{
    let others = tables.total_without(agent)?;
    let names = others.count_with(total.quantities());
    Ok(first_case(&[(limits.scalar_names() < names, Refusal::TooMany)]))
}

/// Returns the late refusal of a `set_agent`, if there is one.
fn refuse_other_total(
    limits: &Limits,
    tables: &Tables,
    agent: &Name,
    total: &Bundle,
) -> Result<Option<Refusal>, AllocError>
    requires known { has_agent tables.now.rows agent.now ≡ true }
    requires consistent { IsConsistent tables.now.rows }
    ensures { IfOk result (λ refusal. refusal ≡ first_case (cases_of_total tables.now.rows agent.now total.now ++ cases_of_names limits.now tables.now.rows agent.now total.now)) }
{
    match refuse_total(tables, agent, total)? {
        Some(refusal) => Ok(Some(refusal)),
        None => refuse_names(limits, tables, agent, total),
    }
}

/// Returns the late refusal of an event, if there is one.
pub(crate) fn refuse_late(
    limits: &Limits,
    tables: &mut Tables,
    event: &Event,
) -> Result<Option<Refusal>, AllocError>
    requires few { AreFew limits.now tables.old.rows }
    requires consistent { IsConsistent tables.old.rows }
    requires early { early_refusal_of limits.now tables.old.rows event.now ≡ None }
    ensures value { IfOk result (λ refusal. refusal ≡ first_case (late_cases_of limits.now tables.old.rows event.now)) }
    ensures same { tables.new.rows ≡ tables.old.rows }
{
    match event {
        Event::SetAgent { agent, total } => refuse_other_total(limits, tables, agent, total),
        Event::Reserve {
            agent,
            role,
            resources,
        } => refuse_reserved(tables, agent, role, resources),
        Event::Unreserve {
            agent,
            role,
            resources,
        } => refuse_unreserved(tables, agent, role, resources),
        _ => Ok(None),
    }
}
