//! What is asked of filters one by one, and which of a list with gaps are kept.
ghost use Rattle.std.specs.Prelude.{◌≡◌, ◌≤◌, [], ◌∷◌, ◌++◌, count_by, map, not, Some, OnOk};
ghost use Rattle.drf_role.specs.Text.{same_text};
ghost use Rattle.drf_rows.specs.declared.rows.FilterRow.{FilterRow};
ghost use Rattle.drf_bundle.specs.Bundle.{covers};
ghost use Rattle.drf_gates.specs.filters.Index.{NoneEndsBefore};
ghost use Rattle.drf_hash.specs.Slots.{filled};
ghost use Rattle.drf_gates.specs.filters.Slots.{slot_passes};
ghost use Rattle.drf_rows.specs.Filters.{is_in_force, is_of_client, is_on_agent, holds_back, in_force};
ghost use Rattle.drf_rows.specs.Roles.{is_of_left};

use drf_amount::Algebra;
use drf_bundle::Bundle;
use drf_role::{Name, Role};
use drf_rows::{Copied, FilterRow, is_among};
use std::alloc::AllocError;

/// Whether the first bundle has all that the second has.
fn covers(whole: &Bundle, part: &Bundle) -> bool
    ensures { result ≡ covers whole.now part.now }
{
    whole.covers(part)
}

/// Whether the filter's end is still to come.
fn is_in_force(row: &FilterRow, now: u64) -> bool
    ensures { result ≡ is_in_force now row.now }
{
    now < row.until
}

/// Whether there is a filter whose end is still to come.
fn is_slot_in_force(slot: &Option<FilterRow>, now: u64) -> bool
    ensures { result ≡ slot_passes (is_in_force now) slot.now }
{
    match slot {
        Some(row) => is_in_force(row, now),
        None => false,
    }
}

/// How many filters' ends are still to come.
pub(crate) fn number_in_force(rows: &[Option<FilterRow>], now: u64) -> u64
    ensures { result ≡ count_by (slot_passes (is_in_force now)) rows.now }
{
    rows.iter()
        .filter(|slot| is_slot_in_force(slot, now))
        .count() as u64
}

/// Whether the filter is that of the client.
fn is_of_client(row: &FilterRow, role: &Role, framework: &Name) -> bool
    ensures { result ≡ is_of_client (record { role = role.now; framework = framework.now }) row.now }
{
    row.role == *role && row.framework == *framework
}

/// Whether there is a filter of the client.
pub(crate) fn is_slot_of_client(slot: &Option<FilterRow>, role: &Role, framework: &Name) -> bool
    ensures { result ≡ slot_passes (is_of_client (record { role = role.now; framework = framework.now })) slot.now }
{
    match slot {
        Some(row) => is_of_client(row, role, framework),
        None => false,
    }
}

/// Returns whether the filter is of the framework, in a role that is not among these.
fn is_of_left(row: &FilterRow, framework: &Name, roles: &[Role]) -> bool
    ensures { result ≡ is_of_left framework.now roles.now row.now }
{
    row.framework == *framework && !is_among(roles, &row.role)
}

/// Returns whether there is a filter of the framework in a role that is not among these.
pub(crate) fn is_slot_of_left(slot: &Option<FilterRow>, framework: &Name, roles: &[Role]) -> bool
    ensures { result ≡ slot_passes (is_of_left framework.now roles.now) slot.now }
{
    match slot {
        Some(row) => is_of_left(row, framework, roles),
        None => false,
    }
}

/// Whether the filter is in force and holds the bundle back from the client on the agent.
fn holds_back(
    row: &FilterRow,
    role: &Role,
    framework: &Name,
    agent: &Name,
    bundle: &Bundle,
    now: u64,
) -> bool
    ensures { result ≡ holds_back now (record { role = role.now; framework = framework.now }) agent.now bundle.now row.now }
{
    is_in_force(row, now)
        && is_of_client(row, role, framework)
        && row.agent == *agent
        && covers(&row.bundle, bundle)
}

/// Whether there is a filter in force that holds the bundle back from the client on the agent.
pub(crate) fn slot_holds_back(
    slot: &Option<FilterRow>,
    role: &Role,
    framework: &Name,
    agent: &Name,
    bundle: &Bundle,
    now: u64,
) -> bool
    ensures { result ≡ slot_passes (holds_back now (record { role = role.now; framework = framework.now }) agent.now bundle.now) slot.now }
{
    match slot {
        Some(row) => holds_back(row, role, framework, agent, bundle, now),
        None => false,
    }
}

/// The earlier of a moment and the end of a filter, if there is one.
fn earlier(timestamp: u64, slot: &Option<FilterRow>) -> u64
    ensures at_most { result ≤ timestamp }
    ensures none { (f : FilterRow) → slot.now ≡ Some f → result ≤ f.until }
{
    match slot {
        Some(row) => timestamp.min(row.until),
        None => timestamp,
    }
}

/// A moment before which no filter ends, in milliseconds.
pub(crate) fn soonest(rows: &[Option<FilterRow>]) -> u64
    ensures { NoneEndsBefore result (filled rows.now) }
{
    let mut soonest = u64::MAX;
    for slot in rows {
        soonest = earlier(soonest, slot);
    }
    soonest
}

/// Copies the filter behind others, if there is one that is in force.
pub(crate) fn copy_slot_in_force(
    rows: &mut Vec<FilterRow>,
    slot: &Option<FilterRow>,
    now: u64,
) -> Result<(), AllocError>
    ensures { OnOk result (rows.new.items ≡ rows.old.items ++ in_force now (filled (slot.now ∷ []))) }
{
    let Some(row) = slot else {
        return Ok(());
    };
    if is_in_force(row, now) {
        rows.push(row.copy()?)?;
    }
    Ok(())
}

/// Keeps what are no gaps.
pub(crate) fn keep_filled(rows: &mut Vec<Option<FilterRow>>)
    ensures { rows.new.items ≡ map Some (filled rows.old.items) }
{
    rows.retain(|slot| slot.is_some());
}

/// Whether there is a filter whose end is past.
pub(crate) fn is_slot_spent(slot: &Option<FilterRow>, now: u64) -> bool
    ensures { result ≡ slot_passes (λ f. not (is_in_force now f)) slot.now }
{
    match slot {
        Some(row) => !is_in_force(row, now),
        None => false,
    }
}

/// Whether there is a filter on the agent.
pub(crate) fn is_slot_on_agent(slot: &Option<FilterRow>, agent: &Name) -> bool
    ensures { result ≡ slot_passes (is_on_agent agent.now) slot.now }
{
    match slot {
        Some(row) => row.agent == *agent,
        None => false,
    }
}

/// Whether there is a filter of the framework.
pub(crate) fn is_slot_of_framework(slot: &Option<FilterRow>, framework: &Name) -> bool
    ensures { result ≡ slot_passes (λ f. same_text f.framework framework.now) slot.now }
{
    match slot {
        Some(row) => row.framework == *framework,
        None => false,
    }
}
