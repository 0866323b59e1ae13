//! Why events are refused. Only the tests in `late` can need memory.
ghost use Rattle.std.specs.Prelude.{◌≡◌, ◌∷◌, [], ◌<◌, ◌≤◌, true, false, length, not, is_some, None, IfNone, IfSome, IfOk, OnErr};
ghost use Rattle.std.specs.List.{list_all};
ghost use Rattle.std.specs.Option.{option_copied, option_map_or};
ghost use Rattle.drf_role.specs.Text.{same_text};
ghost use Rattle.drf_rows.specs.Consistent.{IsConsistent};
ghost use Rattle.drf_rows.specs.Step.{accept_is_too_much, decline_is_too_much, first_case, is_full, is_in_role, too_many_frameworks, too_many_limits, refusal_of};
ghost use Rattle.drf_rows.specs.Roles.{too_many_roles};
ghost use Rattle.drf_rows.specs.Members.{distinct, has_framework};
ghost use Rattle.drf_rows.specs.Offers.{are_many_filters, has_task, exceeds_offer, is_empty, is_task_known, left_of_offer, offer_at};
ghost use Rattle.drf_rows.specs.Tasks.{covers_all, uses};
ghost use Rattle.drf_rows.specs.Weights.{is_weight, too_many_weights};
ghost use Rattle.drf_rows.specs.declared.event.Event.TheVariants.{AddAgent, AddFramework, SetFramework, Rescind, Finish, SetWeight, SetLimit, Cycle};
ghost use Rattle.drf_rows.specs.declared.reply.Refusal.TheVariants.{HistoryFull, UnknownFramework, NotInRole, TooMany};
ghost use Rattle.drf_core.specs.refusal.Accepting.{cases_of_tasks};
ghost use Rattle.drf_laws.specs.Kept.{AreFew};
ghost use Rattle.drf_core.specs.refusal.Cases.{cases_of_agent, cases_of_move, early_refusal_of};

mod late;

use crate::refusal::late::refuse_late;
use drf_bundle::{Bundle, Quantities};
use drf_role::{Name, Role};
use drf_rows::{
    Accept, Decline, Event, LATEST_TIMESTAMP, Limits, OfferRow, Refusal, Table, TaskList,
};
use drf_tables::{Tables, is_too_large};
use std::alloc::AllocError;

/// Returns the refusal of the first case that holds, if any.
pub(crate) fn first_case(cases: &[(bool, Refusal)]) -> Option<Refusal>
    ensures { result ≡ first_case cases.now }
{
    cases.iter().find(|case| case.0).map(|case| case.1)
}

/// Returns whether the number of accepted events has reached its capacity.
pub(crate) fn is_full(limits: &Limits, tables: &Tables) -> bool
    ensures { result ≡ is_full limits.now tables.now.rows }
{
    limits.events() <= tables.events()
}

/// Returns the number of different roles in a list, or `None` if there are more than `most`. It needs no memory.
fn count_roles(roles: &[Role], most: usize) -> Option<usize>
    requires { most ≤ 8 }
    ensures none { IfNone result (most < length (distinct roles.now)) }
    ensures some { IfSome result (λ count. (count ≡ length (distinct roles.now)) × (count ≤ most)) }
{
    let Some(first) = roles.first() else {
        return Some(0);
    };
    // The first `count` entries are the roles counted so far; the others are not read.
    let mut counted = [first; 8];
    let mut count = 0;
    for role in roles {
        if counted[..count].contains(&role) {
            continue;
        }
        if count == most {
            return None;
        }
        counted[count] = role;
        count += 1;
    }
    Some(count)
}

/// Returns whether one more framework with these roles would exceed the capacity of frameworks, of roles of a framework, or of
/// clients.
fn too_many_frameworks(limits: &Limits, tables: &Tables, roles: &Table<Role>) -> bool
    requires few { AreFew limits.now tables.now.rows }
    ensures { result ≡ too_many_frameworks limits.now tables.now.rows roles.now }
{
    let Some(roles) = count_roles(roles.as_slice(), limits.roles() as usize) else {
        return true;
    };
    let frameworks = tables.framework_count() as u64 + 1;
    let clients = tables.client_count() as u64 + roles as u64;
    (limits.frameworks() < frameworks) | (limits.clients() < clients)
}

/// Returns whether the capacity of roles of a framework, or of clients, would be exceeded once the framework has these roles.
fn too_many_roles(limits: &Limits, tables: &Tables, framework: &Name, roles: &Table<Role>) -> bool
    requires few { AreFew limits.now tables.now.rows }
    ensures { result ≡ too_many_roles limits.now tables.now.rows framework.now roles.now }
{
    tables.recall();
    let Some(roles) = count_roles(roles.as_slice(), limits.roles() as usize) else {
        return true;
    };
    if !tables.has_framework(framework) {
        return limits.clients() < tables.client_count() as u64;
    }
    let others = tables.client_count() - tables.clients(framework).len();
    limits.clients() < (others + roles) as u64
}

/// Returns whether a weight, in thousandths, is below 0.001 or above 1000.
fn is_bad_weight(weight: u64) -> bool
    ensures { result ≡ not (is_weight weight) }
{
    !(1 <= weight && weight <= 1_000_000)
}

/// Returns whether the role has no weight, and one more weight would exceed the capacity of weights.
fn too_many_weights(limits: &Limits, tables: &Tables, role: &Role) -> bool
    requires { AreFew limits.now tables.now.rows }
    ensures { result ≡ too_many_weights limits.now tables.now.rows role.now }
{
    let weights = tables.weight_count() as u64 + 1;
    !tables.has_weight(role) & (limits.weights() < weights)
}

/// Returns whether the limit would exceed the capacity of limits, or names more scalars than the capacity of scalar names.
fn too_many_limits(limits: &Limits, tables: &Tables, role: &Role, limit: &Quantities) -> bool
    ensures { result ≡ too_many_limits limits.now tables.now.rows role.now limit.now }
{
    let entries = limit.entries();
    let is_new = !entries.is_empty() & !tables.has_limit(role);
    let is_row_too_many = limits.limits() <= tables.limit_count() as u64;
    (is_new & is_row_too_many) | (limits.scalar_names() < entries.len() as u64)
}

/// Returns whether the offer exists.
fn stands(offer: Option<&OfferRow>) -> bool
    ensures { result ≡ is_some (option_copied offer.entry) }
{
    match offer {
        Some(_) => true,
        None => false,
    }
}

/// Returns whether the offer exists and belongs to the framework.
fn is_its(framework: &Name, offer: Option<&OfferRow>) -> bool
    ensures { result ≡ option_map_or (λ o. same_text o.framework framework.now) (option_copied offer.entry) false }
{
    match offer {
        Some(offer) => offer.framework == *framework,
        None => false,
    }
}

/// Returns whether the framework is not registered. If it is known to hold something, it is registered and not looked up.
fn is_unknown(tables: &Tables, framework: &Name, holds: bool) -> bool
    requires { holds ≡ true → has_framework tables.now.rows framework.now ≡ true }
    ensures { result ≡ not (has_framework tables.now.rows framework.now) }
{
    if holds {
        return false;
    }
    !tables.has_framework(framework)
}

/// Returns whether the offer exists and belongs to another framework.
fn belongs_to_another(framework: &Name, offer: Option<&OfferRow>) -> bool
    ensures { result ≡ option_map_or (λ o. not (same_text o.framework framework.now)) (option_copied offer.entry) false }
{
    match offer {
        Some(offer) => offer.framework != *framework,
        None => false,
    }
}

/// Returns whether the framework has no task of any of these names.
fn are_new(tables: &Tables, framework: &Name, tasks: &[(Name, Bundle)]) -> bool
    ensures { result ≡ list_all (λ s. not (has_task tables.now.rows framework.now s.0)) tasks.now }
{
    for task in tasks {
        if tables.has_task(framework, &task.0) {
            return false;
        }
    }
    true
}

/// Returns whether the framework already has a task of one of these names, or a name occurs twice.
fn is_task_known(tables: &Tables, framework: &Name, tasks: &TaskList) -> bool
    ensures { result ≡ is_task_known tables.now.rows framework.now tasks.now }
{
    !are_new(tables, framework, tasks.as_slice()) | !tasks.are_distinct()
}

/// Returns whether the offer exists and does not cover what all tasks use together.
fn exceeds_offer(offer: Option<&OfferRow>, tasks: &TaskList) -> bool
    ensures { result ≡ option_map_or (λ o. not (covers_all o.bundle (uses tasks.now))) (option_copied offer.entry) false }
{
    match offer {
        Some(offer) => !tasks.are_covered_by(&offer.bundle),
        None => false,
    }
}

/// Returns whether the filters in force at a timestamp (in milliseconds), or at the clock if that is later, have reached their
/// capacity.
fn are_many_filters(limits: &Limits, tables: &Tables, at: u64) -> bool
    ensures { result ≡ are_many_filters limits.now tables.now.rows at }
{
    tables.are_in_force(limits.filters(), tables.clock().max(at))
}

/// Returns whether the offer exists and the tasks leave some of it. It needs no memory.
fn has_rest(offer: Option<&OfferRow>, tasks: &TaskList) -> bool
    requires { option_map_or (λ o. not (covers_all o.bundle (uses tasks.now))) (option_copied offer) false ≡ false }
    ensures { result ≡ option_map_or (λ o. not (is_empty (left_of_offer o tasks.now))) (option_copied offer.entry) false }
{
    match offer {
        Some(offer) => tasks.leave_any_of(&offer.bundle),
        None => false,
    }
}

/// Returns whether an accept would set a filter beyond the capacity of filters.
fn accept_is_too_much(
    limits: &Limits,
    tables: &Tables,
    offer: Option<&OfferRow>,
    accept: &Accept,
) -> bool
    requires found { option_copied offer ≡ offer_at tables.now.rows accept.now.offer }
    requires covered { exceeds_offer tables.now.rows accept.now.offer accept.now.tasks ≡ false }
    ensures { result ≡ accept_is_too_much limits.now tables.now.rows accept.now }
{
    0 < accept.refuse_ms
        && has_rest(offer, &accept.tasks)
        && are_many_filters(limits, tables, accept.at)
}

/// Returns whether a decline would set a filter beyond the capacity of filters.
fn decline_is_too_much(limits: &Limits, tables: &Tables, decline: &Decline) -> bool
    ensures { result ≡ decline_is_too_much limits.now tables.now.rows decline.now }
{
    0 < decline.refuse_ms && are_many_filters(limits, tables, decline.at)
}

/// Returns why an `add_agent` is refused, if it is.
fn refuse_agent(limits: &Limits, tables: &Tables, agent: &Name, total: &Bundle) -> Option<Refusal>
    requires { AreFew limits.now tables.now.rows }
    ensures { result ≡ refusal_of limits.now tables.now.rows (AddAgent agent.now total.now) }
{
    first_case(&[
        (is_full(limits, tables), Refusal::HistoryFull),
        (tables.has_agent(agent), Refusal::KnownAgent),
        (is_too_large(total), Refusal::TooLarge),
        (tables.too_many_agents(limits, total), Refusal::TooMany),
    ])
}

/// Returns the early refusal of an event that needs only a registered agent, if there is one.
pub(crate) fn refuse_unknown_agent(
    limits: &Limits,
    tables: &Tables,
    agent: &Name,
) -> Option<Refusal>
    ensures { result ≡ first_case (cases_of_agent limits.now tables.now.rows agent.now) }
{
    first_case(&[
        (is_full(limits, tables), Refusal::HistoryFull),
        (!tables.has_agent(agent), Refusal::UnknownAgent),
    ])
}

/// Returns why an `add_framework` is refused, if it is.
fn refuse_framework(
    limits: &Limits,
    tables: &Tables,
    framework: &Name,
    roles: &Table<Role>,
) -> Option<Refusal>
    requires { AreFew limits.now tables.now.rows }
    ensures { result ≡ refusal_of limits.now tables.now.rows (AddFramework framework.now roles.now) }
{
    first_case(&[
        (is_full(limits, tables), Refusal::HistoryFull),
        (tables.has_framework(framework), Refusal::KnownFramework),
        (roles.is_empty(), Refusal::Empty),
        (too_many_frameworks(limits, tables, roles), Refusal::TooMany),
    ])
}

/// Returns why a `set_framework` is refused, if it is.
fn refuse_roles(
    limits: &Limits,
    tables: &Tables,
    framework: &Name,
    roles: &Table<Role>,
) -> Option<Refusal>
    requires { AreFew limits.now tables.now.rows }
    ensures { result ≡ refusal_of limits.now tables.now.rows (SetFramework framework.now roles.now) }
{
    first_case(&[
        (is_full(limits, tables), Refusal::HistoryFull),
        (!tables.has_framework(framework), Refusal::UnknownFramework),
        (roles.is_empty(), Refusal::Empty),
        (
            too_many_roles(limits, tables, framework, roles),
            Refusal::TooMany,
        ),
        (
            tables.is_role_in_use(framework, roles.as_slice()),
            Refusal::RoleInUse,
        ),
    ])
}

/// Returns why an event that needs only a registered framework is refused, if it is.
fn refuse_unknown_framework(limits: &Limits, tables: &Tables, framework: &Name) -> Option<Refusal>
    ensures { result ≡ first_case ((is_full limits.now tables.now.rows, HistoryFull) ∷ (not (has_framework tables.now.rows framework.now), UnknownFramework) ∷ []) }
{
    first_case(&[
        (is_full(limits, tables), Refusal::HistoryFull),
        (!tables.has_framework(framework), Refusal::UnknownFramework),
    ])
}

/// Returns why an event that needs only a registered client is refused, if it is.
fn refuse_unknown_client(
    limits: &Limits,
    tables: &Tables,
    framework: &Name,
    role: &Role,
) -> Option<Refusal>
    ensures { result ≡ first_case ((is_full limits.now tables.now.rows, HistoryFull) ∷ (not (has_framework tables.now.rows framework.now), UnknownFramework) ∷ (not (is_in_role tables.now.rows framework.now role.now), NotInRole) ∷ []) }
{
    first_case(&[
        (is_full(limits, tables), Refusal::HistoryFull),
        (!tables.has_framework(framework), Refusal::UnknownFramework),
        (!tables.is_in_role(framework, role), Refusal::NotInRole),
    ])
}

/// Returns why an `accept` is refused, if it is, except for the number of filters.
fn refuse_tasks(
    limits: &Limits,
    tables: &Tables,
    offer: Option<&OfferRow>,
    accept: &Accept,
) -> Option<Refusal>
    requires { option_copied offer ≡ offer_at tables.now.rows accept.now.offer }
    ensures { result ≡ first_case (cases_of_tasks limits.now tables.now.rows accept.now) }
{
    let Accept {
        framework,
        tasks,
        at,
        ..
    } = accept;
    tables.recall();
    let holds = is_its(framework, offer);
    first_case(&[
        (is_full(limits, tables), Refusal::HistoryFull),
        (LATEST_TIMESTAMP < *at, Refusal::BadMoment),
        (
            is_unknown(tables, framework, holds),
            Refusal::UnknownFramework,
        ),
        (!stands(offer), Refusal::UnknownOffer),
        (belongs_to_another(framework, offer), Refusal::NotYours),
        (is_task_known(tables, framework, tasks), Refusal::KnownTask),
        (tasks.has_empty(), Refusal::Empty),
        (exceeds_offer(offer, tasks), Refusal::NotCovered),
    ])
}

/// Returns why an `accept` whose offer covers the tasks is refused, if one more filter would be too many.
fn refuse_rest(
    limits: &Limits,
    tables: &Tables,
    offer: Option<&OfferRow>,
    accept: &Accept,
) -> Option<Refusal>
    requires found { option_copied offer ≡ offer_at tables.now.rows accept.now.offer }
    requires covered { exceeds_offer tables.now.rows accept.now.offer accept.now.tasks ≡ false }
    ensures { result ≡ first_case ((accept_is_too_much limits.now tables.now.rows accept.now, TooMany) ∷ []) }
{
    first_case(&[(
        accept_is_too_much(limits, tables, offer, accept),
        Refusal::TooMany,
    )])
}

/// Returns why an `accept` is refused, if it is. What the tasks leave is computed only if the offer covers them.
fn refuse_accept(limits: &Limits, tables: &Tables, accept: &Accept) -> Option<Refusal>
    ensures { result ≡ refusal_of limits.now tables.now.rows (Event.Accept accept.now) }
{
    let offer = tables.offer(accept.offer);
    match refuse_tasks(limits, tables, offer, accept) {
        Some(refusal) => Some(refusal),
        None => refuse_rest(limits, tables, offer, accept),
    }
}

/// Returns why a `decline` is refused, if it is.
fn refuse_decline(limits: &Limits, tables: &Tables, decline: &Decline) -> Option<Refusal>
    ensures { result ≡ refusal_of limits.now tables.now.rows (Event.Decline decline.now) }
{
    let Decline { framework, at, .. } = decline;
    let offer = tables.offer(decline.offer);
    tables.recall();
    let holds = is_its(framework, offer);
    first_case(&[
        (is_full(limits, tables), Refusal::HistoryFull),
        (LATEST_TIMESTAMP < *at, Refusal::BadMoment),
        (
            is_unknown(tables, framework, holds),
            Refusal::UnknownFramework,
        ),
        (!stands(offer), Refusal::UnknownOffer),
        (belongs_to_another(framework, offer), Refusal::NotYours),
        (
            decline_is_too_much(limits, tables, decline),
            Refusal::TooMany,
        ),
    ])
}

/// Returns why a `rescind` is refused, if it is.
fn refuse_rescind(limits: &Limits, tables: &Tables, number: u64) -> Option<Refusal>
    ensures { result ≡ refusal_of limits.now tables.now.rows (Rescind number) }
{
    first_case(&[
        (is_full(limits, tables), Refusal::HistoryFull),
        (!stands(tables.offer(number)), Refusal::UnknownOffer),
    ])
}

/// Returns why a `finish` is refused, if it is.
fn refuse_finish(limits: &Limits, tables: &Tables, framework: &Name, task: &Name) -> Option<Refusal>
    ensures { result ≡ refusal_of limits.now tables.now.rows (Finish framework.now task.now) }
{
    tables.recall();
    let holds = tables.has_task(framework, task);
    first_case(&[
        (is_full(limits, tables), Refusal::HistoryFull),
        (
            is_unknown(tables, framework, holds),
            Refusal::UnknownFramework,
        ),
        (!holds, Refusal::UnknownTask),
    ])
}

/// Returns the early refusal of a `reserve` or `unreserve`, if there is one: all cases but those of free resources and limits.
fn refuse_move(
    limits: &Limits,
    tables: &Tables,
    agent: &Name,
    role: &Role,
    resources: &Bundle,
) -> Option<Refusal>
    ensures { result ≡ first_case (cases_of_move limits.now tables.now.rows agent.now role.now resources.now) }
{
    first_case(&[
        (is_full(limits, tables), Refusal::HistoryFull),
        (!tables.has_agent(agent), Refusal::UnknownAgent),
        (role.is_default(), Refusal::DefaultRole),
        (resources.entries().is_empty(), Refusal::Empty),
        (!resources.is_unreserved(), Refusal::NotUnreserved),
    ])
}

/// Returns why a `set_weight` is refused, if it is.
fn refuse_weight(limits: &Limits, tables: &Tables, role: &Role, weight: u64) -> Option<Refusal>
    requires { AreFew limits.now tables.now.rows }
    ensures { result ≡ refusal_of limits.now tables.now.rows (SetWeight role.now weight) }
{
    first_case(&[
        (is_full(limits, tables), Refusal::HistoryFull),
        (is_bad_weight(weight), Refusal::BadWeight),
        (too_many_weights(limits, tables, role), Refusal::TooMany),
    ])
}

/// Returns why a `set_limit` is refused, if it is.
fn refuse_limit(
    limits: &Limits,
    tables: &Tables,
    role: &Role,
    limit: &Quantities,
) -> Option<Refusal>
    ensures { result ≡ refusal_of limits.now tables.now.rows (SetLimit role.now limit.now) }
{
    first_case(&[
        (is_full(limits, tables), Refusal::HistoryFull),
        (role.is_default(), Refusal::DefaultRole),
        (
            too_many_limits(limits, tables, role, limit),
            Refusal::TooMany,
        ),
    ])
}

/// Returns why a `cycle` is refused, if it is.
fn refuse_cycle(limits: &Limits, tables: &Tables, at: u64) -> Option<Refusal>
    ensures { result ≡ refusal_of limits.now tables.now.rows (Cycle at) }
{
    first_case(&[
        (is_full(limits, tables), Refusal::HistoryFull),
        (LATEST_TIMESTAMP < at, Refusal::BadMoment),
    ])
}

/// Returns the early refusal of an event, if there is one: a refusal that is decided without memory.
pub(crate) fn refuse_early(limits: &Limits, tables: &Tables, event: &Event) -> Option<Refusal>
    requires few { AreFew limits.now tables.now.rows }
    ensures { result ≡ early_refusal_of limits.now tables.now.rows event.now }
{
    match event {
        Event::AddAgent { agent, total } => refuse_agent(limits, tables, agent, total),
        Event::RemoveAgent { agent } => refuse_unknown_agent(limits, tables, agent),
        Event::ActivateAgent { agent } => refuse_unknown_agent(limits, tables, agent),
        Event::DeactivateAgent { agent } => refuse_unknown_agent(limits, tables, agent),
        Event::SetAgent { agent, total: _ } => refuse_unknown_agent(limits, tables, agent),
        Event::AddFramework { framework, roles } => {
            refuse_framework(limits, tables, framework, roles)
        }
        Event::SetFramework { framework, roles } => refuse_roles(limits, tables, framework, roles),
        Event::RemoveFramework { framework } => refuse_unknown_framework(limits, tables, framework),
        Event::Accept(accept) => refuse_accept(limits, tables, accept),
        Event::Decline(decline) => refuse_decline(limits, tables, decline),
        Event::Rescind { offer } => refuse_rescind(limits, tables, *offer),
        Event::Finish { framework, task } => refuse_finish(limits, tables, framework, task),
        Event::Suppress { framework, role } => refuse_unknown_client(
            limits, tables, framework, role,
        ),
        Event::Revive { framework, role } => refuse_unknown_client(limits, tables, framework, role),
        Event::Reserve {
            agent,
            role,
            resources,
        } => refuse_move(limits, tables, agent, role, resources),
        Event::Unreserve {
            agent,
            role,
            resources,
        } => refuse_move(limits, tables, agent, role, resources),
        Event::SetWeight { role, weight } => refuse_weight(limits, tables, role, *weight),
        Event::SetLimit { role, limit } => refuse_limit(limits, tables, role, limit),
        Event::Cycle { at } => refuse_cycle(limits, tables, *at),
        Event::Report => first_case(&[(is_full(limits, tables), Refusal::HistoryFull)]),
    }
}

/// Returns why an event is refused, if it is: of the refusals that apply, the one with the smallest number. No row changes. An
/// error means that memory ran out; then no early refusal applies.
pub fn refusal(
    limits: &Limits,
    tables: &mut Tables,
    event: &Event,
) -> Result<Option<Refusal>, AllocError>
    requires few { AreFew limits.now tables.old.rows }
    requires consistent { IsConsistent tables.old.rows }
    ensures value { IfOk result (λ refusal. refusal ≡ refusal_of limits.now tables.old.rows event.now) }
    ensures early { OnErr result (early_refusal_of limits.now tables.old.rows event.now ≡ None) }
    ensures same { tables.new.rows ≡ tables.old.rows }
{
    match refuse_early(limits, tables, event) {
        Some(refusal) => Ok(Some(refusal)),
        None => refuse_late(limits, tables, event),
    }
}
