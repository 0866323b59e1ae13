//! Decides why a row is not allowed after the rows before it, or why a head is not allowed.
ghost use Rattle.std.specs.Prelude.{◌≡◌, ◌+◌, ◌*◌, ◌^◌, ◌∷◌, [], ◌++◌, ◌||◌, true, length, map, nat_le, nat_lt, not, IfOk};
ghost use Rattle.std.specs.List.{list_all};
ghost use Rattle.drf_role.specs.Path.{same_path};
ghost use Rattle.drf_rows.specs.Consistent.{are_distinct_roles, offers_counted};
ghost use Rattle.drf_rows.specs.LimitNumbers.{LimitNumbers};
ghost use Rattle.drf_rows.specs.Offers.{is_empty};
ghost use Rattle.drf_rows.specs.Weights.{is_weight};
ghost use Rattle.drf_saved.specs.Saved.{first_fault, has_too_many_clients, head_fault, roles_of, row_fault};
ghost use Rattle.drf_saved.specs.declared.saved.SavedRow.TheVariants.{Agent, Filter, Framework, Limit, Offer, Task, Weight};

use drf_bundle::Quantities;
use drf_role::Role;
use drf_rows::{
    AgentRow, ClientRow, FilterRow, FrameworkRow, LATEST_TIMESTAMP, LimitRow, Limits, OfferRow,
    Refusal, TaskRow, WeightRow,
};
use drf_saved::{Head, RowFault, SavedRow};
use drf_tables::{Tables, is_too_large, offers_with};
use std::alloc::AllocError;

/// An upper bound on the offers that one event makes: the number of agents times the number of clients.
const MOST_OFFERS: u64 = 1 << 24;

/// The timestamp, in milliseconds, before which every filter ends.
const LATEST_END: u64 = 1 << 63;

/// Returns the error of the first case that holds, or `None`.
fn first_fault(cases: &[(bool, RowFault)]) -> Option<RowFault>
    ensures { result ≡ first_fault cases.now }
{
    cases.iter().find(|case| case.0).map(|case| case.1)
}

/// Returns whether the number of the next offer is 0, or is higher than this number of events can lead to.
fn is_bad_number(head: Head) -> bool
    ensures { result ≡ (not (nat_le 1 head.next_offer) || nat_lt (1 + head.events * 2 ^ 24) head.next_offer) }
{
    head.next_offer == 0 || head.next_offer - 1 > head.events.saturating_mul(MOST_OFFERS)
}

/// Returns the first error of a head, or `None` if it is allowed.
pub(crate) fn head_fault(limits: &Limits, head: Head) -> Option<RowFault>
    ensures { result ≡ head_fault limits.now head }
{
    first_fault(&[
        (
            limits.events() < head.events,
            RowFault::Refused(Refusal::HistoryFull),
        ),
        (
            LATEST_TIMESTAMP < head.clock,
            RowFault::Refused(Refusal::BadMoment),
        ),
        (is_bad_number(head), RowFault::BadNumber),
    ])
}

/// Returns the first error of an agent's row after the rows in the tables.
fn agent_fault(limits: &Limits, tables: &Tables, row: &AgentRow) -> Option<RowFault>
    ensures { result ≡ row_fault limits.now tables.now.rows (Agent row.now) }
{
    first_fault(&[
        (!tables.has_no_frameworks(), RowFault::OutOfOrder),
        (
            tables.has_agent(&row.name),
            RowFault::Refused(Refusal::KnownAgent),
        ),
        (
            is_too_large(&row.total),
            RowFault::Refused(Refusal::TooLarge),
        ),
        (
            tables.too_many_agents(limits, &row.total),
            RowFault::Refused(Refusal::TooMany),
        ),
    ])
}

/// Returns whether one more framework would be too many, or its clients, or all clients with them.
fn has_too_many_clients(limits: &Limits, tables: &Tables, row: &FrameworkRow) -> bool
    ensures { result ≡ has_too_many_clients limits.now tables.now.rows row.now }
{
    let clients = row.clients.len() as u64;
    if limits.frameworks() <= tables.framework_count() as u64 || limits.roles() < clients {
        return true;
    }
    limits.clients() < clients || limits.clients() - clients < tables.client_count() as u64
}

/// Returns whether the client is in the role.
fn is_in(role: &Role, client: &ClientRow) -> bool
    ensures { result ≡ same_path role.now client.now.role }
{
    *role == client.role
}

/// Returns whether none of the clients is in the role.
fn are_apart(role: &Role, clients: &[ClientRow]) -> bool
    ensures { result ≡ list_all (λ c. not (same_path role.now c.role)) clients.now }
{
    for client in clients {
        if is_in(role, client) {
            return false;
        }
    }
    true
}

/// Returns whether no two clients are in the same role.
fn are_distinct(clients: &[ClientRow]) -> bool
    ensures { result ≡ are_distinct_roles (map (λ c. c.role) clients.now) }
{
    let Some((first, rest)) = clients.split_first() else {
        return true;
    };
    are_apart(&first.role, rest) & are_distinct(rest)
}

/// Returns whether the counts of all clients, with those of this framework, sum to `next_offer` or more. `counted` is
/// the sum without this framework.
fn has_bad_counts(tables: &Tables, counted: u64, row: &FrameworkRow) -> bool
    requires { counted ≡ offers_counted tables.now.rows.frameworks }
    ensures { result ≡ nat_le tables.now.rows.next_offer (offers_counted (tables.now.rows.frameworks ++ row.now ∷ [])) }
{
    let next = tables.next_offer();
    match offers_with(counted, row.clients.as_slice()) {
        Some(sum) => next <= sum,
        None => true,
    }
}

/// Returns whether two clients of the framework are in the same role.
fn has_known_role(row: &FrameworkRow) -> bool
    ensures { result ≡ not (are_distinct_roles (roles_of row.now)) }
{
    !are_distinct(row.clients.as_slice())
}

/// Returns the first error of a framework's row. `counted` is the sum of the counts of the clients in the tables.
fn framework_fault(
    limits: &Limits,
    tables: &Tables,
    counted: u64,
    row: &FrameworkRow,
) -> Option<RowFault>
    requires { counted ≡ offers_counted tables.now.rows.frameworks }
    ensures { result ≡ row_fault limits.now tables.now.rows (Framework row.now) }
{
    let first = first_fault(&[
        (!tables.has_no_weights(), RowFault::OutOfOrder),
        (
            tables.has_framework(&row.name),
            RowFault::Refused(Refusal::KnownFramework),
        ),
        (
            has_too_many_clients(limits, tables, row),
            RowFault::Refused(Refusal::TooMany),
        ),
    ]);
    if let Some(fault) = first {
        return Some(fault);
    }
    // The clients are compared in pairs only after their number has been checked.
    first_fault(&[
        (has_known_role(row), RowFault::KnownRole),
        (has_bad_counts(tables, counted, row), RowFault::BadNumber),
    ])
}

/// Returns whether the weight, in thousandths, is below 0.001 or above 1000.
fn is_bad_weight(weight: u64) -> bool
    ensures { result ≡ not (is_weight weight) }
{
    !(1 <= weight && weight <= 1_000_000)
}

/// Returns whether one more weight would be too many.
fn are_weights_too_many(limits: &Limits, tables: &Tables) -> bool
    ensures { result ≡ nat_lt limits.now.weights (length tables.now.rows.weights + 1) }
{
    limits.weights() <= tables.weight_count() as u64
}

/// Returns the first error of a weight's row after the rows in the tables.
fn weight_fault(limits: &Limits, tables: &Tables, row: &WeightRow) -> Option<RowFault>
    ensures { result ≡ row_fault limits.now tables.now.rows (Weight row.now) }
{
    first_fault(&[
        (!tables.has_no_limits(), RowFault::OutOfOrder),
        (tables.has_weight(&row.role), RowFault::KnownRole),
        (
            is_bad_weight(row.weight),
            RowFault::Refused(Refusal::BadWeight),
        ),
        (
            are_weights_too_many(limits, tables),
            RowFault::Refused(Refusal::TooMany),
        ),
    ])
}

/// Returns whether one more limit would be too many, or the limit names too many scalars.
fn is_limit_too_many(limits: &Limits, tables: &Tables, limit: &Quantities) -> bool
    ensures { result ≡ (nat_lt limits.now.limits (length tables.now.rows.limits + 1) || nat_lt limits.now.scalar_names (length limit.now)) }
{
    limits.limits() <= tables.limit_count() as u64
        || limits.scalar_names() < limit.entries().len() as u64
}

/// Returns whether the limit names nothing.
fn names_nothing(limit: &Quantities) -> bool
    ensures { result ≡ is_empty limit.now }
{
    limit.entries().first().is_none()
}

/// Returns the first error of a limit's row after the rows in the tables.
fn limit_fault(limits: &Limits, tables: &Tables, row: &LimitRow) -> Option<RowFault>
    ensures { result ≡ row_fault limits.now tables.now.rows (Limit row.now) }
{
    first_fault(&[
        (!tables.has_no_offers(), RowFault::OutOfOrder),
        (
            row.role.is_default(),
            RowFault::Refused(Refusal::DefaultRole),
        ),
        (names_nothing(&row.limit), RowFault::Refused(Refusal::Empty)),
        (tables.has_limit(&row.role), RowFault::KnownRole),
        (
            is_limit_too_many(limits, tables, &row.limit),
            RowFault::Refused(Refusal::TooMany),
        ),
    ])
}

/// Returns whether the number of an offer is not above those before it, or is not below the next offer number.
fn is_bad_offer(tables: &Tables, number: u64) -> bool
    ensures { result ≡ (not (list_all (λ o. nat_lt o.number number) tables.now.rows.offers) || nat_le tables.now.rows.next_offer number) }
{
    !tables.are_offers_below(number) || tables.next_offer() <= number
}

/// Returns the first error of an offer's row after the rows in the tables.
fn offer_fault(tables: &Tables, row: &OfferRow) -> Result<Option<RowFault>, AllocError>
    requires { tables.now.settled ≡ true }
    ensures { IfOk result (λ fault. (limits : LimitNumbers) → fault ≡ row_fault limits tables.now.rows (Offer row.now)) }
{
    let is_usable = tables.is_usable(&row.agent, &row.role, &row.bundle)?;
    Ok(first_fault(&[
        (!tables.has_no_tasks(), RowFault::OutOfOrder),
        (
            !tables.has_agent(&row.agent),
            RowFault::Refused(Refusal::UnknownAgent),
        ),
        (
            !tables.has_framework(&row.framework),
            RowFault::Refused(Refusal::UnknownFramework),
        ),
        (
            !tables.is_in_role(&row.framework, &row.role),
            RowFault::Refused(Refusal::NotInRole),
        ),
        (!is_usable, RowFault::Refused(Refusal::NotCovered)),
        (is_bad_offer(tables, row.number), RowFault::BadNumber),
    ]))
}

/// Returns the first error of a task's row after the rows in the tables.
fn task_fault(tables: &Tables, row: &TaskRow) -> Result<Option<RowFault>, AllocError>
    requires { tables.now.settled ≡ true }
    ensures { IfOk result (λ fault. (limits : LimitNumbers) → fault ≡ row_fault limits tables.now.rows (Task row.now)) }
{
    let is_usable = tables.is_usable(&row.agent, &row.role, &row.bundle)?;
    Ok(first_fault(&[
        (!tables.has_no_filters(), RowFault::OutOfOrder),
        (
            !tables.has_agent(&row.agent),
            RowFault::Refused(Refusal::UnknownAgent),
        ),
        (
            !tables.has_framework(&row.framework),
            RowFault::Refused(Refusal::UnknownFramework),
        ),
        (
            !tables.is_in_role(&row.framework, &row.role),
            RowFault::Refused(Refusal::NotInRole),
        ),
        (
            tables.has_task(&row.framework, &row.name),
            RowFault::Refused(Refusal::KnownTask),
        ),
        (!is_usable, RowFault::Refused(Refusal::NotCovered)),
    ]))
}

/// Returns whether a filter with this end has expired, or ends too late.
fn is_bad_end(tables: &Tables, until: u64) -> bool
    ensures { result ≡ (nat_le until tables.now.rows.clock || nat_le (2 ^ 63) until) }
{
    until <= tables.clock() || LATEST_END <= until
}

/// Returns the first error of a filter's row after the rows in the tables.
fn filter_fault(limits: &Limits, tables: &Tables, row: &FilterRow) -> Option<RowFault>
    ensures { result ≡ row_fault limits.now tables.now.rows (Filter row.now) }
{
    first_fault(&[
        (
            !tables.has_agent(&row.agent),
            RowFault::Refused(Refusal::UnknownAgent),
        ),
        (
            !tables.has_framework(&row.framework),
            RowFault::Refused(Refusal::UnknownFramework),
        ),
        (
            !tables.is_in_role(&row.framework, &row.role),
            RowFault::Refused(Refusal::NotInRole),
        ),
        (is_bad_end(tables, row.until), RowFault::BadNumber),
        (
            limits.filters() <= tables.filter_count() as u64,
            RowFault::Refused(Refusal::TooMany),
        ),
    ])
}

/// Returns the first error of a row after the rows in the tables, or `None` if it is allowed. `counted` is the sum of
/// the counts of the clients in the tables. Fails if memory runs out.
pub(crate) fn row_fault(
    limits: &Limits,
    tables: &Tables,
    counted: u64,
    row: &SavedRow,
) -> Result<Option<RowFault>, AllocError>
    requires settled { tables.now.settled ≡ true }
    requires counted { counted ≡ offers_counted tables.now.rows.frameworks }
    ensures { IfOk result (λ fault. fault ≡ row_fault limits.now tables.now.rows row.now) }
{
    match row {
        SavedRow::Agent(row) => Ok(agent_fault(limits, tables, row)),
        SavedRow::Framework(row) => Ok(framework_fault(limits, tables, counted, row)),
        SavedRow::Weight(row) => Ok(weight_fault(limits, tables, row)),
        SavedRow::Limit(row) => Ok(limit_fault(limits, tables, row)),
        SavedRow::Offer(row) => offer_fault(tables, row),
        SavedRow::Task(row) => task_fault(tables, row),
        SavedRow::Filter(row) => Ok(filter_fault(limits, tables, row)),
    }
}
