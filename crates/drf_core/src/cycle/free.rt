//! The free resources of an agent in its turn, and what a client is granted of them.
ghost use Rattle.std.specs.Prelude.{◌≡◌, ◌+◌, ◌≤◌, [], if◌then◌else◌, Option, Some, None, false, true, length, take, IfOk, IfSome, OnOk, IsTrue, MatchOption};
ghost use Rattle.std.specs.List.{list_any};
ghost use Rattle.std.specs.Option.{option_copied};
ghost use Rattle.drf_bundle.specs.Bundle.{IsResource, rest};
ghost use Rattle.drf_gates.specs.quota.Allowance.{Allowance, unreserved_one};
ghost use Rattle.drf_rows.specs.Client.{Client, path_of};
ghost use Rattle.drf_rows.specs.Cycle.{free_of, grant, is_allocatable};
ghost use Rattle.drf_rows.specs.Filters.{is_held_back};
ghost use Rattle.drf_rows.specs.Quota.{unreserved_in};
ghost use Rattle.drf_rows.specs.declared.rows.AgentRow.{AgentRow};
ghost use Rattle.drf_rows.specs.declared.rows.Rows.{Rows};
ghost use Rattle.drf_role.specs.Path.{Path, begins_with, framework_part, role_part, same_path};
ghost use Rattle.drf_core.specs.declared.cycle.free.Known.TheVariants.{Nothing};
ghost use Rattle.drf_core.specs.cycle.Entitling.{IsBarred, IsEntitlement, IsEveryonesKnown, IsForEveryone, IsKnown, IsKnownOf, IsOffered, IsQuotaOf, has_at_least, is_of_worth, is_reserved_for, is_reserved_near, known_part, known_role};

use drf_amount::Algebra;
use drf_bundle::{Bundle, Resource, Value};
use drf_gates::Quota;
use drf_role::{ClientPath, Name, Role};
use drf_rows::is_worth_an_offer;
use drf_tables::Tables;
use std::alloc::{AllocError, Global};
use std::mem;

/// How much `cpus` and `mem`, the scalars that decide whether an offer is made, is free and unreserved, in thousandths.
#[derive(Clone, Copy)]
pub struct ForEveryone {
    pub cpus: u64,
    pub mem: u64,
}

/// What is known about one role in a turn.
#[derive(Drop)]
pub enum Known {
    Nothing,
    /// Clients of the role can have this part of the free resources, and it is enough for an offer.
    Part { role: Role, part: Bundle },
    /// Clients of the role can have nothing that is enough for an offer, nor can any client whose path begins with the first `prefix` parts
    /// of their paths.
    Barred { role: Role, prefix: usize },
}

/// The free resources of an agent in its turn, whether they are enough for an offer, and whether it is known that none of them
/// are reserved.
#[derive(Drop)]
pub struct Free {
    pub bundle: Bundle,
    pub is_worth: bool,
    pub is_unreserved: bool,
    // `None` until it is needed.
    pub for_everyone: Option<ForEveryone>,
    pub known: Known,
}

impl Free {
    /// Returns the free resources as a turn begins. `is_worth` says whether they are enough for an offer.
    pub fn new(bundle: Bundle, is_worth: bool) -> Free
        requires { is_worth ≡ is_allocatable bundle }
        ensures bundle { result.bundle ≡ bundle }
        ensures known { (quota : Option Allowance) → IsKnown quota result }
    {
        let is_unreserved = bundle.is_unreserved();
        Free {
            bundle,
            is_worth,
            is_unreserved,
            for_everyone: None,
            known: Known::Nothing,
        }
    }
}

/// Returns what clients of a role can have of the free resources: the unreserved ones, cut to the headroom of the role, and those
/// reserved for the role or for a role above it.
pub(crate) fn part_within(
    quota: Option<&Quota<'_>>,
    free: &Bundle,
    role: &Role,
) -> Result<Bundle, AllocError>
    ensures { IfOk result (IsEntitlement (option_copied quota.entry) free.now role.now) }
{
    free.recall();
    let part = free.part_for(role)?;
    let Some(quota) = quota else {
        return Ok(part);
    };
    let headroom = quota.headroom(role)?;
    if headroom.entries().is_empty() {
        return Ok(part);
    }
    part.clip(&headroom)
}

/// Returns whether a resource is of `cpus` or `mem`, the scalars that decide whether an offer is made.
fn is_of_worth(resource: &Resource) -> bool
    ensures { result ≡ is_of_worth resource.now }
{
    let label = resource.label.text();
    label == "cpus" || label == "mem"
}

/// Returns the smallest number of first parts in which two roles differ, or `None` if `outer` is `role` or a role above it.
fn parted_prefix(outer: &Role, role: &Role) -> Option<usize>
    ensures within { IfSome result (λ len. len ≤ length role.now + 1) }
    ensures parted { IfSome result (λ len. same_path (take len outer.now) (take len role.now) ≡ false) }
    ensures some { IfSome result (λ _. begins_with role.now outer.now ≡ false) }
    ensures none { result ≡ None → begins_with role.now outer.now ≡ true }
{
    for i in 0..outer.len() {
        if i >= role.len() || outer.part(i) != role.part(i) {
            return Some(i + 1);
        }
    }
    None
}

/// Returns the prefix length `prefix`, or a greater one, such that the resource is not reserved for a role with as many first
/// parts in common with `role`. Returns `None` if the resource is reserved for `role` or for a role above it. Only `cpus` and
/// `mem` count.
fn raised_prefix(prefix: usize, resource: &Resource, role: &Role) -> Option<usize>
    ensures no_less { IfSome result (λ len. prefix ≤ len) }
    ensures within { IfSome result (λ len. prefix ≤ length role.now + 1 → len ≤ length role.now + 1) }
    ensures none { IfSome result (λ _. is_reserved_for role.now resource.now ≡ false) }
    ensures near { IfSome result (λ len. is_reserved_near role.now len resource.now ≡ false) }
    ensures some { result ≡ None → is_reserved_for role.now resource.now ≡ true }
{
    if resource.is_unreserved() {
        return Some(prefix);
    }
    let parted = parted_prefix(&resource.role, role);
    // This avoids most comparisons of labels, because sibling roles differ at the same part.
    if let Some(len) = parted {
        if len <= prefix {
            return Some(prefix);
        }
    }
    if is_of_worth(resource) {
        parted
    } else {
        Some(prefix)
    }
}

/// Returns a prefix length such that no free `cpus` or `mem` are reserved for a role with as many first parts in common with
/// `role`. Returns `None` if some are reserved for `role` or for a role above it.
fn reserved_prefix(free: &Bundle, role: &Role) -> Option<usize>
    ensures within { IfSome result (λ len. len ≤ length role.now + 1) }
    ensures none { IfSome result (λ _. list_any (is_reserved_for role.now) free.now ≡ false) }
    ensures near { IfSome result (λ len. list_any (is_reserved_near role.now len) free.now ≡ false) }
    ensures some { result ≡ None → list_any (is_reserved_for role.now) free.now ≡ true }
{
    let mut prefix = 0;
    for resource in free.entries() {
        prefix = raised_prefix(prefix, resource, role)?;
    }
    Some(prefix)
}

/// Returns how much of a scalar a resource has unreserved, in thousandths.
fn unreserved_one(resource: &Resource, label: &str) -> u64
    requires { IsResource resource.now }
    ensures { result ≡ unreserved_one label.now resource.now }
{
    if !resource.is_unreserved() || resource.label.text() != label {
        return 0;
    }
    match &resource.value {
        Value::Scalar(scalar) => scalar.thousandths(),
        _ => 0,
    }
}

/// Returns how much of a scalar is free and unreserved, in thousandths.
fn unreserved(free: &Bundle, label: &str) -> u64
    ensures { result ≡ unreserved_in label.now free.now }
{
    let mut sum = 0;
    for resource in free.entries() {
        sum += unreserved_one(resource, label);
    }
    sum
}

/// Returns a prefix length if less than `least` (in thousandths) of a scalar is available to a role, because too little is free
/// and unreserved (then it is 0) or because limits leave too little. All roles with that many first parts in common have as
/// little. Returns `None` if enough is available.
fn short_prefix(
    quota: Option<&Quota<'_>>,
    free: &Bundle,
    for_everyone: u64,
    role: &Role,
    label: &str,
    least: u64,
) -> Option<usize>
    requires { for_everyone ≡ unreserved_in label.now free.now }
    ensures within { IfSome result (λ len. len ≤ length role.now) }
    ensures short { IfSome result (λ len. (rows : Rows) (other : Path) → IsQuotaOf rows (option_copied quota.entry) → take len other ≡ take len role.now
        → has_at_least rows free.now other label.now least ≡ false) }
    ensures enough { result ≡ None → (rows : Rows) → IsQuotaOf rows (option_copied quota.entry) → has_at_least rows free.now role.now label.now least ≡ true }
{
    if for_everyone < least {
        return Some(0);
    }
    quota?.short_prefix(role, label, least)
}

/// Returns a prefix length if amounts alone show that clients of the role can have nothing that is enough for an offer: too
/// little is free and unreserved or within the limits, and nothing is reserved for the role. All clients whose paths have that
/// many first parts in common with those of the role can have as little. It needs no memory.
fn spent_prefix(
    quota: Option<&Quota<'_>>,
    free: &Bundle,
    for_everyone: ForEveryone,
    role: &Role,
) -> Option<usize>
    requires { IsForEveryone free.now for_everyone }
    ensures { IfSome result (IsBarred (option_copied quota.entry) free.now role.now) }
{
    free.recall();
    role.recall();
    let cpus = short_prefix(quota, free, for_everyone.cpus, role, "cpus", 10)?;
    let mem = short_prefix(quota, free, for_everyone.mem, role, "mem", 32000)?;
    let reserved = reserved_prefix(free, role)?;
    Some(cpus.max(mem).max(reserved))
}

/// Returns the part of the free resources that clients of a role can have, if it is enough for an offer, and otherwise `Barred`.
fn known_of(
    quota: Option<&Quota<'_>>,
    free: &Bundle,
    for_everyone: ForEveryone,
    role: &Role,
) -> Result<Known, AllocError>
    requires { IsForEveryone free.now for_everyone }
    ensures right { IfOk result (IsKnownOf (option_copied quota.entry) free.now) }
    ensures role { IfOk result (λ known. known_role known ≡ Some role.now) }
{
    let named = role.copy()?;
    if let Some(prefix) = spent_prefix(quota, free, for_everyone, role) {
        return Ok(Known::Barred {
            role: named,
            prefix,
        });
    }
    role.recall();
    let part = part_within(quota, free, role)?;
    if is_worth_an_offer(&part) {
        return Ok(Known::Part { role: named, part });
    }
    let prefix = role.len() + 1;
    Ok(Known::Barred {
        role: named,
        prefix,
    })
}

/// Returns whether `known` is about this role.
fn is_known(known: &Known, role: &Role) -> bool
    ensures { IsTrue result → known_role known.now ≡ Some role.now }
{
    match known {
        Known::Nothing => false,
        Known::Part { role: known, .. } => known == role,
        Known::Barred { role: known, .. } => known == role,
    }
}

/// Returns how much is free and unreserved. It is computed at the first call, and then stored.
fn for_everyone(free: &mut Free) -> ForEveryone
    requires { IsEveryonesKnown free.old }
    ensures amounts { IsForEveryone free.old.bundle result }
    ensures known { (quota : Option Allowance) → IsKnown quota free.old → IsKnown quota free.new }
    ensures bundle { free.new.bundle ≡ free.old.bundle }
{
    if let Some(amounts) = free.for_everyone {
        return amounts;
    }
    let amounts = ForEveryone {
        cpus: unreserved(&free.bundle, "cpus"),
        mem: unreserved(&free.bundle, "mem"),
    };
    free.for_everyone = Some(amounts);
    amounts
}

/// Makes known what a role can have. It is computed once for clients of the same role that are tried one after another.
fn entitle(quota: Option<&Quota<'_>>, free: &mut Free, role: &Role) -> Result<(), AllocError>
    requires { IsKnown (option_copied quota) free.old }
    ensures known { OnOk result (IsKnown (option_copied quota.entry) free.new) }
    ensures role { OnOk result (known_role free.new.known ≡ Some role.now) }
    ensures bundle { free.new.bundle ≡ free.old.bundle }
{
    if is_known(&free.known, role) {
        return Ok(());
    }
    let amounts = for_everyone(free);
    let known = known_of(quota, &free.bundle, amounts, role)?;
    free.known = known;
    Ok(())
}

/// Returns the known part, if there is one, and leaves nothing known.
fn take_part(known: &mut Known) -> Option<Bundle>
    ensures part { result ≡ known_part known.old }
    ensures nothing { known.new ≡ Nothing }
{
    match mem::replace(known, Known::Nothing) {
        Known::Part { part, .. } => Some(part),
        _ => None,
    }
}

/// Grants a client what its role can have, if that is enough for an offer and no filter covers it, and takes it from the free
/// resources. After a grant, what the role can have is unknown, because the grant also uses up headroom.
fn grant_part(
    tables: &Tables,
    agent: &Name,
    client: &ClientPath,
    quota: Option<&Quota<'_>>,
    free: &mut Free,
) -> Result<Option<Bundle>, AllocError>
    requires { IsKnown (option_copied quota) free.old }
    ensures granted { IfOk result (λ granted. (rows : Rows) (a : AgentRow) (of : Client)
        → free_of rows a ≡ free.old.bundle → a.name ≡ agent.now → rows.filters ≡ tables.now.rows.filters
        → rows.clock ≡ tables.now.rows.clock → IsQuotaOf rows (option_copied quota.entry) → client.now ≡ path_of of → granted ≡ grant rows a of) }
    ensures left { IfOk result (λ granted. MatchOption granted (free.new.bundle ≡ free.old.bundle) (λ bundle. free.new.bundle ≡ rest free.old.bundle bundle)) }
    ensures known { IfOk result (λ granted. MatchOption granted
        (IsKnown (option_copied quota.entry) free.new) (λ _. (later : Option Allowance) → IsKnown later free.new)) }
    ensures role { OnOk result ((role : Path) → known_role free.new.known ≡ Some role → role ≡ role_part client.now) }
{
    entitle(quota, free, client.role())?;
    let Known::Part { part, .. } = &free.known else {
        return Ok(None);
    };
    if tables.is_held_back(client.role(), client.framework(), agent, part) {
        return Ok(None);
    }
    free.bundle = free.bundle.rest(part)?;
    free.is_worth = is_worth_an_offer(&free.bundle);
    free.is_unreserved = false;
    free.for_everyone = None;
    Ok(take_part(&mut free.known))
}

/// Returns whether no role has a limit.
fn is_unlimited(quota: Option<&Quota<'_>>) -> bool
    ensures { IsTrue result → (rows : Rows) → IsQuotaOf rows (option_copied quota.entry) → rows.limits ≡ [] }
{
    match quota {
        Some(quota) => !quota.has_limits(),
        None => true,
    }
}

/// Returns whether it is known that each role can have all free resources, and that they are enough for an offer: nothing is
/// reserved, and no role has a limit.
fn is_for_all(quota: Option<&Quota<'_>>, free: &Free) -> bool
    requires { IsKnown (option_copied quota) free.now }
    ensures { IsTrue result → (role : Path) → IsOffered (option_copied quota.entry) free.now.bundle role (Some free.now.bundle) }
{
    free.bundle.recall();
    if free.is_unreserved && free.is_worth {
        return is_unlimited(quota);
    }
    false
}

/// Grants a client all free resources of an agent, unless a filter covers them.
fn take_all(
    alloc: Global,
    tables: &Tables,
    agent: &Name,
    client: &ClientPath,
    free: &mut Free,
) -> Option<Bundle>
    ensures taken { result ≡ (if is_held_back tables.now.rows.filters tables.now.rows.clock
        (record { role = role_part client.now; framework = framework_part client.now }) agent.now free.old.bundle then None else Some free.old.bundle) }
    ensures left { MatchOption result (free.new.bundle ≡ free.old.bundle) (λ bundle. free.new.bundle ≡ rest free.old.bundle bundle) }
    ensures known { (quota later : Option Allowance) → IsKnown quota free.old → IsKnown later free.new }
    ensures nothing { free.new.known ≡ Nothing }
{
    free.known = Known::Nothing;
    if tables.is_held_back(client.role(), client.framework(), agent, &free.bundle) {
        return None;
    }
    free.bundle.recall();
    free.is_worth = false;
    free.for_everyone = None;
    Some(mem::replace(&mut free.bundle, Bundle::empty(alloc)))
}

/// Grants a client the free resources of an agent that its role can have, if they are enough for an offer and no filter covers
/// them. They are free no longer. On the fast path, every role can have all free resources.
pub fn grant(
    alloc: Global,
    tables: &Tables,
    agent: &Name,
    client: &ClientPath,
    quota: Option<&Quota<'_>>,
    free: &mut Free,
) -> Result<Option<Bundle>, AllocError>
    requires { IsKnown (option_copied quota) free.old }
    ensures granted { IfOk result (λ granted. (rows : Rows) (a : AgentRow) (of : Client)
        → free_of rows a ≡ free.old.bundle → a.name ≡ agent.now → rows.filters ≡ tables.now.rows.filters
        → rows.clock ≡ tables.now.rows.clock → IsQuotaOf rows (option_copied quota.entry) → client.now ≡ path_of of → granted ≡ grant rows a of) }
    ensures left { IfOk result (λ granted. MatchOption granted (free.new.bundle ≡ free.old.bundle) (λ bundle. free.new.bundle ≡ rest free.old.bundle bundle)) }
    ensures known { IfOk result (λ granted. MatchOption granted
        (IsKnown (option_copied quota.entry) free.new) (λ _. (later : Option Allowance) → IsKnown later free.new)) }
    ensures role { OnOk result ((role : Path) → known_role free.new.known ≡ Some role → role ≡ role_part client.now) }
{
    if is_for_all(quota, free) {
        return Ok(take_all(alloc, tables, agent, client, free));
    }
    let granted = grant_part(tables, agent, client, quota, free)?;
    Ok(granted)
}
