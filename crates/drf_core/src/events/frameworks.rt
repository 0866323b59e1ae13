//! The effects of events of frameworks and clients.
ghost use Rattle.std.specs.Prelude.{◌≡◌, ◌++◌, None, true, filter, map, not, sum_by, length, IfOk, OnOk, OnErr};
ghost use Rattle.drf_rows.specs.Members.{distinct, has_framework, new_client};
ghost use Rattle.drf_rows.specs.Roles.{clients_joined, clients_kept, has_role, with_roles};
ghost use Rattle.drf_rows.specs.Step.{refusal_of, effect, is_in_role};
ghost use Rattle.drf_rows.specs.declared.event.Event.TheVariants.{AddFramework, SetFramework, RemoveFramework, Suppress, Revive};
ghost use Rattle.drf_laws.specs.Kept.{IsKept};
ghost use Rattle.drf_sorter.specs.Work.{Defers, DefersOnOk, SpendsOnOk};
ghost use Rattle.drf_core.specs.Working.{nodes_of, touched};
ghost use Rattle.drf_content.specs.Registering.{AreKnown, AreNew, client_paths, paths_joined, paths_left, with_all, without_all};

use crate::cluster::Cluster;
use drf_role::{ClientPath, Name, Role};
use drf_rows::{ClientRow, Copied, Limits, Table, copy_all, is_among};
use drf_sorter::Sorter;
use drf_tables::Release;
use std::alloc::{AllocError, Global};

/// Returns the roles of a list without duplicates, in the order of their first occurrences.
fn distinct_roles(alloc: Global, roles: Table<Role>) -> Result<Vec<Role>, AllocError>
    ensures { IfOk result (λ kept. kept.items ≡ distinct roles) }
{
    let mut kept = Vec::new(alloc);
    for role in roles.into_vec() {
        if kept.contains(&role) {
            continue;
        }
        kept.push(role)?;
    }
    Ok(kept)
}

/// Returns the clients of a framework that registers: one for each role, not suppressed, with a count of 0.
fn new_clients(alloc: Global, roles: Vec<Role>) -> Result<Table<ClientRow>, AllocError>
    ensures { IfOk result (λ clients. clients ≡ map new_client roles.items) }
{
    let mut clients = Vec::with_capacity(alloc, roles.len())?;
    for role in roles {
        clients.push(ClientRow {
            role,
            count: 0,
            suppressed: false,
        })?;
    }
    Ok(Table::from_vec(clients))
}

/// Returns the paths of clients of a framework.
fn client_paths(
    alloc: Global,
    framework: &Name,
    clients: &[ClientRow],
) -> Result<Vec<ClientPath>, AllocError>
    ensures { IfOk result (λ paths. paths.items ≡ client_paths framework.now clients.now) }
{
    let mut paths = Vec::with_capacity(alloc, clients.len())?;
    for client in clients {
        paths.push(ClientPath::new(alloc, &client.role, framework)?)?;
    }
    Ok(paths)
}

/// Adds clients to the sorter, all or none. If memory runs out, those already added are removed, which needs no memory.
fn add_clients<S: Sorter>(sorter: &mut S, paths: &[ClientPath]) -> Result<(), AllocError>
    requires { AreNew (S.content sorter.old) paths.now }
    ensures ok { OnOk result (S.content sorter.new ≡ with_all (S.content sorter.old) paths.now) }
    ensures err { OnErr result (S.content sorter.new ≡ S.content sorter.old) }
    ensures spends { SpendsOnOk S.COUNTED result (S.work sorter.old) (S.work sorter.new) (sum_by length paths.now) }
{
    let Some((first, rest)) = paths.split_first() else {
        return Ok(());
    };
    sorter.add(first.copy()?)?;
    match add_clients(sorter, rest) {
        Ok(()) => Ok(()),
        Err(error) => {
            sorter.remove(first);
            Err(error)
        }
    }
}

/// Removes clients from the sorter.
fn remove_clients<S: Sorter>(sorter: &mut S, paths: &[ClientPath])
    requires { AreKnown (S.content sorter.old) paths.now }
    ensures content { S.content sorter.new ≡ without_all (S.content sorter.old) paths.now }
    ensures spends { Defers S.COUNTED (S.work sorter.old) (S.work sorter.new) (sum_by length paths.now) }
{
    for path in paths {
        sorter.remove(path);
    }
}

/// Returns whether one of the clients has the role.
fn has_role(clients: &[ClientRow], role: &Role) -> bool
    ensures { result ≡ has_role clients.now role.now }
{
    clients.iter().any(|client| client.role == *role)
}

/// Returns the roles of a list that none of the clients has.
fn new_roles(
    alloc: Global,
    roles: Vec<Role>,
    clients: &[ClientRow],
) -> Result<Vec<Role>, AllocError>
    ensures { IfOk result (λ kept. kept.items ≡ filter (λ role. not (has_role clients.now role)) roles.items) }
{
    let mut kept = Vec::new(alloc);
    for role in roles {
        if has_role(clients, &role) {
            continue;
        }
        kept.push(role)?;
    }
    Ok(kept)
}

/// Returns copies of the clients whose roles are in a list.
fn kept_clients(
    alloc: Global,
    roles: &[Role],
    clients: &[ClientRow],
) -> Result<Vec<ClientRow>, AllocError>
    ensures { IfOk result (λ kept. kept.items ≡ clients_kept roles.now clients.now) }
{
    let mut kept = Vec::new(alloc);
    for client in clients {
        if is_among(roles, &client.role) {
            kept.push(client.copy()?)?;
        }
    }
    Ok(kept)
}

/// Returns the paths of the clients whose roles are not in a list.
fn left_paths(
    alloc: Global,
    framework: &Name,
    roles: &[Role],
    clients: &[ClientRow],
) -> Result<Vec<ClientPath>, AllocError>
    ensures { IfOk result (λ paths. paths.items ≡ paths_left framework.now roles.now clients.now) }
{
    let mut paths = Vec::new(alloc);
    for client in clients {
        if is_among(roles, &client.role) {
            continue;
        }
        paths.push(ClientPath::new(alloc, &client.role, framework)?)?;
    }
    Ok(paths)
}

/// Appends copies of clients to a list.
fn push_clients(kept: &mut Vec<ClientRow>, clients: &[ClientRow]) -> Result<(), AllocError>
    ensures { OnOk result (kept.new.items ≡ kept.old.items ++ clients.now) }
{
    for client in clients {
        kept.push(client.copy()?)?;
    }
    Ok(())
}

/// Returns the clients that a framework with these clients gains when it gets these roles.
fn joined_clients(
    alloc: Global,
    roles: &[Role],
    clients: &[ClientRow],
) -> Result<Table<ClientRow>, AllocError>
    ensures { IfOk result (λ joined. joined ≡ clients_joined roles.now clients.now) }
{
    let roles = distinct_roles(alloc, copy_all(alloc, roles)?)?;
    let roles = new_roles(alloc, roles, clients)?;
    new_clients(alloc, roles)
}

/// Returns the clients of a framework after it gets these roles: those that stay, and then those that it gains.
fn clients_then(
    alloc: Global,
    roles: &[Role],
    clients: &[ClientRow],
) -> Result<Table<ClientRow>, AllocError>
    ensures { IfOk result (λ then. then ≡ with_roles roles.now clients.now) }
{
    let joined = joined_clients(alloc, roles, clients)?;
    let mut then = kept_clients(alloc, roles, clients)?;
    push_clients(&mut then, joined.as_slice())?;
    Ok(Table::from_vec(then))
}

/// Returns the paths of the clients that a framework with these clients gains when it gets these roles.
fn joined_paths(
    alloc: Global,
    framework: &Name,
    roles: &[Role],
    clients: &[ClientRow],
) -> Result<Vec<ClientPath>, AllocError>
    ensures { IfOk result (λ paths. paths.items ≡ paths_joined framework.now roles.now clients.now) }
{
    let joined = joined_clients(alloc, roles, clients)?;
    client_paths(alloc, framework, joined.as_slice())
}

/// A change of the roles of a framework: its clients after the change, and the paths of the clients that it gains and loses.
struct RoleChange {
    clients: Table<ClientRow>,
    joined: Vec<ClientPath>,
    left: Vec<ClientPath>,
}

impl RoleChange {
    /// Computes the change by which a framework with these clients gets exactly these roles.
    fn new(
        alloc: Global,
        framework: &Name,
        roles: &[Role],
        clients: &[ClientRow],
    ) -> Result<RoleChange, AllocError>
        ensures clients { IfOk result (λ change. change.clients ≡ with_roles roles.now clients.now) }
        ensures joined { IfOk result (λ change. change.joined.items ≡ paths_joined framework.now roles.now clients.now) }
        ensures left { IfOk result (λ change. change.left.items ≡ paths_left framework.now roles.now clients.now) }
    {
        Ok(RoleChange {
            clients: clients_then(alloc, roles, clients)?,
            joined: joined_paths(alloc, framework, roles, clients)?,
            left: left_paths(alloc, framework, roles, clients)?,
        })
    }

    /// Returns the clients after the change.
    fn into_clients(self) -> Table<ClientRow>
        ensures { result ≡ self.clients }
    {
        let RoleChange {
            clients,
            joined: _joined,
            left: _left,
        } = self;
        clients
    }
}

impl Drop for RoleChange {
    fn drop(self) {
        let RoleChange {
            clients: _clients,
            joined: _joined,
            left: _left,
        } = self;
    }
}

impl<S: Sorter> Cluster<S> {
    /// Adds a framework, with a client for each of its roles. If memory runs out, no row changes.
    pub(crate) fn add_framework(
        &mut self,
        alloc: Global,
        limits: &Limits,
        framework: Name,
        roles: Table<Role>,
    ) -> Result<(), AllocError>
        requires kept { IsKept limits.now self.old.rows }
        requires welcome { refusal_of limits.now self.old.rows (AddFramework framework roles) ≡ None }
        ensures ok { OnOk result (self.new.rows ≡ effect self.old.rows (AddFramework framework roles)) }
        ensures spends { SpendsOnOk S.COUNTED result self.old.work self.new.work (nodes_of (touched self.old.rows (AddFramework framework roles))) }
        ensures err { OnErr result (self.new.rows ≡ self.old.rows) }
    {
        let roles = distinct_roles(alloc, roles)?;
        let clients = new_clients(alloc, roles)?;
        let paths = client_paths(alloc, &framework, clients.as_slice())?;
        let named = self.tables.reserve_framework(framework)?;
        add_clients(&mut self.sorter, &paths)?;
        self.tables.add_framework(named, clients);
        Ok(())
    }

    /// Replaces the roles of a framework. If memory runs out, no row changes.
    pub(crate) fn set_framework(
        &mut self,
        alloc: Global,
        limits: &Limits,
        framework: &Name,
        roles: &[Role],
    ) -> Result<(), AllocError>
        requires kept { IsKept limits.now self.old.rows }
        requires welcome { refusal_of limits.now self.old.rows (SetFramework framework.now roles.now) ≡ None }
        ensures ok { OnOk result (self.new.rows ≡ effect self.old.rows (SetFramework framework.now roles.now)) }
        ensures spends { SpendsOnOk S.COUNTED result self.old.work self.new.work (nodes_of (touched self.old.rows (SetFramework framework.now roles.now))) }
        ensures err { OnErr result (self.new.rows ≡ self.old.rows) }
    {
        let change = RoleChange::new(alloc, framework, roles, self.tables.clients(framework))?;
        add_clients(&mut self.sorter, &change.joined)?;
        remove_clients(&mut self.sorter, &change.left);
        self.tables
            .set_framework(framework, roles, change.into_clients());
        Ok(())
    }

    /// Removes a framework, and ends all its offers and tasks. If memory runs out, no row changes.
    pub(crate) fn remove_framework(
        &mut self,
        alloc: Global,
        limits: &Limits,
        framework: &Name,
    ) -> Result<(), AllocError>
        requires kept { IsKept limits.now self.old.rows }
        requires known { has_framework self.old.rows framework.now ≡ true }
        ensures ok { OnOk result (self.new.rows ≡ effect self.old.rows (RemoveFramework framework.now)) }
        ensures spends { DefersOnOk S.COUNTED result self.old.work self.new.work (nodes_of (touched self.old.rows (RemoveFramework framework.now))) }
        ensures err { OnErr result (self.new.rows ≡ self.old.rows) }
    {
        let paths = client_paths(alloc, framework, self.tables.clients(framework))?;
        self.end(Release::AllOf(framework));
        remove_clients(&mut self.sorter, &paths);
        self.tables.remove_framework(framework);
        Ok(())
    }

    /// Suppresses a client, so that cycles make it no offers. If memory runs out, no row changes.
    pub(crate) fn suppress(
        &mut self,
        alloc: Global,
        framework: &Name,
        role: &Role,
    ) -> Result<(), AllocError>
        requires { is_in_role self.old.rows framework.now role.now ≡ true }
        ensures ok { OnOk result (self.new.rows ≡ effect self.old.rows (Suppress framework.now role.now)) }
        ensures spends { DefersOnOk S.COUNTED result self.old.work self.new.work (nodes_of (touched self.old.rows (Suppress framework.now role.now))) }
        ensures err { OnErr result (self.new.rows ≡ self.old.rows) }
    {
        let path = ClientPath::new(alloc, role, framework)?;
        self.tables.suppress(framework, role);
        self.sorter.set_active(&path, false);
        Ok(())
    }

    /// Revives a client, and removes all its filters. If memory runs out, no row changes.
    pub(crate) fn revive(
        &mut self,
        alloc: Global,
        framework: &Name,
        role: &Role,
    ) -> Result<(), AllocError>
        requires { is_in_role self.old.rows framework.now role.now ≡ true }
        ensures ok { OnOk result (self.new.rows ≡ effect self.old.rows (Revive framework.now role.now)) }
        ensures spends { DefersOnOk S.COUNTED result self.old.work self.new.work (nodes_of (touched self.old.rows (Revive framework.now role.now))) }
        ensures err { OnErr result (self.new.rows ≡ self.old.rows) }
    {
        let path = ClientPath::new(alloc, role, framework)?;
        self.tables.revive(framework, role);
        self.sorter.set_active(&path, true);
        Ok(())
    }
}
