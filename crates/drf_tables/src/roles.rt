//! Changes of the roles of a framework.
#![tactic(auto, unfolding(crate::specs::Inside::rows_of))]

ghost use Rattle.std.specs.Prelude.{◌≡◌, ◌<◌, ◌^◌, true, false, find, length, map, Some};
ghost use Rattle.std.specs.List.{list_any, AllByRecursion};
ghost use Rattle.drf_holdings.specs.Listed.{task_row};
ghost use Rattle.drf_role.specs.Role.{IsRole};
ghost use Rattle.drf_role.specs.Text.{same_text};
ghost use Rattle.drf_rows.specs.Held.{clients_in};
ghost use Rattle.drf_rows.specs.Holdings.{holding_of_offer, holding_of_task};
ghost use Rattle.drf_rows.specs.Members.{has_framework};
ghost use Rattle.drf_rows.specs.Roles.{framework_set, is_left, is_role_in_use, with_framework_roles, with_roles};
ghost use Rattle.drf_rows.specs.declared.rows.FrameworkRow.{FrameworkRow};

use crate::registry::members::{count_clients, put_clients};
use crate::tables::Tables;
use drf_holdings::{InOrder, Task};
use drf_role::{Name, Role};
use drf_rows::{ClientRow, OfferRow, Table, is_among};

/// Returns whether a holder is a client of the framework in a role that is not among these.
fn is_left(framework: &Name, roles: &[Role], holder: &Name, role: &Role) -> bool
    ensures { result ≡ is_left framework.now roles.now (record { role = role.now; framework = holder.now }) }
{
    *holder == *framework && !is_among(roles, role)
}

/// Returns whether a framework holds an offer in a role that is not among these.
fn is_offer_left(offers: InOrder<'_, OfferRow>, framework: &Name, roles: &[Role]) -> bool
    ensures { result ≡ list_any (λ h. is_left framework.now roles.now h.client) (map holding_of_offer offers.entry) }
{
    for offer in offers {
        if is_left(framework, roles, &offer.framework, &offer.role) {
            return true;
        }
    }
    false
}

/// Returns whether a framework holds a task in a role that is not among these.
fn is_task_left(tasks: InOrder<'_, Task>, framework: &Name, roles: &[Role]) -> bool
    ensures { result ≡ list_any (λ h. is_left framework.now roles.now h.client) (map holding_of_task (map task_row tasks.entry)) }
{
    for task in tasks {
        if is_left(framework, roles, &task.row.framework, &task.row.role) {
            return true;
        }
    }
    false
}

/// Proves that roles are valid.
fn recall_roles(roles: &[Role])
    ensures { AllByRecursion IsRole roles.now }
{
    for role in roles {
        role.recall();
    }
}

impl Tables {
    /// Returns whether the framework holds an offer or a task in a role that is not among these. It looks at all offers and tasks.
    pub fn is_role_in_use(&self, framework: &Name, roles: &[Role]) -> bool
        ensures { result ≡ is_role_in_use self.now.rows framework.now roles.now }
    {
        is_offer_left(self.holdings.offers(), framework, roles)
            || is_task_left(self.holdings.tasks(), framework, roles)
    }

    /// Gives a framework exactly these roles, with these clients, and removes the filters of the roles that it loses, in which it
    /// holds nothing. It never allocates.
    pub fn set_framework(&mut self, framework: &Name, roles: &[Role], clients: Table<ClientRow>)
        requires known { has_framework self.old.rows framework.now ≡ true }
        requires unused { is_role_in_use self.old.rows framework.now roles.now ≡ false }
        requires clients { (f : FrameworkRow) → find (λ f. same_text f.name framework.now) self.old.rows.frameworks ≡ Some f
            → clients ≡ with_roles roles.now f.clients }
        requires few { length (clients_in (with_framework_roles self.old.rows framework.now roles.now)) < 2 ^ 64 }
        ensures rows { self.new.rows ≡ framework_set self.old.rows framework.now roles.now }
        ensures settled { self.new.settled ≡ self.old.settled }
        ensures counted { self.new.counted ≡ self.old.counted }
    {
        recall_roles(roles);
        let clients = clients.into_vec();
        let others = self.clients - count_clients(&self.frameworks, framework);
        self.clients = others + clients.len();
        put_clients(&mut self.frameworks, framework, clients);
        self.filters.drop_left(framework, roles);
    }
}
