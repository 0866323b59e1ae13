//! The rows of an allocator as single values.
ghost use Rattle.std.specs.Prelude.{map};
ghost use Rattle.std.specs.List.{AllByRecursion};
ghost use Rattle.drf_role.specs.Role.{IsRole};
ghost use Rattle.drf_rows.specs.Consistent.{IsFramework};
ghost use Rattle.drf_saved.specs.Saved.{IsTyped};

use drf_rows::{
    AgentRow, ClientRow, FilterRow, FrameworkRow, LimitRow, OfferRow, TaskRow, WeightRow,
};

/// The numbers at the head of a state: the clock in milliseconds, the number of the next offer, and the number of accepted events.
#[derive(Clone, Copy)]
pub struct Head {
    pub clock: u64,
    pub next_offer: u64,
    pub events: u64,
}

/// A row of one of the tables.
#[derive(Drop)]
pub enum SavedRow {
    Agent(AgentRow),
    Framework(FrameworkRow),
    Weight(WeightRow),
    Limit(LimitRow),
    Offer(OfferRow),
    Task(TaskRow),
    Filter(FilterRow),
}

/// Makes the invariants of the clients' roles available to a proof.
fn recall_roles(clients: &[ClientRow])
    ensures { AllByRecursion IsRole (map (λ c. c.role) clients.now) }
{
    for client in clients {
        client.role.recall();
    }
}

/// Makes the invariants of a framework's name and roles available to a proof.
fn recall_framework(row: &FrameworkRow)
    ensures { IsFramework row.now }
{
    row.name.recall();
    recall_roles(row.clients.as_slice());
}

impl SavedRow {
    /// Makes the invariants of a row's types available to a proof. Does nothing when it is called.
    pub fn recall(&self)
        ensures { IsTyped self.now }
    {
        match self {
            SavedRow::Agent(row) => {
                row.name.recall();
                row.total.recall();
            }
            SavedRow::Framework(row) => recall_framework(row),
            SavedRow::Weight(row) => row.role.recall(),
            SavedRow::Limit(row) => row.role.recall(),
            SavedRow::Offer(row) => {
                row.agent.recall();
                row.framework.recall();
                row.role.recall();
                row.bundle.recall();
            }
            SavedRow::Task(row) => {
                row.name.recall();
                row.agent.recall();
                row.framework.recall();
                row.role.recall();
                row.bundle.recall();
            }
            SavedRow::Filter(row) => {
                row.agent.recall();
                row.framework.recall();
                row.role.recall();
                row.bundle.recall();
            }
        }
    }
}

/// The content of a line of a state file. The last line has no content: it is recognized by its bytes.
#[derive(Drop)]
pub enum StateLine {
    Head(Head),
    Row(SavedRow),
    End,
}
