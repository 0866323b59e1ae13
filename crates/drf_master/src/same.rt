//! Equality of events, replies and entries.
ghost use Rattle.std.specs.Prelude.{◌≡◌, ◌↔◌, IsTrue};

use drf_amount::is_same;
use drf_board::Entry;
use drf_bundle::{Bundle, Quantities};
use drf_role::{Name, NodePath, Role};
use drf_rows::{
    Accept, Decline, Event, NodeLine, OfferLine, Reply, Report, SharedTable, Table, TaskList,
};

/// Types whose values can be compared for equality.
pub trait Same {
    /// Returns whether both values are equal.
    fn same(&self, other: &Self) -> bool
        ensures { IsTrue result ↔ (self.now ≡ other.now) };
}

// Returns whether two lists have equal elements in the same order.
fn are_rows<T: Same>(rows: &[T], others: &[T]) -> bool
    ensures { IsTrue result ↔ (rows.now ≡ others.now) }
{
    if rows.len() != others.len() {
        return false;
    }
    for place in 0..rows.len() {
        if !rows[place].same(&others[place]) {
            return false;
        }
    }
    true
}

impl Same for Name {
    fn same(&self, other: &Name) -> bool {
        self == other
    }
}

impl Same for Role {
    fn same(&self, other: &Role) -> bool {
        self == other
    }
}

impl Same for NodePath {
    fn same(&self, other: &NodePath) -> bool {
        self == other
    }
}

impl Same for Bundle {
    fn same(&self, other: &Bundle) -> bool {
        is_same(self, other)
    }
}

impl Same for drf_bundle::Entry {
    fn same(&self, other: &drf_bundle::Entry) -> bool {
        let is_label = is_same_text(self.label.text(), other.label.text());
        is_label && self.amount.thousandths() == other.amount.thousandths()
    }
}

// Returns whether two texts have the same bytes.
fn is_same_text(text: &str, other: &str) -> bool
    ensures { IsTrue result ↔ (text.now ≡ other.now) }
{
    text == other
}

impl Same for Quantities {
    fn same(&self, other: &Quantities) -> bool {
        are_rows(self.entries(), other.entries())
    }
}

impl<T: Same> Same for Table<T> {
    fn same(&self, other: &Table<T>) -> bool {
        are_rows(self.as_slice(), other.as_slice())
    }
}

impl<T: Same> Same for SharedTable<T> {
    fn same(&self, other: &SharedTable<T>) -> bool {
        are_rows(self.as_slice(), other.as_slice())
    }
}

impl Same for (Name, Bundle) {
    fn same(&self, other: &(Name, Bundle)) -> bool {
        let is_name = self.0.same(&other.0);
        is_name && self.1.same(&other.1)
    }
}

impl Same for TaskList {
    fn same(&self, other: &TaskList) -> bool {
        are_rows(self.as_slice(), other.as_slice())
    }
}

impl Same for Accept {
    fn same(&self, other: &Accept) -> bool {
        self.offer == other.offer
            && self.at == other.at
            && self.refuse_ms == other.refuse_ms
            && self.framework.same(&other.framework)
            && self.tasks.same(&other.tasks)
    }
}

impl Same for Decline {
    fn same(&self, other: &Decline) -> bool {
        self.offer == other.offer
            && self.at == other.at
            && self.refuse_ms == other.refuse_ms
            && self.framework.same(&other.framework)
    }
}

impl Same for Event {
    // This function is long because each of the 20 kinds of events appears once, beside its comparison; helpers for groups of kinds would have to
    // distinguish the kinds again. There is one inner match for each kind, because a single match on both events would be 400 cases of a proof.
    fn same(&self, other: &Event) -> bool {
        match self {
            Event::AddAgent { agent, total } => match other {
                Event::AddAgent {
                    agent: second,
                    total: whole,
                } => agent.same(second) && total.same(whole),
                _ => false,
            },
            Event::RemoveAgent { agent } => match other {
                Event::RemoveAgent { agent: second } => agent.same(second),
                _ => false,
            },
            Event::ActivateAgent { agent } => match other {
                Event::ActivateAgent { agent: second } => agent.same(second),
                _ => false,
            },
            Event::DeactivateAgent { agent } => match other {
                Event::DeactivateAgent { agent: second } => agent.same(second),
                _ => false,
            },
            Event::SetAgent { agent, total } => match other {
                Event::SetAgent {
                    agent: second,
                    total: whole,
                } => agent.same(second) && total.same(whole),
                _ => false,
            },
            Event::AddFramework { framework, roles } => match other {
                Event::AddFramework {
                    framework: second,
                    roles: others,
                } => framework.same(second) && roles.same(others),
                _ => false,
            },
            Event::SetFramework { framework, roles } => match other {
                Event::SetFramework {
                    framework: second,
                    roles: others,
                } => framework.same(second) && roles.same(others),
                _ => false,
            },
            Event::RemoveFramework { framework } => match other {
                Event::RemoveFramework { framework: second } => framework.same(second),
                _ => false,
            },
            Event::Accept(accept) => match other {
                Event::Accept(second) => accept.same(second),
                _ => false,
            },
            Event::Decline(decline) => match other {
                Event::Decline(second) => decline.same(second),
                _ => false,
            },
            Event::Rescind { offer } => match other {
                Event::Rescind { offer: second } => offer == second,
                _ => false,
            },
            Event::Finish { framework, task } => match other {
                Event::Finish {
                    framework: second,
                    task: other_task,
                } => framework.same(second) && task.same(other_task),
                _ => false,
            },
            Event::Suppress { framework, role } => match other {
                Event::Suppress {
                    framework: second,
                    role: other_role,
                } => framework.same(second) && role.same(other_role),
                _ => false,
            },
            Event::Revive { framework, role } => match other {
                Event::Revive {
                    framework: second,
                    role: other_role,
                } => framework.same(second) && role.same(other_role),
                _ => false,
            },
            Event::Reserve {
                agent,
                role,
                resources,
            } => match other {
                Event::Reserve {
                    agent: second,
                    role: other_role,
                    resources: others,
                } => agent.same(second) && role.same(other_role) && resources.same(others),
                _ => false,
            },
            Event::Unreserve {
                agent,
                role,
                resources,
            } => match other {
                Event::Unreserve {
                    agent: second,
                    role: other_role,
                    resources: others,
                } => agent.same(second) && role.same(other_role) && resources.same(others),
                _ => false,
            },
            Event::SetWeight { role, weight } => match other {
                Event::SetWeight {
                    role: second,
                    weight: other_weight,
                } => weight == other_weight && role.same(second),
                _ => false,
            },
            Event::SetLimit { role, limit } => match other {
                Event::SetLimit {
                    role: second,
                    limit: other_limit,
                } => role.same(second) && limit.same(other_limit),
                _ => false,
            },
            Event::Cycle { at } => match other {
                Event::Cycle { at: second } => at == second,
                _ => false,
            },
            Event::Report => match other {
                Event::Report => true,
                _ => false,
            },
        }
    }
}

impl Same for OfferLine {
    fn same(&self, other: &OfferLine) -> bool {
        self.number == other.number
            && self.agent.same(&other.agent)
            && self.framework.same(&other.framework)
            && self.role.same(&other.role)
            && self.resources.same(&other.resources)
    }
}

impl Same for NodeLine {
    fn same(&self, other: &NodeLine) -> bool {
        self.share.0 == other.share.0
            && self.share.1 == other.share.1
            && self.weighted.0 == other.weighted.0
            && self.weighted.1 == other.weighted.1
            && self.count == other.count
            && self.path.same(&other.path)
            && self.held.same(&other.held)
    }
}

impl Same for Report {
    fn same(&self, other: &Report) -> bool {
        self.total.same(&other.total) && self.nodes.same(&other.nodes)
    }
}

impl Same for Reply {
    fn same(&self, other: &Reply) -> bool {
        match self {
            Reply::Done => match other {
                Reply::Done => true,
                _ => false,
            },
            Reply::Offers(offers) => match other {
                Reply::Offers(others) => offers.same(others),
                _ => false,
            },
            Reply::Report(report) => match other {
                Reply::Report(second) => report.same(second),
                _ => false,
            },
            Reply::Refused(refusal) => match other {
                Reply::Refused(second) => refusal == second,
                _ => false,
            },
        }
    }
}

impl Same for Entry {
    fn same(&self, other: &Entry) -> bool {
        self.event.same(&other.event) && self.reply.same(&other.reply)
    }
}
