//! Which offers and tasks an event ends.
use drf_role::Name;

/// A release of resources: it says which offers and tasks end.
#[derive(Clone, Copy)]
pub enum Release<'a> {
    /// The offer with this number.
    Offer(u64),
    /// The task of a framework with this name.
    Task { framework: &'a Name, name: &'a Name },
    /// All offers on an agent.
    OffersOn(&'a Name),
    /// All offers and tasks on an agent.
    AllOn(&'a Name),
    /// All offers and tasks of a framework.
    AllOf(&'a Name),
}
