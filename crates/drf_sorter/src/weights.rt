//! `Weights`, the weights of roles.
ghost use Rattle.std.specs.Prelude.{◌≡◌, ◌≤◌, [], IfOk, IsOk, IsTrue, OnErr, OnOk};
ghost use Rattle.std.specs.Option.{option_copied};
ghost use Rattle.std.specs.List.{find, list_any, position};
ghost use Rattle.drf_role.specs.Path.{same_path};
ghost use Rattle.drf_rows.specs.Held.{weight_of};
ghost use Rattle.drf_rows.specs.Weights.{are_weights, weights_with};

use drf_role::{NodePath, Role};
use drf_rows::WeightRow;
use std::alloc::{AllocError, Global};

/// The weight of a node that has no weight of its own, in thousandths.
pub const DEFAULT_WEIGHT: u64 = 1000;

/// The weights of roles, in thousandths.
#[derive(Drop)]
pub struct Weights {
    rows: Vec<WeightRow>,
    ghost weighs: { IsTrue (are_weights rows.items) },
}

/// Returns the position of the role's weight.
fn row_index(weights: &[WeightRow], role: &Role) -> Option<usize>
    ensures { result ≡ position (λ w. same_path w.role role.now) weights.now }
{
    weights.iter().position(|row| row.role == *role)
}

/// Returns whether the node is this role.
fn is_node_of(role: &Role, node: &NodePath) -> bool
    ensures { result ≡ same_path role.now node.now }
{
    role.text() == node.text()
}

/// Returns the weight row of the role that the node is, if it has one.
fn row_of_node<'a>(weights: &'a [WeightRow], node: &NodePath) -> Option<&'a WeightRow>
    ensures { option_copied result ≡ find (λ w. same_path w.role node.now) weights.now }
{
    weights.iter().find(|row| is_node_of(&row.role, node))
}

impl Weights {
    /// Returns weights in which no role has a weight of its own.
    pub fn new(alloc: Global) -> Weights
        ensures { result.rows.items ≡ [] }
    {
        Weights {
            rows: Vec::new(alloc),
        }
    }

    /// Returns the weight of a node, in thousandths.
    pub fn of(&self, node: &NodePath) -> u64
        ensures value { result ≡ weight_of self.now.rows.items node.now }
        ensures weighs { 1 ≤ result }
        ensures light { result ≤ 1000000 }
    {
        match row_of_node(&self.rows, node) {
            Some(row) => row.weight,
            None => DEFAULT_WEIGHT,
        }
    }

    /// Sets the weight of a role, in thousandths. It allocates, and so can fail, only if the role has no weight yet; then nothing changes.
    pub fn set(&mut self, role: &Role, weight: u64) -> Result<(), AllocError>
        requires weighs { 1 ≤ weight }
        requires light { weight ≤ 1000000 }
        ensures ok { OnOk result (self.new.rows.items ≡ weights_with self.old.rows.items role.now weight) }
        ensures err { OnErr result (self.new.rows.items ≡ self.old.rows.items) }
        ensures replaced { IsTrue (list_any (λ w. same_path w.role role.now) self.old.rows.items) → IsOk result }
    {
        match row_index(&self.rows, role) {
            Some(at) => {
                let row = &mut self.rows[at];
                row.weight = weight;
                Ok(())
            }
            None => {
                let role = role.copy()?;
                Ok(self.rows.push(WeightRow { role, weight })?)
            }
        }
    }

    pub fn copy(&self) -> Result<Weights, AllocError>
        ensures { IfOk result (λ copy. copy.rows.items ≡ self.now.rows.items) }
    {
        let mut rows = Vec::with_capacity(*self.rows.allocator(), self.rows.len())?;
        for row in &self.rows {
            rows.push(WeightRow {
                role: row.role.copy()?,
                weight: row.weight,
            })?;
        }
        Ok(Weights { rows })
    }
}
