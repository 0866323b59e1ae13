//! The theorem that a walk of the tree visits the clients in the definition's order.
ghost use Rattle.drf_tree.specs.Walk.{WalkIsOrder};

/// Proves that a depth-first walk through sorted families visits the clients in the definition's order.
pub fn walk_law()
    ensures { WalkIsOrder }
{}
