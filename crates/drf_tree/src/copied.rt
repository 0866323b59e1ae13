//! Copies of a tree and its lists.
ghost use Rattle.std.specs.Prelude.{◌≡◌, IfOk, map};
ghost use Rattle.drf_sorter.specs.Content.{Content};
ghost use Rattle.drf_tree.specs.Nodes.{seen_in};
ghost use Rattle.drf_tree.specs.Tree.{IsTreeOf};

use crate::family::Family;
use crate::node::Sum;
use crate::tree::Tree;
use std::alloc::{AllocError, Global};

impl Tree {
    pub(crate) fn copy(&self) -> Result<Tree, AllocError>
        ensures tree { IfOk result (λ tree. (content : Content) → IsTreeOf content self.now → IsTreeOf content tree) }
        ensures places { IfOk result (λ tree. tree.places.items ≡ self.now.places.items) }
        ensures families { IfOk result (λ tree. map seen_in tree.families.items ≡ map seen_in self.now.families.items) }
        ensures marks { IfOk result (λ tree. tree.marks ≡ self.now.marks) }
    {
        let alloc = self.alloc();
        Ok(Tree {
            places: self.places.copy()?,
            sums: copies_of_sums(alloc, &self.sums)?,
            families: copies_of_families(alloc, &self.families)?,
            marks: self.marks.copy()?,
        })
    }
}

fn copies_of_sums(alloc: Global, sums: &[Sum]) -> Result<Vec<Sum>, AllocError>
    ensures { IfOk result (λ copies. copies.items ≡ sums.now) }
{
    let mut copies = Vec::with_capacity(alloc, sums.len())?;
    for sum in sums {
        copies.push(sum.copy()?)?;
    }
    Ok(copies)
}

fn copies_of_families(alloc: Global, families: &[Family]) -> Result<Vec<Family>, AllocError>
    ensures { IfOk result (λ copies. map seen_in copies.items ≡ map seen_in families.now) }
{
    let mut copies = Vec::with_capacity(alloc, families.len())?;
    for family in families {
        copies.push(family.copy()?)?;
    }
    Ok(copies)
}
