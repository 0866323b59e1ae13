//! Operations that walk through two sorted lists of labels, side by side.
ghost use Rattle.std.specs.Prelude.{◌≡◌, List, ℕ, false, IsTrue, IfOk};
ghost use Rattle.std.specs.Bool.{OnTrue, OnFalse};
ghost use Rattle.drf_kinds.specs.Sets.{is_met, is_kept};
ghost use Rattle.drf_kinds.specs.Names.{AreAscending, is_named, next_side};

use drf_role::Label;
use std::alloc::{AllocError, Global};
use std::cmp::Ordering;

/// The list that has the next label: the left one, the right one, or both.
#[derive(Clone, Copy)]
enum Side {
    Left,
    Right,
    Both,
}

/// Returns which list has the next label, or `None` if both are at their end.
fn next_side(left: &[Label], right: &[Label]) -> Option<Side>
    ensures { result ≡ next_side left.now right.now }
{
    let (Some(name), Some(other)) = (left.first(), right.first()) else {
        if !left.is_empty() {
            return Some(Side::Left);
        }
        if !right.is_empty() {
            return Some(Side::Right);
        }
        return None;
    };
    Some(match name.cmp(other) {
        Ordering::Less => Side::Left,
        Ordering::Equal => Side::Both,
        Ordering::Greater => Side::Right,
    })
}

/// Returns whether some label of the left list is in the right one (`inside`), or is not in it (otherwise).
pub fn meets(left: &[Label], right: &[Label], inside: bool) -> bool
    requires left { AreAscending left.now }
    requires right { AreAscending right.now }
    ensures found { OnTrue result ((text : List ℕ) × IsTrue (is_met inside (is_named left.now text) (is_named right.now text))) }
    ensures none { OnFalse result ((text : List ℕ) → is_met inside (is_named left.now text) (is_named right.now text) ≡ false) }
{
    let mut left = left;
    let mut right = right;
    while let Some(side) = next_side(left, right) {
        match side {
            Side::Left => {
                if !inside {
                    return true;
                }
                left = &left[1..];
            }
            Side::Right => right = &right[1..],
            Side::Both => {
                if inside {
                    return true;
                }
                left = &left[1..];
                right = &right[1..];
            }
        }
    }
    false
}

/// Returns the labels of both lists if `united`, and otherwise those that are only in the left one, in order.
pub fn combined(
    alloc: Global,
    left: &[Label],
    right: &[Label],
    united: bool,
) -> Result<Vec<Label>, AllocError>
    requires left { AreAscending left.now }
    requires right { AreAscending right.now }
    ensures ascending { IfOk result (λ found. AreAscending found.items) }
    ensures members { IfOk result (λ found. (text : List ℕ) → is_named found.items text ≡ is_kept united (is_named left.now text) (is_named right.now text)) }
{
    let mut left = left;
    let mut right = right;
    let mut found = Vec::new(alloc);
    while let Some(side) = next_side(left, right) {
        match side {
            Side::Left => {
                found.push(left[0].copy()?)?;
                left = &left[1..];
            }
            Side::Right => {
                if united {
                    found.push(right[0].copy()?)?;
                }
                right = &right[1..];
            }
            Side::Both => {
                // A label of both lists that is kept is added later, from the left list.
                if !united {
                    left = &left[1..];
                }
                right = &right[1..];
            }
        }
    }
    Ok(found)
}

/// Returns copies of the labels. Fails with `AllocError` if memory runs out.
pub fn copies(alloc: Global, labels: &[Label]) -> Result<Vec<Label>, AllocError>
    ensures { IfOk result (λ copies. copies.items ≡ labels.now) }
{
    let mut copies = Vec::with_capacity(alloc, labels.len())?;
    for label in labels {
        copies.push(label.copy()?)?;
    }
    Ok(copies)
}
