//! Operations that walk through two lists of resources in order, side by side.
ghost use Rattle.std.specs.Prelude.{◌≡◌, IsTrue, IfOk, OnOk, [], ◌∷◌, ◌++◌};
ghost use Rattle.drf_bundle.specs.Bundle.{IsBundle, is_in_order, merged, rest, filled_of, with_value, have_clash, clashes_with_some};
ghost use Rattle.drf_bundle.specs.Value.{less};
ghost use Rattle.drf_bundle.specs.Sides.{clash_fault, FitTogether, next_side, names_cmp, none_before};

use crate::parts::Parts;
use crate::resource::{Resource, compare_labels};
use crate::value::{Clash, Value};
use drf_amount::AlgebraFault;
use std::alloc::{AllocError, Global};
use std::cmp::Ordering;

/// The list that has the next key: the left one, the right one, or both.
#[derive(Clone, Copy)]
enum Side {
    Left,
    Right,
    Both,
}

/// Returns which list has the next key, or `None` if both are empty.
fn next_side(left: &[Resource], right: &[Resource]) -> Option<Side>
    ensures { result ≡ next_side left.now right.now }
{
    let (Some(resource), Some(other)) = (left.first(), right.first()) else {
        if !left.is_empty() {
            return Some(Side::Left);
        }
        if !right.is_empty() {
            return Some(Side::Right);
        }
        return None;
    };
    Some(match resource.cmp_key(&other.label, &other.role) {
        Ordering::Less => Side::Left,
        Ordering::Equal => Side::Both,
        Ordering::Greater => Side::Right,
    })
}

/// Appends the rest of the resource's value without `part`, unless nothing is left.
fn push_left(left: &mut Parts, resource: &Resource, part: &Value) -> Result<(), AllocError>
    requires { IsBundle (left.old ++ filled_of (with_value resource.now (less resource.now.value part.now) ∷ [])) }
    ensures { OnOk result (left.new ≡ left.old ++ filled_of (with_value resource.now (less resource.now.value part.now) ∷ [])) }
{
    let value = resource.value.minus(part)?;
    if !value.is_empty() {
        left.push(resource.with_value(value)?)?;
    }
    Ok(())
}

/// Returns the resources of both lists in order, with the values at equal keys united.
pub fn merged(alloc: Global, left: &[Resource], right: &[Resource]) -> Result<Parts, AllocError>
    requires fits { FitTogether left.now right.now }
    requires bundle { IsBundle (merged left.now right.now) }
    ensures { IfOk result (λ found. found ≡ merged left.now right.now) }
{
    let mut left = left;
    let mut right = right;
    let mut found = Parts::empty(alloc);
    while let Some(side) = next_side(left, right) {
        match side {
            Side::Left => {
                found.push(left[0].copy()?)?;
                left = &left[1..];
            }
            Side::Right => {
                found.push(right[0].copy()?)?;
                right = &right[1..];
            }
            Side::Both => {
                found.push(left[0].united(&right[0])?)?;
                left = &left[1..];
                right = &right[1..];
            }
        }
    }
    Ok(found)
}

/// Returns the rest of the resources without those in `part`, which they need not cover.
pub fn rest(alloc: Global, whole: &[Resource], part: &[Resource]) -> Result<Parts, AllocError>
    requires whole { IsBundle whole.now }
    requires part { IsTrue (is_in_order part.now) }
    ensures { IfOk result (λ left. left ≡ rest whole.now part.now) }
{
    let mut whole = whole;
    let mut part = part;
    let mut left = Parts::empty(alloc);
    while let Some(side) = next_side(whole, part) {
        match side {
            Side::Left => {
                left.push(whole[0].copy()?)?;
                whole = &whole[1..];
            }
            Side::Right => part = &part[1..],
            Side::Both => {
                push_left(&mut left, &whole[0], &part[0].value)?;
                whole = &whole[1..];
                part = &part[1..];
            }
        }
    }
    Ok(left)
}

/// Returns whether the resource clashes with one of the same name in `others`, which begin with this name or a later
/// one.
fn clashes_with_some(resource: &Resource, others: &[Resource], clash: Clash) -> bool
    requires in_order { IsTrue (is_in_order others.now) }
    requires not_before { IsTrue (none_before resource.now.label others.now) }
    ensures { result ≡ clashes_with_some clash resource.now others.now }
{
    for other in others {
        if other.label != resource.label {
            return false;
        }
        if resource.value.clashes_with(&other.value, clash) {
            return true;
        }
    }
    false
}

/// Returns how the names of the first resources compare, or `None` if a list is empty.
fn compare_names(left: &[Resource], right: &[Resource]) -> Option<Ordering>
    ensures { result ≡ names_cmp left.now right.now }
{
    let (Some(resource), Some(other)) = (left.first(), right.first()) else {
        return None;
    };
    Some(compare_labels(&resource.label, &other.label))
}

/// Returns whether some name has values in both lists that clash in this way.
pub fn have_clash(left: &[Resource], right: &[Resource], clash: Clash) -> bool
    requires left { IsTrue (is_in_order left.now) }
    requires right { IsTrue (is_in_order right.now) }
    ensures { result ≡ have_clash clash left.now right.now }
{
    let mut left = left;
    let mut right = right;
    while let Some(ordering) = compare_names(left, right) {
        match ordering {
            Ordering::Less => left = &left[1..],
            Ordering::Greater => right = &right[1..],
            Ordering::Equal => {
                if clashes_with_some(&left[0], right, clash) {
                    return true;
                }
                left = &left[1..];
            }
        }
    }
    false
}

/// Returns the error of the first way in which values of a name clash, if any do. If none do, one walk through the
/// lists decides this.
pub fn clash_fault(left: &[Resource], right: &[Resource]) -> Option<AlgebraFault>
    requires left { IsTrue (is_in_order left.now) }
    requires right { IsTrue (is_in_order right.now) }
    ensures { result ≡ clash_fault left.now right.now }
{
    if !have_clash(left, right, Clash::Either) {
        return None;
    }
    if have_clash(left, right, Clash::Kinds) {
        return Some(AlgebraFault::Kind);
    }
    if have_clash(left, right, Clash::Members) {
        return Some(AlgebraFault::Overlap);
    }
    None
}
