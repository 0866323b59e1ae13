//! Questions about bundles, quantities and weights, which are written as texts.
use crate::amounts::{Amount, reported};
use crate::answer::Answer;
use crate::subject::Subject;
use drf_amount::Algebra;
use drf_bundle::{Bundle, Quantities, Value};
use drf_role::{Label, Role};
use drf_text::{read_bundle, read_quantities, read_weight, write_bundle, write_quantities};
use std::alloc::{AllocError, Global};

impl Subject for Bundle {
    fn from_text(answer: &mut Answer, text: &str) -> Option<Bundle> {
        if text == "none" {
            return Some(Bundle::empty(answer.alloc()));
        }
        answer.found(read_bundle(answer.alloc(), text))
    }
}

impl Amount for Bundle {
    fn append(&self, answer: &mut Answer) {
        if let Some(text) = answer.found(write_bundle(answer.alloc(), self)) {
            answer.say(text.as_str());
        }
    }
}

impl Subject for Quantities {
    fn from_text(answer: &mut Answer, text: &str) -> Option<Quantities> {
        answer.found(read_quantities(answer.alloc(), text))
    }
}

/// Appends quantities in normal form.
pub fn quantities(answer: &mut Answer, quantities: &Quantities) {
    if let Some(text) = answer.found(write_quantities(answer.alloc(), quantities)) {
        answer.say(text.as_str());
    }
}

/// Appends a weight in thousandths.
pub fn weight(answer: &mut Answer, text: &str) {
    if let Some(weight) = answer.found(read_weight(text)) {
        answer.show(&weight);
    }
}

/// Appends the part of a bundle that a role can use.
pub fn part(answer: &mut Answer, of: &(Role, Bundle)) {
    reported(answer, of.1.part_for(&of.0));
}

/// Appends a bundle that is cut to limits.
pub fn clipped(answer: &mut Answer, of: &(Quantities, Bundle)) {
    reported(answer, of.1.clip(&of.0));
}

/// Appends a bundle without another.
pub fn rest(answer: &mut Answer, of: &(Bundle, Bundle)) {
    reported(answer, of.0.rest(&of.1));
}

/// Appends an unreserved bundle after it is reserved for a role.
pub fn moved(answer: &mut Answer, of: &(Role, Bundle)) {
    let (role, bundle) = of;
    if bundle.is_unreserved() {
        reported(answer, bundle.relabel(role));
    } else {
        answer.say("reserved");
    }
}

/// Returns a bundle of one value only.
fn one_of(alloc: Global, label: &Label, role: &Role, value: &Value) -> Result<Bundle, AllocError> {
    Bundle::one(alloc, label, role, value.copy()?)
}

/// Appends what a bundle has under a name and a role, and the sums of its scalars.
pub fn found(answer: &mut Answer, of: &(Label, (Role, Bundle))) {
    let (label, (role, bundle)) = of;
    match bundle.get(label, role) {
        Some(value) => reported(answer, one_of(answer.alloc(), label, role, value)),
        None => return answer.say("nothing there"),
    }
    answer.say("; sums ");
    quantities(answer, bundle.quantities());
}
