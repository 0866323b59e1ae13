//! Questions about amounts. `none` is the text of the empty amount. Two amounts are compared and combined.
use crate::answer::Answer;
use crate::subject::{Subject, asked, read_all, read_both};
use drf_amount::{Algebra, Scalar};
use drf_kinds::{Items, Ranges};
use drf_role::Label;
use std::fmt::Display;

/// The text of the empty amount.
const NONE: &str = "none";

/// An amount that a question can be about.
pub trait Amount: Subject + Algebra {
    /// Appends an amount that is not empty.
    fn append(&self, answer: &mut Answer);
}

impl Subject for Scalar {
    fn from_text(answer: &mut Answer, text: &str) -> Option<Scalar> {
        if text == NONE {
            return Some(Scalar::empty(answer.alloc()));
        }
        let thousandths = u64::from_text(answer, text)?;
        Some(Scalar::new(thousandths))
    }
}

impl Amount for Scalar {
    fn append(&self, answer: &mut Answer) {
        answer.show(&self.thousandths());
    }
}

/// Reads pairs of numbers such as `1-3,5-7`.
fn read_pairs(answer: &mut Answer, pairs: &mut Vec<(u32, u32)>, text: &str) -> Option<()> {
    for text in text.split(',') {
        let pair = read_both::<u32, u32>(answer, text, '-')?;
        answer.found(pairs.push(pair))?;
    }
    Some(())
}

impl Subject for Ranges {
    fn from_text(answer: &mut Answer, text: &str) -> Option<Ranges> {
        let alloc = answer.alloc();
        if text == NONE {
            return Some(Ranges::empty(alloc));
        }
        let mut pairs = Vec::new(alloc);
        read_pairs(answer, &mut pairs, text)?;
        answer.found(Ranges::from_pairs(alloc, &pairs))
    }
}

impl Amount for Ranges {
    fn append(&self, answer: &mut Answer) {
        for interval in self.intervals() {
            answer.show(&interval.first);
            answer.say("-");
            answer.show(&interval.last);
            answer.say(",");
        }
        answer.end();
    }
}

impl Subject for Items {
    fn from_text(answer: &mut Answer, text: &str) -> Option<Items> {
        let alloc = answer.alloc();
        if text == NONE {
            return Some(Items::empty(alloc));
        }
        let mut names = Vec::<Label>::new(alloc);
        read_all(answer, &mut names, text, ',')?;
        answer.found(Items::from_names(alloc, names))
    }
}

impl Amount for Items {
    fn append(&self, answer: &mut Answer) {
        for name in self.names() {
            answer.say(name.text());
            answer.say(",");
        }
        answer.end();
    }
}

/// Appends an amount.
pub fn append<A: Amount>(answer: &mut Answer, amount: &A) {
    if amount.is_empty() {
        answer.say(NONE);
    } else {
        amount.append(answer);
    }
}

/// Appends an amount, or the error.
pub fn reported<A: Amount, F: Display + Drop>(answer: &mut Answer, sought: Result<A, F>) {
    if let Some(amount) = answer.found(sought) {
        append(answer, &amount);
    }
}

/// Appends the join, the difference and the relation of two amounts.
fn compared<A: Amount>(answer: &mut Answer, amounts: &(A, A)) {
    let (one, other) = amounts;
    answer.say("join ");
    reported(answer, one.try_join(other));
    answer.say("; rest ");
    reported(answer, one.try_minus(other));
    answer.say("; covers ");
    answer.show(&one.covers(other));
    answer.say("; disjoint ");
    answer.show(&one.disjoint(other));
}

/// Appends a copy of an amount, and how much it is.
fn copied<A: Amount>(answer: &mut Answer, amount: &A) {
    reported(answer, amount.copy());
    answer.say("; amount ");
    answer.show(&amount.amount());
}

/// Answers a question about one amount, or about two.
pub fn answers<A: Amount>(answer: &mut Answer, text: &str) {
    if text.contains(' ') {
        asked::<(A, A), _>(answer, text, compared::<A>);
    } else {
        asked::<A, _>(answer, text, copied::<A>);
    }
}

/// Answers whether ranges contain a number.
pub fn has_number(answer: &mut Answer, of: &(Ranges, u32)) {
    answer.show(&of.0.contains(of.1));
}

/// Answers whether a set contains a name.
pub fn has_name(answer: &mut Answer, of: &(Items, Label)) {
    answer.show(&of.0.contains(of.1.text()));
}
