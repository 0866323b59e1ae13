//! Questions about shares, each of which is written `part/whole/weight`.
use crate::answer::Answer;
use crate::subject::{Subject, read_both};
use drf_sorter::Share;
use std::cmp::Ordering;

impl Subject for Share {
    fn from_text(answer: &mut Answer, text: &str) -> Option<Share> {
        let (part, text) = text.split_once('/').unwrap_or((text, ""));
        let part = u64::from_text(answer, part)?;
        let (whole, weight) = read_both::<u64, u64>(answer, text, '/')?;
        if part > whole || whole < 1 || whole >= 1 << 52 {
            answer.say("no share");
            return None;
        }
        if weight < 1 || weight > 1_000_000 {
            answer.say("no weight");
            return None;
        }
        Some(Share::new(part, whole, weight))
    }
}

/// Appends how two shares compare.
pub fn compared(answer: &mut Answer, shares: &(Share, Share)) {
    let (one, other) = shares;
    answer.say(match one.cmp(other) {
        Ordering::Less => "less ",
        Ordering::Equal => "equal ",
        Ordering::Greater => "greater ",
    });
    answer.show(&(one == other));
}
