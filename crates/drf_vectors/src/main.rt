//! Answers questions about names, roles, paths, sets, amounts, pools, shares and texts, one in each line. Its input and output are the test vectors
//! of the libraries.
#![tactic(auto)]

mod amounts;
mod answer;
mod paths;
mod pools;
mod shares;
mod subject;
mod texts;
mod words;

use crate::answer::Answer;
use crate::subject::asked;
use drf_amount::Scalar;
use drf_bundle::Bundle;
use drf_kinds::{Items, Ranges};
use drf_role::{Label, Name, NodePath, Role};
use std::io;
use std::rt::Runtime;

/// Answers a question about names, roles and nodes.
fn answer_of_words(answer: &mut Answer, kind: &str, text: &str) {
    match kind {
        "name" => asked(answer, text, words::copied::<Name>),
        "label" => asked(answer, text, words::copied::<Label>),
        "role" => asked(answer, text, words::copied::<Role>),
        "node" => asked(answer, text, words::copied::<NodePath>),
        "sorted_names" => words::sorted::<Name>(answer, text),
        "sorted_nodes" => words::sorted::<NodePath>(answer, text),
        "parts" => asked(answer, text, paths::parts),
        "is_default" => asked(answer, text, paths::is_default),
        "is_within" => asked(answer, text, paths::is_within),
        "client" => asked(answer, text, paths::client),
        "nodes" => asked(answer, text, paths::nodes),
        "is_same_client" => asked(answer, text, paths::is_same_client),
        _ => answer.say("no question"),
    }
}

/// Answers a question about texts.
fn answer_of_texts(answer: &mut Answer, kind: &str, text: &str) {
    match kind {
        "bundle" => asked(answer, text, amounts::append::<Bundle>),
        "quantity_text" => asked(answer, text, texts::quantities),
        "weight" => texts::weight(answer, text),
        "part_for" => asked(answer, text, texts::part),
        "clip" => asked(answer, text, texts::clipped),
        "rest" => asked(answer, text, texts::rest),
        "relabel" => asked(answer, text, texts::moved),
        "get" => asked(answer, text, texts::found),
        _ => answer_of_words(answer, kind, text),
    }
}

/// Answers a question.
fn answer_to(answer: &mut Answer, kind: &str, text: &str) {
    match kind {
        "scalars" => amounts::answers::<Scalar>(answer, text),
        "ranges" => amounts::answers::<Ranges>(answer, text),
        "items" => amounts::answers::<Items>(answer, text),
        "bundles" => amounts::answers::<Bundle>(answer, text),
        "has_number" => asked(answer, text, amounts::has_number),
        "has_name" => asked(answer, text, amounts::has_name),
        "pool_of_scalars" => pools::answers::<Scalar>(answer, text),
        "pool_of_ranges" => pools::answers::<Ranges>(answer, text),
        "pool_of_items" => pools::answers::<Items>(answer, text),
        "pool_of_bundles" => pools::answers::<Bundle>(answer, text),
        "shares" => asked(answer, text, shares::compared),
        _ => answer_of_texts(answer, kind, text),
    }
}

/// Prints a question with its answer.
fn ask<R: Runtime + AllocGlobal>(rt: &R, question: &str) -> io::Result<()> {
    let (kind, text) = question.split_once(' ').unwrap_or((question, ""));
    let mut answer = Answer::new(rt.alloc());
    answer_to(&mut answer, kind, text);
    let reported = answer.text();
    println!(rt; "{question} -> {reported}")
}

fn main(rt: HostRuntime) -> io::Result<()> {
    for line in rt.lines(rt.alloc()) {
        let question = line?;
        ask(&rt, question.as_str())?;
    }
    Ok(())
}
