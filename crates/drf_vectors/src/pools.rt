//! Questions about a pool of one kind of amounts: its total, and then calls, each after `; `.
use crate::amounts::{Amount, append, reported};
use crate::answer::Answer;
use crate::subject::{Subject, read_all};
use drf_amount::{Pool, PoolFault};

/// Appends the free amount and the total.
fn state<A: Amount>(answer: &mut Answer, pool: &Pool<A>) {
    append(answer, pool.free());
    answer.say(" of ");
    append(answer, pool.total());
}

/// Appends that a call succeeded, or its error.
fn done(answer: &mut Answer, called: Result<(), PoolFault>) {
    if answer.found(called).is_some() {
        answer.say("done");
    }
}

/// Appends the number of the part that was taken, or the error.
fn taken(answer: &mut Answer, called: Result<u64, PoolFault>) {
    if let Some(number) = answer.found(called) {
        answer.say("part ");
        answer.show(&number);
    }
}

/// Appends the numbers of parts, or the error.
fn split(answer: &mut Answer, called: Result<Vec<u64>, PoolFault>) {
    if let Some(numbers) = answer.found(called) {
        answer.say("parts ");
        answer.show_parts(&numbers);
    }
}

/// Appends a part.
fn part<A: Amount>(answer: &mut Answer, pool: &Pool<A>, number: u64) {
    match pool.part(number) {
        Some(part) => append(answer, part),
        None => answer.say("no part"),
    }
}

/// Appends a part of a copy of the pool, and the free amount of the copy.
fn copied<A: Amount>(answer: &mut Answer, pool: &Pool<A>, number: u64) {
    if let Some(copy) = answer.found(pool.copy()) {
        part(answer, &copy, number);
        if copy.part(number).is_some() {
            answer.say(" beside ");
            state(answer, &copy);
        }
    }
}

/// Makes a call, and appends its result.
fn call<A: Amount>(
    answer: &mut Answer,
    pool: &mut Pool<A>,
    call: &str,
    number: u64,
    amounts: &[A],
) {
    match (call, amounts) {
        ("take", [wanted]) => taken(answer, pool.take(wanted)),
        ("shrink", [smaller]) => done(answer, pool.shrink(number, smaller)),
        ("replace_free", [old, new]) => done(answer, pool.replace_free(old, new)),
        ("split", parts) => split(answer, pool.split(number, parts)),
        ("give_back", []) => reported(answer, pool.give_back(number)),
        ("part", []) => part(answer, pool, number),
        ("copy", []) => copied(answer, pool, number),
        _ => answer.say("no call"),
    }
}

/// Reads the number of a part, and the amounts after it.
fn read_part<A: Amount>(answer: &mut Answer, amounts: &mut Vec<A>, text: &str) -> Option<u64> {
    if let Some((number, text)) = text.split_once(' ') {
        read_all(answer, amounts, text, ' ')?;
        return u64::from_text(answer, number);
    }
    u64::from_text(answer, text)
}

/// Reads the arguments of a call: amounts and, for most calls, the number of a part.
fn read_call<A: Amount>(
    answer: &mut Answer,
    amounts: &mut Vec<A>,
    call: &str,
    text: &str,
) -> Option<u64> {
    match call {
        "take" | "replace_free" => read_all(answer, amounts, text, ' ').map(|_| 0),
        _ => read_part(answer, amounts, text),
    }
}

/// Reads a call and makes it.
fn read_and_call<A: Amount>(answer: &mut Answer, pool: &mut Pool<A>, text: &str) {
    let mut amounts = Vec::new(answer.alloc());
    let (name, text) = text.split_once(' ').unwrap_or((text, ""));
    if let Some(number) = read_call(answer, &mut amounts, name, text) {
        call(answer, pool, name, number, &amounts);
    }
}

/// Makes the calls, and appends the free amount after each.
fn calls<A: Amount>(answer: &mut Answer, pool: &mut Pool<A>, texts: &str) {
    state(answer, pool);
    for text in texts.split("; ") {
        answer.say("; ");
        read_and_call(answer, pool, text);
        answer.say(": ");
        state(answer, pool);
    }
}

/// Returns a pool with this total, or appends the error.
fn open<A: Amount>(answer: &mut Answer, total: &str) -> Option<Pool<A>> {
    let total = A::from_text(answer, total)?;
    answer.found(Pool::new(answer.alloc(), total))
}

/// Appends the free amount and the total, and then the result of each call with the free amount after it.
pub fn answers<A: Amount>(answer: &mut Answer, text: &str) {
    let (total, texts) = text.split_once("; ").unwrap_or((text, ""));
    if let Some(mut pool) = open::<A>(answer, total) {
        calls(answer, &mut pool, texts);
    }
}
