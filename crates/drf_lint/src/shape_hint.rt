//! Hints for lines that are JSON but do not have the shape of an event.

use crate::place::{item_at, member_at, value_at};
use crate::shapes::{EVENTS, Kind, OPTIONAL, TASK_KEYS, keys_of, kind_of};
use crate::words::{Hint, quote, say, say_number, show};
use json::Value;
use std::alloc::{AllocError, Global};

/// An object in a line that is JSON.
#[derive(Clone, Copy)]
struct Shaped<'v, 'a> {
    line: &'v str,
    /// The position in the line at which it begins.
    place: usize,
    /// The prefix of its keys in hints, such as `"tasks" item 2 `.
    path: &'v str,
    /// What it is called in hints.
    name: &'a str,
    value: &'v Value<'a>,
    /// The keys that it must have besides `event`, separated by spaces, in the order in which a reader looks for them.
    keys: &'v str,
    /// Whether it must have `event` too.
    has_event: bool,
}

/// Returns what a value is, in words.
fn kind_word(value: &Value<'_>) -> &'static str {
    match value {
        Value::Null => "null",
        Value::Bool(_) => "a truth value",
        Value::Number(_) => "a number",
        Value::String(_) => "a text",
        Value::Array(_) => "an array",
        Value::Object(_) => "an object",
    }
}

/// Returns whether a key is in a list that is separated by spaces.
fn is_among(keys: &str, key: &str) -> bool {
    for name in keys.split(' ') {
        if name == key && !key.is_empty() {
            return true;
        }
    }
    false
}

/// Returns whether the object can have that key.
fn is_known(shaped: &Shaped<'_, '_>, key: &str) -> bool {
    is_among(shaped.keys, key) || (shaped.has_event && key == "event")
}

/// Returns whether the key is required and the object lacks it.
fn is_missing(shaped: &Shaped<'_, '_>, key: &str) -> bool {
    !key.is_empty() && key != OPTIONAL && shaped.value.get(key).is_none()
}

/// Returns the first key that the object lacks.
fn first_missing<'v>(shaped: &Shaped<'v, '_>) -> Option<&'v str> {
    for key in shaped.keys.split(' ') {
        if is_missing(shaped, key) {
            return Some(key);
        }
    }
    None
}

/// Returns how many keys the object lacks.
fn missing_count(shaped: &Shaped<'_, '_>) -> usize {
    let mut count = 0_usize;
    for key in shaped.keys.split(' ') {
        if is_missing(shaped, key) {
            count = count.saturating_add(1);
        }
    }
    count
}

/// Returns the distinct keys that the object must not have, in the order of the line, and at most `most` + 1 of them.
fn unknown_keys<'a>(
    alloc: Global,
    shaped: &Shaped<'_, 'a>,
    most: usize,
) -> Result<Vec<&'a str>, AllocError> {
    let mut unknown = Vec::new(alloc);
    let Value::Object(members) = shaped.value else {
        return Ok(unknown);
    };
    for member in members {
        let key = member.0;
        if unknown.len() <= most && !is_known(shaped, key) && !has_text(&unknown, key) {
            unknown.push(key)?;
        }
    }
    Ok(unknown)
}

fn has_text(texts: &[&str], text: &str) -> bool {
    for one in texts {
        if *one == text {
            return true;
        }
    }
    false
}

/// Appends a list that is separated by spaces, with commas instead. If `has_any` is set, a comma comes first.
fn say_list(words: &mut Vec<u8>, has_any: bool, list: &str) -> Result<(), AllocError> {
    let mut has_any = has_any;
    for word in list.split(' ') {
        if has_any && !word.is_empty() {
            say(words, ", ")?;
        }
        say(words, word)?;
        has_any = true;
    }
    Ok(())
}

/// Appends that a key is not one of the object's, and which keys it has.
fn say_unknown(words: &mut Vec<u8>, shaped: &Shaped<'_, '_>, key: &str) -> Result<(), AllocError> {
    say(words, shaped.path)?;
    quote(words, key.as_bytes())?;
    say(words, " is not a key of ")?;
    say(words, shaped.name)?;
    say(words, ", whose keys are ")?;
    if shaped.has_event {
        say(words, "event")?;
    }
    say_list(words, shaped.has_event, shaped.keys)
}

/// Returns the position of a key of the object, or of the object if it has no such key.
fn key_place(alloc: Global, shaped: &Shaped<'_, '_>, key: &str) -> Result<usize, AllocError> {
    match member_at(alloc, shaped.line, shaped.place, key)? {
        Some(spot) => Ok(spot.key),
        None => Ok(shaped.place),
    }
}

/// Returns the hint that the object has a key that it must not have.
fn unknown_hint(alloc: Global, shaped: &Shaped<'_, '_>, key: &str) -> Result<Hint, AllocError> {
    let mut words = Vec::new(alloc);
    say_unknown(&mut words, shaped, key)?;
    let place = key_place(alloc, shaped, key)?;
    Ok(Hint { place, words })
}

/// Returns the hint that the object lacks a key. If it has an unknown key, that key may be a misspelling, so the hint names it too.
fn missing_hint(
    alloc: Global,
    shaped: &Shaped<'_, '_>,
    key: &str,
    unknown: Option<&str>,
) -> Result<Hint, AllocError> {
    let mut words = Vec::new(alloc);
    say(&mut words, shaped.path)?;
    quote(&mut words, key.as_bytes())?;
    say(&mut words, " is missing")?;
    let Some(other) = unknown else {
        let place = shaped.place;
        return Ok(Hint { place, words });
    };
    say(&mut words, "; ")?;
    say_unknown(&mut words, shaped, other)?;
    let place = key_place(alloc, shaped, other)?;
    Ok(Hint { place, words })
}

/// Returns the hint that the value at a position is not of the kind that is expected.
fn kind_hint(
    alloc: Global,
    place: usize,
    path: &str,
    value: &Value<'_>,
    expected: &str,
) -> Result<Hint, AllocError> {
    let mut words = Vec::new(alloc);
    say(&mut words, path)?;
    say(&mut words, ": found ")?;
    match value {
        Value::Number(text) => show(&mut words, text.as_bytes())?,
        _ => say(&mut words, kind_word(value))?,
    }
    say(&mut words, ", expected ")?;
    say(&mut words, expected)?;
    Ok(Hint { place, words })
}

const A_TEXT: &str = "a text";

const A_NUMBER: &str = "a whole number below 2^64 in digits alone";

const TEXTS: &str = "an array of texts";

const TASKS: &str = "an array of 1 to 16 objects";

const AN_OBJECT: &str = "an object";

/// Returns the name of a member in hints, such as `"tasks" item 2 "use"`.
fn path_of(alloc: Global, path: &str, key: &str) -> Result<String, AllocError> {
    let mut text = String::new(alloc);
    text.push_str(path)?;
    text.push_str("\"")?;
    text.push_str(key)?;
    text.push_str("\"")?;
    Ok(text)
}

/// Returns the name of an item in hints, such as `"tasks" item 2`. The argument is counted from 0, the text from 1.
fn item_path(alloc: Global, key: &str, item: usize) -> Result<String, AllocError> {
    let mut words = Vec::new(alloc);
    quote(&mut words, key.as_bytes())?;
    say(&mut words, " item ")?;
    say_number(&mut words, item.saturating_add(1))?;
    match std::str::from_utf8(&words) {
        Ok(text) => String::from_str(alloc, text),
        Err(_) => Ok(String::new(alloc)),
    }
}

/// Returns a hint if the value of `roles` is not an array of texts.
fn roles_hint(
    alloc: Global,
    line: &str,
    place: usize,
    value: &Value<'_>,
) -> Result<Option<Hint>, AllocError> {
    let Value::Array(items) = value else {
        return Ok(Some(kind_hint(alloc, place, "\"roles\"", value, TEXTS)?));
    };
    for (i, item) in items.iter().enumerate() {
        if item.as_str().is_none() {
            let path = item_path(alloc, "roles", i)?;
            let at = item_at(alloc, line, place, i)?;
            return Ok(Some(kind_hint(alloc, at, &path, item, A_TEXT)?));
        }
    }
    Ok(None)
}

/// Returns a hint if an item of `tasks` does not have the shape of a task.
fn task_hint(
    alloc: Global,
    line: &str,
    place: usize,
    item: usize,
    value: &Value<'_>,
) -> Result<Option<Hint>, AllocError> {
    let mut path = item_path(alloc, "tasks", item)?;
    let Value::Object(_) = value else {
        let at = item_at(alloc, line, place, item)?;
        return Ok(Some(kind_hint(alloc, at, &path, value, AN_OBJECT)?));
    };
    path.push_str(" ")?;
    let shaped = Shaped {
        line,
        place: item_at(alloc, line, place, item)?,
        path: &path,
        name: "a task",
        value,
        keys: TASK_KEYS,
        has_event: false,
    };
    match keys_hint(alloc, &shaped)? {
        Some(hint) => Ok(Some(hint)),
        None => {
            for key in TASK_KEYS.split(' ') {
                if let Some(hint) = text_kind_hint(alloc, &shaped, key)? {
                    return Ok(Some(hint));
                }
            }
            Ok(None)
        }
    }
}

/// Returns a hint if the value of `tasks` is not an array of 1 to 16 tasks.
fn tasks_hint(
    alloc: Global,
    line: &str,
    place: usize,
    value: &Value<'_>,
) -> Result<Option<Hint>, AllocError> {
    let Value::Array(items) = value else {
        return Ok(Some(kind_hint(alloc, place, "\"tasks\"", value, TASKS)?));
    };
    if items.is_empty() || items.len() > 16 {
        let mut words = Vec::new(alloc);
        say(&mut words, "\"tasks\": ")?;
        say_number(&mut words, items.len())?;
        say(&mut words, " tasks; expected 1 to 16")?;
        return Ok(Some(Hint { place, words }));
    }
    for (i, item) in items.iter().enumerate() {
        if let Some(hint) = task_hint(alloc, line, place, i, item)? {
            return Ok(Some(hint));
        }
    }
    Ok(None)
}

/// Returns a hint if an object has too many or too few keys. With too many, it names the first unknown key; with too few, the first that
/// is missing.
fn keys_hint(alloc: Global, shaped: &Shaped<'_, '_>) -> Result<Option<Hint>, AllocError> {
    let missing = missing_count(shaped);
    let unknown = unknown_keys(alloc, shaped, missing)?;
    let first = unknown.first().copied();
    if unknown.len() > missing {
        if let Some(key) = first {
            return Ok(Some(unknown_hint(alloc, shaped, key)?));
        }
    }
    if missing > unknown.len() {
        if let Some(key) = first_missing(shaped) {
            return Ok(Some(missing_hint(alloc, shaped, key, first)?));
        }
    }
    Ok(None)
}

/// Returns a hint if a key is missing or its value is not a text.
fn text_kind_hint(
    alloc: Global,
    shaped: &Shaped<'_, '_>,
    key: &str,
) -> Result<Option<Hint>, AllocError> {
    let Some(value) = shaped.value.get(key) else {
        let unknown = unknown_keys(alloc, shaped, 0)?;
        let hint = missing_hint(alloc, shaped, key, unknown.first().copied())?;
        return Ok(Some(hint));
    };
    if value.as_str().is_some() {
        return Ok(None);
    }
    let path = path_of(alloc, shaped.path, key)?;
    let place = value_at(alloc, shaped.line, shaped.place, key)?;
    Ok(Some(kind_hint(alloc, place, &path, value, A_TEXT)?))
}

/// Returns a hint if the value of a key is not a whole number below 2^64.
fn number_hint(
    alloc: Global,
    shaped: &Shaped<'_, '_>,
    key: &str,
    value: &Value<'_>,
) -> Result<Option<Hint>, AllocError> {
    if value.as_u64().is_some() {
        return Ok(None);
    }
    let path = path_of(alloc, shaped.path, key)?;
    let place = value_at(alloc, shaped.line, shaped.place, key)?;
    Ok(Some(kind_hint(alloc, place, &path, value, A_NUMBER)?))
}

/// Returns a hint if the value of a key is of the wrong kind, or if a required key is missing.
fn key_hint(alloc: Global, shaped: &Shaped<'_, '_>, key: &str) -> Result<Option<Hint>, AllocError> {
    let Some(value) = shaped.value.get(key) else {
        if key.is_empty() || key == OPTIONAL {
            return Ok(None);
        }
        return text_kind_hint(alloc, shaped, key);
    };
    match kind_of(key) {
        Kind::Number => number_hint(alloc, shaped, key, value),
        Kind::Roles => {
            let place = value_at(alloc, shaped.line, shaped.place, key)?;
            roles_hint(alloc, shaped.line, place, value)
        }
        Kind::Tasks => {
            let place = value_at(alloc, shaped.line, shaped.place, key)?;
            tasks_hint(alloc, shaped.line, place, value)
        }
        _ => text_kind_hint(alloc, shaped, key),
    }
}

/// Returns the length of the longest common prefix.
fn common_prefix(a: &[u8], b: &[u8]) -> usize {
    let mut count = 0_usize;
    for (x, y) in a.iter().zip(b.iter()) {
        if x != y {
            break;
        }
        count = count.saturating_add(1);
    }
    count
}

/// Returns the length of the longest common suffix.
fn common_back(a: &[u8], b: &[u8]) -> usize {
    let mut count = 0_usize;
    for (x, y) in a.iter().rev().zip(b.iter().rev()) {
        if x != y {
            break;
        }
        count = count.saturating_add(1);
    }
    count
}

/// Returns the event whose name shares the longest prefix and suffix with a word. These must be more than half of the word.
fn near_event(word: &str) -> Option<&'static str> {
    let bytes = word.as_bytes();
    let mut best = None;
    let mut most = bytes.len() / 2;
    for event in EVENTS.split(' ') {
        let other = event.as_bytes();
        let common = common_prefix(bytes, other).saturating_add(common_back(bytes, other));
        if common > most && bytes.len() <= 2 * other.len() {
            most = common;
            best = Some(event);
        }
    }
    best
}

/// Returns the hint that the value of `event` is not the name of an event. It names the nearest event, or all of them.
fn event_hint(alloc: Global, line: &str, word: &str) -> Result<Hint, AllocError> {
    let mut words = Vec::new(alloc);
    say(&mut words, "\"event\": ")?;
    match near_event(word) {
        Some(near) => {
            quote(&mut words, word.as_bytes())?;
            say(&mut words, " is not an event; the nearest is ")?;
            quote(&mut words, near.as_bytes())?;
        }
        None => {
            say(&mut words, "none of: ")?;
            say(&mut words, EVENTS)?;
        }
    }
    let place = value_at(alloc, line, first_byte(line), "event")?;
    Ok(Hint { place, words })
}

/// Returns the position of the first byte that is not blank.
fn first_byte(line: &str) -> usize {
    line.as_bytes()
        .iter()
        .position(|b| !matches!(*b, b' ' | b'\t' | b'\r'))
        .unwrap_or(0)
}

/// Returns a hint if an object does not have the shape of the event that it names.
fn object_hint(alloc: Global, shaped: &Shaped<'_, '_>) -> Result<Option<Hint>, AllocError> {
    if let Some(hint) = keys_hint(alloc, shaped)? {
        return Ok(Some(hint));
    }
    for key in shaped.keys.split(' ') {
        if let Some(hint) = key_hint(alloc, shaped, key)? {
            return Ok(Some(hint));
        }
    }
    Ok(None)
}

/// Returns a hint if a line, whose JSON value is `value`, does not have the shape of an event.
pub(crate) fn shape_hint<'v, 'a>(
    alloc: Global,
    line: &'v str,
    value: &'v Value<'a>,
) -> Result<Option<Hint>, AllocError> {
    let mut shaped = Shaped {
        line,
        place: first_byte(line),
        path: "",
        name: "an event",
        value,
        keys: "",
        has_event: true,
    };
    let Value::Object(_) = value else {
        return Ok(Some(kind_hint(alloc, shaped.place, "the line", value, AN_OBJECT)?));
    };
    if value.get("event").is_none() {
        return Ok(Some(missing_hint(alloc, &shaped, "event", None)?));
    }
    if let Some(hint) = text_kind_hint(alloc, &shaped, "event")? {
        return Ok(Some(hint));
    }
    let word = value.get("event").and_then(Value::as_str).unwrap_or("");
    match keys_of(word, value.get("tasks").is_some()) {
        Some(keys) => {
            shaped.name = word;
            shaped.keys = keys;
            object_hint(alloc, &shaped)
        }
        None => Ok(Some(event_hint(alloc, line, word)?)),
    }
}
