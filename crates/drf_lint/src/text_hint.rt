//! Hints for lines that have the shape of an event, but a text that is not valid.

use crate::place::{item_at, text_at, value_at};
use crate::shapes::{Kind, TASK_KEYS, kind_of, text_keys_of};
use crate::words::{Hint, quote, say, say_number};
use drf_role::{Name, NameFault, Role, RoleFault};
use drf_text::{TextFault, read_bundle, read_quantities, read_weight};
use json::Value;
use std::alloc::{AllocError, Global};

/// The part of a text that is not valid: where it begins in the text and how long it is, in bytes, and why.
#[derive(Clone, Copy)]
struct Wrong {
    begin: usize,
    size: usize,
    /// The position in the text that the column of the hint names.
    at: usize,
    why: &'static str,
}

const NO_NAME: &str = " is not a name: expected 1 to 64 letters, digits, _, - or .";

const NO_ROLE: &str =
    " is not a role: expected * or 1 to 8 parts joined by /, at most 64 bytes; a part is visible ASCII without ( ) : ;, does not begin with -, and is not ., .. or *";

const NO_WEIGHT: &str = " is not a weight: expected a number such as 2 or 0.5";

const LARGE: &str = " is too large: the sum of a name is at most 18446744073709551.615";

const NO_FORM: &str =
    " is not written as NAME:AMOUNT, NAME:[LOW-HIGH,..] or NAME:{MEMBER,..}; NAME(ROLE) is reserved for ROLE";

const NO_LABEL: &str =
    " has a name or a member that is not valid: expected 1 to 64 letters, digits, _, -, . or /";

const RESERVED: &str = " is reserved: a limit has only amounts, such as cpus:4;mem:1024";

const BAD_ROLE: &str =
    " has no role between ( and ): expected * or 1 to 8 parts joined by /, at most 64 bytes, of visible ASCII";

const NO_RANGE: &str =
    " has a range that is not valid: expected LOW-HIGH, two numbers below 4294967296, the second not below the first";

const NO_AMOUNT: &str = " is not an amount: expected a number such as 2 or 0.5";

const OTHER_KIND: &str =
    " is not of the kind that this name had before: an amount, ranges or a set";

const NO_LIMIT: &str = " is not an amount: a limit has only amounts, such as cpus:4;mem:1024";

const TWICE: &str = " has a member that is also under another reservation of this name";

/// Returns that the whole text is not valid.
fn whole(text: &str, at: usize, why: &'static str) -> Option<Wrong> {
    Some(Wrong {
        begin: 0,
        size: text.len(),
        at,
        why,
    })
}

/// Returns what is wrong with a name. The position is the first byte that is not allowed in names.
fn name_wrong(alloc: Global, text: &str) -> Result<Option<Wrong>, AllocError> {
    match Name::read(alloc, text) {
        Ok(_) => Ok(None),
        Err(NameFault::Memory) => Err(AllocError),
        Err(NameFault::BadName) => {
            let bytes = text.as_bytes();
            let at = bytes
                .iter()
                .position(|b| !(b.is_ascii_alphanumeric() || matches!(*b, b'_' | b'-' | b'.')))
                .unwrap_or(0);
            Ok(whole(text, at, NO_NAME))
        }
    }
}

fn role_wrong(alloc: Global, text: &str) -> Result<Option<Wrong>, AllocError> {
    match Role::read(alloc, text) {
        Ok(_) => Ok(None),
        Err(RoleFault::Memory) => Err(AllocError),
        Err(RoleFault::BadRole) => Ok(whole(text, 0, NO_ROLE)),
    }
}

fn weight_wrong(text: &str) -> Result<Option<Wrong>, AllocError> {
    match read_weight(text) {
        Ok(_) => Ok(None),
        Err(TextFault::TooLarge) => Ok(whole(text, 0, LARGE)),
        Err(_) => Ok(whole(text, 0, NO_WEIGHT)),
    }
}

/// Returns the first error of a resource text or of a limit, if it has one.
fn fault_in(alloc: Global, kind: Kind, text: &[u8]) -> Result<Option<TextFault>, AllocError> {
    let Ok(text) = std::str::from_utf8(text) else {
        return Ok(None);
    };
    let fault = match kind {
        Kind::Limit => read_quantities(alloc, text).err(),
        _ => read_bundle(alloc, text).err(),
    };
    match fault {
        Some(TextFault::Memory) => Err(AllocError),
        other => Ok(other),
    }
}

/// Returns the positions at which the parts of a text, separated by `;`, end.
fn piece_ends(alloc: Global, text: &[u8]) -> Result<Vec<usize>, AllocError> {
    let mut ends = Vec::new(alloc);
    for (i, byte) in text.iter().enumerate() {
        if *byte == b';' {
            ends.push(i)?;
        }
    }
    ends.push(text.len())?;
    Ok(ends)
}

/// Returns the text up to the end of a part.
fn up_to<'t>(text: &'t [u8], ends: &[usize], piece: usize) -> &'t [u8] {
    let end = ends.get(piece).copied().unwrap_or(text.len());
    text.get(..end).unwrap_or(text)
}

/// Returns the number of the first part that has an error, in a text that has one. Parts are read from the left, so a prefix of the text
/// has an error exactly if it includes that part; this is a binary search over the prefixes.
fn first_bad_piece(
    alloc: Global,
    kind: Kind,
    text: &[u8],
    ends: &[usize],
) -> Result<usize, AllocError> {
    let mut low = 0_usize;
    let mut high = ends.len();
    for _turn in 0..64 {
        if low >= high {
            break;
        }
        let middle = low + (high - low) / 2;
        match fault_in(alloc, kind, up_to(text, ends, middle))? {
            Some(_) => high = middle,
            None => low = middle + 1,
        }
    }
    Ok(low)
}

/// Returns the message for a part that has this error.
fn why_of(kind: Kind, piece: &[u8], fault: TextFault) -> &'static str {
    match (fault, kind) {
        (TextFault::Syntax, _) => NO_FORM,
        (TextFault::BadName, _) => NO_LABEL,
        (TextFault::BadRole, Kind::Limit) => RESERVED,
        (TextFault::BadRole, _) => BAD_ROLE,
        (TextFault::BadNumber, _) if piece.contains(&b'[') => NO_RANGE,
        (TextFault::BadNumber, _) => NO_AMOUNT,
        (TextFault::Kind, Kind::Limit) => NO_LIMIT,
        (TextFault::Kind, _) => OTHER_KIND,
        (TextFault::Overlap, _) => TWICE,
        _ => LARGE,
    }
}

fn is_blank(byte: u8) -> bool {
    (byte == b' ') | (byte == b'\t')
}

/// Returns what is wrong with a resource text or with a limit: its first part that has an error, and that error.
fn pieces_wrong(alloc: Global, kind: Kind, text: &str) -> Result<Option<Wrong>, AllocError> {
    let bytes = text.as_bytes();
    if fault_in(alloc, kind, bytes)?.is_none() {
        return Ok(None);
    }
    let ends = piece_ends(alloc, bytes)?;
    let piece = first_bad_piece(alloc, kind, bytes, &ends)?;
    let prefix = up_to(bytes, &ends, piece);
    let Some(fault) = fault_in(alloc, kind, prefix)? else {
        return Ok(None);
    };
    let begin = prefix
        .iter()
        .rposition(|b| *b == b';')
        .map_or(0, |at| at.saturating_add(1));
    let said = prefix.get(begin..).unwrap_or(&[]);
    let blanks = said.iter().position(|b| !is_blank(*b)).unwrap_or(0);
    let begin = begin.saturating_add(blanks);
    let said = said.get(blanks..).unwrap_or(&[]);
    let size = said
        .iter()
        .rposition(|b| !is_blank(*b))
        .map_or(0, |at| at.saturating_add(1));
    let why = why_of(kind, said, fault);
    Ok(Some(Wrong {
        begin,
        size,
        at: begin,
        why,
    }))
}

/// Returns what is wrong with a text, given the kind of its key.
fn wrong_in(alloc: Global, kind: Kind, text: &str) -> Result<Option<Wrong>, AllocError> {
    match kind {
        Kind::Name => name_wrong(alloc, text),
        Kind::Role | Kind::Roles => role_wrong(alloc, text),
        Kind::Weight => weight_wrong(text),
        Kind::Bundle | Kind::Limit => pieces_wrong(alloc, kind, text),
        Kind::Number | Kind::Tasks => Ok(None),
    }
}

/// A text of a line, which is the value of a key, an item of its array, or the value of a key in such an item.
#[derive(Clone, Copy)]
struct LineText<'v, 'a> {
    line: &'v str,
    key: &'v str,
    /// Counted from 0; in hints, items are counted from 1.
    item: Option<usize>,
    inner: Option<&'v str>,
    text: &'a str,
}

/// Appends where the text is, such as `"tasks" item 2 "use": `.
fn say_path(words: &mut Vec<u8>, reported: &LineText<'_, '_>) -> Result<(), AllocError> {
    quote(words, reported.key.as_bytes())?;
    if let Some(item) = reported.item {
        say(words, " item ")?;
        say_number(words, item.saturating_add(1))?;
    }
    if let Some(inner) = reported.inner {
        say(words, " ")?;
        quote(words, inner.as_bytes())?;
    }
    say(words, ": ")
}

/// Returns the position in the line at which the string of the text begins.
fn place_of(alloc: Global, reported: &LineText<'_, '_>) -> Result<usize, AllocError> {
    let mut place = value_at(alloc, reported.line, 0, reported.key)?;
    if let Some(item) = reported.item {
        place = item_at(alloc, reported.line, place, item)?;
    }
    if let Some(inner) = reported.inner {
        place = value_at(alloc, reported.line, place, inner)?;
    }
    Ok(place)
}

/// Returns a hint if a text of the line is not valid.
fn reported_hint(alloc: Global, reported: &LineText<'_, '_>) -> Result<Option<Hint>, AllocError> {
    let kind = kind_of(reported.inner.unwrap_or(reported.key));
    let Some(wrong) = wrong_in(alloc, kind, reported.text)? else {
        return Ok(None);
    };
    let mut words = Vec::new(alloc);
    say_path(&mut words, reported)?;
    let bytes = reported.text.as_bytes();
    let end = wrong.begin.saturating_add(wrong.size);
    quote(&mut words, bytes.get(wrong.begin..end).unwrap_or(bytes))?;
    say(&mut words, wrong.why)?;
    let begin = place_of(alloc, reported)?;
    let place = text_at(reported.line, begin, reported.text, wrong.at);
    Ok(Some(Hint { place, words }))
}

/// Returns a hint if a role of the framework is not valid.
fn roles_hint(alloc: Global, line: &str, items: &[Value<'_>]) -> Result<Option<Hint>, AllocError> {
    for (i, item) in items.iter().enumerate() {
        let reported = LineText {
            line,
            key: "roles",
            item: Some(i),
            inner: None,
            text: item.as_str().unwrap_or(""),
        };
        if let Some(hint) = reported_hint(alloc, &reported)? {
            return Ok(Some(hint));
        }
    }
    Ok(None)
}

/// Returns a hint if a text of a task is not valid.
fn task_hint(
    alloc: Global,
    line: &str,
    item: usize,
    value: &Value<'_>,
) -> Result<Option<Hint>, AllocError> {
    for key in TASK_KEYS.split(' ') {
        let reported = LineText {
            line,
            key: "tasks",
            item: Some(item),
            inner: Some(key),
            text: value.get(key).and_then(Value::as_str).unwrap_or(""),
        };
        if let Some(hint) = reported_hint(alloc, &reported)? {
            return Ok(Some(hint));
        }
    }
    Ok(None)
}

/// Returns a hint if a text of a list of tasks is not valid.
fn tasks_hint(alloc: Global, line: &str, items: &[Value<'_>]) -> Result<Option<Hint>, AllocError> {
    for (i, item) in items.iter().enumerate() {
        if let Some(hint) = task_hint(alloc, line, i, item)? {
            return Ok(Some(hint));
        }
    }
    Ok(None)
}

/// Returns a hint if a text under a key of the event is not valid.
fn key_hint<'v>(
    alloc: Global,
    line: &'v str,
    value: &Value<'_>,
    key: &'v str,
) -> Result<Option<Hint>, AllocError> {
    match value.get(key) {
        Some(Value::String(text)) => {
            let reported = LineText {
                line,
                key,
                item: None,
                inner: None,
                text,
            };
            reported_hint(alloc, &reported)
        }
        Some(Value::Array(items)) => match kind_of(key) {
            Kind::Roles => roles_hint(alloc, line, items),
            _ => tasks_hint(alloc, line, items),
        },
        _ => Ok(None),
    }
}

/// Returns a hint if a text of a line is not valid. The line's JSON value is `value`, and it has the shape of an event.
pub(crate) fn text_hint(
    alloc: Global,
    line: &str,
    value: &Value<'_>,
) -> Result<Option<Hint>, AllocError> {
    let word = value.get("event").and_then(Value::as_str).unwrap_or("");
    for key in text_keys_of(word, value.get("tasks").is_some()).split(' ') {
        if let Some(hint) = key_hint(alloc, line, value, key)? {
            return Ok(Some(hint));
        }
    }
    Ok(None)
}
