//! The fast path for JSON: reads arrays and objects in one pass over their bytes. They must have no spaces, escapes,
//! `true`, `false`, `null`, empty arrays or empty objects, only integers of at most 19 digits, and few levels. So all
//! numbers are in the range of a double.
ghost use Rattle.std.specs.Prelude.{◌≡◌, ◌<◌, ◌≤◌, ℕ, [], true, Some, IfSome, IfOk, length, get_or, is_some};
ghost use Rattle.json.specs.Json.{value};
ghost use Rattle.json.specs.Lex.{tokens};
ghost use Rattle.json.specs.Value.{value_view, items_view, members_view};
ghost use Rattle.serde_json.specs.Read.{number_of};
ghost use Rattle.drf_lines.specs.LineValue.{is_in_range, items_in_range, members_in_range};
ghost use Rattle.drf_lines.specs.Usual.{is_end, AreDigitsFrom, IsStringAt, IsNumberAt, IsKeyAt, IsValueAt, AreItemsAt, AreMembersAt};

use crate::number::FEW_DIGITS;
use crate::object::LineValue;
use crate::plain::plain_end;
use bumpalo::Bump;
use json::Value;
use std::alloc::AllocError;

/// How many levels of arrays and objects a line may have.
pub const MOST_DEPTH: usize = 127;

/// The remaining depth below which the fast path stops, after four levels. No event and no row of a state has more.
const LEAST_DEPTH: usize = MOST_DEPTH - 3;

/// The initial capacity for the members of the outermost object, so that few objects grow.
const USUAL_MEMBERS: usize = 8;

/// The initial capacity for inner objects, of which a line may have thousands.
const FEW_MEMBERS: usize = 2;

/// Returns the byte at an index, or a space after the end.
#[inline(always)]
fn byte_at(bytes: &[u8], at: usize) -> u8
    ensures { result ≡ get_or bytes.now at 32 }
{
    if at < bytes.len() { bytes[at] } else { b' ' }
}

/// Returns the string at an index if it has no escapes, and the index after it.
#[inline(always)]
fn string_at<'a>(text: &'a str, at: usize) -> Option<(&'a str, usize)>
    ensures found { IfSome result (λ found. IsStringAt text.now at found.0.now found.1) }
    ensures order { IfSome result (λ found. at < found.1) }
{
    let bytes = text.as_bytes();
    if byte_at(bytes, at) != b'"' {
        return None;
    }
    let stop = plain_end(bytes, at + 1);
    if byte_at(bytes, stop) != b'"' {
        return None;
    }
    Some((&text[at + 1..stop], stop + 1))
}

/// Returns the end of the digits that begin at `from`.
fn digits_end(bytes: &[u8], from: usize) -> usize
    requires { from ≤ length bytes.now }
    ensures bound { (from ≤ result) × (result ≤ length bytes.now) }
    ensures digits { AreDigitsFrom bytes.now from result }
{
    let mut i = from;
    while i < bytes.len() && bytes[i].is_ascii_digit() {
        i += 1;
    }
    i
}

/// Returns whether the byte ends a value: a comma or a closing bracket or brace.
#[inline(always)]
fn is_end(byte: u8) -> bool
    ensures { result ≡ is_end byte }
{
    (byte == b',') | (byte == b'}') | (byte == b']')
}

/// Returns the number at an index if it is at most 19 digits before a byte that ends a value, and the index after it.
fn digits_at<'a>(text: &'a str, at: usize) -> Option<(&'a str, usize)>
    ensures found { IfSome result (λ found. IsNumberAt text.now at found.0.now found.1) }
    ensures range { IfSome result (λ found. is_some (number_of found.0.now) ≡ true) }
    ensures order { IfSome result (λ found. at < found.1) }
{
    let bytes = text.as_bytes();
    if at >= bytes.len() {
        return None;
    }
    let stop = digits_end(bytes, at);
    if stop == at {
        return None;
    }
    if stop - at > FEW_DIGITS {
        return None;
    }
    // A number of several digits must not begin with 0.
    if (stop > at + 1) & (bytes[at] == b'0') {
        return None;
    }
    if !is_end(byte_at(bytes, stop)) {
        return None;
    }
    Some((&text[at..stop], stop))
}

/// Returns the key at an index, and the index after its colon.
#[inline(always)]
fn key_at<'a>(text: &'a str, at: usize) -> Option<(&'a str, usize)>
    ensures found { IfSome result (λ found. IsKeyAt text.now at found.0.now found.1) }
    ensures order { IfSome result (λ found. at < found.1) }
{
    let (key, next) = string_at(text, at)?;
    if byte_at(text.as_bytes(), next) != b':' {
        return None;
    }
    Some((key, next + 1))
}

/// Returns the string or number at an index, and the index after it.
fn leaf_at<'a>(text: &'a str, at: usize) -> Option<(LineValue<'a>, usize)>
    ensures found { IfSome result (λ found. (depth : ℕ) → IsValueAt depth text.now at (value_view found.0) found.1) }
    ensures range { IfSome result (λ found. is_in_range (value_view found.0) ≡ true) }
    ensures order { IfSome result (λ found. at < found.1) }
{
    if byte_at(text.as_bytes(), at) != b'"' {
        let (number, next) = digits_at(text, at)?;
        return Some((Value::Number(number), next));
    }
    let (found, next) = string_at(text, at)?;
    if !is_end(byte_at(text.as_bytes(), next)) {
        return None;
    }
    Some((Value::String(found), next))
}

/// Returns the array or object at an index if it has at most `depth` levels, and the index after it.
#[cycle(value_at)]
fn value_at<'a>(
    arena: &'a Bump,
    text: &'a str,
    at: usize,
    depth: usize,
) -> Result<Option<(LineValue<'a>, usize)>, AllocError>
    ensures found { IfOk result (λ found. IfSome found (λ found. IsValueAt depth text.now at (value_view found.0) found.1)) }
    ensures range { IfOk result (λ found. IfSome found (λ found. is_in_range (value_view found.0) ≡ true)) }
    ensures order { IfOk result (λ found. IfSome found (λ found. at < found.1)) }
{
    if depth < LEAST_DEPTH {
        return Ok(None);
    }
    match byte_at(text.as_bytes(), at) {
        b'{' => match members_at(arena, text, at + 1, depth - 1)? {
            Some((members, next)) => Ok(Some((Value::Object(members), next))),
            None => Ok(None),
        },
        b'[' => match items_at(arena, text, at + 1, depth - 1)? {
            Some((items, next)) => Ok(Some((Value::Array(items), next))),
            None => Ok(None),
        },
        _ => Ok(None),
    }
}

/// Returns the value at an index inside another value, and the index after it. Most are strings and numbers.
#[inline(always)]
#[cycle(value_at)]
fn inner_at<'a>(
    arena: &'a Bump,
    text: &'a str,
    at: usize,
    depth: usize,
) -> Result<Option<(LineValue<'a>, usize)>, AllocError>
    ensures found { IfOk result (λ found. IfSome found (λ found. IsValueAt depth text.now at (value_view found.0) found.1)) }
    ensures range { IfOk result (λ found. IfSome found (λ found. is_in_range (value_view found.0) ≡ true)) }
    ensures order { IfOk result (λ found. IfSome found (λ found. at < found.1)) }
{
    let byte = byte_at(text.as_bytes(), at);
    if (byte == b'{') | (byte == b'[') {
        return value_at(arena, text, at, depth);
    }
    Ok(leaf_at(text, at))
}

/// Returns the items of an array from the index after its opening bracket, and the index after its closing bracket.
#[cycle(value_at)]
fn items_at<'a>(
    arena: &'a Bump,
    text: &'a str,
    from: usize,
    depth: usize,
) -> Result<Option<(Vec<LineValue<'a>, &'a Bump>, usize)>, AllocError>
    ensures found { IfOk result (λ found. IfSome found (λ found. AreItemsAt depth text.now from (items_view found.0.items) found.1)) }
    ensures range { IfOk result (λ found. IfSome found (λ found. items_in_range (items_view found.0.items) ≡ true)) }
    ensures order { IfOk result (λ found. IfSome found (λ found. from < found.1)) }
{
    let mut found = Vec::new(arena);
    let mut at = from;
    // Empty arrays do not take the fast path.
    while at < text.len() {
        let Some((item, next)) = inner_at(arena, text, at, depth)? else {
            return Ok(None);
        };
        found.push(item)?;
        match byte_at(text.as_bytes(), next) {
            b',' => at = next + 1,
            b']' => return Ok(Some((found, next + 1))),
            _ => return Ok(None),
        }
    }
    Ok(None)
}

/// Returns the initial capacity for the members of an object, given the levels that remain.
fn room_for(depth: usize) -> usize
    ensures { result ≤ 8 }
{
    if depth < MOST_DEPTH - 1 {
        return FEW_MEMBERS;
    }
    USUAL_MEMBERS
}

/// Returns the members of an object from the index after its opening brace, and the index after its closing brace.
#[cycle(value_at)]
fn members_at<'a>(
    arena: &'a Bump,
    text: &'a str,
    from: usize,
    depth: usize,
) -> Result<Option<(Vec<(&'a str, LineValue<'a>), &'a Bump>, usize)>, AllocError>
    ensures found { IfOk result (λ found. IfSome found (λ found. AreMembersAt depth text.now from (members_view found.0.items) found.1)) }
    ensures range { IfOk result (λ found. IfSome found (λ found. members_in_range (members_view found.0.items) ≡ true)) }
    ensures order { IfOk result (λ found. IfSome found (λ found. from < found.1)) }
{
    let mut found = Vec::with_capacity(arena, room_for(depth))?;
    let mut at = from;
    // Empty objects do not take the fast path.
    while at < text.len() {
        let Some((key, begin)) = key_at(text, at) else {
            return Ok(None);
        };
        let Some((member, next)) = inner_at(arena, text, begin, depth)? else {
            return Ok(None);
        };
        found.push((key, member))?;
        match byte_at(text.as_bytes(), next) {
            b',' => at = next + 1,
            b'}' => return Ok(Some((found, next + 1))),
            _ => return Ok(None),
        }
    }
    Ok(None)
}

/// Returns the value of a text that takes the fast path, or `None` for other texts, which may still be JSON.
pub fn usual_value<'a>(arena: &'a Bump, text: &'a str) -> Result<Option<LineValue<'a>>, AllocError>
    ensures found { IfOk result (λ found. IfSome found (λ found. value 127 (tokens text.now) ≡ Some (value_view found, []))) }
    ensures range { IfOk result (λ found. IfSome found (λ found. is_in_range (value_view found) ≡ true)) }
{
    match value_at(arena, text, 0, MOST_DEPTH)? {
        Some((found, next)) if next == text.len() => Ok(Some(found)),
        _ => Ok(None),
    }
}
