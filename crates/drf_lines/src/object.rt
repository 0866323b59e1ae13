//! Reads the members of a JSON object.
ghost use Rattle.std.specs.Prelude.{◌≡◌, ◌≤◌, ◌==◌, IsTrue, length, map, slice_index, option_map, option_and_then};
ghost use Rattle.std.specs.Str.{bytes_eq};
ghost use Rattle.json.specs.Find.{get_member};
ghost use Rattle.json.specs.Value.{value_view, members_view};
ghost use Rattle.serde_json.specs.Data.{no_members};
ghost use Rattle.serde_json.specs.Find.{get, as_str, as_bool, as_array};
ghost use Rattle.drf_lines.specs.Fault.{IsFoundAs, IsReadAs};
ghost use Rattle.drf_lines.specs.LineValue.{is_among, line_view, items_seen, members_of};
ghost use Rattle.drf_lines.specs.TaskTexts.{values_at};
ghost use Rattle.drf_lines.specs.Object.{has_members, keys, keys_besides, member_count, number_of, text_at, number_at, boolean_at, number_or, texts_at};

use crate::fault::{LineError, LineFault};
use crate::number::whole_number;
use bumpalo::Bump;
use json::Value;
use std::alloc::Global;

/// The JSON value of a line. Its texts are borrowed from the line; its arrays and objects are in an arena, which is
/// emptied before the next line.
pub type LineValue<'a> = Value<'a, &'a Bump>;

/// The greatest number of keys that an event or a row has.
const MOST_KEYS: usize = 8;

/// Returns whether a key is one of the names.
fn is_among(names: &[&str], key: &str) -> bool
    ensures { result ≡ is_among (map (λ name. name.now) names.now) key.now }
{
    for name in names {
        if *name == key {
            return true;
        }
    }
    false
}

/// Returns whether the members have exactly `count` different keys. It stops at the first key too many, because a line
/// may have thousands of members.
fn has_keys(members: &[(&str, LineValue<'_>)], count: usize) -> bool
    requires { count ≤ 8 }
    ensures { result ≡ (member_count (members_of (members_view members.now) no_members) == count) }
{
    let mut names = [""; MOST_KEYS];
    let mut found = 0;
    for member in members {
        if is_among(&names[..found], member.0) {
            continue;
        }
        if found == count {
            return false;
        }
        names[found] = member.0;
        found += 1;
    }
    found == count
}

/// Returns the first byte of a key, or 0 if the key is empty.
fn first_byte(key: &str) -> u8
    ensures { result ≡ slice_index key.now 0 }
{
    if key.is_empty() {
        return 0;
    }
    key.as_bytes()[0]
}

/// Returns `true` only if all keys begin with different bytes, and so are different. This holds for most lines.
fn begin_apart(members: &[(&str, LineValue<'_>)]) -> bool
    ensures { IsTrue result → member_count (members_of (members_view members.now) no_members) ≡ length members.now }
{
    let mut seen = [false; 256];
    for member in members {
        let first = first_byte(member.0) as usize;
        if seen[first] {
            return false;
        }
        seen[first] = true;
    }
    true
}

/// Does the same as `has_keys`, but only counts the members if the first bytes of the keys differ.
fn has_count(members: &[(&str, LineValue<'_>)], count: usize) -> bool
    requires { count ≤ 8 }
    ensures { result ≡ (member_count (members_of (members_view members.now) no_members) == count) }
{
    if begin_apart(members) {
        return members.len() == count;
    }
    has_keys(members, count)
}

/// Returns whether the value is an object with exactly `count` different keys.
#[tactic(auto, unfolding(crate::specs::Object::has_members, crate::specs::LineValue::line_view))]
fn has_members(value: &LineValue<'_>, count: usize) -> bool
    requires { count ≤ 8 }
    ensures { result ≡ has_members count (line_view value.now) }
{
    match value {
        Value::Object(members) => has_count(members, count),
        _ => false,
    }
}

/// Fails with `BadShape` unless the value is an object with exactly `count` different keys.
#[tactic(auto, unfolding(crate::specs::Object::keys))]
pub fn keys(value: &LineValue<'_>, count: usize) -> Result<(), LineFault>
    requires { count ≤ 8 }
    ensures { result ≡ keys count (line_view value.now) }
{
    if !has_members(value, count) {
        return Err(LineFault::BadShape);
    }
    Ok(())
}

/// Returns whether two keys are equal. Most unequal keys differ in their first byte.
fn is_key(key: &str, name: &str) -> bool
    ensures { result ≡ bytes_eq key.now name.now }
{
    if first_byte(key) != first_byte(name) {
        return false;
    }
    key == name
}

/// Returns the value of the last member with that name.
fn find_member<'v, 'a>(
    members: &'v [(&'a str, LineValue<'a>)],
    name: &str,
) -> Option<&'v LineValue<'a>>
    ensures { option_map (λ found. value_view found.now) result ≡ get_member name.now (members_view members.now) }
{
    let mut left = members.len();
    while left > 0 {
        left -= 1;
        let member = &members[left];
        if is_key(member.0, name) {
            return Some(&member.1);
        }
    }
    None
}

/// Returns the value under a key, or `None` if the value is not an object with that key.
#[tactic(auto, unfolding(crate::specs::LineValue::line_view))]
pub fn find<'v, 'a>(value: &'v LineValue<'a>, key: &str) -> Option<&'v LineValue<'a>>
    ensures { option_map (λ found. line_view found.now) result ≡ get key.now (line_view value.now) }
{
    match value {
        Value::Object(members) => find_member(members, key),
        _ => None,
    }
}

/// Returns the text of a string.
#[tactic(auto, unfolding(crate::specs::LineValue::line_view))]
fn as_text<'a>(value: &LineValue<'a>) -> Option<&'a str>
    ensures { option_map (λ text. text.now) result ≡ as_str (line_view value.now) }
{
    value.as_str()
}

/// Returns the integer of a number, if it is one below 2^64.
#[tactic(auto, unfolding(crate::specs::LineValue::line_view))]
fn as_number(value: &LineValue<'_>) -> Option<u64>
    ensures { result ≡ number_of (line_view value.now) }
{
    whole_number(value.as_number()?)
}

/// Returns the value of a boolean.
#[tactic(auto, unfolding(crate::specs::LineValue::line_view))]
fn as_boolean(value: &LineValue<'_>) -> Option<bool>
    ensures { result ≡ as_bool (line_view value.now) }
{
    value.as_bool()
}

/// Returns the items of an array.
#[tactic(auto, unfolding(crate::specs::LineValue::line_view))]
fn as_items<'v, 'a>(value: &'v LineValue<'a>) -> Option<&'v Vec<LineValue<'a>, &'a Bump>>
    ensures { option_map (λ items. items_seen items.now.items) result ≡ as_array (line_view value.now) }
{
    match value {
        Value::Array(items) => Some(items),
        _ => None,
    }
}

/// Fails with `BadShape` unless the object has exactly `count` different keys, apart from the optional one.
#[tactic(auto, unfolding(crate::specs::Object::keys_besides))]
pub fn keys_besides(value: &LineValue<'_>, key: &str, count: u8) -> Result<(), LineFault>
    requires { count ≤ 7 }
    ensures { result ≡ keys_besides key.now count (line_view value.now) }
{
    let count = count as usize;
    if find(value, key).is_some() {
        return keys(value, count + 1);
    }
    keys(value, count)
}

fn find_text<'a>(value: &LineValue<'a>, key: &str) -> Option<&'a str>
    ensures { option_map (λ text. text.now) result ≡ option_and_then as_str (get key.now (line_view value.now)) }
{
    as_text(find(value, key)?)
}

/// Returns the text under a key. Fails with `BadShape` if there is no string.
#[tactic(auto, unfolding(crate::specs::Object::text_at))]
pub fn text_at<'a>(value: &LineValue<'a>, key: &str) -> Result<&'a str, LineFault>
    ensures { IsFoundAs (λ text. text.now) result (text_at key.now (line_view value.now)) }
{
    find_text(value, key).ok_or(LineFault::BadShape)
}

fn find_number(value: &LineValue<'_>, key: &str) -> Option<u64>
    ensures { result ≡ option_and_then number_of (get key.now (line_view value.now)) }
{
    as_number(find(value, key)?)
}

/// Returns the number under a key. Fails with `BadShape` if there is no integer below 2^64.
#[tactic(auto, unfolding(crate::specs::Object::number_at))]
pub fn number_at(value: &LineValue<'_>, key: &str) -> Result<u64, LineFault>
    ensures { result ≡ number_at key.now (line_view value.now) }
{
    find_number(value, key).ok_or(LineFault::BadShape)
}

fn find_boolean(value: &LineValue<'_>, key: &str) -> Option<bool>
    ensures { result ≡ option_and_then as_bool (get key.now (line_view value.now)) }
{
    as_boolean(find(value, key)?)
}

/// Returns the boolean under a key. Fails with `BadShape` if there is no boolean.
#[tactic(auto, unfolding(crate::specs::Object::boolean_at))]
pub fn boolean_at(value: &LineValue<'_>, key: &str) -> Result<bool, LineFault>
    ensures { result ≡ boolean_at key.now (line_view value.now) }
{
    find_boolean(value, key).ok_or(LineFault::BadShape)
}

/// Returns the number under a key, or the default if there is no such key. Fails with `BadShape` if the value there is
/// not an integer below 2^64.
#[tactic(auto, unfolding(crate::specs::Object::number_or))]
pub fn number_or(value: &LineValue<'_>, key: &str, usual: u64) -> Result<u64, LineFault>
    ensures { result ≡ number_or usual key.now (line_view value.now) }
{
    match find(value, key) {
        Some(found) => as_number(found).ok_or(LineFault::BadShape),
        None => Ok(usual),
    }
}

fn items_at<'v, 'a>(value: &'v LineValue<'a>, key: &str) -> Option<&'v Vec<LineValue<'a>, &'a Bump>>
    ensures { option_map (λ items. items_seen items.now.items) result ≡ option_and_then as_array (get key.now (line_view value.now)) }
{
    as_items(find(value, key)?)
}

/// Returns the values of the array under a key. Fails with `BadShape` if there is no array.
#[tactic(auto, unfolding(crate::specs::TaskTexts::values_at))]
pub fn values_at<'v, 'a>(
    value: &'v LineValue<'a>,
    key: &str,
) -> Result<&'v [LineValue<'a>], LineFault>
    ensures { IsFoundAs (λ values. map line_view values.now) result (values_at key.now (line_view value.now)) }
{
    match items_at(value, key) {
        Some(items) => Ok(items.as_slice()),
        None => Err(LineFault::BadShape),
    }
}

/// Returns the texts of the array under a key. Fails with `BadShape` if there is no array, or an item is not a string.
pub fn texts_at<'a>(
    alloc: Global,
    value: &LineValue<'a>,
    key: &str,
) -> Result<Vec<&'a str>, LineError>
    ensures { IsReadAs (λ texts. map (λ text. text.now) texts.items) result (texts_at key.now (line_view value.now)) }
{
    let items = items_at(value, key).ok_or(LineFault::BadShape)?;
    let mut texts = Vec::new(alloc);
    for item in items {
        texts.push(as_text(item).ok_or(LineFault::BadShape)?)?;
    }
    Ok(texts)
}
