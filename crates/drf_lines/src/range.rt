//! Tests whether the numbers of a value are in the range of a double. A line with any other number is not JSON.
ghost use Rattle.std.specs.Prelude.{◌≡◌};
ghost use Rattle.json.specs.Value.{value_view, items_view, members_view};
ghost use Rattle.drf_lines.specs.LineValue.{is_in_range, items_in_range, members_in_range};

use crate::number::is_number_in_range;
use crate::object::LineValue;
use bumpalo::Bump;
use json::Value;

/// Returns whether every number of the value is in the range of a double.
#[cycle(is_in_range)]
pub fn is_in_range(value: &LineValue<'_>) -> bool
    ensures { result ≡ is_in_range (value_view value.now) }
{
    match value {
        Value::Number(text) => is_number_in_range(text),
        Value::Array(items) => items_in_range(items),
        Value::Object(members) => members_in_range(members),
        _ => true,
    }
}

#[cycle(is_in_range)]
fn items_in_range<'a>(items: &Vec<LineValue<'a>, &'a Bump>) -> bool
    ensures { result ≡ items_in_range (items_view items.now.items) }
{
    for item in items {
        if !is_in_range(item) {
            return false;
        }
    }
    true
}

#[cycle(is_in_range)]
fn members_in_range<'a>(members: &Vec<(&'a str, LineValue<'a>), &'a Bump>) -> bool
    ensures { result ≡ members_in_range (members_view members.now.items) }
{
    for member in members {
        if !is_in_range(&member.1) {
            return false;
        }
    }
    true
}
