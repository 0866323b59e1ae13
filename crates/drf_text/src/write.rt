//! Writes quantities, bundles and weights as text.
ghost use Rattle.std.specs.Prelude.{◌≡◌, ◌==◌, [], ◌∷◌, ◌++◌, ◌<◌, if◌then◌else◌, Ok, IfOk, OnOk, string_bytes};
ghost use Rattle.std.specs.List.{join_with_byte};
ghost use Rattle.drf_kinds.specs.Listed.{listed, intervals_of};
ghost use Rattle.drf_text.specs.Meaning.{quantities_meant};
ghost use Rattle.drf_text.specs.RoundTrip.{IsEntry};
ghost use Rattle.drf_text.specs.Written.{amount_text, quantity_text, quantities_text, interval_text, intervals_text, head_text, ranges_text, items_text, value_text, resource_text, bundle_text};

use crate::amount::push_amount;
use drf_bundle::{Bundle, Entry, Quantities, Resource, Value};
use drf_kinds::{Interval, Items, Ranges};
use itoa::Buffer;
use std::alloc::{AllocError, Global};

/// The capacity, in bytes, of a new text, so that common texts need not grow.
const USUAL_LENGTH: usize = 64;

/// Appends the separator, unless `place` is 0 (the first of several parts).
fn push_separator(text: &mut String, place: usize, mark: char) -> Result<(), AllocError>
    requires { mark < 128 }
    ensures { OnOk result (string_bytes text.new ≡ string_bytes text.old ++ (if place == 0 then [] else mark ∷ [])) }
{
    if place == 0 {
        return Ok(());
    }
    text.push(mark)
}

fn push_quantity(text: &mut String, entry: &Entry) -> Result<(), AllocError>
    ensures text { OnOk result (string_bytes text.new ≡ string_bytes text.old ++ quantity_text entry.now) }
    ensures entry { OnOk result (IsEntry entry.now) }
{
    text.push_str(entry.label.text())?;
    text.push(':')?;
    push_amount(text, entry.amount.thousandths())
}

/// Appends quantities to a text: for each name in order the name, `:` and its amount, joined by `;`. Reading the
/// appended text gives the same quantities. If memory runs out, a part of it may have been appended.
pub fn push_quantities(text: &mut String, quantities: &Quantities) -> Result<(), AllocError>
    ensures text { OnOk result (string_bytes text.new ≡ string_bytes text.old ++ quantities_text quantities.now) }
    ensures read { OnOk result (quantities_meant (quantities_text quantities.now) ≡ Ok quantities.now) }
{
    let entries = quantities.entries();
    for (i, entry) in entries.iter().enumerate() {
        push_separator(text, i, ';')?;
        push_quantity(text, entry)?;
    }
    Ok(())
}

/// Writes quantities as a new text; see `push_quantities`.
pub fn write_quantities(alloc: Global, quantities: &Quantities) -> Result<String, AllocError>
    ensures text { IfOk result (λ text. string_bytes text ≡ quantities_text quantities.now) }
    ensures read { OnOk result (quantities_meant (quantities_text quantities.now) ≡ Ok quantities.now) }
{
    let mut text = String::with_capacity(alloc, USUAL_LENGTH)?;
    push_quantities(&mut text, quantities)?;
    Ok(text)
}

fn push_interval(text: &mut String, interval: &Interval) -> Result<(), AllocError>
    ensures { OnOk result (string_bytes text.new ≡ string_bytes text.old ++ interval_text interval.now) }
{
    text.push_str(Buffer::new().format(interval.first))?;
    text.push('-')?;
    text.push_str(Buffer::new().format(interval.last))
}

/// Appends the maximal intervals, separated by commas.
fn push_intervals(text: &mut String, ranges: &Ranges) -> Result<(), AllocError>
    ensures { OnOk result (string_bytes text.new ≡ string_bytes text.old ++ intervals_text (intervals_of ranges.now)) }
{
    let intervals = ranges.intervals();
    for (i, interval) in intervals.iter().enumerate() {
        push_separator(text, i, ',')?;
        push_interval(text, interval)?;
    }
    Ok(())
}

/// Appends the members, separated by commas.
fn push_names(text: &mut String, items: &Items) -> Result<(), AllocError>
    ensures { OnOk result (string_bytes text.new ≡ string_bytes text.old ++ join_with_byte 44 (listed items.now)) }
{
    let names = items.names();
    for (i, name) in names.iter().enumerate() {
        push_separator(text, i, ',')?;
        text.push_str(name.text())?;
    }
    Ok(())
}

/// Appends the maximal intervals between `[` and `]`.
fn push_ranges(text: &mut String, ranges: &Ranges) -> Result<(), AllocError>
    ensures { OnOk result (string_bytes text.new ≡ string_bytes text.old ++ ranges_text ranges.now) }
{
    text.push('[')?;
    push_intervals(text, ranges)?;
    text.push(']')
}

/// Appends the members between `{` and `}`.
fn push_items(text: &mut String, items: &Items) -> Result<(), AllocError>
    ensures { OnOk result (string_bytes text.new ≡ string_bytes text.old ++ items_text items.now) }
{
    text.push('{')?;
    push_names(text, items)?;
    text.push('}')
}

/// Returns a weight given in thousandths as a decimal number: 1500 as `1.5`, 4000 as `4`.
pub fn write_weight(alloc: Global, weight: u64) -> Result<String, AllocError>
    ensures { IfOk result (λ text. string_bytes text ≡ amount_text weight) }
{
    let mut text = String::new(alloc);
    push_amount(&mut text, weight)?;
    Ok(text)
}

fn push_value(text: &mut String, value: &Value) -> Result<(), AllocError>
    ensures { OnOk result (string_bytes text.new ≡ string_bytes text.old ++ value_text value.now) }
{
    match value {
        Value::Scalar(scalar) => push_amount(text, scalar.thousandths()),
        Value::Ranges(ranges) => push_ranges(text, ranges),
        Value::Items(items) => push_items(text, items),
    }
}

fn push_head(text: &mut String, resource: &Resource) -> Result<(), AllocError>
    ensures { OnOk result (string_bytes text.new ≡ string_bytes text.old ++ head_text resource.now) }
{
    text.push_str(resource.label.text())?;
    if resource.is_unreserved() {
        return Ok(());
    }
    text.push('(')?;
    text.push_str(resource.role.text())?;
    text.push(')')
}

fn push_resource(text: &mut String, resource: &Resource) -> Result<(), AllocError>
    ensures { OnOk result (string_bytes text.new ≡ string_bytes text.old ++ resource_text resource.now) }
{
    push_head(text, resource)?;
    text.push(':')?;
    push_value(text, &resource.value)
}

/// Appends a bundle to a text: for each resource in order its name, its role in parentheses if it is reserved, `:` and
/// its value, joined by `;`. If memory runs out, a part of it may have been appended.
pub fn push_bundle(text: &mut String, bundle: &Bundle) -> Result<(), AllocError>
    ensures { OnOk result (string_bytes text.new ≡ string_bytes text.old ++ bundle_text bundle.now) }
{
    let resources = bundle.entries();
    for (i, resource) in resources.iter().enumerate() {
        push_separator(text, i, ';')?;
        push_resource(text, resource)?;
    }
    Ok(())
}

/// Writes a bundle as a new text; see `push_bundle`.
pub fn write_bundle(alloc: Global, bundle: &Bundle) -> Result<String, AllocError>
    ensures { IfOk result (λ text. string_bytes text ≡ bundle_text bundle.now) }
{
    let mut text = String::with_capacity(alloc, USUAL_LENGTH)?;
    push_bundle(&mut text, bundle)?;
    Ok(text)
}
