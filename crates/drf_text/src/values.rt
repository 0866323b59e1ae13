//! Reads the names, roles and values of a piece.
ghost use Rattle.std.specs.Prelude.{◌≡◌, IsErrOf, IsOk};
ghost use Rattle.std.specs.Option.{option_copied};
ghost use Rattle.drf_role.specs.Role.{default_role};
ghost use Rattle.drf_text.specs.Faults.{IsReadAs, IsMeaning};
ghost use Rattle.drf_text.specs.Pieces.{parts_between};
ghost use Rattle.drf_text.specs.Steps.{label_in, role_in, end_in, ends_in, pair_in, each_of, members_in, scalar_in, ranges_in, value_in, view_body};

use crate::fault::TextFault;
use crate::number::{are_digits, read_number};
use crate::piece::{Body, Kind, is_blank};
use crate::trim::trim;
use drf_amount::Scalar;
use drf_bundle::Value;
use drf_kinds::{Items, Ranges};
use drf_role::{Label, Role};
use std::alloc::Global;

/// Reads a name. Fails with `BadName` if the text is not a name.
#[tactic(auto, unfolding(crate::specs::Steps::label_in))]
pub fn read_label(alloc: Global, text: &str) -> Result<Label, TextFault>
    ensures read { IsMeaning result (label_in text.now) }
    ensures memory { IsErrOf result TextFault.Memory → IsOk (label_in text.now) }
{
    Ok(Label::read(alloc, text)?)
}

/// Reads a role, or copies the role `*` if there is none. Fails with `BadRole` if the text is not a role.
#[tactic(auto, unfolding(crate::specs::Steps::role_in))]
pub fn read_role(alloc: Global, role: Option<&str>, unreserved: &Role) -> Result<Role, TextFault>
    requires { unreserved.now ≡ default_role }
    ensures { IsMeaning result (role_in (option_copied role.entry)) }
{
    match role {
        Some(text) => Ok(Role::read(alloc, text)?),
        None => Ok(unreserved.copy()?),
    }
}

/// Returns an end of a range, or `None` if the text is not a number below 2^32.
fn read_end(text: &str) -> Option<u32>
    ensures { result ≡ end_in text.now }
{
    if !are_digits(text) {
        return None;
    }
    text.parse().ok()
}

/// Returns the two ends of a range, or `None` if one is not a number or the first is greater than the last.
fn read_ends(low: &str, high: &str) -> Option<(u32, u32)>
    ensures { result ≡ ends_in low.now high.now }
{
    let first = read_end(low)?;
    let last = read_end(high)?;
    if last < first {
        return None;
    }
    Some((first, last))
}

fn read_pair(part: &str) -> Result<(u32, u32), TextFault>
    ensures { result ≡ pair_in part.now }
{
    match part.split_once('-') {
        Some((low, high)) => read_ends(trim(low), trim(high)).ok_or(TextFault::BadNumber),
        None => Err(TextFault::BadNumber),
    }
}

fn read_pairs(alloc: Global, text: &str) -> Result<Vec<(u32, u32)>, TextFault>
    ensures { IsReadAs (λ pairs. pairs.items) result (each_of pair_in (parts_between text.now)) }
{
    let mut pairs = Vec::new(alloc);
    if is_blank(text) {
        return Ok(pairs);
    }
    for part in text.split(',') {
        pairs.push(read_pair(trim(part))?)?;
    }
    Ok(pairs)
}

fn read_labels(alloc: Global, text: &str) -> Result<Vec<Label>, TextFault>
    ensures { IsReadAs (λ labels. labels.items) result (each_of label_in (parts_between text.now)) }
{
    let mut labels = Vec::new(alloc);
    if is_blank(text) {
        return Ok(labels);
    }
    for part in text.split(',') {
        labels.push(read_label(alloc, trim(part))?)?;
    }
    Ok(labels)
}

/// Reads the members of a set; other kinds of values have none.
#[tactic(auto, unfolding(crate::specs::Steps::members_in))]
pub fn read_members(alloc: Global, body: &Body<'_>) -> Result<Vec<Label>, TextFault>
    ensures { IsReadAs (λ labels. labels.items) result (members_in (view_body body.now)) }
{
    match body.kind {
        Kind::Items => read_labels(alloc, body.text),
        _ => Ok(Vec::new(alloc)),
    }
}

/// Reads a scalar. Returns `None` if it is too large, and fails with `BadNumber` if it is not a number.
#[tactic(auto, unfolding(crate::specs::Steps::scalar_in))]
fn read_scalar(text: &str) -> Result<Option<Value>, TextFault>
    ensures { result ≡ scalar_in text.now }
{
    match read_number(text) {
        Ok(thousandths) => Ok(Some(Value::Scalar(Scalar::new(thousandths)))),
        Err(fault) => match fault {
            TextFault::TooLarge => Ok(None),
            _ => Err(fault),
        },
    }
}

#[tactic(auto, unfolding(crate::specs::Steps::ranges_in))]
fn read_ranges(alloc: Global, text: &str) -> Result<Ranges, TextFault>
    ensures { IsMeaning result (ranges_in text.now) }
{
    let pairs = read_pairs(alloc, text)?;
    Ok(Ranges::from_pairs(alloc, &pairs)?)
}

/// Returns the value. The members of a set were read before. Returns `None` if a scalar is too large, and fails with
/// `BadNumber` if a number is invalid.
#[tactic(auto, unfolding(crate::specs::Steps::value_in))]
pub fn read_value(
    alloc: Global,
    body: &Body<'_>,
    members: Vec<Label>,
) -> Result<Option<Value>, TextFault>
    ensures { IsMeaning result (value_in (view_body body.now) members.items) }
{
    match body.kind {
        Kind::Scalar => read_scalar(body.text),
        Kind::Ranges => Ok(Some(Value::Ranges(read_ranges(alloc, body.text)?))),
        Kind::Items => Ok(Some(Value::Items(Items::from_names(alloc, members)?))),
    }
}
