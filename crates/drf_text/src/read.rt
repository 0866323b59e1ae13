//! Reads bundles and quantities from text.
ghost use Rattle.std.specs.Prelude.{◌≡◌, if◌then◌else◌, OnOk, IfErr, IsErrOf, IsOk};
ghost use Rattle.drf_role.specs.Role.{default_role};
ghost use Rattle.drf_bundle.specs.Union.{has_other_kind};
ghost use Rattle.drf_text.specs.Blanks.{trimmed};
ghost use Rattle.drf_text.specs.Faults.{IsReported, IsMeaning};
ghost use Rattle.drf_text.specs.Meaning.{counted, meaning_of, quantities_meant};
ghost use Rattle.drf_text.specs.Pieces.{pieces_of};
ghost use Rattle.drf_text.specs.Steps.{IsFirstNamed, named_in, put_said, put_counted, bundle_step, quantities_step};

use crate::fault::TextFault;
use crate::said::{Counted, Said, read_count, read_piece};
use crate::trim::trim;
use drf_amount::{Algebra, Scalar};
use drf_bundle::{Bundle, Parts, Quantities, Value};
use drf_role::{Label, Role};
use std::alloc::Global;

/// Returns the error for a scalar that is too large by itself: `Kind` if its name already has another kind, else
/// `TooLarge`.
fn fault_of_too_large(bundle: &Parts, label: &Label) -> TextFault
    ensures { result ≡ (if has_other_kind bundle.now label.now (Value.Scalar 0) then TextFault.Kind else TextFault.TooLarge) }
{
    if bundle.has_other_kind(label, &Value::Scalar(Scalar::new(0))) {
        return TextFault::Kind;
    }
    TextFault::TooLarge
}

/// Adds the resource of a piece to the bundle. An empty value changes nothing.
fn put_said(bundle: &mut Parts, said: Said) -> Result<(), TextFault>
    ensures ok { OnOk result (put_said bundle.old said ≡ Ok bundle.new) }
    ensures fault { IfErr result (IsReported (put_said bundle.old said)) }
    ensures memory { IsErrOf result TextFault.Memory → IsOk (put_said bundle.old said) }
{
    let Said { label, role, value } = said;
    match value {
        None => Err(fault_of_too_large(bundle, &label)),
        Some(value) => {
            if value.is_empty() {
                return Ok(());
            }
            Ok(bundle.unite(label, role, value)?)
        }
    }
}

/// Reads one piece and adds its resource to the bundle. A blank piece changes nothing.
fn add_piece(
    alloc: Global,
    bundle: &mut Parts,
    text: &str,
    unreserved: &Role,
) -> Result<(), TextFault>
    requires { unreserved.now ≡ default_role }
    ensures ok { OnOk result (bundle_step text.now bundle.old ≡ Ok bundle.new) }
    ensures fault { IfErr result (IsReported (bundle_step text.now bundle.old)) }
    ensures memory { IsErrOf result TextFault.Memory → IsOk (named_in (trimmed text.now)) }
{
    let piece = trim(text);
    if piece.is_empty() {
        return Ok(());
    }
    let said = read_piece(alloc, piece, unreserved)?;
    put_said(bundle, said)
}

/// Reads a bundle: pieces `name:value` or `name(role):value`, separated by `;`. Returns the first error of the first
/// piece that has one, or `Memory` if there is not enough memory.
pub fn read_bundle(alloc: Global, text: &str) -> Result<Bundle, TextFault>
    ensures read { IsMeaning result (meaning_of text.now) }
    ensures memory { IsErrOf result TextFault.Memory → IsFirstNamed (pieces_of text.now) }
{
    let unreserved = Role::default_role(alloc);
    let mut bundle = Parts::empty(alloc);
    for piece in text.split(';') {
        add_piece(alloc, &mut bundle, piece, &unreserved)?;
    }
    Ok(Bundle::from_parts(bundle)?)
}

/// Adds an amount to the one that the quantities have under its name. Fails with `TooLarge` if the sum is 2^64
/// thousandths or more.
fn add_amount(quantities: &mut Quantities, label: Label, thousandths: u64) -> Result<(), TextFault>
    ensures ok { OnOk result (counted quantities.old label (Value.Scalar thousandths) ≡ Ok quantities.new) }
    ensures fault { IfErr result (IsReported (counted quantities.old label (Value.Scalar thousandths))) }
    ensures memory { IsErrOf result TextFault.Memory → IsOk (counted quantities.old label (Value.Scalar thousandths)) }
{
    match quantities.get(label.text()).checked_add(thousandths) {
        Some(sum) => Ok(quantities.set(label, sum)?),
        None => Err(TextFault::TooLarge),
    }
}

/// Adds the amount of a piece to the quantities. Fails with `Kind` if its value is not a scalar.
fn put_counted(quantities: &mut Quantities, said: Counted) -> Result<(), TextFault>
    ensures ok { OnOk result (put_counted quantities.old said ≡ Ok quantities.new) }
    ensures fault { IfErr result (IsReported (put_counted quantities.old said)) }
    ensures memory { IsErrOf result TextFault.Memory → IsOk (put_counted quantities.old said) }
{
    let Counted { label, value } = said;
    match value {
        None => Err(TextFault::TooLarge),
        Some(value) => match value {
            Value::Scalar(scalar) => add_amount(quantities, label, scalar.thousandths()),
            _ => Err(TextFault::Kind),
        },
    }
}

/// Reads one piece and adds its amount to the quantities. A blank piece changes nothing.
fn count_piece(alloc: Global, quantities: &mut Quantities, text: &str) -> Result<(), TextFault>
    ensures ok { OnOk result (quantities_step text.now quantities.old ≡ Ok quantities.new) }
    ensures fault { IfErr result (IsReported (quantities_step text.now quantities.old)) }
    ensures memory { IsErrOf result TextFault.Memory → IsOk (named_in (trimmed text.now)) }
{
    let piece = trim(text);
    if piece.is_empty() {
        return Ok(());
    }
    let said = read_count(alloc, piece)?;
    put_counted(quantities, said)
}

/// Reads quantities: pieces `name:amount`, separated by `;`. A name with the amount 0 is kept. Returns the first error
/// of the first piece that has one, or `Memory` if there is not enough memory.
pub fn read_quantities(alloc: Global, text: &str) -> Result<Quantities, TextFault>
    ensures read { IsMeaning result (quantities_meant text.now) }
    ensures memory { IsErrOf result TextFault.Memory → IsFirstNamed (pieces_of text.now) }
{
    let mut quantities = Quantities::empty(alloc);
    for entry in text.split(';') {
        count_piece(alloc, &mut quantities, entry)?;
    }
    Ok(quantities)
}
