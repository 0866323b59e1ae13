//! Reads the texts of resources, quantities and weights in a line.
ghost use Rattle.std.specs.Prelude.{◌≡◌};
ghost use Rattle.drf_lines.specs.Fault.{IsReadOf};
ghost use Rattle.drf_lines.specs.Resources.{bundle_in, quantities_in, weight_in};

use crate::fault::{LineError, LineFault};
use drf_bundle::{Bundle, Quantities};
use drf_text::TextFault;
use std::alloc::Global;

/// Reads a bundle. Fails with `BadText` if the text is not a bundle, and with `Memory` if memory runs out.
#[tactic(auto, unfolding(crate::specs::Resources::bundle_in))]
pub fn read_bundle(alloc: Global, text: &str) -> Result<Bundle, LineError>
    ensures { IsReadOf result (bundle_in text.now) }
{
    match drf_text::read_bundle(alloc, text) {
        Ok(bundle) => Ok(bundle),
        Err(TextFault::Memory) => Err(LineError::Memory),
        Err(_) => Err(LineError::Fault(LineFault::BadText)),
    }
}

/// Reads quantities. Fails with `BadText` if the text is not quantities, and with `Memory` if memory runs out.
#[tactic(auto, unfolding(crate::specs::Resources::quantities_in))]
pub fn read_quantities(alloc: Global, text: &str) -> Result<Quantities, LineError>
    ensures { IsReadOf result (quantities_in text.now) }
{
    match drf_text::read_quantities(alloc, text) {
        Ok(quantities) => Ok(quantities),
        Err(TextFault::Memory) => Err(LineError::Memory),
        Err(_) => Err(LineError::Fault(LineFault::BadText)),
    }
}

/// Reads a weight, and returns it in thousandths. Fails with `BadText` if the text is not a weight.
#[tactic(auto, unfolding(crate::specs::Resources::weight_in))]
pub fn read_weight(text: &str) -> Result<u64, LineFault>
    ensures { result ≡ weight_in text.now }
{
    drf_text::read_weight(text).map_err(|_| LineFault::BadText)
}
