//! A bundle that was read before, together with its text.
ghost use Rattle.std.specs.Prelude.{◌≡◌, ◌≤◌, length, Ok, IfSome};
ghost use Rattle.drf_lines.specs.Resources.{bundle_in};

use drf_amount::Algebra;
use drf_bundle::Bundle;
use std::alloc::{AllocError, Global};
use std::marker::Model;

/// A text of at most 128 bytes, and the bundle that it means.
#[derive(Drop)]
pub struct KnownBundle {
    text: String,
    bundle: Bundle,
}

impl Model for KnownBundle {
    ghost use Rattle.std.specs.Prelude.{⊤, ◌≡◌, ◌≤◌, length, Ok};
    ghost use Rattle.std.specs.String.{string_bytes};
    ghost use Rattle.drf_lines.specs.Resources.{bundle_in};

    ghost Value = { ⊤ };

    ghost view = { λ _. tt };

    ghost invariant = { λ k. (length (string_bytes k.text) ≤ 128) × (bundle_in (string_bytes k.text) ≡ Ok k.bundle) };
}

impl KnownBundle {
    /// Copies a text and the bundle that was read from it.
    pub fn new(alloc: Global, text: &str, bundle: &Bundle) -> Result<KnownBundle, AllocError>
        requires short { length text.now ≤ 128 }
        requires bundle { bundle_in text.now ≡ Ok bundle.now }
    {
        let bundle = bundle.copy()?;
        let text = String::from_str(alloc, text)?;
        Ok(KnownBundle { text, bundle })
    }

    /// Returns a copy of the bundle if its text is the given one, or `None` if it is not or memory runs out.
    pub fn of(&self, text: &str) -> Option<Bundle>
        ensures { IfSome result (λ bundle. bundle_in text.now ≡ Ok bundle) }
    {
        if self.text.as_str() == text {
            return self.bundle.copy().ok();
        }
        None
    }
}
