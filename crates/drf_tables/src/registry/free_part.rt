//! The free resources of an agent.
ghost use Rattle.std.specs.Prelude.{◌≡◌, IfOk};
ghost use Rattle.drf_rows.specs.Cycle.{is_allocatable};

use drf_amount::Algebra;
use drf_bundle::Bundle;
use drf_rows::is_worth_an_offer;
use std::alloc::AllocError;
use std::marker::Model;

/// The free resources of an agent, and whether they are enough for an offer. The latter is stored because each cycle asks it of
/// each agent.
pub(crate) struct FreePart {
    bundle: Bundle,
    is_worth: bool,
}

// Written out, so that the proofs of callers that drop a free part see one call, and not the drop of each field.
impl Drop for FreePart {
    fn drop(self) {
        let FreePart {
            bundle: _bundle,
            is_worth: _is_worth,
        } = self;
    }
}

impl Model for FreePart {
    ghost use Rattle.std.specs.Prelude.{List};
    ghost use Rattle.drf_bundle.specs.declared.resource.Resource.{Resource};

    ghost Value = { List Resource };

    ghost use Rattle.std.specs.Coded.{coded_list};
    ghost use Rattle.drf_bundle.specs.contracts.resource.Resource as resource;

    ghost coded = { coded_list resource.the_row.coded };

    ghost view = { λ f. f.bundle };

    ghost use Rattle.std.specs.Prelude.{◌≡◌};
    ghost use Rattle.drf_rows.specs.Cycle.{is_allocatable};

    ghost invariant = { λ f. f.is_worth ≡ is_allocatable f.bundle };
}

impl FreePart {
    pub(crate) fn new(bundle: Bundle) -> FreePart
        ensures { result ≡ bundle }
    {
        let is_worth = is_worth_an_offer(&bundle);
        FreePart { bundle, is_worth }
    }

    pub(crate) fn bundle(&self) -> &Bundle
        ensures { result.now ≡ self.now }
    {
        &self.bundle
    }

    /// Returns whether they are enough for an offer.
    pub(crate) fn is_worth(&self) -> bool
        ensures { result ≡ is_allocatable self.now }
    {
        self.is_worth
    }

    pub(crate) fn copy(&self) -> Result<FreePart, AllocError>
        ensures { IfOk result (λ copy. copy ≡ self.now) }
    {
        Ok(FreePart {
            bundle: self.bundle.copy()?,
            is_worth: self.is_worth,
        })
    }
}
