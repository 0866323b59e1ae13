//! The least size of an offer.
ghost use Rattle.std.specs.Prelude.{◌≡◌};
ghost use Rattle.drf_bundle.specs.Bundle.{IsBundle};
ghost use Rattle.drf_rows.specs.Cycle.{is_allocatable};

use drf_bundle::Bundle;

/// Returns whether a bundle is large enough to be offered: it has at least 0.01 `cpus` or 32 `mem`, as in Mesos.
pub fn is_worth_an_offer(bundle: &Bundle) -> bool
    ensures value { result ≡ is_allocatable bundle.now }
    ensures bundle { IsBundle bundle.now }
{
    let quantities = bundle.quantities();
    10 <= quantities.get("cpus") || 32000 <= quantities.get("mem")
}
