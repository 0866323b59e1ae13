//! When expired filters are removed.
#![tactic(auto)]

ghost use Rattle.std.specs.Prelude.{◌≡◌, ◌<◌, ◌≤◌, false};

// The greatest number of filters that can be in force. If more are stored, some have expired, and each event that counts the filters
// in force would go through those too.
const MOST_IN_FORCE: usize = 65536;

/// The number of filters at which expired ones are removed. It is never more than can be in force.
#[derive(Clone, Copy, Drop)]
pub(crate) struct Sweep {
    at: usize,
    ghost few: { at ≤ 65536 },
}

impl Sweep {
    /// Returns the number for the first removal.
    pub(crate) fn first() -> Sweep {
        Sweep { at: 8 }
    }

    /// Returns the number for the next removal, if this one left `left` filters.
    pub(crate) fn behind(left: usize) -> Sweep {
        let at = left.saturating_mul(2).saturating_add(8).min(MOST_IN_FORCE);
        Sweep { at }
    }

    /// Returns whether expired filters should be removed now that there are `filters` filters.
    pub(crate) fn is_due(&self, filters: usize) -> bool
        ensures { result ≡ false → filters < 65536 }
    {
        self.at <= filters
    }
}
