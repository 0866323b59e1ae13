//! Shares of the cluster, as exact fractions.
ghost use Rattle.std.specs.Prelude.{◌≡◌, ◌≤◌, ◌<◌, ◌^◌, ◌*◌};
ghost use Rattle.std.specs.Int.{IsGcd};

use crate::weights::DEFAULT_WEIGHT;
use std::cmp::Ordering;

/// A share of the cluster over a weight: the fraction `part * 1000 / (whole * weight)`, where the weight is in thousandths. Shares are
/// compared by their cross products, so nothing is rounded.
#[derive(Clone, Copy)]
pub struct Share {
    part: u64,
    whole: u64,
    weight: u64,
    ghost of_whole: { part ≤ whole },
    ghost some: { 1 ≤ whole },
    ghost fits: { whole < 2 ^ 52 },
    ghost weighs: { 1 ≤ weight },
    ghost light: { weight ≤ 1000000 },
}

impl Share {
    ghost use Rattle.drf_sorter.specs.Fractions.{weighted};
    ghost use Rattle.drf_rows.specs.Share.{IsLowest, lowest_terms};
    ghost use Rattle.drf_sorter.specs.Share.{IsUnweighted, fraction_of, share_cmp, terms};

    /// Returns the share `part / whole` over a weight, which is in thousandths.
    pub fn new(part: u64, whole: u64, weight: u64) -> Share
        requires of_whole { part ≤ whole }
        requires some { 1 ≤ whole }
        requires fits { whole < 2 ^ 52 }
        requires weighs { 1 ≤ weight }
        requires light { weight ≤ 1000000 }
        ensures { fraction_of result ≡ weighted part whole weight }
    {
        Share {
            part,
            whole,
            weight,
        }
    }

    /// Returns the share `part / whole` over the weight 1.
    pub(crate) fn unweighted(part: u64, whole: u64) -> Share
        requires of_whole { part ≤ whole }
        requires some { 1 ≤ whole }
        requires fits { whole < 2 ^ 52 }
        ensures { IsUnweighted (record { part = part; whole = whole }) result }
    {
        Share {
            part,
            whole,
            weight: DEFAULT_WEIGHT,
        }
    }

    /// Returns the same share over another weight, which is in thousandths.
    pub(crate) fn over(&self, weight: u64) -> Share
        requires weighs { 1 ≤ weight }
        requires light { weight ≤ 1000000 }
        ensures { fraction_of result ≡ weighted self.now.part self.now.whole weight }
    {
        Share {
            part: self.part,
            whole: self.whole,
            weight,
        }
    }

    /// Returns the share in lowest terms, as its numerator and denominator. The weight is included. If nothing is held, it is 0/1.
    pub fn lowest(&self) -> (u128, u128)
        ensures lowest { IsLowest (fraction_of self.now) (terms result) }
        ensures value { terms result ≡ lowest_terms (fraction_of self.now) }
    {
        if self.part == 0 {
            return (0, 1);
        }
        // Fast path: most nodes have weight 1, and the numbers then stay within 64 bits.
        if self.weight == DEFAULT_WEIGHT {
            let divisor = short_divisor(self.part, self.whole);
            return (
                u128::from(self.part / divisor),
                u128::from(self.whole / divisor),
            );
        }
        let part = u128::from(self.part) * 1000;
        let whole = u128::from(self.whole) * u128::from(self.weight);
        let divisor = common_divisor(part, whole);
        (part / divisor, whole / divisor)
    }

    /// Compares shares of equal weight. The weight is a factor of both cross products, so it is left out.
    #[tactic(auto, using(crate::proofs::ShareLemmas::same_weight))]
    fn cmp_at_one_weight(&self, other: &Share) -> Ordering
        requires one_weight { self.now.weight ≡ other.now.weight }
        ensures { result ≡ share_cmp self.now other.now }
    {
        let left = u128::from(self.part) * u128::from(other.whole);
        let right = u128::from(other.part) * u128::from(self.whole);
        left.cmp(&right)
    }
}

/// Returns the greatest common divisor. It continues in 64 bits as soon as the remainder fits.
fn common_divisor(part: u128, whole: u128) -> u128
    ensures { IsGcd part whole result }
{
    let mut divisor = part;
    let mut next = whole;
    while next > u128::from(u64::MAX) {
        let rest = divisor % next;
        divisor = next;
        next = rest;
    }
    if next == 0 {
        return divisor;
    }
    u128::from(short_divisor(next as u64, (divisor % next) as u64))
}

/// Returns the greatest common divisor of 64-bit numbers.
fn short_divisor(part: u64, whole: u64) -> u64
    ensures { IsGcd part whole result }
{
    let mut divisor = part;
    let mut next = whole;
    while next != 0 {
        let rest = divisor % next;
        divisor = next;
        next = rest;
    }
    divisor
}

/// Returns `part * (whole * weight)`, which is less than 2^124.
fn cross_product(part: u64, whole: u64, weight: u64) -> u128
    requires part { part < 2 ^ 52 }
    requires whole { whole < 2 ^ 52 }
    requires weight { weight ≤ 1000000 }
    ensures { result ≡ part * (whole * weight) }
{
    u128::from(part) * (u128::from(whole) * u128::from(weight))
}

impl PartialEq for Share {
    ghost use Rattle.std.specs.Cmp;
    ghost use Rattle.drf_sorter.specs.Share.{share_eq};
    ghost use Rattle.drf_sorter.specs.laws.ShareLaws.{share_equiv};

    ghost eq = { share_eq };

    ghost laws = { Cmp.partial_equiv_from_equiv share_equiv };

    fn eq(&self, other: &Share) -> bool {
        self.cmp(other).is_eq()
    }
}

impl Eq for Share {
    ghost use Rattle.drf_sorter.specs.laws.ShareLaws.{share_equiv};

    ghost laws = { share_equiv };
}

impl PartialOrd for Share {
    ghost use Rattle.std.specs.Ordering.{as_partial_cmp};
    ghost use Rattle.drf_sorter.specs.Share.{share_cmp};
    ghost use Rattle.drf_sorter.specs.laws.ShareLaws.{share_partial};

    ghost partial_cmp = { as_partial_cmp share_cmp };

    ghost laws = { share_partial };

    fn partial_cmp(&self, other: &Share) -> Option<Ordering> {
        Some(self.cmp(other))
    }
}

impl Ord for Share {
    ghost use Rattle.std.specs.Prelude.{refl};
    ghost use Rattle.drf_sorter.specs.Share.{share_cmp};
    ghost use Rattle.drf_sorter.specs.laws.ShareLaws.{share_total, share_ties};

    ghost cmp = { share_cmp };

    ghost total = { share_total };

    ghost matches_partial_cmp = { λ a b. refl };

    ghost matches_eq = { share_ties };

    fn cmp(&self, other: &Share) -> Ordering {
        if self.weight == other.weight {
            return self.cmp_at_one_weight(other);
        }
        let left = cross_product(self.part, other.whole, other.weight);
        let right = cross_product(other.part, self.whole, self.weight);
        left.cmp(&right)
    }
}
