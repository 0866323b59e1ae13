//! `Key`, by which siblings are ordered, and the dominant shares that it is computed from.
ghost use Rattle.std.specs.Prelude.{◌≡◌, ◌≤◌, ◌<◌, ◌+◌, ◌-◌, ◌^◌, ℕ, min, IfOk};
ghost use Rattle.std.specs.String.{string_bytes};
ghost use Rattle.drf_bundle.specs.Quantities.{amount_of};
ghost use Rattle.drf_role.specs.Text.{Text};
ghost use Rattle.drf_sorter.specs.Fractions.{weigh, dominant_of};
ghost use Rattle.drf_sorter.specs.Share.{IsUnweighted, fraction_of};

use crate::share::Share;
use drf_bundle::Quantities;
use drf_role::Label;
use std::alloc::AllocError;
use std::marker::Model;

/// Something that holds amounts of scalars.
pub trait Holding {
    /// The amount of each label that is held, in thousandths.
    ghost held: { Self → Text → ℕ };

    /// Returns the amount of a label, in thousandths. `place` is the position to look at first. If the label is there, `place` becomes the
    /// position before it, for the next call; so labels are found fast in descending order.
    fn amount(&self, label: &Label, place: &mut usize) -> u64
        requires { held self.now label.now < 2 ^ 64 }
        ensures { result ≡ held self.now label.now };
}

impl Holding for Quantities {
    ghost held = { amount_of };

    fn amount(&self, label: &Label, place: &mut usize) -> u64 {
        let entries = self.entries();
        if entries.is_empty() {
            return 0;
        }
        let at = (*place).min(entries.len() - 1);
        let entry = &entries[at];
        if entry.label == *label {
            *place = at.saturating_sub(1);
            return entry.amount.thousandths();
        }
        self.amount_of(label)
    }
}

/// Returns the dominant share: the greatest fraction of the total that is held of any scalar.
pub(crate) fn dominant_share<H: Holding>(total: &Quantities, holding: &H) -> Share
    requires within { (label : Text) → H.held holding.now label ≤ amount_of total.now label }
    requires fits { (label : Text) → amount_of total.now label < 2 ^ 52 }
    ensures { IsUnweighted (dominant_of (H.held holding.now) total.now) result }
{
    let entries = total.entries();
    let mut dominant = Share::unweighted(0, 1);
    let mut place = usize::MAX;
    for i in (0..entries.len()).rev() {
        let entry = &entries[i];
        let whole = entry.amount.thousandths();
        if whole > 0 {
            let part = holding.amount(&entry.label, &mut place);
            dominant = dominant.max(Share::unweighted(part, whole));
        }
    }
    dominant
}

/// Returns the dominant share divided by a weight, which is in thousandths.
pub fn weighted_share<H: Holding>(total: &Quantities, weight: u64, holding: &H) -> Share
    requires within { (label : Text) → H.held holding.now label ≤ amount_of total.now label }
    requires fits { (label : Text) → amount_of total.now label < 2 ^ 52 }
    requires weighs { 1 ≤ weight }
    requires light { weight ≤ 1000000 }
    ensures { fraction_of result ≡ weigh (dominant_of (H.held holding.now) total.now) weight }
{
    dominant_share(total, holding).over(weight)
}

impl Share {
    /// Returns the dominant share of these amounts, divided by a weight, which is in thousandths.
    pub fn of(total: &Quantities, weight: u64, held: &Quantities) -> Share
        requires within { (label : Text) → amount_of held.now label ≤ amount_of total.now label }
        requires fits { (label : Text) → amount_of total.now label < 2 ^ 52 }
        requires weighs { 1 ≤ weight }
        requires light { weight ≤ 1000000 }
        ensures { fraction_of result ≡ weigh (dominant_of (amount_of held.now) total.now) weight }
    {
        weighted_share(total, weight, held)
    }
}

/// The number of keys that were computed. It never exceeds 2^64 - 1.
#[derive(Drop)]
pub struct KeyCount {
    made: u64,
}

impl Model for KeyCount {
    ghost Value = { ℕ };

    ghost view = { λ count. count.made };
}

impl KeyCount {
    pub fn new() -> KeyCount
        ensures { result ≡ 0 }
    {
        KeyCount { made: 0 }
    }

    pub fn made(&self) -> u64
        ensures { result ≡ self.now }
    {
        self.made
    }

    /// Counts one more key.
    fn add_one(&mut self)
        ensures one_more { self.new ≡ min (self.old + 1) (2 ^ 64 - 1) }
        ensures no_less { self.old ≤ self.new }
    {
        self.made = self.made.saturating_add(1);
    }

    /// Returns a counter that starts at this count.
    pub fn copy(&self) -> KeyCount
        ensures same { result ≡ self.now }
        ensures fits { result < 2 ^ 64 }
    {
        let made = self.made();
        KeyCount { made }
    }
}

/// The key by which a node is ordered among its siblings: its weighted share, then its count of offers, then its name.
#[derive(Drop, PartialEq, Eq, PartialOrd, Ord)]
pub struct Key {
    share: Share,
    count: u64,
    name: String,
}

impl Key {
    ghost use Rattle.drf_sorter.specs.Keys.{key_by};

    /// Returns the key of a node from its weight, in thousandths, and what its clients hold of the total. The key is counted.
    pub fn new<H: Holding>(
        made: &mut KeyCount,
        total: &Quantities,
        weight: u64,
        holding: &H,
        count: u64,
        name: String,
    ) -> Key
        requires within { (label : Text) → H.held holding.now label ≤ amount_of total.now label }
        requires fits { (label : Text) → amount_of total.now label < 2 ^ 52 }
        requires weighs { 1 ≤ weight }
        requires light { weight ≤ 1000000 }
        ensures key { key_by result ≡ record {
          share = weigh (dominant_of (H.held holding.now) total.now) weight;
          count = count;
          name = string_bytes name;
        } }
        ensures made { made.new ≡ min (made.old + 1) (2 ^ 64 - 1) }
        ensures no_less { made.old ≤ made.new }
    {
        let mut key = Key {
            share: Share::unweighted(0, 1),
            count,
            name,
        };
        key.renew(made, total, weight, holding, count);
        key
    }

    /// Computes the key of the same node again. Each key is computed by this function, which counts it.
    pub fn renew<H: Holding>(
        &mut self,
        made: &mut KeyCount,
        total: &Quantities,
        weight: u64,
        holding: &H,
        count: u64,
    )
        requires within { (label : Text) → H.held holding.now label ≤ amount_of total.now label }
        requires fits { (label : Text) → amount_of total.now label < 2 ^ 52 }
        requires weighs { 1 ≤ weight }
        requires light { weight ≤ 1000000 }
        ensures key { key_by self.new ≡ record {
          share = weigh (dominant_of (H.held holding.now) total.now) weight;
          count = count;
          name = (key_by self.old).name;
        } }
        ensures made { made.new ≡ min (made.old + 1) (2 ^ 64 - 1) }
        ensures no_less { made.old ≤ made.new }
    {
        made.add_one();
        self.share = weighted_share(total, weight, holding);
        self.count = count;
    }

    /// Returns the name of the node.
    pub fn name(&self) -> &str
        ensures { result.now ≡ (key_by self.now).name }
    {
        self.name.as_str()
    }

    pub fn copy(&self) -> Result<Key, AllocError>
        ensures { IfOk result (λ key. key_by key ≡ key_by self.now) }
    {
        Ok(Key {
            share: self.share,
            count: self.count,
            name: self.name.clone()?,
        })
    }
}
