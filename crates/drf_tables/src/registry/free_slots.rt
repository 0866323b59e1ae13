//! Finds the slot of an entry when some slots are free.
ghost use Rattle.std.specs.Prelude.{◌≡◌, ◌<◌, length};
ghost use Rattle.drf_hash.specs.Slots.{filled};
ghost use Rattle.drf_tables.specs.registry.Registered.{IsRanked};

use drf_role::Name;

/// Returns the slot of the entry at a place, by registration, by counting the slots in use.
#[inline(never)]
fn ranked_among_free_slots<T>(slots: &[Option<(Name, T)>], number: usize) -> usize
    requires { number < length (filled slots.now) }
    ensures { IsRanked slots.now number result }
{
    let mut before = 0;
    for place in 0..slots.len() {
        if slots[place].is_some() {
            if before == number {
                return place;
            }
            before += 1;
        }
    }
    0
}

/// Returns the slot of the entry at a place, by registration. It goes through the slots only if some are free.
#[inline(always)]
pub(crate) fn ranked<T>(slots: &[Option<(Name, T)>], live: usize, number: usize) -> usize
    requires live { live ≡ length (filled slots.now) }
    requires within { number < length (filled slots.now) }
    ensures { IsRanked slots.now number result }
{
    if live == slots.len() {
        return number;
    }
    ranked_among_free_slots(slots, number)
}
