//! Looking up a role and the roles above it, by prefixes of the role's text.
ghost use Rattle.std.specs.Prelude.{◌≡◌, ◌≤◌, length, take};
ghost use Rattle.std.specs.Option.{option_map, option_to_list};
ghost use Rattle.std.specs.Cmp.Lexicographic.{lists_equiv, nat_list_eq_equiv};
ghost use Rattle.drf_role.specs.Path.{same_path};
ghost use Rattle.drf_gates.specs.quota.Prefix.{path_in, end_of, limits_at};
ghost use Rattle.drf_gates.specs.quota.PrefixLaws.{same_writes};
ghost use Rattle.drf_gates.specs.quota.Allowance.{limit_row, limit_rows};

use drf_bundle::Quantities;
use drf_hash::ByRole;
use drf_role::Role;
use indexmap::Equivalent;

/// A prefix of a role's text, which is used to look up the role that it names. The empty prefix names no role.
#[derive(Clone, Copy, PartialEq, Eq, Hash)]
pub(crate) struct Prefix<'a> {
    text: &'a str,
}

impl<'a> Equivalent<Role> for Prefix<'a> {
    ghost equivalent = { λ q. same_path (path_in q.text.now) };

    ghost respects_hash = { λ q. same_writes q.text.now };

    ghost respects_eq = { λ q. (lists_equiv nat_list_eq_equiv).congr (path_in q.text.now) };

    fn equivalent(&self, key: &Role) -> bool {
        self.text == key.text()
    }
}

/// Returns where the first `len` parts of a role end in its text.
fn end_of(role: &Role, len: usize) -> usize
    requires { len ≤ length role.now }
    ensures { result ≡ end_of (take len role.now) }
{
    role.recall();
    let mut next = 0;
    for i in 0..len {
        next += role.part(i).len() + 1;
    }
    next.saturating_sub(1)
}

/// Returns the first `len` parts of a role.
pub(crate) fn first_parts(role: &Role, len: usize) -> Prefix<'_>
    requires { len ≤ length role.now }
    ensures { path_in result.text.now ≡ take len role.now }
{
    let end = end_of(role, len);
    Prefix {
        text: &role.text()[..end],
    }
}

/// Returns the limit of the role's first `len` parts, with its position and its role, if there is one.
pub(crate) fn limit_above<'a>(
    limits: &'a ByRole<Quantities>,
    role: &Role,
    len: usize,
) -> Option<(usize, &'a Role, &'a Quantities)>
    requires { len ≤ length role.now }
    ensures { limits_at (take len role.now) (limit_rows limits.now.entries)
        ≡ option_to_list (option_map (λ f. limit_row (f.1.now, f.2.now)) result) }
{
    // By this call the prover learns that no role has two limits.
    let _ = limits.len();
    limits.get_full(first_parts(role, len))
}
