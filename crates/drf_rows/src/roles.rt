//! Membership of a role in a list of roles.
ghost use Rattle.std.specs.Prelude.{◌≡◌};
ghost use Rattle.drf_rows.specs.Roles.{is_among};

use drf_role::Role;

/// Returns whether `role` is in the list.
pub fn is_among(roles: &[Role], role: &Role) -> bool
    ensures { result ≡ is_among roles.now role.now }
{
    roles.iter().any(|one| *one == *role)
}
