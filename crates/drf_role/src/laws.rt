//! A theorem about paths. The function does nothing: its contract is proved about the definition alone.
ghost use Rattle.std.specs.Prelude.{◌≡◌, ◌≢◌, false};
ghost use Rattle.drf_role.specs.Path.{Path, begins_with, IsClientPath};

/// Proves that no client path is a prefix of another one.
pub fn client_path_law()
    ensures { (a b : Path) → IsClientPath a → IsClientPath b → a ≢ b → begins_with a b ≡ false }
{}
