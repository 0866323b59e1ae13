//! Appends JSON values to a text.
ghost use Rattle.std.specs.Prelude.{◌≡◌, ◌++◌, false, OnOk};
ghost use Rattle.serde_json.specs.View.{view};
ghost use Rattle.serde_json.specs.Written.{compact_text, has_float};

use serde_json::Value;
use std::alloc::{AllocError, Global};

/// Appends a JSON value that has no float.
pub(crate) fn push_value(alloc: Global, value: &Value, text: &mut Vec<u8>) -> Result<(), AllocError>
    requires { has_float (view value.now) ≡ false }
    ensures { OnOk result (text.new.items ≡ text.old.items ++ compact_text (view value.now)) }
{
    let line = value.to_vec(alloc)?;
    text.extend_from_slice(&line)
}
