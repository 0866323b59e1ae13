//! Writes lists of rows and findings as JSON.
ghost use Rattle.std.specs.Prelude.{◌≡◌, ◌++◌, true, OnOk};
ghost use Rattle.serde_json.specs.Written.{comma_if, compact_text};
ghost use Rattle.drf_explain.specs.ExplainedText.{finding_value};
ghost use Rattle.drf_lines.specs.HeldRows.{offer_row_value, task_row_value};
ghost use Rattle.drf_role.specs.Text.{same_text};
ghost use Rattle.drf_ask.specs.Answer.{list_value, listed, is_listed, is_offer_of, is_task_of};

use crate::text::drop_last;
use drf_explain::{Finding, write_explained_line};
use drf_lines::{push_offer_row, push_task_row};
use drf_role::Name;
use drf_rows::{OfferRow, TaskRow};
use std::alloc::AllocError;

/// An item in the list of an answer.
pub(crate) trait Listed {
    ghost use Rattle.std.specs.Prelude.{Bool};
    ghost use Rattle.serde_json.specs.Data.{Data};
    ghost use Rattle.drf_role.specs.Text.{Text};

    ghost value: { Self → Data };

    /// Says which items are listed if a framework is named.
    ghost is_of: { Text → Self → Bool };

    /// Appends the item as JSON.
    fn push(&self, text: &mut Vec<u8>) -> Result<(), AllocError>
        ensures { OnOk result (text.new.items ≡ text.old.items ++ compact_text (value self.now)) };

    /// Returns whether the item is listed if this framework is named.
    fn is_of(&self, framework: &[u8]) -> bool
        ensures { result ≡ is_of framework.now self.now };
}

/// Returns whether the name is that of the framework.
pub(crate) fn has_name(name: &Name, framework: &[u8]) -> bool
    ensures { result ≡ same_text name.now framework.now }
{
    name.text().as_bytes() == framework
}

impl Listed for OfferRow {
    ghost value = { offer_row_value };

    ghost is_of = { is_offer_of };

    fn push(&self, text: &mut Vec<u8>) -> Result<(), AllocError> {
        push_offer_row(text, self)
    }

    fn is_of(&self, framework: &[u8]) -> bool {
        has_name(&self.framework, framework)
    }
}

impl Listed for TaskRow {
    ghost value = { task_row_value };

    ghost is_of = { is_task_of };

    fn push(&self, text: &mut Vec<u8>) -> Result<(), AllocError> {
        push_task_row(text, self)
    }

    fn is_of(&self, framework: &[u8]) -> bool {
        has_name(&self.framework, framework)
    }
}

impl Listed for Finding {
    ghost value = { finding_value };

    ghost is_of = { λ _ _. true };

    fn push(&self, text: &mut Vec<u8>) -> Result<(), AllocError> {
        write_explained_line(*text.allocator(), self, text)?;
        drop_last(text);
        Ok(())
    }

    fn is_of(&self, _framework: &[u8]) -> bool {
        true
    }
}

/// Returns whether the item is listed: it is of the framework, or none is named.
fn is_listed<T: Listed>(item: &T, framework: &[u8]) -> bool
    ensures { result ≡ is_listed T.is_of framework.now item.now }
{
    framework.is_empty() || item.is_of(framework)
}

/// Appends a comma, unless the item is the first.
fn put_comma(text: &mut Vec<u8>, later: bool) -> Result<(), AllocError>
    ensures { OnOk result (text.new.items ≡ text.old.items ++ comma_if later) }
{
    if later {
        text.push(b',')?;
    }
    Ok(())
}

/// Appends the items of the framework, or all if none is named, as a JSON array.
pub(crate) fn push_list<T: Listed>(
    text: &mut Vec<u8>,
    items: &[T],
    framework: &[u8],
) -> Result<(), AllocError>
    ensures { OnOk result (text.new.items ≡ text.old.items ++ compact_text (list_value T.value (listed T.is_of framework.now items.now))) }
{
    let mut later = false;
    text.push(b'[')?;
    for item in items {
        if is_listed(item, framework) {
            put_comma(text, later)?;
            item.push(text)?;
            later = true;
        }
    }
    text.push(b']')?;
    Ok(())
}
