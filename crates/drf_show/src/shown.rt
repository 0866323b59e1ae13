//! The trait of types that are shown as rows, and their tables.
ghost use Rattle.std.specs.Prelude.{◌≡◌, ◌∷◌, ◌++◌, [], map, IfOk, OnOk};
ghost use Rattle.std.specs.List.{flat_map};
ghost use Rattle.drf_show.specs.ShownText.{table_in};
ghost use Rattle.drf_show.specs.declared.form.Form.TheVariants.{Aligned, Json};

use crate::aligned::push_table;
use crate::cells::Row;
use crate::form::Form;
use std::alloc::{AllocError, Global};

/// A type that is shown as a row of a table and as a line of JSON.
pub(crate) trait Shown {
    ghost use Rattle.drf_show.specs.Aligned.{Cells};
    ghost use Rattle.drf_show.specs.ShownText.{ShownRow};

    ghost heads: { Cells };

    ghost shown: { Self → ShownRow };

    /// Returns the headings of the columns.
    fn heads(alloc: Global) -> Result<Row, AllocError>
        ensures { IfOk result (λ row. row ≡ heads) };

    /// Returns the cells of the row.
    fn row(&self, alloc: Global) -> Result<Row, AllocError>
        ensures { IfOk result (λ row. row ≡ (shown self.now).cells) };

    /// Appends the line, without a line feed.
    fn push_line(&self, alloc: Global, text: &mut Vec<u8>) -> Result<(), AllocError>
        ensures { OnOk result (text.new.items ≡ text.old.items ++ (shown self.now).line) };
}

/// Returns the headings of a table, followed by its rows.
fn rows_of<T: Shown>(alloc: Global, items: &[T]) -> Result<Vec<Row>, AllocError>
    ensures { IfOk result (λ rows. rows.items ≡ T.heads ∷ map (λ r. r.cells) (map T.shown items.now)) }
{
    let mut rows = Vec::new(alloc);
    rows.push(T::heads(alloc)?)?;
    for item in items {
        rows.push(item.row(alloc)?)?;
    }
    Ok(rows)
}

/// Appends a line for each row.
fn push_lines<T: Shown>(alloc: Global, items: &[T], text: &mut Vec<u8>) -> Result<(), AllocError>
    ensures { OnOk result (text.new.items ≡ text.old.items ++ flat_map (λ r. r.line ++ 10 ∷ []) (map T.shown items.now)) }
{
    for item in items {
        item.push_line(alloc, text)?;
        text.push(b'\n')?;
    }
    Ok(())
}

/// Appends a table in the given form.
pub(crate) fn push_shown<T: Shown>(
    alloc: Global,
    form: Form,
    items: &[T],
    text: &mut Vec<u8>,
) -> Result<(), AllocError>
    ensures { OnOk result (text.new.items ≡ text.old.items ++ table_in form (record { heads = T.heads; rows = map T.shown items.now })) }
{
    match form {
        Form::Aligned => {
            let rows = rows_of(alloc, items)?;
            push_table(text, &rows)
        }
        Form::Json => push_lines(alloc, items, text),
    }
}
