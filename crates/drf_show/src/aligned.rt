//! Tables with aligned columns.
ghost use Rattle.std.specs.Prelude.{◌≡◌, ◌≤◌, ℕ, ◌++◌, [], get_or, length, map, max, replicate, string_bytes, IfOk, OnOk};
ghost use Rattle.std.specs.List.{flat_map};
ghost use Rattle.drf_show.specs.Aligned.{IsWidenedAt, cells_text, padded, row_text, table_text, width_at};

use crate::cells::Row;
use std::alloc::{AllocError, Global};

/// The greatest width of a column in bytes.
const WIDEST: usize = 48;

/// Makes a column at least this wide. A column that does not exist yet is added.
#[tactic(auto, using(crate::proofs::Widths::widened_there, crate::proofs::Widths::widened_last))]
fn widen_at(widths: &mut Vec<usize>, column: usize, width: usize) -> Result<(), AllocError>
    requires { column ≤ length widths.old.items }
    ensures { OnOk result (IsWidenedAt widths.old.items widths.new.items column width) }
{
    if column < widths.len() {
        widths[column] = widths[column].max(width);
        return Ok(());
    }
    widths.push(width)?;
    Ok(())
}

/// Makes each column at least as wide as its cell in a row.
fn widen(widths: &mut Vec<usize>, cells: &[String]) -> Result<(), AllocError>
    ensures { OnOk result ((column : ℕ) → get_or widths.new.items column 0
        ≡ max (get_or widths.old.items column 0) (length (get_or (map string_bytes cells.now) column []))) }
{
    for (column, cell) in cells.iter().enumerate() {
        widen_at(widths, column, cell.as_str().len())?;
    }
    Ok(())
}

/// Returns the widths of the columns in bytes.
fn widths_of(alloc: Global, rows: &[Row]) -> Result<Vec<usize>, AllocError>
    ensures { IfOk result (λ widths. (column : ℕ) → get_or widths.items column 0 ≡ width_at rows.now column) }
{
    let mut widths = Vec::new(alloc);
    for row in rows {
        widen(&mut widths, row.texts())?;
    }
    Ok(widths)
}

/// Returns the width of a column, or 0 if there is no such column.
fn width_in(widths: &[usize], column: usize) -> usize
    ensures { result ≡ get_or widths.now column 0 }
{
    match widths.get(column) {
        Some(width) => *width,
        None => 0,
    }
}

/// Appends this number of spaces.
fn push_blanks(text: &mut Vec<u8>, count: usize) -> Result<(), AllocError>
    ensures { OnOk result (text.new.items ≡ text.old.items ++ replicate count 32) }
{
    for _blank in 0..count {
        text.push(b' ')?;
    }
    Ok(())
}

/// Appends a cell, and spaces up to two more than the width of its column.
fn push_padded(text: &mut Vec<u8>, cell: &str, width: usize) -> Result<(), AllocError>
    ensures { OnOk result (text.new.items ≡ text.old.items ++ padded width cell.now) }
{
    let blanks = 2 + width.min(WIDEST).saturating_sub(cell.len());
    text.extend_from_slice(cell.as_bytes())?;
    push_blanks(text, blanks)
}

/// Appends the cells of a row.
fn push_cells(text: &mut Vec<u8>, widths: &[usize], cells: &[String]) -> Result<(), AllocError>
    ensures { OnOk result (text.new.items
        ≡ text.old.items ++ cells_text (λ column. get_or widths.now column 0) 0 (map string_bytes cells.now)) }
{
    for (column, cell) in cells.iter().enumerate() {
        if column + 1 == cells.len() {
            return text.extend_from_slice(cell.as_bytes());
        }
        push_padded(text, cell.as_str(), width_in(widths, column))?;
    }
    Ok(())
}

/// Appends a row and a line feed.
fn push_row(text: &mut Vec<u8>, widths: &[usize], row: &Row) -> Result<(), AllocError>
    ensures { OnOk result (text.new.items ≡ text.old.items ++ row_text (λ column. get_or widths.now column 0) row.now) }
{
    push_cells(text, widths, row.texts())?;
    text.push(b'\n')?;
    Ok(())
}

/// Appends rows.
fn push_rows(text: &mut Vec<u8>, widths: &[usize], rows: &[Row]) -> Result<(), AllocError>
    ensures { OnOk result (text.new.items ≡ text.old.items ++ flat_map (row_text (λ column. get_or widths.now column 0)) rows.now) }
{
    for row in rows {
        push_row(text, widths, row)?;
    }
    Ok(())
}

/// Appends a table.
pub(crate) fn push_table(text: &mut Vec<u8>, rows: &[Row]) -> Result<(), AllocError>
    ensures { OnOk result (text.new.items ≡ text.old.items ++ table_text rows.now) }
{
    let widths = widths_of(*text.allocator(), rows)?;
    push_rows(text, widths.as_slice(), rows)
}
