//! Writes the nodes of a report, and compares nodes.
ghost use Rattle.std.specs.Prelude.{◌≡◌, map, IsTrue};
ghost use Rattle.serde_json.specs.Data.{array};
ghost use Rattle.serde_json.specs.View.{items_of};
ghost use Rattle.serde_json.specs.Written.{compact_text};
ghost use Rattle.drf_lines.specs.ReportLine.{node_value};
ghost use Rattle.drf_lines.specs.Written.{AppendsText};

use crate::amounts::put_amounts;
use crate::fraction::put_fraction;
use crate::member::{put_byte, put_comma, put_number, put_text};
use drf_bundle::Entry;
use drf_role::NodePath;
use drf_rows::NodeLine;
use std::alloc::AllocError;

/// Returns `true` only if the two entries are equal.
fn is_same_entry(entry: &Entry, other: &Entry) -> bool
    ensures { IsTrue result → entry.now ≡ other.now }
{
    entry.amount.thousandths() == other.amount.thousandths() && entry.label == other.label
}

/// Returns `true` only if the two lists of entries are equal.
fn are_same_entries(entries: &[Entry], others: &[Entry]) -> bool
    ensures { IsTrue result → entries.now ≡ others.now }
{
    if entries.len() != others.len() {
        return false;
    }
    for i in 0..entries.len() {
        if !is_same_entry(&entries[i], &others[i]) {
            return false;
        }
    }
    true
}

/// Returns `true` only if the two paths are equal.
pub fn is_same_path(path: &NodePath, other: &NodePath) -> bool
    ensures { IsTrue result → path.now ≡ other.now }
{
    path == other
}

/// Returns `true` only if the two nodes are equal. Numbers are compared first, because this is cheap.
pub fn is_same_node(node: &NodeLine, other: &NodeLine) -> bool
    ensures { IsTrue result → node.now ≡ other.now }
{
    node.count == other.count
        && node.share.0 == other.share.0
        && node.share.1 == other.share.1
        && node.weighted.0 == other.weighted.0
        && node.weighted.1 == other.weighted.1
        && is_same_path(&node.path, &other.path)
        && are_same_entries(node.held.entries(), other.held.entries())
}

/// Appends a node of a report as a JSON object.
pub fn put_node(line: &mut Vec<u8>, node: &NodeLine) -> Result<(), AllocError>
    ensures { AppendsText result line.old.items line.new.items (compact_text (node_value node.now)) }
{
    put_number(line, "{\"count\":", node.count)?;
    put_amounts(line, ",\"held\":\"", &node.held)?;
    put_text(line, ",\"path\":\"", node.path.text())?;
    put_fraction(line, ",\"share\":\"", node.share)?;
    put_fraction(line, ",\"weighted\":\"", node.weighted)?;
    put_byte(line, b'}')
}

/// Appends the nodes as an array, in their order.
pub fn put_node_list(line: &mut Vec<u8>, nodes: &[NodeLine]) -> Result<(), AllocError>
    ensures { AppendsText result line.old.items line.new.items (compact_text (array (items_of (map node_value nodes.now)))) }
{
    put_byte(line, b'[')?;
    for (i, node) in nodes.iter().enumerate() {
        put_comma(line, i)?;
        put_node(line, node)?;
    }
    put_byte(line, b']')
}
