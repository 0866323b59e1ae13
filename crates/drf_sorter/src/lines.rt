//! The lines of a report, which describe nodes.
ghost use Rattle.std.specs.Prelude.{◌≡◌, ◌≤◌, ◌<◌, ◌^◌, [], IfErr, IfOk, IsTrue, OnOk, OnErr, length};
ghost use Rattle.std.specs.declared.cmp.Ordering.TheVariants.{Greater};
ghost use Rattle.drf_bundle.specs.Quantities.{amount_of, is_in_order};
ghost use Rattle.drf_role.specs.Text.{Text};
ghost use Rattle.drf_rows.specs.Report.{path_cmp};
ghost use Rattle.drf_row_laws.specs.Laws.{are_in_order};
ghost use Rattle.drf_sorter.specs.Lines.{AreRising, BelongsBehind, StandsAt, line_with, paths_of, with_line};

use crate::key::dominant_share;
use crate::weights::DEFAULT_WEIGHT;
use drf_bundle::Quantities;
use drf_role::NodePath;
use drf_rows::NodeLine;
use std::alloc::{AllocError, Global};
use std::cmp::Ordering;
use std::marker::Model;

/// Returns the line of a node, from its weight, in thousandths, and from what its clients hold of the total and their count of offers.
pub fn node_line(
    total: &Quantities,
    weight: u64,
    path: NodePath,
    held: Quantities,
    count: u64,
) -> NodeLine
    requires within { (label : Text) → amount_of held label ≤ amount_of total.now label }
    requires fits { (label : Text) → amount_of total.now label < 2 ^ 52 }
    requires weighs { 1 ≤ weight }
    requires light { weight ≤ 1000000 }
    ensures line { result ≡ line_with total.now weight path held count }
    ensures in_order { IsTrue (is_in_order held) }
{
    total.recall();
    held.recall();
    let share = dominant_share(total, &held);
    let lowest = share.lowest();
    let weighted = if weight == DEFAULT_WEIGHT {
        lowest
    } else {
        share.over(weight).lowest()
    };
    let mut held = held;
    held.remove_zeros();
    NodeLine {
        path,
        held,
        share: lowest,
        weighted,
        count,
    }
}

/// Lines of nodes, in order of path.
#[derive(Drop)]
pub struct NodeLines {
    lines: Vec<NodeLine>,
}

impl Model for NodeLines {
    ghost use Rattle.std.specs.Prelude.{List};
    ghost use Rattle.drf_rows.specs.declared.report.NodeLine.{NodeLine};
    ghost use Rattle.drf_sorter.specs.Lines.{AreRising};

    ghost Value = { List NodeLine };

    ghost view = { λ lines. lines.lines.items };

    ghost invariant = { λ lines. AreRising lines.lines.items };
}

impl NodeLines {
    pub fn new(alloc: Global) -> NodeLines
        ensures { result ≡ [] }
    {
        NodeLines {
            lines: Vec::new(alloc),
        }
    }

    /// Returns an empty list with this capacity.
    pub fn with_capacity(alloc: Global, capacity: usize) -> Result<NodeLines, AllocError>
        ensures { IfOk result (λ lines. lines ≡ []) }
    {
        Ok(NodeLines {
            lines: Vec::with_capacity(alloc, capacity)?,
        })
    }

    /// Inserts a line at its place in the order of paths, or replaces the line with the same path. When out of memory, nothing changes.
    pub fn put(&mut self, line: NodeLine) -> Result<(), AllocError>
        ensures ok { OnOk result (self.new ≡ with_line self.old line) }
        ensures err { OnErr result (self.new ≡ self.old) }
    {
        if goes_last(&self.lines, &line.path) {
            return Ok(self.lines.push(line)?);
        }
        self.put_among(line)
    }

    /// Does what `put` does, for a line that need not become the last.
    fn put_among(&mut self, line: NodeLine) -> Result<(), AllocError>
        ensures ok { OnOk result (self.new ≡ with_line self.old line) }
        ensures err { OnErr result (self.new ≡ self.old) }
    {
        match place_of(&self.lines, &line.path) {
            Ok(at) => {
                self.lines[at] = line;
                Ok(())
            }
            Err(at) => Ok(self.lines.insert(at, line)?),
        }
    }

    /// Returns the lines, in order of path.
    pub fn into_vec(self) -> Vec<NodeLine>
        ensures lines { result.items ≡ self }
        ensures in_order { IsTrue (are_in_order (paths_of self)) }
    {
        self.lines
    }
}

/// Returns whether the other path is a prefix of this one and shorter.
fn is_below(path: &NodePath, other: &NodePath) -> bool
    ensures { IsTrue result → path_cmp path.now other.now ≡ Greater }
{
    let text = path.text().as_bytes();
    let prefix = other.text().as_bytes();
    if text.len() <= prefix.len() {
        return false;
    }
    text[prefix.len()] == b'/' && text.starts_with(prefix)
}

/// Returns whether the paths are the same up to the last part of `path`, and that part is greater than the other's at its place.
fn is_beside(path: &NodePath, other: &NodePath) -> bool
    ensures { IsTrue result → path_cmp path.now other.now ≡ Greater }
{
    let last = path.len() - 1;
    if last >= other.len() {
        return false;
    }
    let part = path.part(last);
    let text = path.text().as_bytes();
    let prefix = &text[..text.len() - part.len()];
    other.part(last) < part && other.text().as_bytes().starts_with(prefix)
}

/// Returns whether the path is found to be greater than all others in the list. It is a cheap test that can miss: it finds only a path
/// below the last one, or beside it or a node above it. Most lines arrive in such an order.
fn goes_last(lines: &[NodeLine], path: &NodePath) -> bool
    requires { AreRising lines.now }
    ensures { IsTrue result → BelongsBehind path.now lines.now (length lines.now) }
{
    match lines.last() {
        Some(line) => is_below(path, &line.path) || is_beside(path, &line.path),
        None => true,
    }
}

/// Returns the position of the line with this path, or else the position at which to insert one. It searches from the end, because lines
/// mostly arrive in order.
fn place_of(lines: &[NodeLine], path: &NodePath) -> Result<usize, usize>
    requires { AreRising lines.now }
    ensures within { IfOk result (λ at. at < length lines.now) }
    ensures found { IfOk result (StandsAt path.now lines.now) }
    ensures bound { IfErr result (λ n. n ≤ length lines.now) }
    ensures absent { IfErr result (BelongsBehind path.now lines.now) }
{
    for i in (0..lines.len()).rev() {
        match path.cmp(&lines[i].path) {
            Ordering::Less => {}
            Ordering::Equal => return Ok(i),
            Ordering::Greater => return Err(i + 1),
        }
    }
    Err(0)
}
