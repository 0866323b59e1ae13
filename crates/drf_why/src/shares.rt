//! The weighted shares of nodes in a report.
ghost use Rattle.std.specs.Prelude.{◌≡◌, Some, None, cond, IfOk, OnOk, string_bytes};
ghost use Rattle.drf_lines.specs.ReportLine.{fraction_text};
ghost use Rattle.drf_role.specs.Parts.{text_of};
ghost use Rattle.drf_role.specs.Text.{Text, same_text};
ghost use Rattle.drf_why.specs.Passers.{weighted_in};
ghost use Rattle.drf_why.specs.Shares.{AreSharesIn, share_at};

use drf_hash::HashKey;
use drf_lines::write_fraction;
use drf_role::NodePath;
use drf_rows::{NodeLine, Report};
use indexmap::IndexMap;
use std::alloc::{AllocError, Global};

/// The weighted shares of a report as texts, by the texts of the nodes.
#[derive(Drop)]
pub(crate) struct Shares<'a> {
    pub(crate) report: &'a Report,
    pub(crate) by_node: IndexMap<String, String, HashKey>,
}

/// Stores the share of a node, and replaces an earlier one.
fn put_share(
    alloc: Global,
    by_node: &mut IndexMap<String, String, HashKey>,
    line: &NodeLine,
) -> Result<(), AllocError>
    ensures { OnOk result ((node : Text) → share_at by_node.new node
        ≡ cond (same_text (text_of line.now.path) node) (Some (fraction_text line.now.weighted)) (share_at by_node.old node)) }
{
    let node = String::from_str(alloc, line.path.text())?;
    let share = write_fraction(alloc, line.weighted)?;
    by_node.insert(node, share)?;
    Ok(())
}

impl<'a> Shares<'a> {
    /// Returns the shares of a report. Goes from the last line to the first, so that the first share of a node remains.
    pub(crate) fn of(
        alloc: Global,
        key: HashKey,
        report: &'a Report,
    ) -> Result<Shares<'a>, AllocError>
        ensures shares { IfOk result AreSharesIn }
        ensures report { IfOk result (λ shares. shares.report.now ≡ report.now) }
    {
        let nodes = report.nodes.as_slice();
        let mut by_node = IndexMap::with_hasher(alloc, key);
        for i in (0..nodes.len()).rev() {
            put_share(alloc, &mut by_node, &nodes[i])?;
        }
        Ok(Shares { report, by_node })
    }

    /// Returns the weighted share of a node, or an empty text if the report does not have the node.
    pub(crate) fn weighted(&self, node: &NodePath) -> &str
        requires { AreSharesIn self.now }
        ensures { result.now ≡ weighted_in self.now.report.now node.now }
    {
        match self.by_node.get(node.text()) {
            Some(share) => share.as_str(),
            None => "",
        }
    }
}
