//! Keeps the last report that was written, with its text, so that the text of unchanged nodes can be copied.
ghost use Rattle.std.specs.Prelude.{◌≡◌, ◌++◌, [], map, IfSome, OnOk, OnErr};
ghost use Rattle.serde_json.specs.Data.{array};
ghost use Rattle.serde_json.specs.View.{items_of};
ghost use Rattle.serde_json.specs.Written.{compact_text};
ghost use Rattle.drf_lines.specs.LastReport.{AreTexts};
ghost use Rattle.drf_lines.specs.ReportLine.{node_value};
ghost use Rattle.drf_lines.specs.Written.{KeepsPrefix};

use crate::member::{put_byte, put_comma};
use crate::node::{is_same_node, is_same_path, put_node, put_node_list};
use drf_role::NodePath;
use drf_rows::{NodeLine, SharedTable};
use std::alloc::AllocError;
use std::marker::Model;

/// The greatest number of nodes that are kept.
const MOST_NODES: usize = 8192;

/// The greatest length, in bytes, of the text that is kept.
const MOST_TEXT: usize = 1_048_576;

/// The range of bytes where the text of a node is.
#[derive(Clone, Copy)]
struct Span {
    start: usize,
    end: usize,
}

/// Nodes that were written, with their text.
#[derive(Drop)]
struct WrittenNodes {
    nodes: SharedTable<NodeLine>,
    text: Vec<u8>,
    spans: Vec<Span>,
    ghost are_texts: { AreTexts text.items spans.items nodes },
}

impl WrittenNodes {
    /// Returns the text of the node at `place`, if this node is the same as the given one.
    fn text_at(&self, place: usize, node: &NodeLine) -> Option<&[u8]>
        ensures { IfSome result (λ text. text.now ≡ compact_text (node_value node.now)) }
    {
        let kept = self.nodes.as_slice().get(place)?;
        let span = self.spans.get(place)?;
        if !is_same_node(kept, node) {
            return None;
        }
        Some(&self.text[span.start..span.end])
    }

    /// Returns whether the node at `place` has that path.
    fn has_path(&self, place: usize, path: &NodePath) -> bool {
        match self.nodes.as_slice().get(place) {
            Some(kept) => is_same_path(&kept.path, path),
            None => false,
        }
    }

    /// Returns the first index from `place` on whose node is not before the path, or the number of nodes.
    fn place_from(&self, place: usize, path: &NodePath) -> usize {
        let nodes = self.nodes.as_slice();
        for at in place..nodes.len() {
            if nodes[at].path >= *path {
                return at;
            }
        }
        nodes.len()
    }

    /// Returns the text of a node if the kept report has the same node. Nodes come in the order of their paths, so the
    /// search begins at `place`; then `place` is set to the index after the node, or to where the node would be.
    fn text_of(&self, place: &mut usize, node: &NodeLine) -> Option<&[u8]>
        ensures { IfSome result (λ text. text.now ≡ compact_text (node_value node.now)) }
    {
        if let Some(text) = self.text_at(*place, node) {
            *place = place.saturating_add(1);
            return Some(text);
        }
        if self.has_path(*place, &node.path) {
            *place = place.saturating_add(1);
            return None;
        }
        *place = self.place_from(*place, &node.path);
        let text = self.text_at(*place, node)?;
        *place = place.saturating_add(1);
        Some(text)
    }
}

/// The last report that was written, or nothing. No contract says which report is kept.
pub struct LastReport {
    keeps: bool,
    written: Option<WrittenNodes>,
}

impl Model for LastReport {
    ghost use Rattle.std.specs.Prelude.{⊤};

    ghost Value = { ⊤ };

    ghost view = { λ _. tt };
}

// Written out, so that the proof of code that drops a report sees one call.
impl Drop for LastReport {
    fn drop(self) {
        let LastReport {
            keeps: _keeps,
            written: _written,
        } = self;
    }
}

impl LastReport {
    /// Creates a cache that is still empty.
    pub fn new() -> LastReport {
        LastReport {
            keeps: true,
            written: None,
        }
    }

    /// Creates a cache that never keeps a report.
    pub fn none() -> LastReport {
        LastReport {
            keeps: false,
            written: None,
        }
    }

    fn put_node(
        &self,
        text: &mut Vec<u8>,
        place: &mut usize,
        node: &NodeLine,
    ) -> Result<(), AllocError>
        ensures ok { OnOk result (text.new.items ≡ text.old.items ++ compact_text (node_value node.now)) }
    {
        let Some(written) = &self.written else {
            return put_node(text, node);
        };
        match written.text_of(place, node) {
            Some(known) => text.extend_from_slice(known),
            None => put_node(text, node),
        }
    }

    /// Appends the nodes as an array, and collects the range of bytes of each node's text.
    fn put_list(
        &self,
        text: &mut Vec<u8>,
        spans: &mut Vec<Span>,
        nodes: &[NodeLine],
    ) -> Result<(), AllocError>
        requires none { spans.old.items ≡ [] }
        ensures ok { OnOk result (text.new.items ≡ text.old.items ++ compact_text (array (items_of (map node_value nodes.now)))) }
        ensures texts { OnOk result (AreTexts text.new.items spans.new.items nodes.now) }
    {
        put_byte(text, b'[')?;
        let mut place = 0;
        for (i, node) in nodes.iter().enumerate() {
            put_comma(text, i)?;
            let start = text.len();
            self.put_node(text, &mut place, node)?;
            let end = text.len();
            spans.push(Span { start, end })?;
        }
        put_byte(text, b']')
    }

    /// Keeps the nodes that were written if their text is not too long, and otherwise keeps nothing.
    fn keep(&mut self, written: WrittenNodes) {
        self.written = if written.text.len() <= MOST_TEXT {
            Some(written)
        } else {
            None
        };
    }

    /// Returns the length of the text that is kept; the next report usually needs about as much.
    fn text_len(&self) -> usize {
        match &self.written {
            Some(written) => written.text.len(),
            None => 0,
        }
    }

    /// Appends the nodes and keeps them with their text. If memory runs out, the line is unchanged.
    fn put_and_keep(
        &mut self,
        line: &mut Vec<u8>,
        nodes: &SharedTable<NodeLine>,
    ) -> Result<(), AllocError>
        ensures ok { OnOk result (line.new.items ≡ line.old.items ++ compact_text (array (items_of (map node_value nodes.now)))) }
        ensures err { OnErr result (line.new.items ≡ line.old.items) }
    {
        let alloc = *line.allocator();
        let mut text = Vec::with_capacity(alloc, self.text_len())?;
        let mut spans = Vec::with_capacity(alloc, nodes.len())?;
        self.put_list(&mut text, &mut spans, nodes.as_slice())?;
        let nodes = nodes.copy()?;
        line.extend_from_slice(&text)?;
        self.keep(WrittenNodes { nodes, text, spans });
        Ok(())
    }

    /// Appends the nodes of a report. If there is no memory to keep them, they are written without being kept.
    pub fn put_nodes(
        &mut self,
        line: &mut Vec<u8>,
        nodes: &SharedTable<NodeLine>,
    ) -> Result<(), AllocError>
        ensures ok { OnOk result (line.new.items ≡ line.old.items ++ compact_text (array (items_of (map node_value nodes.now)))) }
        ensures prefix { KeepsPrefix line.old.items line.new.items }
    {
        if self.keeps && nodes.len() <= MOST_NODES && self.put_and_keep(line, nodes).is_ok() {
            return Ok(());
        }
        self.written = None;
        put_node_list(line, nodes.as_slice())
    }
}
