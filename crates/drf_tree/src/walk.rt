//! A walk through the active clients of a tree, one by one, depth first.
ghost use Rattle.std.specs.Prelude.{◌≡◌, ◌<◌, ◌≤◌, ◌++◌, ◌∷◌, [], Some, IfOk, drop, length, option_copied, slice_get, true};
ghost use Rattle.std.specs.Option.{is_some};
ghost use Rattle.std.specs.Vec.{vec_capacity};
ghost use Rattle.drf_sorter.specs.Content.{Content};
ghost use Rattle.drf_sorter.specs.Passed.{IsPassedPrefix};
ghost use Rattle.drf_tree.specs.Changes.{IsShapeOf};
ghost use Rattle.drf_tree.specs.Nodes.{client_at, is_node};
ghost use Rattle.drf_tree.specs.Queue.{AreFrames, IsNext, IsSettled, frames_queue, onward, order_in};
ghost use Rattle.drf_tree.specs.Tree.{IsTreeOf};

use crate::tree::{ROOT, Tree};
use drf_role::ClientPath;
use std::alloc::{AllocError, Global};

/// The greatest number of families on the stack: the root's, and one for each part of a node's path.
const MOST_FRAMES: usize = 11;

/// A family on the stack of a walk, with the next position to visit in it.
#[derive(Clone, Copy)]
pub(crate) struct Frame {
    pub node: usize,
    pub next: usize,
}

impl Frame {
    /// Returns the frame with the position after this one. The addition never saturates, because no family is so long.
    fn onward(self) -> Frame
        ensures { result ≡ onward self }
    {
        Frame {
            node: self.node,
            next: self.next.saturating_add(1),
        }
    }
}

/// A walk through the tree, as a stack of frames. The last frame is at the current client, if there is one.
#[derive(Drop)]
pub(crate) struct Walk {
    frames: Vec<Frame>,
    ghost room: { 11 ≤ vec_capacity frames },
}

/// What is at the position of a frame.
enum Next {
    /// Nothing: the end of the family.
    End,
    /// A node with no active clients.
    Nobody,
    /// An active client.
    Client,
    /// A node with active clients below it.
    Node(usize),
}

impl Walk {
    /// Returns a walk that has ended.
    pub(crate) fn open(alloc: Global) -> Result<Walk, AllocError>
        ensures { IfOk result (λ walk. walk.frames.items ≡ []) }
    {
        Ok(Walk {
            frames: Vec::with_capacity(alloc, MOST_FRAMES)?,
        })
    }

    /// Ends the walk.
    pub(crate) fn stop(&mut self)
        ensures { self.new.frames.items ≡ [] }
    {
        self.frames.clear();
    }

    /// Starts the walk again, at the first client of the tree.
    pub(crate) fn start(&mut self, tree: &Tree)
        requires { IsShapeOf tree.now }
        ensures frames { AreFrames tree.now.places.items self.new.frames.items }
        ensures settled { (content : Content) → IsTreeOf content tree.now → IsSettled content tree.now.places.items tree.now.families.items self.new.frames.items }
        ensures queue { (content : Content) → IsTreeOf content tree.now → frames_queue content tree.now self.new.frames.items ≡ order_in content tree.now.places.items tree.now.families.items }
    {
        self.frames.clear();
        self.push(Frame {
            node: ROOT,
            next: 0,
        });
        self.settle(tree);
    }

    /// Returns the current client.
    pub(crate) fn first<'a>(&self, tree: &'a Tree) -> Option<&'a ClientPath>
        requires shape { IsShapeOf tree.now }
        requires frames { AreFrames tree.now.places.items self.now.frames.items }
        ensures { (content : Content) → IsTreeOf content tree.now → IsSettled content tree.now.places.items tree.now.families.items self.now.frames.items → option_copied result ≡ slice_get (frames_queue content tree.now self.now.frames.items) 0 }
    {
        let frame = self.frames.last()?;
        let node = tree.families[frame.node].child(frame.next)?;
        tree.place(node)?.client.as_ref()
    }

    /// Moves to the client after the current one.
    pub(crate) fn pass(&mut self, tree: &Tree)
        requires shape { IsShapeOf tree.now }
        requires frames { AreFrames tree.now.places.items self.old.frames.items }
        ensures frames { AreFrames tree.now.places.items self.new.frames.items }
        ensures settled { (content : Content) → IsTreeOf content tree.now → IsSettled content tree.now.places.items tree.now.families.items self.new.frames.items }
        ensures queue { (content : Content) → IsTreeOf content tree.now → IsSettled content tree.now.places.items tree.now.families.items self.old.frames.items → frames_queue content tree.now self.new.frames.items ≡ drop 1 (frames_queue content tree.now self.old.frames.items) }
    {
        if let Some(frame) = self.frames.pop() {
            self.push(frame.onward());
        }
        self.settle(tree);
    }

    /// Moves past the current client and the clients after it that are below the node of the first `len` parts of its path.
    pub(crate) fn pass_prefix(&mut self, tree: &Tree, len: usize)
        requires shape { IsShapeOf tree.now }
        requires frames { AreFrames tree.now.places.items self.old.frames.items }
        ensures frames { AreFrames tree.now.places.items self.new.frames.items }
        ensures settled { (content : Content) → IsTreeOf content tree.now → IsSettled content tree.now.places.items tree.now.families.items self.new.frames.items }
        ensures queue { (content : Content) → IsTreeOf content tree.now → IsSettled content tree.now.places.items tree.now.families.items self.old.frames.items → IsPassedPrefix len (frames_queue content tree.now self.old.frames.items) (frames_queue content tree.now self.new.frames.items) }
    {
        if len < self.frames.len() {
            self.frames.truncate(len);
            self.settle(tree);
        } else {
            self.pass(tree);
        }
    }

    /// Moves on until the last frame is at an active client, or the walk has ended.
    fn settle(&mut self, tree: &Tree)
        requires shape { IsShapeOf tree.now }
        requires frames { AreFrames tree.now.places.items self.old.frames.items }
        ensures frames { AreFrames tree.now.places.items self.new.frames.items }
        ensures settled { (content : Content) → IsTreeOf content tree.now → IsSettled content tree.now.places.items tree.now.families.items self.new.frames.items }
        ensures queue { (content : Content) → IsTreeOf content tree.now → frames_queue content tree.now self.new.frames.items ≡ frames_queue content tree.now self.old.frames.items }
    {
        while let Some(frame) = self.frames.pop() {
            match next_at(tree, frame) {
                Next::End => {}
                Next::Nobody => self.push(frame.onward()),
                Next::Client => {
                    self.push(frame);
                    return;
                }
                Next::Node(node) => {
                    self.push(frame.onward());
                    self.push(Frame { node, next: 0 });
                }
            }
        }
    }

    pub(crate) fn copy(&self) -> Result<Walk, AllocError>
        requires { length self.now.frames.items ≤ 10 }
        ensures { IfOk result (λ walk. walk.frames.items ≡ self.now.frames.items) }
    {
        let alloc = *self.frames.allocator();
        let mut frames = Vec::with_capacity(alloc, MOST_FRAMES)?;
        for frame in &self.frames {
            frames.push_reserved(*frame);
        }
        Ok(Walk { frames })
    }

    fn push(&mut self, frame: Frame)
        requires { length self.old.frames.items ≤ 10 }
        ensures { self.new.frames.items ≡ self.old.frames.items ++ frame ∷ [] }
    {
        self.frames.push_reserved(frame);
    }
}

/// Returns what is at the position of a frame.
fn next_at(tree: &Tree, frame: Frame) -> Next
    requires shape { IsShapeOf tree.now }
    requires node { is_node tree.now.places.items frame.node ≡ true }
    ensures { IsNext tree.now frame result }
{
    let Some(node) = tree.families[frame.node].child(frame.next) else {
        return Next::End;
    };
    if tree.sums[node].active == 0 {
        Next::Nobody
    } else if is_client(tree, node) {
        Next::Client
    } else {
        Next::Node(node)
    }
}

fn is_client(tree: &Tree, node: usize) -> bool
    ensures { result ≡ is_some (client_at tree.now.places.items node) }
{
    match tree.place(node) {
        Some(place) => place.client.is_some(),
        None => false,
    }
}
