//! The board, which publishes sheets to viewers and keeps the list of all events and replies.
ghost use Rattle.std.specs.Prelude.{◌≡◌, ◌+◌, ◌^◌, ◌<◌, ◌++◌, ◌∷◌, [], length, All, IfOk, OnOk, OnErr};
ghost use mathlib.Core.List.{IsPrefix};
ghost use Rattle.drf_board.specs.Boards.{HasPublished};
ghost use Rattle.drf_board.specs.History.{IsLegal, entry};
ghost use Rattle.drf_board.specs.Sheets.{IsSheet};

use crate::author::Author;
use crate::history::Naming;
use crate::prefix::{Prefix, Told};
use crate::sheet::Sheet;
use crate::shown::{Pane, Shown, Shows};
use crate::slate::Slate;
use crate::viewer::Viewer;
use drf_rows::{Event, Reply};
use left_right::WriteHandle;
use std::alloc::{AllocError, Global};
use std::marker::Model;
use std::sync::Wait;

/// Publishes sheets to viewers. It is meant to show the newest sheet, but the contracts do not say this. Contracts see it as the list of all
/// published entries, and the number of viewers for which it was opened. The publisher's lock protects it; viewers do not take that lock.
#[derive(Drop)]
pub struct Board<K: Naming, R: Wait + Drop>
where
    Pane<K>: Shows,
{
    alloc: Global,
    viewers: u64,
    author: Author<K>,
    writer: WriteHandle<Pane<K>, Pane<K>, R>,
}

impl<K: Naming, R: Wait + Drop> Model for Board<K, R>
where
    Pane<K>: Shows,
{
    ghost use Rattle.drf_board.specs.Boards.{Published, published_code};

    ghost Value = { Published };

    ghost coded = { published_code };

    ghost view = { λ b. record { entries = b.author; viewers = b.viewers } };
}

impl<K: Naming, R: Wait + Drop> Board<K, R>
where
    Pane<K>: Shows,
{
    /// Opens a board for the slate `K::slate`. Returns the board, with nothing published, and its viewers, which have seen nothing. `first_sheet`
    /// must be the sheet of the rows `K::start`. It fails only if memory runs out.
    pub fn open(
        rt: R,
        alloc: Global,
        slate: Slate,
        first_sheet: Sheet,
    ) -> Result<(Board<K, R>, Vec<Viewer<K>>), AllocError>
        requires named { slate.name ≡ K.slate }
        requires sheet { IsSheet K.slate.limits K.start [] first_sheet }
        ensures entries { IfOk result (λ r. r.0.entries ≡ []) }
        ensures seats { IfOk result (λ r. r.0.viewers ≡ slate.viewers) }
        ensures count { IfOk result (λ r. length r.1.items ≡ slate.viewers) }
        ensures viewers { IfOk result (λ r. All (λ viewer. viewer ≡ []) r.1.items) }
    {
        let viewers = slate.viewers();
        let author = slate.into_author();
        let prefix = author.known();
        let (first, second) = Pane::pair(alloc)?;
        first.fill(Shown::new(first_sheet, prefix.again()));
        // The writer needs room for at least one reader.
        let writer = WriteHandle::new(alloc, rt, first, second, viewers.max(1) as usize)?;
        let readers = readers_of(alloc, &writer, &prefix, viewers as usize)?;
        let board = Board {
            alloc,
            viewers,
            author,
            writer,
        };
        Ok((board, readers))
    }

    /// Returns the number of viewers for which it was opened. If it is 0, nobody reads sheets, and `publish_unseen` can be used.
    pub fn viewers(&self) -> u64
        ensures { result ≡ self.now.viewers }
    {
        self.viewers
    }

    /// Returns the list of all published entries, for viewers to learn.
    pub fn told(&self) -> Told<K>
        ensures { result ≡ self.now.entries }
    {
        Told::of(self.author.known())
    }

    /// Proves that a list which was returned earlier is a prefix of the list of all published entries. Changes nothing.
    pub fn recall_told(&mut self, told: &Told<K>)
        ensures same { self.new ≡ self.old }
        ensures begins { IsPrefix told.now self.new.entries }
    {
        self.author.recall(told.prefix());
    }

    /// Proves that the list which a viewer saw or learnt is a prefix of the list of all published entries. Changes nothing.
    pub fn recall_viewer(&mut self, viewer: &Viewer<K>)
        ensures same { self.new ≡ self.old }
        ensures begins { IsPrefix viewer.now self.new.entries }
    {
        self.author.recall(viewer.prefix());
    }

    /// Adds an event with its reply to the list, shows the sheet of the longer list to viewers, and returns the longer list. It waits for viewers
    /// that still read the sheet before the last one. If memory runs out, the list is unchanged.
    pub fn publish(
        &mut self,
        sheet: Sheet,
        event: &Event,
        reply: &Reply,
    ) -> Result<Told<K>, AllocError>
        requires legal { IsLegal K.slate.limits K.start (self.old.entries ++ entry event.now reply.now ∷ []) }
        requires sheet { IsSheet K.slate.limits K.start (self.old.entries ++ entry event.now reply.now ∷ []) sheet }
        ensures ok { OnOk result (HasPublished self.old self.new (entry event.now reply.now)) }
        ensures told { IfOk result (λ told. told ≡ self.new.entries) }
        ensures err { OnErr result (self.new ≡ self.old) }
    {
        let (pane, operation) = Pane::pair(self.alloc)?;
        if self.writer.append(operation).is_err() {
            return Err(AllocError);
        }
        self.author.add(event, reply);
        pane.fill(Shown::new(sheet, self.author.known()));
        // This allocates nothing, so it succeeds.
        let _ = self.writer.publish();
        Ok(Told::of(self.author.known()))
    }

    /// Adds an event with its reply to the list of a board without viewers, and returns the longer list. It shows no sheet, does not wait, allocates
    /// nothing and cannot fail, so the caller need not compute a report.
    pub fn publish_unseen(&mut self, event: &Event, reply: &Reply) -> Told<K>
        requires unseen { self.old.viewers ≡ 0 }
        requires room { length self.old.entries + 1 < 2 ^ 64 }
        requires legal { IsLegal K.slate.limits K.start (self.old.entries ++ entry event.now reply.now ∷ []) }
        ensures added { HasPublished self.old self.new (entry event.now reply.now) }
        ensures told { result ≡ self.new.entries }
    {
        self.author.add(event, reply);
        Told::of(self.author.known())
    }
}

// Returns `count` viewers of what a writer shows.
fn readers_of<K: Naming, R: Wait + Drop>(
    alloc: Global,
    writer: &WriteHandle<Pane<K>, Pane<K>, R>,
    prefix: &Prefix<K>,
    count: usize,
) -> Result<Vec<Viewer<K>>, AllocError>
where
    Pane<K>: Shows,
    ensures count { IfOk result (λ viewers. length viewers.items ≡ count) }
    ensures new { IfOk result (λ viewers. All (λ viewer. viewer ≡ prefix.now) viewers.items) }
{
    let mut viewers = Vec::with_capacity(alloc, count)?;
    for seat in 0..count {
        let _ = seat;
        let handle = writer.handle()?;
        viewers.push(Viewer::new(handle, prefix.again()))?;
    }
    Ok(viewers)
}
