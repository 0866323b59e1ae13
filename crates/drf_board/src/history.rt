//! The rule for the histories of all boards: each history is a chain of links in one log, to which links are only added. The log exists only in
//! proofs.
use crate::entry::Entry;
use drf_rows::{Event, Reply};
use logbook::{Gain, Pen, Plain, Play, Rule, Word};
use std::marker::Brand;

/// One entry of a board's chain, and the key of the word whose pen can add the next entry. No value of this type is made at run time.
pub struct Link {
    pub chain: u64,
    pub next: u64,
    pub entry: Entry,
}

/// The rule that a pen can add only one link: once a pen has added a link, its word is back in the log.
pub struct Chained;

impl Rule<Link, u64> for Chained {
    ghost use Rattle.std.specs.Prelude.{[]};
    ghost use base.Fml.{ftrue};
    ghost use Rattle.drf_board.specs.Chains.{IsChained};

    ghost holds = { λ cells log. IsChained cells log };

    ghost first = { [] };

    ghost hinted = { λ n log. Unit {0} };

    ghost shows = { λ log. [] };

    ghost keeps = { λ names log. ftrue };

    ghost moves = { λ ask before after answer. Unit {0} };
}

/// The gain of a step that gives nothing.
pub struct NoGain;

impl Gain<Link, u64> for NoGain {
    ghost use base.Fml.{ftrue};

    ghost after = { λ names about answer. ftrue };
}

/// The step that gives the right to make a word.
pub struct NewPen;

impl Play<Link, u64> for NewPen {
    ghost use Rattle.drf_board.specs.Chains.{HasNewPen};

    ghost then = { HasNewPen };
}

impl Plain<(), Link, u64> for NewPen {
    ghost use Rattle.std.specs.Prelude.{None};
    ghost use Rattle.drf_board.specs.Chains.{no_link};

    ghost ask = { λ nothing. no_link };

    ghost state = { λ nothing. None };
}

/// What a link is made from: the word that names the chain, the pen that can add the next link, and the event and reply of the entry.
#[derive(Clone, Copy)]
pub struct Borrowed<'a> {
    pub root: &'a Word<Link, u64, Chained>,
    pub next: &'a Pen,
    pub event: &'a Event,
    pub reply: &'a Reply,
}

/// The step that adds a link.
pub struct AddLink;

impl Play<Link, u64> for AddLink {
    ghost use Rattle.drf_board.specs.Chains.{HasLinked};

    ghost then = { HasLinked };
}

impl<'a> Plain<Borrowed<'a>, Link, u64> for AddLink {
    ghost use Rattle.std.specs.Prelude.{None};
    ghost use Rattle.drf_board.specs.Chains.{link_of};
    ghost use Rattle.drf_board.specs.History.{entry};

    ghost ask = { λ borrowed. link_of borrowed.root.now.key borrowed.next.now.nib.key (entry borrowed.event.now borrowed.reply.now) };

    ghost state = { λ borrowed. None };
}

/// The number of links that a chain is expected to have.
#[derive(Clone, Copy)]
pub struct Expected<'a> {
    pub root: &'a Word<Link, u64, Chained>,
    pub count: u64,
}

/// The step by which the owner of the pen finds that nobody has seen more links than expected.
pub struct Look;

impl Play<Link, u64> for Look {
    ghost use Rattle.drf_board.specs.Chains.{HasLooked};

    ghost then = { HasLooked };
}

impl<'a> Plain<Expected<'a>, Link, u64> for Look {
    ghost use Rattle.std.specs.Prelude.{None};
    ghost use Rattle.drf_board.specs.Chains.{look_of};

    ghost ask = { λ expected. look_of expected.root.now.key expected.count };

    ghost state = { λ expected. None };
}

/// A name of one slate, for proofs only: the place of its history, its capacities (`slate`), and the rows with which the history begins (`start`).
/// Code that opens a board is generic in such a type, and the proof of each call says which slate it is for. So a list of one board cannot be learnt
/// by a viewer of another.
pub trait Naming {
    ghost use Rattle.drf_rows.specs.declared.rows.Rows.{Rows};
    ghost use Rattle.drf_board.specs.Slates.{SlateName};

    ghost slate: { SlateName };

    ghost start: { Rows };
}

/// The type with which code that is generic in `Naming` is called.
impl Naming for Brand {
    ghost use Rattle.drf_rows.specs.LimitNumbers.{ceilings};
    ghost use Rattle.drf_rows.specs.Step.{opening};

    ghost slate = { record { book = record { number = 0; log_name = 0; cells_name = 0 }; chain = 0; limits = ceilings } };

    ghost start = { opening };
}
