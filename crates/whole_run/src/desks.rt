//! The desks of a run, from their opening to their closing.
ghost use Rattle.std.specs.Prelude.{◌≡◌, ◌<◌, IfOk, IfSome, vec_capacity, vec_len};
ghost use Rattle.run_workers.specs.Crews.{IsWith};
ghost use Rattle.whole_run.specs.DeskEnds.{ClosedSo};
ghost use Rattle.whole_run.specs.Desks.{AreDesksOf, CanClose, Closes, HasDesks};

use deck_relay::{Deck, Relay};
use loop_queue::{LoopPost, LoopQueue};
use run_workers::Desk;
use std::alloc::{AllocError, Global};
use std::marker::Model;
use std::snapshot::Snapshot;
use std::sync::{Arc, Wait};

/// How many workers may have desks: a relay has decks for so many, and for hand 0.
pub const MOST_DESKS: u32 = 16;

/// How the desks of a run were closed: what each of them came back with, how many names were left
/// in their decks, and how many in the queue of their posts. The laws of decks and of posts hold of
/// it. So only one that closed them has the numbers.
#[derive(Drop)]
pub struct DeskEnd {
    names: u32,
    entries: u32,
    desks: Snapshot<Vec<Desk>>,
}

impl Model for DeskEnd {
    ghost use Rattle.std.specs.Coded.{codes};
    ghost use Rattle.deck_relay.specs.contracts.desk.Desk as desk;
    ghost use Rattle.whole_run.specs.DeskEnds.{ClosedDesks, ClosedSo};

    ghost Value = { ClosedDesks };

    ghost coded = { Prim.hlevel (codes, desk.the_row.coded) };

    ghost view = { λ e.
        record { names = e.names; entries = e.entries; desks = e.desks.value.items } };

    ghost invariant = { λ e. ClosedSo
        (record { names = e.names; entries = e.entries; desks = e.desks.value.items }) };
}

impl DeskEnd {
    /// How many names were left in the decks, as far as the number counts.
    pub fn names(&self) -> u32
        ensures count { result ≡ self.now.names }
        ensures so { ClosedSo self.now }
    {
        self.names
    }

    /// How many entries were left in the queue.
    pub fn entries(&self) -> u32
        ensures { result ≡ self.now.entries }
    {
        self.entries
    }
}

/// What the desks of a run are closed with: the queue of their posts, and room for their decks and
/// for their posts, so that closing takes no memory. It has no drop: a run spends it by `close`.
pub struct DeskRoom {
    pub(crate) queue: Arc<LoopQueue>,
    pub(crate) decks: Vec<Deck>,
    pub(crate) posts: Vec<LoopPost>,
}

/// The desks of so many workers, and last that of hand 0: a deck of one relay each, and a post of
/// one queue. Without workers there is none, and hand 0 finds all names itself; and for more
/// workers than a relay has decks for there is none either: all hands find names by looks at the
/// table.
pub(crate) fn open_desks(
    alloc: Global,
    workers: u32,
) -> Result<(Vec<Desk>, Option<DeskRoom>), AllocError>
    ensures close { IfOk result (λ opened. CanClose opened.1 opened.0.items) }
    ensures count { IfOk result (λ opened. HasDesks workers opened.1 opened.0.items) }
{
    if workers == 0 || workers > MOST_DESKS {
        return Ok((Vec::new(alloc), None));
    }
    let mut desks = Vec::with_capacity(alloc, workers as usize + 1)?;
    let mut decks = Relay::open(alloc, workers)?;
    let (queue, mut posts) = LoopQueue::open(alloc, workers + 1)?;
    while let Some(deck) = decks.pop() {
        let Some(post) = posts.pop() else {
            unreachable!()
        };
        desks.push_reserved(Desk { deck, post });
    }
    desks.reverse();
    let room = DeskRoom {
        queue,
        decks,
        posts,
    };
    Ok((desks, Some(room)))
}

/// Puts hand 0's desk back as the last, where there is one.
pub(crate) fn put_own(desks: &mut Vec<Desk>, own: Option<Desk>)
    requires room { IfSome own (λ _. vec_len desks.old < vec_capacity desks.old) }
    ensures with { IsWith own desks.old.items desks.new.items }
{
    match own {
        None => {}
        Some(desk) => desks.push_reserved(desk),
    }
}

impl DeskRoom {
    /// Closes the relay and the queue of the desks, of which all came back.
    fn close<R: Wait>(self, rt: &R, desks: Vec<Desk>) -> DeskEnd
        requires all { AreDesksOf self desks.items }
        ensures desks { result.desks ≡ desks.items }
        ensures so { ClosedSo result }
    {
        let DeskRoom {
            queue,
            mut decks,
            mut posts,
        } = self;
        let back = Snapshot::of(&desks);
        let mut desks = desks;
        desks.reverse();
        while let Some(desk) = desks.pop() {
            let Desk { deck, post } = desk;
            decks.push_reserved(deck);
            posts.push_reserved(post);
        }
        let names = Relay::close(rt, decks);
        let entries = LoopQueue::close(rt, queue, posts);
        let end = DeskEnd {
            names,
            entries,
            desks: back,
        };
        // Asked for the laws, which hold of it.
        let _ = end.names();
        end
    }
}

/// Closes the desks of a run, where it has any. The names that are left are of a table on which all
/// operations are over.
pub(crate) fn close_desks<R: Wait>(
    rt: &R,
    room: Option<DeskRoom>,
    desks: Vec<Desk>,
) -> Option<DeskEnd>
    requires all { CanClose room desks.items }
    ensures { Closes room desks.items result }
{
    match room {
        None => {
            drop(desks);
            None
        }
        Some(room) => Some(room.close(rt, desks)),
    }
}
