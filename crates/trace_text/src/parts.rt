//! An event taken apart: its kind, and what stands beside it.
ghost use Rattle.std.specs.Prelude.{◌≡◌, IfOk};
ghost use Rattle.trace_text.specs.Parts.{event_from};

use crate::kinds::{BareKind, BlockKind, PlaceKind};
use life_rules::{Event, Place, Resting, ScopeWord, SourceAt};
use node_tree::NodeList;
use std::alloc::{AllocError, Global};

/// What an event consists of.
#[derive(Clone, Copy)]
pub enum Parts<'a> {
    Block(BlockKind, u32),
    Place(PlaceKind, Place),
    Bare(BareKind),
    Await(Place, &'a [u32]),
    Rest(Place, Resting),
    Look(SourceAt, Option<Place>),
    Request(SourceAt, bool),
    Run(SourceAt, Place),
    SealScan(SourceAt),
    Seal(ScopeWord),
}

/// The parts of an event.
pub fn parts_of(event: &Event) -> Parts<'_>
    ensures { event_from result ≡ event.now }
{
    match event {
        Event::Claim { block } => Parts::Block(BlockKind::Claim, *block),
        Event::Begin { place } => Parts::Place(PlaceKind::Begin, *place),
        Event::Await { place, children } => Parts::Await(*place, children.as_slice()),
        Event::Rest { place, to } => Parts::Rest(*place, *to),
        Event::Take { place } => Parts::Place(PlaceKind::Take, *place),
        Event::Finish { place } => Parts::Place(PlaceKind::Finish, *place),
        Event::Report { place } => Parts::Place(PlaceKind::Report, *place),
        Event::Release { block } => Parts::Block(BlockKind::Release, *block),
        Event::Arm { place } => Parts::Place(PlaceKind::Arm, *place),
        Event::Look { source, after } => Parts::Look(*source, *after),
        Event::Request { source, failure } => Parts::Request(*source, *failure),
        Event::Run { source, place } => Parts::Run(*source, *place),
        Event::EndRun { place } => Parts::Place(PlaceKind::EndRun, *place),
        Event::Withdraw { place } => Parts::Place(PlaceKind::Withdraw, *place),
        Event::WithdrawOwn { place } => Parts::Place(PlaceKind::WithdrawOwn, *place),
        Event::SealScan { source } => Parts::SealScan(*source),
        Event::Skip { block } => Parts::Block(BlockKind::Skip, *block),
        Event::Rouse { place } => Parts::Place(PlaceKind::Rouse, *place),
        Event::Enter => Parts::Bare(BareKind::Enter),
        Event::MarkUsed => Parts::Bare(BareKind::MarkUsed),
        Event::Leave => Parts::Bare(BareKind::Leave),
        Event::Close => Parts::Bare(BareKind::Close),
        Event::Join => Parts::Bare(BareKind::Join),
        Event::Seal { expected } => Parts::Seal(*expected),
    }
}

impl Parts<'_> {
    /// The event of these parts.
    pub fn event(self, alloc: Global) -> Result<Event, AllocError>
        ensures { IfOk result (λ event. event ≡ event_from self.entry) }
    {
        Ok(match self {
            Parts::Block(kind, block) => kind.event(block),
            Parts::Place(kind, place) => kind.event(place),
            Parts::Bare(kind) => kind.event(),
            Parts::Await(place, children) => Event::Await {
                place,
                children: NodeList::from_slice(alloc, children)?,
            },
            Parts::Rest(place, to) => Event::Rest { place, to },
            Parts::Look(source, after) => Event::Look { source, after },
            Parts::Request(source, failure) => Event::Request { source, failure },
            Parts::Run(source, place) => Event::Run { source, place },
            Parts::SealScan(source) => Event::SealScan { source },
            Parts::Seal(expected) => Event::Seal { expected },
        })
    }
}
