//! What is so in a state, and keeps a hand from a step.

use crate::callback::Callback;
use crate::standing::Standing;
use life_rules::{BlockState, Place, ScopeWord, SourceAt};

/// What is so in a state, and keeps a hand from a step.
#[derive(Clone, Copy)]
pub enum Fact {
    /// There is no such hand.
    NoHand {
        hand: u32,
    },
    /// There is no such block.
    NoBlock {
        block: u32,
    },
    /// There is no such place.
    NoPlace {
        place: Place,
    },
    /// There is no such source: the node has none.
    NoSource {
        source: SourceAt,
    },
    /// The block is so.
    BlockIs {
        block: u32,
        state: BlockState,
    },
    /// The node has come so far.
    Stands {
        place: Place,
        standing: Standing,
    },
    /// This has become of the node's callback.
    CallbackIs {
        place: Place,
        callback: Callback,
    },
    /// A callback of the node is registered on this source; on none where no request reaches it.
    HearsFrom {
        place: Place,
        nearest: Option<SourceAt>,
    },
    /// The hand scans the source.
    Scans {
        hand: u32,
        source: SourceAt,
    },
    /// The hand makes no scan of the source.
    ScansNot {
        hand: u32,
        source: SourceAt,
    },
    /// The hand's scan of the source goes on with this place; none where it has passed all.
    GoesOnWith {
        hand: u32,
        source: SourceAt,
        next: Option<Place>,
    },
    /// An await names no child.
    NamesNone,
    /// An await names a child twice.
    NamesTwice,
    /// The node isn't a child of the place's node.
    NotChild {
        place: Place,
        child: u32,
    },
    /// The hand has no arming of the place to look after at this source.
    NothingToLookAfter {
        hand: u32,
        source: SourceAt,
        place: Place,
    },
    /// The hand may not request a stop of the source, or not for a failure.
    NothingToRequest {
        hand: u32,
        source: SourceAt,
        failure: bool,
    },
    /// The hand doesn't run the node's callback.
    RunsNot {
        hand: u32,
        place: Place,
    },
    /// The hand has an association in the making.
    InTheMaking {
        hand: u32,
    },
    /// The hand has an association that is being refused.
    BeingRefused {
        hand: u32,
    },
    /// The hand has no association in the making.
    NoneInTheMaking {
        hand: u32,
    },
    /// The hand has no association that is made or being refused.
    NoneToLeave {
        hand: u32,
    },
    /// The scope's word is so.
    ScopeIs {
        word: ScopeWord,
    },
}
