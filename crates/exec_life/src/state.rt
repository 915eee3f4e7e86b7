//! A state of operations, and its steps.
ghost use Rattle.std.specs.Prelude.{◌≡◌, ◌<◌, ◌≤◌, ◌^◌, IfOk, slice_get, Some, length};
ghost use Rattle.std.specs.Bool.{OnTrue, OnFalse};
ghost use Rattle.life_rules.specs.Opening.{opening};
ghost use Rattle.life_rules.specs.Sound.{Sound};
ghost use Rattle.life_rules.specs.States.{is_place};
ghost use Rattle.life_rules.specs.Steps.{may_happen, after};
ghost use Rattle.life_rules.specs.declared.limits.TheConstants.{MOST_BLOCKS, MOST_HANDS};
ghost use Rattle.exec_life.specs.Reading.{TellWords, TellsView, SameTable};
ghost use Rattle.exec_life.specs.StateLists.{machine};

use crate::parts::Parts;
use crate::view::{View, blank_views};
use crate::words::Words;
use life_rules::{Event, Place};
use node_tree::{ScopeKind, Tree};
use std::alloc::{AllocError, Global};
use std::marker::Model;

/// The words of all operations, and what each hand knows. It is sound between any two steps.
#[derive(Drop)]
pub struct State {
    parts: Parts,
}

impl Model for State {
    ghost use Rattle.exec_life.specs.StateLists.{StateLists, IsState};

    ghost Value = { StateLists };

    ghost use Rattle.exec_life.specs.Parts.{lists_of};

    ghost view = { λ s. lists_of s.parts };

    ghost invariant = { λ s. IsState (lists_of s.parts) };
}

/// The state with which all begins: all blocks are free at generation 0, the scope is unused, and
/// no hand has done anything. There are up to 256 blocks and 1 to 32 hands, and the scope takes at
/// most `most` associations, up to 65,535. It fails only for want of memory.
pub fn opening(
    alloc: Global,
    tree: &Tree,
    blocks: u32,
    hands: u32,
    kind: ScopeKind,
    most: u32,
) -> Result<State, AllocError>
    requires blocks { blocks ≤ MOST_BLOCKS }
    requires some_hand { 1 ≤ hands }
    requires hands { hands ≤ MOST_HANDS }
    requires most { most < 2 ^ 16 }
    ensures { IfOk result (λ s. machine s ≡ opening tree.now blocks hands kind most) }
{
    let nodes = tree.size();
    let words = Words::new(alloc, blocks, nodes)?;
    let views = blank_views(alloc, blocks, nodes, hands)?;
    let tree = tree.clone()?;
    Ok(State {
        parts: Parts {
            tree,
            kind,
            most,
            words,
            views,
        },
    })
}

impl State {
    /// The tree of each operation.
    pub fn tree(&self) -> &Tree
        ensures { result.now ≡ (machine self.now).tree }
    {
        &self.parts.tree
    }

    /// The number of blocks.
    pub fn blocks(&self) -> u32
        ensures { result ≡ (machine self.now).blocks }
    {
        self.parts.words.blocks()
    }

    /// The number of hands.
    pub fn hands(&self) -> u32
        ensures { result ≡ (machine self.now).hands }
    {
        self.parts.views.len() as u32
    }

    /// Whether the block and the node exist.
    pub fn has_place(&self, place: Place) -> bool
        ensures { result ≡ is_place (machine self.now) place }
    {
        self.parts.is_place(place)
    }

    /// The words, as they read. What they say together with the views is sound.
    pub fn words(&self) -> &Words
        ensures words { result.now ≡ self.now.words }
        ensures tells { TellWords (machine self.now) result.now }
        ensures sound { Sound (machine self.now) }
    {
        &self.parts.words
    }

    /// What a hand knows.
    pub fn view(&self, hand: u32) -> &View
        requires { hand < (machine self.now).hands }
        ensures view { slice_get self.now.views hand ≡ Some result.now }
        ensures tells { TellsView (machine self.now) hand result.now }
    {
        self.parts.view(hand)
    }

    /// Whether the hand may take this step. It takes no memory.
    pub fn allows(&self, hand: u32, event: &Event) -> bool
        requires { hand < (machine self.now).hands }
        ensures { result ≡ may_happen (machine self.now) hand event.now }
    {
        self.parts.allows(hand, event)
    }

    /// The hand takes this step, where it may; else nothing changes. It takes no memory.
    pub fn step(&mut self, hand: u32, event: Event) -> bool
        requires { hand < (machine self.old).hands }
        ensures exact { result ≡ may_happen (machine self.old) hand event }
        ensures taken { OnTrue result (machine self.new ≡ after (machine self.old) hand event) }
        ensures refused { OnFalse result (self.new ≡ self.old) }
        ensures table { SameTable (machine self.old) (machine self.new) }
    {
        if !self.parts.allows(hand, &event) {
            return false;
        }
        self.parts.take_step(hand, &event);
        true
    }
}
