//! How a node is left at rest, and taken again.
ghost use Rattle.std.specs.Prelude.{◌≡◌, ◌∷◌, []};
ghost use Rattle.life_rules.specs.Words.{resting_at};
ghost use Rattle.life_rules.specs.declared.event.Resting.TheVariants.{Parked};
ghost use Rattle.table_steps.specs.Views.{IsHandOf, IsPlaceIn, aim_at, Stays, knows};
ghost use Rattle.table_steps.specs.Rests.{CanRest};
ghost use Rattle.table_steps.specs.Steps.{Rested};
ghost use Rattle.table_steps.specs.Takes.{resting_in, MayServe, IsTaken, IsTakenOn};

use crate::plays::{Keyed, Rests, Subject, Takes};
use crate::table::{Hand, OpTable, SeatOf};
use life_rules::{ControlWord, Name, Resting};
use node_tree::Context;
use std::marker::Brand;
use table_rules::Cargo;
use table_words::control_number;

// The word of a node that rests there.
fn word_at(to: Resting) -> ControlWord
    ensures { result ≡ resting_at to }
{
    match to {
        Resting::Loop => ControlWord::ReadyLoop,
        Resting::Pool => ControlWord::ReadyPool,
        Resting::Parked => ControlWord::Parked,
    }
}

// A node that is ready in the context rests there.
fn rests_in(on: Context) -> Resting
    ensures { result ≡ resting_in on }
{
    match on {
        Context::Loop => Resting::Loop,
        Context::Pool => Resting::Pool,
    }
}

impl<P: Cargo> OpTable<P> {
    /// Leaves the node ready in the context, with the item in its home ([exec.schd], where the work
    /// goes on from there).
    ///
    /// Step: one swap of the node's control word, held to ready.
    /// Needs: the hand holds the node, and makes no scan of its source. The item in its home shows
    /// the node's start, fits, is no completion, and asks for no more children than the last await
    /// named. The homes of its children are empty.
    /// Afterwards: the hand holds the node no more, and has given its home and its children's back.
    /// The word that it left says that the node is ready there.
    pub fn rest(&self, hand: &mut Hand<P>, name: Name, on: Context)
        requires table { IsHandOf self.now hand.old }
        requires place { IsPlaceIn self.now name }
        requires needs { CanRest P.Cargo self.now.frame hand.old.me name }
        ensures stays { Stays self.now hand.old hand.new }
        ensures rests { Rested self.now name hand.old hand.new (resting_in on) }
    {
        self.rest_at::<Brand>(&mut hand.seat, name, rests_in(on));
    }

    /// Leaves the node parked, until it is roused or hand 0 takes it. What is said of `rest` is
    /// said of this.
    ///
    /// Step: one swap of the node's control word, held to parked, which is the word that it left.
    pub fn park(&self, hand: &mut Hand<P>, name: Name)
        requires table { IsHandOf self.now hand.old }
        requires place { IsPlaceIn self.now name }
        requires needs { CanRest P.Cargo self.now.frame hand.old.me name }
        ensures stays { Stays self.now hand.old hand.new }
        ensures rests { Rested self.now name hand.old hand.new Parked }
    {
        self.rest_at::<Brand>(&mut hand.seat, name, Resting::Parked);
    }

    // Leaves the node at rest there.
    fn rest_at<K: Subject>(&self, seat: &mut SeatOf<P>, name: Name, to: Resting)
        requires table { IsHandOf self.now seat.old }
        requires place { IsPlaceIn self.now name }
        requires needs { CanRest P.Cargo self.now.frame seat.old.me name }
        requires subject { K.aim ≡ aim_at self.now name }
        ensures stays { Stays self.now seat.old seat.new }
        ensures rests { Rested self.now name seat.old seat.new to }
    {
        let rests = control_number(name.generation, word_at(to));
        let index = self.frame.layout.control(name.block, name.node);
        self.table.store::<Rests<K>>(seat, index, rests);
    }

    /// Takes the node that is ready in the context. False exactly where the word that was read said
    /// something else: then nothing changed.
    ///
    /// Step: one exchange of the node's control word, ready to held. It loses where the word
    /// changed first.
    /// Needs: what is ready in the loop only hand 0 takes.
    /// Afterwards: the hand holds the node with the start with which it began, and has the item of
    /// its home, which fits, and the empty homes of its children.
    pub fn take(&self, hand: &mut Hand<P>, name: Name, on: Context) -> bool
        requires table { IsHandOf self.now hand.old }
        requires place { IsPlaceIn self.now name }
        requires serves { MayServe (resting_in on) (knows hand.old) }
        ensures stays { Stays self.now hand.old hand.new }
        ensures taken { IsTakenOn P.Cargo self.now.frame name on result hand.old.me hand.new.me }
    {
        self.take_at::<Brand, Brand>(&mut hand.seat, name, rests_in(on))
    }

    /// Takes the node that is parked. What is said of `take` is said of this.
    ///
    /// Step: one exchange of the node's control word, parked to held. It loses where the word
    /// changed first.
    /// Needs: hand 0.
    pub fn take_parked(&self, hand: &mut Hand<P>, name: Name) -> bool
        requires table { IsHandOf self.now hand.old }
        requires place { IsPlaceIn self.now name }
        requires serves { MayServe Parked (knows hand.old) }
        ensures stays { Stays self.now hand.old hand.new }
        ensures taken { IsTaken P.Cargo self.now.frame name Parked result hand.old.me hand.new.me }
    {
        self.take_at::<Brand, Brand>(&mut hand.seat, name, Resting::Parked)
    }

    // Takes the node that rests there.
    fn take_at<K: Subject, J: Keyed<P::Over>>(
        &self,
        seat: &mut SeatOf<P>,
        name: Name,
        from: Resting,
    ) -> bool
        requires table { IsHandOf self.now seat.old }
        requires place { IsPlaceIn self.now name }
        requires serves { MayServe from (knows seat.old) }
        requires subject { K.aim ≡ aim_at self.now name }
        requires key { J.overs ≡ self.now.frame.over.value ∷ [] }
        ensures stays { Stays self.now seat.old seat.new }
        ensures taken { IsTaken P.Cargo self.now.frame name from result seat.old.me seat.new.me }
    {
        let rests = control_number(name.generation, word_at(from));
        let held = control_number(name.generation, ControlWord::Busy(0));
        let index = self.frame.layout.control(name.block, name.node);
        let was = self
            .table
            .compare_exchange::<Takes<K, J>>(seat, index, rests, held);
        was == rests
    }
}
