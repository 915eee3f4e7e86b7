//! How an `ahead` that is parked is served.
ghost use Rattle.std.specs.Bool.{OnTrue, OnFalse};
ghost use Rattle.std.specs.Prelude.{◌≡◌, Some, None};
ghost use Rattle.std.specs.Thread.{IsSync};
ghost use Rattle.table_steps.specs.Views.{IsPlaceIn, Stays};
ghost use Rattle.exec_recv.specs.Sites.{IsSite};
ghost use Rattle.serve_ahead.specs.Takes.{HasAtHand, IsAheadIn, MissesAhead};
ghost use Rattle.spawn_future.specs.Counts.{BeginsAndEnds};
ghost use Rattle.spawn_future.specs.Keeping.{IsKeeping, KeepsAtHand};
ghost use Rattle.spawn_future.specs.Serves.{StartsBoth, EndsBoth, SpawnsOrPutsOff, AwaitsOrJoins, ServesAhead};
ghost use Rattle.spawn_future.specs.Slots.{IsFoundAt, WaitsNowhere};
ghost use Rattle.spawn_future.specs.Turns.{TakesParked};

use crate::again::{begin_again, join_again};
use crate::futures::Futures;
use crate::slots::Found;
use exec_recv::{Item, Parcel, Stepper};
use node_walks::Mail;
use op_slot::Hand;
use serve_ahead::{
    AheadAt, Served, Site, Taken, begin_second, fail_ahead, first_env, give_up, is_value, put_back,
    take_ahead,
};
use std::alloc::AllocError;
use std::sync::Wait;

impl Futures {
    // Spawns the first child of the `ahead` at hand, and then starts its second child. Where it
    // can't be spawned, the `ahead` is parked again.
    fn spawn_first<T: Stepper, M: Mail, R: Wait + Sync>(
        &mut self,
        site: &Site<R, T>,
        hand: &mut Hand<Item>,
        at: AheadAt,
        taken: Taken,
        mail: &mut M,
    )
        requires sync { IsSync R.row }
        requires keeping { KeepsAtHand site.now self.old taken.from }
        requires has { HasAtHand site.now at taken None hand.old }
        requires unowned { WaitsNowhere at.name self.old }
        ensures keeping { IsKeeping site.now self.new hand.new }
        ensures stays { Stays site.now taken.from hand.new }
        ensures mail { M.keeps mail.old mail.new }
        ensures leaves { BeginsAndEnds site.now self.old self.new taken.from.me hand.new.me }
        ensures starts { SpawnsOrPutsOff site.now at taken self.old self.new hand.old hand.new }
    {
        let spawned = first_env(site, hand, at, &taken);
        let second = None;
        put_back(site, hand, at, Served { taken, second }, mail);
        let start = match spawned {
            Ok(start) => start,
            Err(AllocError) => return,
        };
        match self.spawn(site, hand, at.name, at.first, start, mail) {
            Ok(()) => begin_again(site, hand, at, mail),
            Err(fault) => drop(fault),
        }
    }

    // Starts the second child of the `ahead` at hand, once its first is spawned.
    fn begin<T: Stepper, M: Mail, R: Wait + Sync>(
        &mut self,
        site: &Site<R, T>,
        hand: &mut Hand<Item>,
        at: AheadAt,
        taken: Taken,
        mail: &mut M,
    )
        requires sync { IsSync R.row }
        requires keeping { KeepsAtHand site.now self.old taken.from }
        requires has { HasAtHand site.now at taken None hand.old }
        ensures keeping { IsKeeping site.now self.new hand.new }
        ensures stays { Stays site.now taken.from hand.new }
        ensures mail { M.keeps mail.old mail.new }
        ensures leaves { BeginsAndEnds site.now self.old self.new taken.from.me hand.new.me }
        ensures starts { StartsBoth site.now at taken self.old self.new hand.old hand.new }
    {
        match self.waited(at.name) {
            Some(found) => {
                let _ = found;
                begin_second(site, hand, at, taken, mail);
            }
            None => self.spawn_first(site, hand, at, taken, mail),
        }
    }

    // Completes the `ahead` at hand by what its second child, which has a value, and its first
    // child's operation came to; or parks it again, where that isn't complete.
    fn finish_both<T: Stepper, M: Mail, R: Wait + Sync>(
        &mut self,
        site: &Site<R, T>,
        hand: &mut Hand<Item>,
        at: AheadAt,
        served: Served,
        found: Found,
        mail: &mut M,
    )
        requires sync { IsSync R.row }
        requires keeping { KeepsAtHand site.now self.old served.taken.from }
        requires has { HasAtHand site.now at served.taken served.second hand.old }
        requires found { IsFoundAt at.name self.old found }
        ensures keeping { IsKeeping site.now self.new hand.new }
        ensures stays { Stays site.now served.taken.from hand.new }
        ensures mail { M.keeps mail.old mail.new }
        ensures leaves { BeginsAndEnds site.now self.old self.new served.taken.from.me hand.new.me }
        ensures ends { AwaitsOrJoins site.now at served self.old self.new hand.old hand.new }
    {
        put_back(site, hand, at, served, mail);
        match self.end(site.table, hand, found.slot, found.block, site.gate) {
            Some(ended) => join_again(site, hand, at, ended, mail),
            None => {}
        }
    }

    // Completes the `ahead` at hand, whose second child has completed with this; or parks it again,
    // where its first child's operation isn't complete.
    fn finish<T: Stepper, M: Mail, R: Wait + Sync>(
        &mut self,
        site: &Site<R, T>,
        hand: &mut Hand<Item>,
        at: AheadAt,
        taken: Taken,
        parcel: Parcel,
        mail: &mut M,
    )
        requires sync { IsSync R.row }
        requires keeping { KeepsAtHand site.now self.old taken.from }
        requires has { HasAtHand site.now at taken (Some parcel) hand.old }
        ensures keeping { IsKeeping site.now self.new hand.new }
        ensures stays { Stays site.now taken.from hand.new }
        ensures mail { M.keeps mail.old mail.new }
        ensures leaves { BeginsAndEnds site.now self.old self.new taken.from.me hand.new.me }
        ensures ends { EndsBoth site.now at taken self.old self.new hand.old hand.new parcel }
    {
        if !is_value(&parcel) {
            self.abandon(at.name);
            fail_ahead(site, hand, at, taken, parcel, mail);
            return;
        }
        match self.waited(at.name) {
            Some(found) => {
                let second = Some(parcel);
                let served = Served { taken, second };
                self.finish_both(site, hand, at, served, found, mail);
            }
            None => {
                drop(parcel);
                give_up(site, hand, at, taken, mail);
            }
        }
    }

    /// Serves an `ahead`, where it is parked. False only where its word that was read didn't say
    /// so; and then the call moved no word.
    pub(crate) fn serve<T: Stepper, M: Mail, R: Wait + Sync>(
        &mut self,
        site: &Site<R, T>,
        hand: &mut Hand<Item>,
        at: AheadAt,
        mail: &mut M,
    ) -> bool
        requires sync { IsSync R.row }
        requires keeping { IsKeeping site.now self.old hand.old }
        requires site { IsSite site.now }
        requires node { IsAheadIn site.now at }
        requires place { IsPlaceIn site.now at.name }
        ensures keeping { IsKeeping site.now self.new hand.new }
        ensures stays { Stays site.now hand.old hand.new }
        ensures mail { M.keeps mail.old mail.new }
        ensures leaves { BeginsAndEnds site.now self.old self.new hand.old.me hand.new.me }
        ensures served { OnTrue result
            (ServesAhead site.now at self.old self.new hand.old hand.new) }
        ensures taken { OnTrue result
            (TakesParked site.now at.name hand.old.me hand.new.me) }
        ensures slots { OnFalse result (self.new ≡ self.old) }
        ensures missed { OnFalse result (MissesAhead site.now at hand.old.me hand.new.me) }
    {
        match take_ahead(site, hand, at) {
            None => false,
            Some(served) => {
                let Served { taken, second } = served;
                match second {
                    None => self.begin(site, hand, at, taken, mail),
                    Some(parcel) => self.finish(site, hand, at, taken, parcel, mail),
                }
                true
            }
        }
    }
}
