//! How a worker works.
ghost use Rattle.std.specs.Prelude.{◌≡◌, ◌≤◌};
ghost use Rattle.std.specs.Thread.{IsSync};
ghost use Rattle.table_steps.specs.Views.{IsHandOf, IsSameHand, Stays, knows};
ghost use Rattle.exec_recv.specs.Asides.{KeepsAside};
ghost use Rattle.exec_recv.specs.Sites.{IsSite};
ghost use Rattle.node_walks.specs.Resting.{IsAtRest};
ghost use Rattle.deck_relay.specs.Desks.{KeepsDesk};
ghost use Rattle.steal_pool.specs.Works.{IsReady, WorksOn};

use crate::searching::search;
use crate::taking::take_next;
use crate::worker::Worker;
use crate::worker_mail::WorkerMail;
use exec_recv::{Item, Site, Stepper};
use life_rules::Name;
use op_slot::{Hand, OpTable};
use std::sync::Wait;

/// What a worker did.
#[derive(Clone, Copy, Debug, PartialEq, Eq)]
pub enum Worked {
    /// It took this node, and went on with it until its hand was at rest.
    Took(Name),
    /// It found no node ready in the pool.
    Idle,
}

/// How many names one call may ask for: as many as the table has places.
pub fn places_of(table: &OpTable<Item>) -> u32 {
    table.blocks().saturating_mul(table.tree().size())
}

// Takes the first node that is ready in the pool, whatever the backend does.
fn take_any<T: Stepper, R: Wait + Sync>(
    site: &Site<R, T>,
    hand: &mut Hand<Item>,
    offers: &mut WorkerMail,
) -> Worked
    requires sync { IsSync R.row }
    requires hand { IsHandOf site.now hand.old }
    requires site { IsSite site.now }
    requires rests { IsAtRest (knows hand.old) }
    ensures stays { Stays site.now hand.old hand.new }
    ensures rests { IsAtRest (knows hand.new) }
    ensures aside { KeepsAside hand.old.me hand.new.me }
    ensures works { WorksOn T.does site.now result hand.old hand.new }
    ensures desk { KeepsDesk offers.old.desk offers.new.desk }
{
    let mut found = false;
    match search(site, hand, offers, false, &mut found) {
        Some(name) => Worked::Took(name),
        None => Worked::Idle,
    }
}

// Submits the names of nodes that are ready in the pool, and takes one of them: by the names of the
// backend, as many as the call may still ask for, and where it gives none by a further look.
fn seek<T: Stepper, R: Wait + Sync>(
    site: &Site<R, T>,
    hand: &mut Hand<Item>,
    offers: &mut WorkerMail,
    asks: &mut u32,
) -> Worked
    requires sync { IsSync R.row }
    requires hand { IsHandOf site.now hand.old }
    requires site { IsSite site.now }
    requires rests { IsAtRest (knows hand.old) }
    ensures stays { Stays site.now hand.old hand.new }
    ensures rests { IsAtRest (knows hand.new) }
    ensures aside { KeepsAside hand.old.me hand.new.me }
    ensures most { asks.new ≤ asks.old }
    ensures works { WorksOn T.does site.now result hand.old hand.new }
    ensures desk { KeepsDesk offers.old.desk offers.new.desk }
{
    let mut found = false;
    match search(site, hand, offers, true, &mut found) {
        Some(name) => return Worked::Took(name),
        None => {}
    }
    if !found {
        return Worked::Idle;
    }
    match take_next(site, hand, offers, asks) {
        Some(name) => return Worked::Took(name),
        None => {}
    }
    take_any(site, hand, offers)
}

impl Worker {
    /// Takes one node that is ready in the pool, and goes on with it until the hand is at rest: by
    /// a name of the backend, which is submitted those of the deck; else by a look at each node of
    /// the table, by which the names of those that are ready are submitted. Took tells the node,
    /// which this hand took in this call, and the stepper stepped. Idle only where the word
    /// of each node but the roots, at its own step of this call, said that it isn't ready in the
    /// pool, and it moved no word. It asks for at most as many names as the table has places.
    ///
    /// Step: those of `take` for each name; one load of each node's word; and those of the steps of
    /// the node.
    /// Needs: the hand is one of the table's, and at rest. The table is over the stepper's plan,
    /// whose kinds match.
    /// Afterwards: so it is still. All else that its view says is as before, but for requests that
    /// it has seen and the list of its steps. The worker's desk is the same.
    pub fn work_once<T: Stepper, R: Wait + Sync>(&mut self, site: &Site<R, T>) -> Worked
        requires sync { IsSync R.row }
        requires ready { IsReady site.now self.old.hand }
        requires site { IsSite site.now }
        ensures ready { IsReady site.now self.new.hand }
        ensures same { IsSameHand self.old.hand self.new.hand }
        ensures aside { KeepsAside self.old.hand.me self.new.hand.me }
        ensures works { WorksOn T.does site.now result self.old.hand self.new.hand }
        ensures desk { KeepsDesk self.old.offers.desk self.new.offers.desk }
    {
        let mut asks = places_of(site.table);
        match take_next(site, &mut self.hand, &mut self.offers, &mut asks) {
            Some(name) => return Worked::Took(name),
            None => {}
        }
        seek(site, &mut self.hand, &mut self.offers, &mut asks)
    }
}
