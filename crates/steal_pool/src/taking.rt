//! How a worker takes a node by the names that its backend and its deck hand out.
ghost use Rattle.std.specs.Prelude.{◌≡◌, ◌+◌, ◌≤◌, true, false, IfSome, IfNone};
ghost use Rattle.std.specs.Thread.{IsSync};
ghost use Rattle.life_rules.specs.declared.event.Resting.TheVariants.{Pool};
ghost use Rattle.table_steps.specs.Views.{IsHandOf, IsPlaceIn, Stays, knows};
ghost use Rattle.exec_recv.specs.Asides.{KeepsAside};
ghost use Rattle.exec_recv.specs.Sites.{IsSite};
ghost use Rattle.node_walks.specs.Resting.{IsAtRest};
ghost use Rattle.node_walks.specs.Since.{OnlyLooks};
ghost use Rattle.node_walks.specs.Serving.{ServesNode};
ghost use Rattle.deck_relay.specs.Desks.{KeepsDesk};

use crate::worker_mail::WorkerMail;
use exec_recv::{Item, Site, Stepper};
use life_rules::{Name, Resting};
use node_walks::serve;
use op_slot::{Hand, OpTable};
use std::sync::Wait;

// The name is of a place of the table.
fn is_place(table: &OpTable<Item>, name: Name) -> bool
    ensures { result ≡ true → IsPlaceIn table.now name }
{
    name.block < table.blocks() && name.node < table.tree().size()
}

// Serves the node of a name that was handed out. A name of no place is no hint.
fn serve_name<T: Stepper, R: Wait + Sync>(
    site: &Site<R, T>,
    hand: &mut Hand<Item>,
    offers: &mut WorkerMail,
    name: Name,
) -> bool
    requires sync { IsSync R.row }
    requires hand { IsHandOf site.now hand.old }
    requires site { IsSite site.now }
    requires rests { IsAtRest (knows hand.old) }
    ensures stays { Stays site.now hand.old hand.new }
    ensures rests { IsAtRest (knows hand.new) }
    ensures aside { KeepsAside hand.old.me hand.new.me }
    ensures served { result ≡ true →
        ServesNode T.does site.now Pool name hand.old.me hand.new.me }
    ensures looks { result ≡ false → OnlyLooks hand.old.me hand.new.me }
    ensures desk { KeepsDesk offers.old.desk offers.new.desk }
{
    if !is_place(site.table, name) {
        return false;
    }
    serve(site, hand, offers, name, Resting::Pool)
}

// The next name, where the call may ask for one more. Each that is asked for is one fewer.
fn ask<R: Wait>(rt: &R, offers: &mut WorkerMail, asks: &mut u32) -> Option<Name>
    ensures most { asks.new ≤ asks.old }
    ensures fewer { IfSome result (λ _. asks.new + 1 ≡ asks.old) }
    ensures none { asks.old ≡ 0 → offers.new ≡ offers.old }
    ensures desk { KeepsDesk offers.old.desk offers.new.desk }
{
    if *asks == 0 {
        return None;
    }
    *asks -= 1;
    offers.next(rt)
}

/// Takes the first node that it can by the names of the backend and of the deck, as long as the
/// call may ask for one more: a backend that never ends its answers doesn't hold the call. Before
/// it goes on with a node it searches no more.
pub fn take_next<T: Stepper, R: Wait + Sync>(
    site: &Site<R, T>,
    hand: &mut Hand<Item>,
    offers: &mut WorkerMail,
    asks: &mut u32,
) -> Option<Name>
    requires sync { IsSync R.row }
    requires hand { IsHandOf site.now hand.old }
    requires site { IsSite site.now }
    requires rests { IsAtRest (knows hand.old) }
    ensures stays { Stays site.now hand.old hand.new }
    ensures rests { IsAtRest (knows hand.new) }
    ensures aside { KeepsAside hand.old.me hand.new.me }
    ensures most { asks.new ≤ asks.old }
    ensures served { IfSome result (λ name.
        ServesNode T.does site.now Pool name hand.old.me hand.new.me) }
    ensures looks { IfNone result (OnlyLooks hand.old.me hand.new.me) }
    ensures desk { KeepsDesk offers.old.desk offers.new.desk }
{
    'asked: while let Some(name) = ask(site.rt, offers, asks) {
        offers.get_up();
        if serve_name(site, hand, offers, name) {
            return Some(name);
        }
    }
    None
}
