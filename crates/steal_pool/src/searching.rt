//! A worker's look at each node of the table, but roots.
ghost use Rattle.std.specs.Prelude.{◌≡◌, ◌<◌, false, IfSome, IfNone};
ghost use Rattle.std.specs.Thread.{IsSync};
ghost use Rattle.life_rules.specs.declared.event.Resting.TheVariants.{Pool};
ghost use Rattle.table_steps.specs.Views.{IsHandOf, Stays, knows};
ghost use Rattle.exec_recv.specs.Asides.{KeepsAside};
ghost use Rattle.exec_recv.specs.Sites.{IsSite};
ghost use Rattle.node_walks.specs.Resting.{IsAtRest};
ghost use Rattle.node_walks.specs.Since.{OnlyLooks};
ghost use Rattle.node_walks.specs.Serving.{ServesNode};
ghost use Rattle.deck_relay.specs.Desks.{KeepsDesk};
ghost use Rattle.steal_pool.specs.Works.{FindsNode, FindsBlock, FindsAny};

use crate::worker_mail::WorkerMail;
use exec_recv::{Item, Site, Stepper};
use life_rules::Name;
use node_tree::Context;
use node_walks::serve_place;
use op_slot::Hand;
use std::sync::Wait;

// Looks at the node of the block. Where it is ready in the pool, its name is submitted, or the node
// is taken at once: where names aren't to be submitted, or it was handed back.
fn look_at<T: Stepper, R: Wait + Sync>(
    site: &Site<R, T>,
    hand: &mut Hand<Item>,
    offers: &mut WorkerMail,
    submits: bool,
    found: &mut bool,
    block: u32,
    node: u32,
) -> Option<Name>
    requires sync { IsSync R.row }
    requires hand { IsHandOf site.now hand.old }
    requires site { IsSite site.now }
    requires block { block < site.now.frame.layout.blocks }
    requires node { node < site.now.frame.layout.nodes }
    requires rests { IsAtRest (knows hand.old) }
    ensures stays { Stays site.now hand.old hand.new }
    ensures rests { IsAtRest (knows hand.new) }
    ensures aside { KeepsAside hand.old.me hand.new.me }
    ensures served { IfSome result (λ name.
        ServesNode T.does site.now Pool name hand.old.me hand.new.me) }
    ensures none { IfNone result
        (FindsNode site.now hand.old.me hand.new.me block node found.old found.new) }
    ensures looks { IfNone result (OnlyLooks hand.old.me hand.new.me) }
    ensures still { submits ≡ false → found.new ≡ found.old }
    ensures desk { KeepsDesk offers.old.desk offers.new.desk }
{
    match site.table.ready_at(hand, block, node, Context::Pool) {
        None => None,
        Some(name) => {
            if offers.submit_where(site.rt, submits, name) {
                *found = true;
                return None;
            }
            offers.get_up();
            serve_place(site, hand, offers, block, node, Context::Pool)
        }
    }
}

// Looks at the nodes of the block, until it took one. The root has the greatest number: it is never
// ready in the pool.
fn search_block<T: Stepper, R: Wait + Sync>(
    site: &Site<R, T>,
    hand: &mut Hand<Item>,
    offers: &mut WorkerMail,
    submits: bool,
    found: &mut bool,
    block: u32,
) -> Option<Name>
    requires sync { IsSync R.row }
    requires hand { IsHandOf site.now hand.old }
    requires site { IsSite site.now }
    requires block { block < site.now.frame.layout.blocks }
    requires rests { IsAtRest (knows hand.old) }
    ensures stays { Stays site.now hand.old hand.new }
    ensures rests { IsAtRest (knows hand.new) }
    ensures aside { KeepsAside hand.old.me hand.new.me }
    ensures served { IfSome result (λ name.
        ServesNode T.does site.now Pool name hand.old.me hand.new.me) }
    ensures none { IfNone result
        (FindsBlock site.now hand.old.me hand.new.me block found.old found.new) }
    ensures looks { IfNone result (OnlyLooks hand.old.me hand.new.me) }
    ensures still { submits ≡ false → found.new ≡ found.old }
    ensures desk { KeepsDesk offers.old.desk offers.new.desk }
{
    let size = site.table.tree().size();
    for node in 0..size - 1 {
        match look_at(site, hand, offers, submits, found, block, node) {
            Some(name) => return Some(name),
            None => {}
        }
    }
    None
}

/// Looks at each node of the table but the roots, until it took one. It submits the names of those
/// that are ready in the pool, where they are to be submitted, and says so.
pub fn search<T: Stepper, R: Wait + Sync>(
    site: &Site<R, T>,
    hand: &mut Hand<Item>,
    offers: &mut WorkerMail,
    submits: bool,
    found: &mut bool,
) -> Option<Name>
    requires sync { IsSync R.row }
    requires hand { IsHandOf site.now hand.old }
    requires site { IsSite site.now }
    requires rests { IsAtRest (knows hand.old) }
    ensures stays { Stays site.now hand.old hand.new }
    ensures rests { IsAtRest (knows hand.new) }
    ensures aside { KeepsAside hand.old.me hand.new.me }
    ensures served { IfSome result (λ name.
        ServesNode T.does site.now Pool name hand.old.me hand.new.me) }
    ensures none { IfNone result
        (FindsAny site.now hand.old.me hand.new.me found.old found.new) }
    ensures looks { IfNone result (OnlyLooks hand.old.me hand.new.me) }
    ensures still { submits ≡ false → found.new ≡ found.old }
    ensures desk { KeepsDesk offers.old.desk offers.new.desk }
{
    for block in 0..site.table.blocks() {
        match search_block(site, hand, offers, submits, found, block) {
            Some(name) => return Some(name),
            None => {}
        }
    }
    None
}
