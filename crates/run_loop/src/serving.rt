//! How a node that is ready in a block is taken, and gone on with.
ghost use Rattle.std.specs.Prelude.{◌≡◌, ◌+◌, ◌-◌, ◌^◌, ◌<◌, ◌≤◌, min};
ghost use Rattle.std.specs.Thread.{IsSync};
ghost use Rattle.table_steps.specs.Views.{IsHandOf, Stays, knows};
ghost use Rattle.deck_relay.specs.SameDecks.{KeepsDeck};
ghost use Rattle.exec_recv.specs.Asides.{KeepsAside};
ghost use Rattle.exec_recv.specs.Sites.{IsSite};
ghost use Rattle.node_walks.specs.Resting.{IsAtRest};
ghost use Rattle.run_loop.specs.Serves.{MayHelp, ServesMore, moment};
ghost use Rattle.run_loop.specs.Turns.{CountsNode, WasMet};

use crate::loop_mail::LoopMail;
use exec_recv::{Item, Site, Stepper};
use node_tree::Context;
use node_walks::serve_place;
use op_slot::Hand;
use std::sync::Wait;

/// One more, as far as it can be counted.
pub fn one_more(count: u32) -> u32
    ensures some { 1 ≤ result }
    ensures one { result ≡ min (count + 1) (2 ^ 32 - 1) }
{
    if count < u32::MAX { count + 1 } else { count }
}

/// Takes the node of the block, where it is ready in the loop, or where the loop helps in the pool,
/// and counts it.
pub fn take_node<T: Stepper, R: Wait + Sync>(
    site: &Site<R, T>,
    hand: &mut Hand<Item>,
    names: &mut LoopMail,
    helps: bool,
    block: u32,
    node: u32,
    taken: u32,
) -> u32
    requires sync { IsSync R.row }
    requires hand { IsHandOf site.now hand.old }
    requires site { IsSite site.now }
    requires block { block < site.now.frame.layout.blocks }
    requires node { node < site.now.frame.layout.nodes }
    requires first { (knows hand.old).number ≡ 0 }
    requires rests { IsAtRest (knows hand.old) }
    ensures stays { Stays site.now hand.old hand.new }
    ensures rests { IsAtRest (knows hand.new) }
    ensures aside { KeepsAside hand.old.me hand.new.me }
    ensures served { ServesMore T.does site.now (MayHelp helps) taken result
        (moment hand.old names.old) (moment hand.new names.new) }
    ensures none { CountsNode site.now hand.old.me hand.new.me helps block node taken result }
    ensures met { WasMet site.now hand.old.me hand.new.me helps block node }
    ensures deck { KeepsDeck names.old.deck names.new.deck }
{
    if serve_place(site, hand, names, block, node, Context::Loop).is_some() {
        return one_more(taken);
    }
    if !helps {
        return taken;
    }
    if serve_place(site, hand, names, block, node, Context::Pool).is_some() {
        return one_more(taken);
    }
    taken
}
