//! A look at each node of the table, but roots.
ghost use Rattle.std.specs.Prelude.{◌≡◌, ◌<◌, length};
ghost use Rattle.std.specs.Thread.{IsSync};
ghost use Rattle.table_steps.specs.Views.{IsHandOf, Stays, knows};
ghost use Rattle.deck_relay.specs.SameDecks.{KeepsDeck};
ghost use Rattle.exec_recv.specs.Asides.{KeepsAside};
ghost use Rattle.exec_recv.specs.Sites.{IsSite};
ghost use Rattle.node_walks.specs.Resting.{IsAtRest};
ghost use Rattle.run_loop.specs.Serves.{MayHelp, ServesMore, moment};
ghost use Rattle.run_loop.specs.Turns.{AreMet, AreMetBelow, CountsBlock, TakesNothing};

use crate::loop_mail::LoopMail;
use crate::serving::take_node;
use exec_recv::{Item, Site, Stepper};
use op_slot::Hand;
use std::sync::Wait;

// Takes what is ready in the block. The root has the greatest number: it is left for `collect`.
fn scan_block<T: Stepper, R: Wait + Sync>(
    site: &Site<R, T>,
    hand: &mut Hand<Item>,
    names: &mut LoopMail,
    helps: bool,
    block: u32,
    taken: u32,
) -> u32
    requires sync { IsSync R.row }
    requires hand { IsHandOf site.now hand.old }
    requires site { IsSite site.now }
    requires block { block < site.now.frame.layout.blocks }
    requires first { (knows hand.old).number ≡ 0 }
    requires rests { IsAtRest (knows hand.old) }
    ensures stays { Stays site.now hand.old hand.new }
    ensures rests { IsAtRest (knows hand.new) }
    ensures aside { KeepsAside hand.old.me hand.new.me }
    ensures served { ServesMore T.does site.now (MayHelp helps) taken result
        (moment hand.old names.old) (moment hand.new names.new) }
    ensures none { CountsBlock site.now hand.old.me hand.new.me helps block taken result }
    ensures met { AreMet site.now hand.old.me hand.new.me helps block
        (length site.now.frame.tree) }
    ensures deck { KeepsDeck names.old.deck names.new.deck }
{
    let size = site.table.tree().size();
    let mut taken = taken;
    for node in 0..size - 1 {
        taken = take_node(site, hand, names, helps, block, node, taken);
    }
    taken
}

/// Takes what is ready in the loop, and where the loop helps in the pool. It counts what it takes.
pub fn scan_blocks<T: Stepper, R: Wait + Sync>(
    site: &Site<R, T>,
    hand: &mut Hand<Item>,
    names: &mut LoopMail,
    helps: bool,
) -> u32
    requires sync { IsSync R.row }
    requires hand { IsHandOf site.now hand.old }
    requires site { IsSite site.now }
    requires first { (knows hand.old).number ≡ 0 }
    requires rests { IsAtRest (knows hand.old) }
    ensures stays { Stays site.now hand.old hand.new }
    ensures rests { IsAtRest (knows hand.new) }
    ensures aside { KeepsAside hand.old.me hand.new.me }
    ensures served { ServesMore T.does site.now (MayHelp helps) 0 result
        (moment hand.old names.old) (moment hand.new names.new) }
    ensures none { result ≡ 0 → TakesNothing site.now hand.old.me hand.new.me helps }
    ensures met { AreMetBelow site.now hand.old.me hand.new.me helps
        site.now.frame.layout.blocks }
    ensures deck { KeepsDeck names.old.deck names.new.deck }
{
    let mut taken = 0;
    for block in 0..site.table.blocks() {
        taken = scan_block(site, hand, names, helps, block, taken);
    }
    taken
}
