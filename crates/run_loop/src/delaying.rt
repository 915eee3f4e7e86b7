//! How a loop sees the parked delays of the plan, and takes those that are due.
ghost use Rattle.std.specs.Prelude.{◌≡◌, ◌<◌, ◌≤◌, length};
ghost use Rattle.std.specs.Thread.{IsSync};
ghost use Rattle.deck_relay.specs.SameDecks.{KeepsDeck};
ghost use Rattle.timer_wheel.specs.Delays.{places};
ghost use Rattle.table_steps.specs.Views.{IsHandOf, Stays, knows};
ghost use Rattle.exec_recv.specs.Asides.{KeepsAside};
ghost use Rattle.exec_recv.specs.Over.{IsOver};
ghost use Rattle.exec_recv.specs.Sites.{IsSite};
ghost use Rattle.node_walks.specs.Resting.{IsAtRest};
ghost use Rattle.node_walks.specs.Since.{OnlyLooks};
ghost use Rattle.run_loop.specs.Delayed.{WasTriedAt, LooksAtDelay, LooksThrough, LooksBelow, TakesDue, PassesTurn};
ghost use Rattle.run_loop.specs.Delayed.{MayTakeDelay, MayTakeDue, MayTakeOf};
ghost use Rattle.run_loop.specs.DelayNodes.{IsDelayNode, AreDelaysOf, nodes_of, place_of, place_count};
ghost use Rattle.run_loop.specs.Serves.{ServesMore, moment};

use crate::delay_node::DelayNode;
use crate::loop_mail::LoopMail;
use crate::serving::one_more;
use exec_recv::{Item, Site, Stepper};
use life_rules::{Name, Resting};
use node_walks::serve;
use op_slot::{Hand, OpTable};
use std::sync::Wait;
use timer_wheel::{Delays, DueDelay};

// The number of the node's place.
fn place_at(table: &OpTable<Item>, block: u32, node: u32) -> u32
    requires over { IsOver table.now table.now.frame.over.value }
    requires block { block < table.now.frame.layout.blocks }
    requires node { node < table.now.frame.layout.nodes }
    ensures { result ≡ place_of table.now block node }
{
    // Asked for how many there are at most.
    let _ = table.blocks();
    block * table.tree().size() + node
}

// Looks at a delay of the plan in the block, and tells the list where it is parked.
fn look_at(
    table: &OpTable<Item>,
    hand: &mut Hand<Item>,
    delays: &mut Delays,
    block: u32,
    delay: DelayNode,
)
    requires hand { IsHandOf table.now hand.old }
    requires over { IsOver table.now table.now.frame.over.value }
    requires places { place_count table.now ≤ places delays.old }
    requires block { block < table.now.frame.layout.blocks }
    requires delay { IsDelayNode (nodes_of table.now) delay }
    ensures stays { Stays table.now hand.old hand.new }
    ensures looks { LooksAtDelay table.now block delay hand.old.me hand.new.me
        delays.old delays.new }
{
    let Some(name) = table.parked_at(hand, block, delay.node) else {
        return;
    };
    let place = place_at(table, block, delay.node);
    delays.saw_parked(place, name.generation, delay.turns);
}

// Looks at the delays of the plan in the block.
fn look_through(
    table: &OpTable<Item>,
    hand: &mut Hand<Item>,
    delays: &mut Delays,
    nodes: &[DelayNode],
    block: u32,
)
    requires hand { IsHandOf table.now hand.old }
    requires over { IsOver table.now table.now.frame.over.value }
    requires places { 1 ≤ length nodes.now → place_count table.now ≤ places delays.old }
    requires block { block < table.now.frame.layout.blocks }
    requires nodes { AreDelaysOf (nodes_of table.now) nodes.now }
    requires rests { IsAtRest (knows hand.old) }
    ensures stays { Stays table.now hand.old hand.new }
    ensures rests { IsAtRest (knows hand.new) }
    ensures only { OnlyLooks hand.old.me hand.new.me }
    ensures looks { LooksThrough table.now block nodes.now (length nodes.now)
        hand.old.me hand.new.me delays.old delays.new }
{
    for delay in nodes {
        look_at(table, hand, delays, block, *delay);
    }
}

// Looks at the delays of the plan in each block. Where the plan has none it reads no block.
fn look_round(
    table: &OpTable<Item>,
    hand: &mut Hand<Item>,
    delays: &mut Delays,
    nodes: &[DelayNode],
)
    requires hand { IsHandOf table.now hand.old }
    requires over { IsOver table.now table.now.frame.over.value }
    requires places { 1 ≤ length nodes.now → place_count table.now ≤ places delays.old }
    requires nodes { AreDelaysOf (nodes_of table.now) nodes.now }
    requires rests { IsAtRest (knows hand.old) }
    ensures stays { Stays table.now hand.old hand.new }
    ensures rests { IsAtRest (knows hand.new) }
    ensures only { OnlyLooks hand.old.me hand.new.me }
    ensures looks { LooksBelow table.now nodes.now table.now.frame.layout.blocks
        hand.old.me hand.new.me delays.old delays.new }
{
    if nodes.is_empty() {
        return;
    }
    for block in 0..table.blocks() {
        look_through(table, hand, delays, nodes, block);
    }
}

// Takes a delay that was due, where it is of a block of the table, and parked still. It counts it.
fn try_due<T: Stepper, R: Wait + Sync>(
    site: &Site<R, T>,
    hand: &mut Hand<Item>,
    names: &mut LoopMail,
    due: DueDelay,
    taken: u32,
) -> u32
    requires sync { IsSync R.row }
    requires hand { IsHandOf site.now hand.old }
    requires site { IsSite site.now }
    requires first { (knows hand.old).number ≡ 0 }
    requires rests { IsAtRest (knows hand.old) }
    ensures stays { Stays site.now hand.old hand.new }
    ensures rests { IsAtRest (knows hand.new) }
    ensures aside { KeepsAside hand.old.me hand.new.me }
    ensures served { ServesMore T.does site.now
        (MayTakeDelay site.now due.place due.generation) taken result
        (moment hand.old names.old) (moment hand.new names.new) }
    ensures more { taken ≤ result }
    ensures tried { WasTriedAt site.now hand.old.me hand.new.me result due.place due.generation }
    ensures deck { KeepsDeck names.old.deck names.new.deck }
{
    let nodes = site.table.tree().size();
    let name = Name {
        block: due.place / nodes,
        generation: due.generation,
        node: due.place % nodes,
    };
    if name.block >= site.table.blocks() {
        return taken;
    }
    if serve(site, hand, names, name, Resting::Parked) {
        return one_more(taken);
    }
    taken
}

// Takes the delays that are due out of the list, and goes on with each that is parked still. It
// counts what it takes.
fn take_due<T: Stepper, R: Wait + Sync>(
    site: &Site<R, T>,
    hand: &mut Hand<Item>,
    names: &mut LoopMail,
    delays: &mut Delays,
    taken: u32,
) -> u32
    requires sync { IsSync R.row }
    requires hand { IsHandOf site.now hand.old }
    requires site { IsSite site.now }
    requires first { (knows hand.old).number ≡ 0 }
    requires rests { IsAtRest (knows hand.old) }
    ensures stays { Stays site.now hand.old hand.new }
    ensures rests { IsAtRest (knows hand.new) }
    ensures aside { KeepsAside hand.old.me hand.new.me }
    ensures served { ServesMore T.does site.now
        (MayTakeOf site.now delays.old) taken result
        (moment hand.old names.old) (moment hand.new names.new) }
    ensures more { taken ≤ result }
    ensures due { TakesDue site.now result hand.old.me hand.new.me delays.old delays.new }
    ensures deck { KeepsDeck names.old.deck names.new.deck }
{
    let mut taken = taken;
    'out: while let Some(out) = delays.due() {
        taken = try_due(site, hand, names, out, taken);
    }
    taken
}

/// One turn of the delays: goes on to the next turn of the list, looks at the plan's delays in each
/// block, and takes those that are due, as far as they are parked still. It counts what it takes.
pub fn serve_delays<T: Stepper, R: Wait + Sync>(
    site: &Site<R, T>,
    hand: &mut Hand<Item>,
    names: &mut LoopMail,
    delays: &mut Delays,
    nodes: &[DelayNode],
    taken: u32,
) -> u32
    requires sync { IsSync R.row }
    requires hand { IsHandOf site.now hand.old }
    requires site { IsSite site.now }
    requires first { (knows hand.old).number ≡ 0 }
    requires rests { IsAtRest (knows hand.old) }
    requires places { 1 ≤ length nodes.now → place_count site.now ≤ places delays.old }
    requires nodes { AreDelaysOf (nodes_of site.now) nodes.now }
    ensures stays { Stays site.now hand.old hand.new }
    ensures rests { IsAtRest (knows hand.new) }
    ensures aside { KeepsAside hand.old.me hand.new.me }
    ensures served { ServesMore T.does site.now
        (MayTakeDue site.now hand.old.me hand.new.me delays.new.turn delays.old)
        taken result (moment hand.old names.old) (moment hand.new names.new) }
    ensures more { taken ≤ result }
    ensures places { places delays.new ≡ places delays.old }
    ensures turn { PassesTurn site.now hand.old.me hand.new.me result delays.old delays.new }
    ensures deck { KeepsDeck names.old.deck names.new.deck }
{
    delays.next_turn();
    look_round(site.table, hand, delays, nodes);
    take_due(site, hand, names, delays, taken)
}
