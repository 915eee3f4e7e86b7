//! How a root that is ready in the loop is ended: its item comes out, and its block is given back.
ghost use Rattle.std.specs.Prelude.{◌≡◌, ◌<◌, true, false, None, IfSome, IfNone};
ghost use Rattle.life_rules.specs.declared.words.CallbackPhase.TheVariants.{Armed, Running};
ghost use Rattle.table_steps.specs.Views.{IsHandOf, IsPlaceIn, Stays, knows};
ghost use Rattle.table_steps.specs.Callbacks.{is_registered};
ghost use Rattle.table_steps.specs.Finishes.{is_settled};
ghost use Rattle.exec_recv.specs.Over.{IsOver};
ghost use Rattle.node_walks.specs.Resting.{IsAtRest};
ghost use Rattle.node_walks.specs.Emptied.{HasEmptyRoot, IsSettledIn, SettlesRoot, IsOut, IsGivenBack, IsRootEmptied, WasNotReady};

use exec_recv::{Gate, Item, Point};
use life_rules::{CallbackPhase, Name};
use node_tree::Context;
use op_slot::{Block, Hand, OpTable, release, take_home};
use stop_calls::{Withdrawn, try_withdraw};

// A callback that was read so may run still.
fn may_run(phase: CallbackPhase) -> bool
    ensures yes { result ≡ true → is_registered phase ≡ true }
    ensures no { result ≡ false → is_settled phase ≡ true }
{
    matches!(phase, CallbackPhase::Armed | CallbackPhase::Running)
}

// Removes the root's callback, where it is registered. A receiver node registers none, and hand 0
// alone runs callbacks under the scope: so this doesn't wait.
#[inline(always)]
fn settle_root(table: &OpTable<Item>, hand: &mut Hand<Item>, root: Name)
    requires hand { IsHandOf table.now hand.old }
    requires place { IsPlaceIn table.now root }
    requires empty { HasEmptyRoot table.now root hand.old.me }
    ensures stays { Stays table.now hand.old hand.new }
    ensures settles { SettlesRoot table.now root hand.old.me hand.new.me }
{
    if !may_run(table.phase_of(hand, root)) {
        return;
    }
    match try_withdraw(table, hand, root) {
        Withdrawn::NeverRan => {}
        Withdrawn::Ran => {}
        Withdrawn::OwnHand => unreachable!(),
        Withdrawn::Running => unreachable!(),
    }
}

// Takes the block's root, and takes out what lies in its home. None only where the root wasn't
// ready in the loop.
#[inline(always)]
fn take_root(table: &OpTable<Item>, hand: &mut Hand<Item>, block: Block) -> Option<Item>
    requires hand { IsHandOf table.now hand.old }
    requires over { IsOver table.now table.now.frame.over.value }
    requires first { (knows hand.old).number ≡ 0 }
    requires rests { IsAtRest (knows hand.old) }
    requires block { block.index < table.now.frame.layout.blocks }
    ensures stays { Stays table.now hand.old hand.new }
    ensures none { IfNone result (WasNotReady table.now block hand.old.me hand.new.me) }
    ensures out { IfSome result (IsOut table.now block hand.old.me hand.new.me) }
{
    let root = table.root(block);
    if !table.take(hand, root, Context::Loop) {
        return None;
    }
    take_home(table, hand, root)
}

// Finishes the block's root, whose callback is settled, and gives the block back.
#[inline(always)]
fn give_back<G: Gate>(table: &OpTable<Item>, hand: &mut Hand<Item>, block: Block, gate: &G)
    requires hand { IsHandOf table.now hand.old }
    requires block { block.index < table.now.frame.layout.blocks }
    requires settled { IsSettledIn table.now block hand.old.me }
    ensures stays { Stays table.now hand.old hand.new }
    ensures given { IsGivenBack table.now block hand.old.me hand.new.me }
{
    let root = table.root(block);
    table.finish(hand, root);
    gate.pass(Point::Release(block));
    release(table, hand, block);
}

/// Takes the block's root, takes out what lies in its home, finishes it and gives the block back.
/// None only where the root wasn't ready in the loop. The gate is passed just before the release.
#[inline(always)]
pub(crate) fn empty_root<G: Gate>(
    table: &OpTable<Item>,
    hand: &mut Hand<Item>,
    block: Block,
    gate: &G,
) -> Option<Item>
    requires hand { IsHandOf table.now hand.old }
    requires over { IsOver table.now table.now.frame.over.value }
    requires first { (knows hand.old).number ≡ 0 }
    requires rests { IsAtRest (knows hand.old) }
    requires block { block.index < table.now.frame.layout.blocks }
    ensures stays { Stays table.now hand.old hand.new }
    ensures none { IfNone result (WasNotReady table.now block hand.old.me hand.new.me) }
    ensures emptied { IfSome result (IsRootEmptied table.now block hand.old.me hand.new.me) }
{
    let item = take_root(table, hand, block)?;
    settle_root(table, hand, table.root(block));
    give_back(table, hand, block, gate);
    Some(item)
}
