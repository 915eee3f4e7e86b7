//! How a scope is joined where no work was begun.
ghost use Rattle.table_steps.specs.Views.{IsHandOf, Stays, knows};
ghost use Rattle.record_operations.specs.Ends.{HasJoined};
ghost use Rattle.run_workers.specs.Crews.{IsSpare};
ghost use Rattle.whole_run.specs.Keeps.{KeepsView};

use count_scope::{JoinStart, close, is_joined, start_join};
use exec_recv::Item;
use op_table::{Hand, OpTable};
use std::sync::Wait;
use std::thread::yield_now;

// Waits until the scope is joined.
fn wait_joined<R: Wait>(rt: &R, table: &OpTable<Item>, hand: &mut Hand<Item>)
    requires hand { IsHandOf table.now hand.old }
    ensures stays { Stays table.now hand.old hand.new }
    ensures keeps { KeepsView hand.old.me hand.new.me }
    ensures joined { HasJoined (knows hand.new) }
{
    for _ in rt.forever() {
        if is_joined(table, hand) {
            return;
        }
        yield_now();
    }
    unreachable!()
}

// Closes the scope and joins it (P3149, [exec.counting.scopes]).
fn join_now<R: Wait>(rt: &R, table: &OpTable<Item>, hand: &mut Hand<Item>)
    requires hand { IsHandOf table.now hand.old }
    ensures stays { Stays table.now hand.old hand.new }
    ensures keeps { KeepsView hand.old.me hand.new.me }
    ensures joined { HasJoined (knows hand.new) }
{
    close(table, hand);
    match start_join(table, hand) {
        JoinStart::Joined => {}
        JoinStart::Waiting => wait_joined(rt, table, hand),
    }
}

/// Closes and joins the scope on a spare hand, where its work can't be begun: else workers never
/// end.
pub(crate) fn join_idle<R: Wait>(rt: &R, table: &OpTable<Item>, hand: Hand<Item>) -> Hand<Item>
    requires spare { IsSpare table.now hand }
    ensures spare { IsSpare table.now result }
    ensures joined { HasJoined (knows result) }
{
    let mut last = hand;
    join_now(rt, table, &mut last);
    last
}
