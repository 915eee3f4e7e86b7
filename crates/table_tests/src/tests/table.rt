//! What a new table tells and leaves, and two hands of one table, each in a thread of its own.
ghost use Rattle.std.specs.Prelude.{◌<◌};
ghost use Rattle.table_steps.specs.Views.{IsHandOf};
ghost use Rattle.table_tests.specs.Ready.{IsUse};

use super::opening::{STEP, shared, use_nodes};
use life_rules::{Name, ScopeState};
use node_tree::ScopeKind;
use op_table::{Cargo, Closing};
use std::test::Fail;
use std::thread::{Threads, join};
use table_use::{Table, Worker};

// Whether the table and its hands are those that were asked for.
fn is_as_opened(table: &Table, hands: usize) -> bool {
    let (kind, size) = (table.kind(), table.tree().size());
    table.blocks() == 3 && table.most() == 5 && hands == 2 && kind == ScopeKind::Simple && size == 4
}

// Whether it was closed as it was opened.
fn is_as_new<P: Cargo>(closing: &Closing<P>) -> bool {
    closing.free() == 3 && closing.retired() == 0 && closing.scope() == ScopeState::Unused
}

#[test]
fn a_table_tells_with_what_it_was_opened_and_leaves_all_blocks_free(
    rt: HostRuntime,
) -> Result<(), Fail> {
    let tree = use_nodes(rt.alloc())?;
    let (table, hands) = Table::open(rt.alloc(), &tree, &STEP, 3, 2, ScopeKind::Simple, 5)?;
    drop(tree);
    let told = is_as_opened(&table, hands.len());
    let closing = table.close_table(hands);
    assert!(rt; told);
    assert!(rt; is_as_new(&closing));
    Ok(())
}

// The hand owes the root of the block that it claimed, whose callback it doesn't run.
fn owes_root(table: &Table, hand: &mut Worker, block: u32) -> bool
    requires table { IsHandOf table.now hand.old }
    requires block { block < table.now.frame.layout.blocks }
{
    let _claimed = table.claim(hand, block);
    let root = Name {
        block,
        generation: 0,
        node: 3,
    };
    match table.owed(hand) {
        Some(name) => name == root && !table.runs(hand, name),
        None => false,
    }
}

// It owed nothing before, and another hand owes nothing after it.
fn owes_it_alone(table: &Table, hand: &mut Worker, other: &Worker) -> bool
    requires hand { IsHandOf table.now hand.old }
    requires other { IsHandOf table.now other.now }
    requires over { IsUse table.now 3 }
{
    let before = table.owed(hand).is_none();
    let owes = owes_root(table, hand, 1);
    before && owes && table.owed(other).is_none()
}

#[test]
fn a_hand_that_claims_a_block_owes_its_root_and_runs_nothing(rt: HostRuntime) -> Result<(), Fail> {
    let (table, mut first, second) = shared(rt.alloc(), 3)?;
    let told = owes_it_alone(&table, &mut first, &second);
    drop(first);
    drop(second);
    drop(table);
    assert!(rt; told);
    Ok(())
}

// Claims each block that is free when the hand comes to it, and counts them.
fn claim_each(table: &Table, mut hand: Worker) -> u32
    requires { IsHandOf table.now hand }
{
    let mut claimed = 0u32;
    for block in 0..table.blocks() {
        if table.claim(&mut hand, block).is_some() {
            claimed = claimed.wrapping_add(1);
        }
    }
    claimed
}

// The same by two hands, each in a thread of its own.
fn claim_beside<R: Threads>(rt: &R, table: &Table, first: Worker, second: Worker) -> (u32, u32)
    requires { IsHandOf table.now first × IsHandOf table.now second }
{
    join(
        rt,
        || claim_each(table, first),
        || claim_each(table, second),
    )
}

#[test]
fn two_threads_claim_each_block_once(rt: HostRuntime) -> Result<(), Fail> {
    let (table, first, second) = shared(rt.alloc(), 64)?;
    let (a, b) = claim_beside(&rt, &table, first, second);
    drop(table);
    assert!(rt; a.wrapping_add(b) == 64);
    Ok(())
}
