//! Hands of one table, each in a thread of its own, associate and leave. One closes and joins.
ghost use Rattle.std.specs.Prelude.{All};
ghost use Rattle.table_use.specs.Members.{MayAssociate};

use super::opening::{members, next_of};
use count_scope::ScopeState;
use std::test::Fail;
use std::thread::{Threads, for_each_mut};
use table_use::{Table, Worker, join_now, look, pass, shut};

// So often each hand associates and leaves.
const PASSES: u32 = 1_000;

// Each hand associates and leaves. The first one does so half as often, and then closes and joins.
fn turns(table: &Table, number: usize, hand: &mut Worker)
    requires { MayAssociate table.now hand.old }
    ensures { MayAssociate table.now hand.new }
{
    let passes = if number == 0 { PASSES / 2 } else { PASSES };
    for _turn in 0..passes {
        let _ = pass(table, hand);
    }
    if number == 0 {
        shut(table, hand);
        let _ = join_now(table, hand);
    }
}

fn turns_beside<R: Threads + Sync>(rt: &R, table: &Table, hands: &mut [Worker])
    requires { All (MayAssociate table.now) hands.old }
    ensures { All (MayAssociate table.now) hands.new }
{
    for_each_mut(rt, hands, 5, &|number, hand| turns(table, number, hand));
}

// Whether one of them finds the scope joined, with no association.
fn finds_it_joined(table: &Table, hands: &mut Vec<Worker>) -> bool
    requires { All (MayAssociate table.now) hands.old.items }
{
    match next_of(table, hands) {
        Ok(mut hand) => {
            let state = look(table, &mut hand);
            let count = table.scope_step(&mut hand).count;
            drop(hand);
            state == ScopeState::Joined && count == 0
        }
        Err(_) => false,
    }
}

#[test]
fn four_threads_associate_while_one_closes_and_joins(rt: HostRuntime) -> Result<(), Fail> {
    let (table, mut hands) = members(rt.alloc(), 5, 3)?;
    turns_beside(&rt, &table, hands.as_mut_slice());
    let told = finds_it_joined(&table, &mut hands);
    drop(hands);
    drop(table);
    assert!(rt; told);
    Ok(())
}
