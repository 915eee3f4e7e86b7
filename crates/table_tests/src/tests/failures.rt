//! Operations whose leaf fails, one after another.
ghost use Rattle.table_steps.specs.Views.{IsHandOf};
ghost use Rattle.table_use.specs.Uses.{IsIdle};
ghost use Rattle.table_tests.specs.Ready.{IsUse};

use super::opening::{STEP, alone};
use life_rules::Name;
use std::test::Fail;
use table_use::{Fault, Heard, Table, Worker, fails};

fn place(block: u32, node: u32) -> Name {
    Name {
        block,
        generation: 0,
        node,
    }
}

// What happens to an operation of this block: the failure is the first that is told, and comes to
// the branch and, from inside the branch's callback, to the twig.
fn expected(block: u32) -> Heard {
    Heard {
        root: place(block, 3),
        first: true,
        ran: (place(block, 2), place(block, 1)),
    }
}

// Whether the next operation takes this block, and its failure is heard as expected.
fn is_heard(table: &Table, hand: &mut Worker, block: u32) -> bool
    requires table { IsHandOf table.now hand.old }
    requires over { IsUse table.now 2 }
    requires idle { IsIdle hand.old.me }
    ensures table { IsHandOf table.now hand.new }
    ensures idle { IsIdle hand.new.me }
{
    match fails(table, hand, STEP, 0) {
        Ok(heard) => heard == expected(block),
        Err(_) => false,
    }
}

// Whether no block is left for another.
fn finds_no_block(table: &Table, hand: &mut Worker) -> bool
    requires table { IsHandOf table.now hand.old }
    requires over { IsUse table.now 2 }
    requires idle { IsIdle hand.old.me }
{
    matches!(fails(table, hand, STEP, 0), Err(Fault::NoBlock))
}

#[test]
fn a_failure_comes_to_the_branch_and_from_there_to_the_twig(rt: HostRuntime) -> Result<(), Fail> {
    let (table, mut hand) = alone(rt.alloc(), 2)?;
    let first = is_heard(&table, &mut hand, 0);
    let second = is_heard(&table, &mut hand, 1);
    let full = finds_no_block(&table, &mut hand);
    drop(hand);
    drop(table);
    assert!(rt; first && second && full);
    Ok(())
}
