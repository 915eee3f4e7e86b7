//! Whole operations, on two hands of one table, each in a thread of its own.
ghost use Rattle.std.specs.Prelude.{◌≡◌, IfOk, IfSome};
ghost use Rattle.table_steps.specs.Views.{IsHandOf};
ghost use Rattle.op_slot.specs.Tends.{IsCalm};
ghost use Rattle.table_tests.specs.Ready.{IsUse, IsReady};

use super::opening::{STEP, shared};
use op_slot::claim_any;
use std::test::Fail;
use std::thread::{Threads, join};
use table_use::{Table, Worker, completes};

// So many operations, one after another. The hand comes back only where each answered for its own
// number, with the value that its start says.
fn each_answers(table: &Table, mut hand: Worker, count: u32) -> Option<Worker>
    requires table { IsHandOf table.now hand }
    requires over { IsUse table.now 2 }
    requires calm { IsCalm hand.me }
    ensures { IfSome result (λ h. IsHandOf table.now h) }
{
    for number in 0..count {
        match completes(table, &mut hand, STEP, number) {
            Ok(answer) => {
                if answer.number != number || answer.value != number as u64 + STEP as u64 {
                    return None;
                }
            }
            Err(_fault) => return None,
        }
    }
    Some(hand)
}

fn answer_beside<R: Threads>(
    rt: &R,
    table: &Table,
    first: Worker,
    second: Worker,
    count: u32,
) -> (Option<Worker>, Option<Worker>)
    requires over { IsUse table.now 2 }
    requires first { IsReady table.now 0 first }
    requires second { IsReady table.now 1 second }
    ensures { IfSome result.0 (λ h. IsHandOf table.now h) }
{
    join(
        rt,
        move || -> Option<Worker>
            requires { IsUse table.now 2 × IsReady table.now 0 first }
            ensures { IfSome result (λ h. IsHandOf table.entry.now h) }
        { each_answers(table, first, count) },
        move || -> Option<Worker>
            requires { IsUse table.now 2 × IsReady table.now 1 second }
        { each_answers(table, second, count) },
    )
}

// Claims both blocks, and adds their generations.
fn generations_of(table: &Table, hand: &mut Worker) -> Option<u32>
    requires { IsHandOf table.now hand.old }
{
    let first = claim_any(table, hand)?;
    let second = claim_any(table, hand)?;
    Some(first.generation.wrapping_add(second.generation))
}

// The same by the hand that came back, if one did.
fn generations_after(table: &Table, hand: Option<Worker>) -> Option<u32>
    requires { IfSome hand (λ h. IsHandOf table.now h) }
{
    let Some(mut hand) = hand else {
        return None;
    };
    let generations = generations_of(table, &mut hand);
    drop(hand);
    generations
}

// A hand that looks for a block begins at the first one, so both come to it at once, and neither
// finds none. A block that was given back comes back at the next generation.
#[test]
fn two_threads_take_two_blocks_through_a_thousand_generations(rt: HostRuntime) -> Result<(), Fail> {
    let (table, first, second) = shared(rt.alloc(), 2)?;
    let (first, second) = answer_beside(&rt, &table, first, second, 500);
    let generations = generations_after(&table, first);
    let both = second.is_some();
    drop(second);
    drop(table);
    assert!(rt; both && generations == Some(1000));
    Ok(())
}
