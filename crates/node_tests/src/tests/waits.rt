//! An operation for which no block is free isn't waited for.
ghost use Rattle.std.specs.Thread.{IsSync};
ghost use Rattle.plan_kinds.specs.Runnable.{IsRunnable};
ghost use Rattle.exec_recv.specs.Sites.{IsSite};
ghost use Rattle.run_loop.specs.Loops.{IsReady};

use super::{looping, plan_of, started, starts};
use exec_recv::OpenGate;
use node_stepper::NodeSteps;
use plan_shape::Plan;
use run_loop::{Loop, Site, Stepper, Waited};
use std::alloc::Global;
use std::sync::Wait;

// Starts the plan's operation in the one block, and waits for a second one. The number of the
// record whose start comes back, where no block is free for it.
fn comes_back<T: Stepper, R: Wait + Sync>(site: &Site<R, T>, looped: &mut Loop) -> Option<u32>
    requires sync { IsSync R.row }
    requires ready { IsReady site.now looped.old }
    requires site { IsSite site.now }
{
    let Some(_) = starts(site, looped, false) else {
        return None;
    };
    let Some(second) = started(site, false) else {
        return None;
    };
    match looped.sync_wait(site, second) {
        Waited::NoBlock(env) => {
            let number = env.number();
            drop(env);
            Some(number)
        }
        Waited::Completed(done) => {
            drop(done);
            None
        }
    }
}

// The same on a table of its own.
fn waits_in_vain<R: Wait + Sync>(rt: &R, alloc: Global, plan: &Plan) -> Option<u32>
    requires sync { IsSync R.row }
    requires kinds { IsRunnable plan.now }
{
    let Some((table, mut looped)) = looping(alloc, plan, false) else {
        return None;
    };
    let stepper = NodeSteps::of(plan, &OpenGate);
    let site = Site::of(rt, alloc, &table, &stepper);
    let number = comes_back(&site, &mut looped);
    drop(looped);
    drop(table);
    number
}

// The same of the plan with this root.
fn number_of<R: Wait + Sync>(rt: &R, alloc: Global, root: &str) -> Option<u32>
    requires sync { IsSync R.row }
{
    let Some(plan) = plan_of(alloc, root) else {
        return None;
    };
    let number = waits_in_vain(rt, alloc, &plan);
    drop(plan);
    number
}

#[test]
fn a_second_operation_finds_no_block(rt: HostRuntime) {
    let number = number_of(&rt, rt.alloc(), r#"{"do":"input"}"#);
    assert!(rt; number == Some(1));
}
