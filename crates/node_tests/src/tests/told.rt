//! A loop takes the nodes that it was told of in the order in which it was told.
ghost use Rattle.std.specs.Thread.{IsSync};
ghost use Rattle.plan_kinds.specs.Runnable.{IsRunnable};
ghost use Rattle.exec_recv.specs.Sites.{IsSite};
ghost use Rattle.run_loop.specs.Loops.{IsReady};

use super::{MOST_TURNS, looping, plan_of, turns_of};
use exec_recv::{Gate, Point};
use life_rules::Name;
use node_stepper::NodeSteps;
use node_tree::Context;
use op_table::OpTable;
use plan_shape::Plan;
use run_loop::{Item, Loop, Site, Stepper};
use std::alloc::Global;
use std::process::Abort;
use std::sync::Wait;
use std::sync::atomic::{AtomicU64, Ordering};

/// Two children, each of which waits in the loop.
const ROOT: &str =
    r#"{"do":"when_all","children":[{"do":"starts_on","on":"loop","child":{"do":"input"}},
            {"do":"starts_on","on":"loop","child":{"do":"input"}}]}"#;

/// The nodes that wait there.
const FIRST: u32 = 1;

const SECOND: u32 = 3;

/// A gate that keeps the numbers of the nodes that the loop tries to take, a digit each.
#[derive(Drop)]
struct Tries {
    nodes: AtomicU64,
}

impl Gate for Tries {
    fn pass(&self, point: Point) {
        if let Point::Take(name) = point {
            let before = self.nodes.load(Ordering::SeqCst);
            let after = before.wrapping_mul(10).wrapping_add(name.node as u64);
            self.nodes.store(after, Ordering::SeqCst);
        }
    }
}

// Tells the loop of this node of the first operation in block 0.
fn tells<R: Wait + Sync>(rt: &R, table: &OpTable<Item>, looped: &mut Loop, node: u32)
    requires sync { IsSync R.row }
    requires ready { IsReady table.now looped.old }
    ensures { IsReady table.now looped.new }
{
    let _ = table;
    let name = Name {
        block: 0,
        generation: 0,
        node,
    };
    looped.tell(rt, name, Context::Loop);
}

// Whether the plan's operation is started and can be collected after some turns.
fn ends<T: Stepper, R: Wait + Sync>(site: &Site<R, T>, looped: &mut Loop) -> bool
    requires sync { IsSync R.row }
    requires ready { IsReady site.now looped.old }
    requires site { IsSite site.now }
{
    match turns_of(site, looped, false) {
        Some(turns) => turns < MOST_TURNS,
        None => false,
    }
}

// The numbers of the nodes that the loop tries to take, where it was told of these two before they
// were ready, and is told of each again when it is. None where the operation didn't end.
fn tried_over<R: Wait + Sync>(
    rt: &R,
    alloc: Global,
    plan: &Plan,
    before: u32,
    behind: u32,
) -> Option<u64>
    requires sync { IsSync R.row }
    requires kinds { IsRunnable plan.now }
{
    let gate = Tries {
        nodes: AtomicU64::new(0),
    };
    let Some((table, mut looped)) = looping(alloc, plan, false) else {
        return None;
    };
    tells(rt, &table, &mut looped, before);
    tells(rt, &table, &mut looped, behind);
    let stepper = NodeSteps::of(plan, &gate);
    let site = Site::of(rt, alloc, &table, &stepper);
    let ended = ends(&site, &mut looped);
    drop(looped);
    drop(table);
    if ended {
        Some(gate.nodes.load(Ordering::SeqCst))
    } else {
        None
    }
}

// The same over a plan that is read for it.
fn tried<R: Wait + Sync>(rt: &R, alloc: Global, before: u32, behind: u32) -> Option<u64>
    requires sync { IsSync R.row }
{
    let Some(plan) = plan_of(alloc, ROOT) else {
        return None;
    };
    let nodes = tried_over(rt, alloc, &plan, before, behind);
    drop(plan);
    nodes
}

// Asserts of each two nodes that the loop tries these where it was told of them.
fn all_try<R: Wait + Abort + Sync>(rt: &R, alloc: Global, cases: &[(u32, u32, u64)])
    requires sync { IsSync R.row }
{
    for case in cases {
        let nodes = tried(rt, alloc, case.0, case.1);
        assert!(rt; nodes == Some(case.2), "{}", case.2);
    }
}

#[test]
fn names_are_taken_as_they_were_told(rt: HostRuntime) {
    all_try(
        &rt,
        rt.alloc(),
        &[(FIRST, SECOND, 1313), (SECOND, FIRST, 3113)],
    );
}

#[test]
fn a_name_of_no_place_is_passed_over(rt: HostRuntime) {
    all_try(&rt, rt.alloc(), &[(4_294_967_295, SECOND, 313)]);
}
