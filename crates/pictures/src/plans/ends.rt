//! Where a node completes.
ghost use Rattle.std.specs.Prelude.{◌≡◌, IfOk};
ghost use Rattle.pictures.specs.Plans.Homes.{home_below, home_behind};
ghost use Rattle.pictures.specs.Plans.Ends.{end_of, end_of_children, end_of_all};

use crate::plans::home::{Home, either, one_home};
use plan_rules::{Node, NodeId};
use plan_shape::Plan;
use sig_check::{bodies_of, run_by};
use std::alloc::{AllocError, Global};

/// Where a node starts its children, where it is started there itself.
pub(crate) fn home_below(node: &Node, start: Home) -> Home
    ensures { result ≡ home_below node.now start }
{
    match node {
        Node::StartsOn { on, .. } => one_home(*on),
        Node::Ahead { .. } => Home::Loop,
        _ => start,
    }
}

/// Where a node completes, where all below it complete there.
fn home_behind(node: &Node, home: Home) -> Home
    ensures { result ≡ home_behind node.now home }
{
    match node {
        Node::Schedule(on) | Node::ContinuesOn { on, .. } => one_home(*on),
        Node::Delay(_) | Node::Ahead { .. } => Home::Loop,
        Node::Part { .. } => Home::Pool,
        Node::Bulk { .. } => either(home, Home::Pool),
        _ => home,
    }
}

/// Where node `number` completes, where it is started there, as far as so many steps down tell.
#[cycle(ends)]
pub(crate) fn end_of(
    alloc: Global,
    plan: &Plan,
    steps: u32,
    number: NodeId,
    start: Home,
) -> Result<Home, AllocError>
    ensures { IfOk result (λ home. home ≡ end_of plan.now.nodes steps number start) }
{
    if steps == 0 || number >= plan.size() {
        return Ok(start);
    }
    let node = plan.node(number);
    let children = run_by(alloc, node)?;
    let own = end_of_children(alloc, plan, steps - 1, &children, home_below(node, start))?;
    let all = end_of_all(alloc, plan, steps - 1, bodies_of(node), own, own)?;
    Ok(home_behind(node, all))
}

/// Where the children of a node complete, all started there; where there is none, that is here.
#[cycle(ends)]
pub(crate) fn end_of_children(
    alloc: Global,
    plan: &Plan,
    steps: u32,
    children: &[NodeId],
    start: Home,
) -> Result<Home, AllocError>
    ensures { IfOk result
        (λ home. home ≡ end_of_children (end_of plan.now.nodes steps) start children.now) }
{
    match children {
        [] => Ok(start),
        [first, later @ ..] => {
            let home = end_of(alloc, plan, steps, *first, start)?;
            end_of_all(alloc, plan, steps, later, start, home)
        }
    }
}

/// These contexts and those where nodes complete, all started there.
#[cycle(ends)]
fn end_of_all(
    alloc: Global,
    plan: &Plan,
    steps: u32,
    nodes: &[NodeId],
    start: Home,
    others: Home,
) -> Result<Home, AllocError>
    ensures { IfOk result
        (λ home. home ≡ end_of_all (end_of plan.now.nodes steps) start others nodes.now) }
{
    let mut home = others;
    for node in nodes {
        home = either(home, end_of(alloc, plan, steps, *node, start)?);
    }
    Ok(home)
}
