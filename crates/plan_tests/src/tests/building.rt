//! The limits of plans are shown by tests/cases/, which the program runs. Here stands what no plan
//! file can ask for, and the tree of a plan.
use super::{OF_VERSION_1, finished, finished_in_1};
use exec_job::Job;
use exec_value::{Data, Datum, Kind, Txt};
use plan_builder::{BuildFault, Built, Context, Node, NodeId, Plan, PlanBuilder, Query};
use std::alloc::Global;
use std::test::Fail;

// Whether a new builder tells of each child that it can't take. The children here are one that is
// named twice, and one that there isn't.
fn tells_of_children(builder: &mut PlanBuilder, twice: Vec<NodeId>) -> bool {
    let input = matches!(builder.input(), Ok(0));
    let twice = matches!(builder.when_all(twice), Err(BuildFault::UsedChild(0)));
    let bulk = matches!(builder.bulk(0, Job::Add(1)), Ok(9));
    let then = matches!(builder.then(0, Job::Neg), Err(BuildFault::UsedChild(0)));
    let unstoppable = matches!(builder.unstoppable(8), Err(BuildFault::UsedChild(8)));
    input && twice && bulk && then && unstoppable
}

#[test]
fn a_child_that_cant_be_taken_is_told(rt: HostRuntime) -> Result<(), Fail> {
    let twice = Vec::from_slice(rt.alloc(), &[0, 7, 0])?;
    let mut builder = PlanBuilder::new(rt.alloc());
    let told = tells_of_children(&mut builder, twice);
    drop(builder);
    assert!(rt; told);
    Ok(())
}

// Two senders without a parent, and an `ahead`.
fn loose(builder: &mut PlanBuilder) -> Built {
    builder.input()?;
    builder.just_stopped()?;
    let first = builder.input()?;
    let second = builder.input()?;
    builder.ahead(first, second)
}

// Why they are no plan with this root.
fn fault_of_root(alloc: Global, root: NodeId) -> Option<BuildFault> {
    let mut builder = PlanBuilder::new(alloc);
    match loose(&mut builder) {
        Ok(_) => builder.finish(root, OF_VERSION_1).err(),
        Err(fault) => {
            drop(builder);
            Some(fault)
        }
    }
}

#[test]
fn the_first_cause_against_a_plan_is_told(rt: HostRuntime) {
    let alloc = rt.alloc();
    let used = matches!(fault_of_root(alloc, 3), Some(BuildFault::UsedChild(3)));
    let first = matches!(fault_of_root(alloc, 4), Some(BuildFault::Loose(0)));
    let second = matches!(fault_of_root(alloc, 0), Some(BuildFault::Loose(1)));
    assert!(rt; used && first && second);
}

// A `when_all` ahead of a bulk.
fn ahead(alloc: Global, builder: &mut PlanBuilder) -> Built {
    let a = builder.input()?;
    let b = builder.read_env(Query::Record)?;
    let all = builder.when_all(Vec::from_slice(alloc, &[a, b])?)?;
    let leaf = builder.just(Data::one(alloc, Datum::Int(5)))?;
    let bulk = builder.bulk(leaf, Job::Add(1))?;
    builder.ahead(all, bulk)
}

// Whether the tree of that plan has each node below its parent.
fn is_ahead(plan: &Plan) -> bool {
    let tree = plan.tree();
    tree.size() == 15
        && tree.node(1).parent == Some(2)
        && tree.node(4).parent == Some(12)
        && tree.node(2).parent == Some(14)
        && tree.node(2).source
        && tree.node(12).parent == Some(13)
        && !tree.node(12).source
}

#[test]
fn the_first_child_of_an_ahead_stands_under_the_receiver(rt: HostRuntime) {
    let alloc = rt.alloc();
    let mut builder = PlanBuilder::new(alloc);
    let root = ahead(alloc, &mut builder);
    let told = match finished(builder, root) {
        Some(plan) => {
            let told = is_ahead(&plan);
            drop(plan);
            told
        }
        None => false,
    };
    assert!(rt; told);
}

// Each adaptor, over an error.
fn adaptors(alloc: Global, builder: &mut PlanBuilder) -> Built {
    let error = builder.just_error(Txt::short(alloc, "low"))?;
    let caught = builder.upon_error(error, Job::Length)?;
    let stopped = builder.upon_stopped(caught, Job::Sum)?;
    let there = builder.starts_on(Context::Loop, stopped)?;
    let moved = builder.continues_on(there, Context::Pool)?;
    let maybe = builder.stopped_as_optional(moved, Kind::Int)?;
    builder.stopped_as_error(maybe, Txt::short(alloc, "high"))
}

// Each let, over that.
fn lets(alloc: Global, builder: &mut PlanBuilder) -> Built {
    let child = adaptors(alloc, builder)?;
    let body = builder.input()?;
    let bodies = Vec::from_slice(alloc, &[body])?;
    let value = builder.let_value(child, Job::Pass, bodies)?;
    let body = builder.schedule(Context::Pool)?;
    let bodies = Vec::from_slice(alloc, &[body])?;
    let error = builder.let_error(value, Job::Length, bodies)?;
    let body = builder.delay(1_000_000)?;
    let bodies = Vec::from_slice(alloc, &[body])?;
    builder.let_stopped(error, Job::Sum, bodies)
}

// Whether the plan of all that has its nodes.
fn has_nodes(plan: &Plan) -> bool {
    plan.size() == 13
        && matches!(
            plan.node(4),
            Node::ContinuesOn {
                child: 3,
                on: Context::Pool
            }
        )
        && matches!(plan.node(11), Node::Delay(1_000_000))
}

#[test]
fn calls_add_their_nodes(rt: HostRuntime) {
    let alloc = rt.alloc();
    let mut builder = PlanBuilder::new(alloc);
    let root = lets(alloc, &mut builder);
    let told = match finished_in_1(builder, root) {
        Some(plan) => {
            let told = has_nodes(&plan);
            drop(plan);
            told
        }
        None => false,
    };
    assert!(rt; told);
}
