//! A worked example: a plan by calls, and what it settles to. What plans complete with else stands
//! in tests/cases/, which the program runs.
use super::finished_in_1;
use exec_job::Job;
use exec_value::{Completion, Data, Datum};
use plan_builder::{Built, Context, Plan, PlanBuilder};
use plan_settle::{settle, settle_asked};
use sig_check::check;
use std::alloc::{AllocError, Global};

/// Twice the input on the pool.
fn doubling(builder: &mut PlanBuilder) -> Built {
    let input = builder.input()?;
    let double = builder.then(input, Job::Mul(2))?;
    builder.continues_on(double, Context::Pool)
}

// Whether this is what was settled to.
fn is(found: Result<Completion, AllocError>, expected: Completion) -> bool {
    let told = match &found {
        Ok(found) => *found == expected,
        Err(_) => false,
    };
    drop(expected);
    drop(found);
    told
}

// Whether its kinds match, and 5 settles to 10, and to stopped where a stop was asked for.
fn settles(alloc: Global, plan: &Plan) -> bool {
    match check(alloc, plan) {
        Ok(sigs) => drop(sigs),
        Err(_) => return false,
    }
    let datum = Datum::Int(5);
    if !datum.is_of(plan.settings().input) {
        drop(datum);
        return false;
    }
    let done = settle(alloc, plan, 1, &datum);
    let asked = settle_asked(alloc, plan, 1, &datum);
    drop(datum);
    let ten = is(done, Completion::Value(Data::one(alloc, Datum::Int(10))));
    is(asked, Completion::Stopped) && ten
}

#[test]
fn a_plan_is_built_and_settles(rt: HostRuntime) {
    let alloc = rt.alloc();
    let mut builder = PlanBuilder::new(alloc);
    let root = doubling(&mut builder);
    let told = match finished_in_1(builder, root) {
        Some(plan) => {
            let told = settles(alloc, &plan);
            drop(plan);
            told
        }
        None => false,
    };
    assert!(rt; told);
}
