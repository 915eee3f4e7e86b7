//! Which nodes don't match is shown by tests/cases/, which the program runs. Here stands what it
//! doesn't tell: signatures, and the number of the node.
ghost use Rattle.sig_check.specs.Checked.{AreSignatures};

use super::finished;
use exec_job::Job;
use exec_value::{Kind, Txt};
use plan_builder::{Built, Plan, PlanBuilder};
use sig_check::{Sig, SigFault, Sigs, check};
use std::alloc::Global;

// A row of the numbers below the input, to each of which its place is added.
fn rows(builder: &mut PlanBuilder) -> Built {
    let child = builder.input()?;
    let row = builder.then(child, Job::Iota)?;
    builder.bulk(row, Job::Index)
}

// Whether the signature says a value of this kind alone, and whether it may end by an error. It
// never ends by stopped.
fn is(sig: &Sig, kind: Kind, may_error: bool) -> bool {
    let is_value = match &sig.value {
        Some(kinds) => kinds.as_slice() == [kind].as_slice(),
        None => false,
    };
    is_value && sig.may_error == may_error && !sig.may_stop
}

// Whether the three nodes have such signatures.
fn are(plan: &Plan, sigs: &Sigs) -> bool
    requires { AreSignatures plan.now sigs.now }
{
    for (node, kind, may_error) in [
        (0, Kind::Int, false),
        (1, Kind::Row, true),
        (2, Kind::Row, true),
    ] {
        if node >= plan.size() || !is(sigs.of(node), kind, may_error) {
            return false;
        }
    }
    true
}

// The same where the kinds match.
fn are_signed(alloc: Global, plan: &Plan) -> bool {
    match check(alloc, plan) {
        Ok(sigs) => {
            let told = are(plan, &sigs);
            drop(sigs);
            told
        }
        Err(_) => false,
    }
}

#[test]
fn each_node_has_its_signature(rt: HostRuntime) {
    let alloc = rt.alloc();
    let mut builder = PlanBuilder::new(alloc);
    let root = rows(&mut builder);
    let told = match finished(builder, root) {
        Some(plan) => {
            let told = are_signed(alloc, &plan);
            drop(plan);
            told
        }
        None => false,
    };
    assert!(rt; told);
}

// Two nodes that append a text to an int, the second of which stands before the first.
fn misfits(alloc: Global, builder: &mut PlanBuilder) -> Built {
    let child = builder.input()?;
    let first = builder.then(child, Job::Append(Txt::short(alloc, "a")))?;
    let other = builder.input()?;
    let second = builder.then(other, Job::Append(Txt::short(alloc, "b")))?;
    builder.ahead(second, first)
}

// Whether node 1 is the first whose kinds don't match.
fn is_misfit(alloc: Global, plan: &Plan) -> bool {
    match check(alloc, plan) {
        Ok(sigs) => {
            drop(sigs);
            false
        }
        Err(fault) => fault == SigFault::Kinds(1),
    }
}

#[test]
fn the_first_mismatch_by_number_is_told(rt: HostRuntime) {
    let alloc = rt.alloc();
    let mut builder = PlanBuilder::new(alloc);
    let root = misfits(alloc, &mut builder);
    let told = match finished(builder, root) {
        Some(plan) => {
            let told = is_misfit(alloc, &plan);
            drop(plan);
            told
        }
        None => false,
    };
    assert!(rt; told);
}
