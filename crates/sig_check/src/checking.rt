//! The check of a plan.
ghost use Rattle.std.specs.Prelude.{◌≡◌, ◌≤◌, [], length, position, IfOk, IfErr, OnOk};
ghost use Rattle.plan_shape.specs.declared.limits.TheConstants.{MOST_PLAN_NODES};
ghost use Rattle.plan_shape.specs.Blueprint.{IsPlan};
ghost use Rattle.plan_kinds.specs.Reached.{KindsMatch};
ghost use Rattle.sig_check.specs.Checked.{AreSignatures, IsFaultOf};
ghost use Rattle.sig_check.specs.Findings.{AreRight, FindsAll, FindsParts, is_mismatch, found_sigs};

use crate::fault::SigFault;
use crate::finding::Finding;
use crate::shapes::{list_of, one};
use crate::sigs::Sigs;
use crate::walk::walk;
use exec_value::Kind;
use plan_kinds::Sig;
use plan_rules::Node;
use plan_shape::Plan;
use std::alloc::{AllocError, Global};

/// The signatures of a plan's nodes, where the kinds of all match, as [exec.getcomplsigs] has those
/// of senders. `Kinds` names the first node in number order whose kinds don't match.
pub fn check(alloc: Global, plan: &Plan) -> Result<Sigs, SigFault>
    ensures ok { OnOk result (KindsMatch plan.now.nodes plan.now.settings.input) }
    ensures signatures { IfOk result (AreSignatures plan.now) }
    ensures fault { IfErr result (IsFaultOf plan.now) }
{
    let findings = find_all(alloc, plan)?;
    match first_mismatch(&findings) {
        Some(node) => Err(SigFault::Kinds(node as u32)),
        None => Ok(Sigs::new(sigs_of(alloc, findings)?)),
    }
}

/// The signatures of a plan's nodes, whether or not their kinds match: a node whose kinds don't is
/// never a value.
pub fn signatures(alloc: Global, plan: &Plan) -> Result<Sigs, AllocError>
    ensures { IfOk result (AreSignatures plan.now) }
{
    let found = find_all(alloc, plan)?;
    Ok(Sigs::new(sigs_of(alloc, found)?))
}

/// What there is to find of each node.
fn find_all(alloc: Global, plan: &Plan) -> Result<Vec<Option<Finding>>, AllocError>
    ensures all { IfOk result (λ findings. FindsAll plan.now findings.items) }
    ensures few { IfOk result (λ findings. length findings.items ≤ MOST_PLAN_NODES) }
{
    let root = plan.size() - 1;
    let mut findings = blanks(alloc, plan)?;
    walk_parts(alloc, plan, &mut findings)?;
    let arguments = Some(one(plan.settings().input));
    walk(alloc, plan, &mut findings, root, &arguments)?;
    Ok(findings)
}

/// Nothing found of any node.
fn blanks(alloc: Global, plan: &Plan) -> Result<Vec<Option<Finding>>, AllocError>
    ensures { IfOk result
        (λ findings. AreRight plan.now.nodes plan.now.settings.input findings.items) }
{
    let mut findings = Vec::new(alloc);
    for _ in 0..plan.size() {
        findings.push(None)?;
    }
    Ok(findings)
}

/// Notes what there is to find of the parts of bulks, which run under a row and an index.
fn walk_parts(
    alloc: Global,
    plan: &Plan,
    findings: &mut Vec<Option<Finding>>,
) -> Result<(), AllocError>
    requires plan { IsPlan plan.now }
    requires right { AreRight plan.now.nodes plan.now.settings.input findings.old.items }
    ensures { OnOk result (FindsParts plan.now findings.new.items) }
{
    let arguments = Some(list_of(&[Kind::Row, Kind::Int]));
    for node in 0..plan.size() {
        if let Node::Part { .. } = plan.node(node) {
            walk(alloc, plan, findings, node, &arguments)?;
        }
    }
    Ok(())
}

/// The first node whose kinds don't match.
fn first_mismatch(findings: &[Option<Finding>]) -> Option<usize>
    ensures { result ≡ position is_mismatch findings.now }
{
    findings.iter().position(|finding| matches!(finding, Some(Finding { matches: false, .. })))
}

/// The signatures that were found, in order.
fn sigs_of(alloc: Global, findings: Vec<Option<Finding>>) -> Result<Vec<Sig>, AllocError>
    ensures { IfOk result (λ sigs. sigs.items ≡ found_sigs findings.items) }
{
    findings
        .into_iter()
        .filter_map(|finding| finding.map(|found| found.sig))
        .collect(alloc)
}
