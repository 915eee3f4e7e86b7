//! A walk from a node down to its leaves.
ghost use Rattle.std.specs.Prelude.{◌≡◌, ◌∷◌, [], All, length, slice_get, IfOk, OnOk, ◌<◌, ◌≤◌};
ghost use Rattle.plan_kinds.specs.Signatures.{sig_of, sigs_at};
ghost use Rattle.plan_kinds.specs.Reached.{Reaches};
ghost use Rattle.plan_shape.specs.Blueprint.{IsPlan};
ghost use Rattle.sig_check.specs.Findings.{AreRight, Finds};

use crate::finding::{Finding, finding_of};
use crate::runs::{bodies_of, run_by};
use crate::shapes::copy;
use crate::values::body_arguments;
use plan_kinds::{KindList, Sig};
use plan_rules::NodeId;
use plan_shape::Plan;
use std::alloc::{AllocError, Global};

/// Notes what there is to find of a node and of all nodes below it. The answer is the node's
/// signature.
#[cycle(walk)]
pub(crate) fn walk(
    alloc: Global,
    plan: &Plan,
    findings: &mut Vec<Option<Finding>>,
    node: NodeId,
    arguments: &Option<KindList>,
) -> Result<Sig, AllocError>
    requires plan { IsPlan plan.now }
    requires node { node < length plan.now.nodes }
    requires runs { Reaches plan.now.nodes plan.now.settings.input node arguments.now }
    requires right { AreRight plan.now.nodes plan.now.settings.input findings.old.items }
    ensures sig { IfOk result (λ sig. sig ≡ sig_of plan.now.nodes node arguments.now) }
    ensures finds { OnOk result (Finds plan.now.nodes plan.now.settings.input
        findings.old.items (node ∷ []) findings.new.items) }
{
    let here = plan.node(node);
    let children = run_by(alloc, here)?;
    let own = walk_all(alloc, plan, findings, node, &children, arguments)?;
    let below = body_arguments(here, &own);
    let behind = walk_all(alloc, plan, findings, node, bodies_of(here), &below)?;
    let finding = finding_of(plan, here, arguments, &own, &behind);
    let sig = Sig {
        value: copy(&finding.sig.value),
        may_error: finding.sig.may_error,
        may_stop: finding.sig.may_stop,
    };
    findings[node as usize] = Some(finding);
    Ok(sig)
}

/// The same for several nodes below another, which run under the same arguments.
#[cycle(walk)]
fn walk_all(
    alloc: Global,
    plan: &Plan,
    findings: &mut Vec<Option<Finding>>,
    above: NodeId,
    nodes: &[NodeId],
    arguments: &Option<KindList>,
) -> Result<Vec<Sig>, AllocError>
    requires plan { IsPlan plan.now }
    requires above { above ≤ length plan.now.nodes }
    requires below { All (λ n. n < above) nodes.now }
    requires run { All (λ n. Reaches plan.now.nodes plan.now.settings.input n arguments.now)
        nodes.now }
    requires right { AreRight plan.now.nodes plan.now.settings.input findings.old.items }
    ensures sigs { IfOk result
        (λ sigs. sigs.items ≡ sigs_at (sig_of plan.now.nodes) nodes.now arguments.now) }
    ensures finds { OnOk result (Finds plan.now.nodes plan.now.settings.input
        findings.old.items nodes.now findings.new.items) }
{
    let mut sigs = Vec::new(alloc);
    for node in nodes {
        let sig = walk(alloc, plan, findings, *node, arguments)?;
        sigs.push(sig)?;
    }
    Ok(sigs)
}
