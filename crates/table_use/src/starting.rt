//! How an operation is started: its root is claimed, and awaits the leaf and the branch.
ghost use Rattle.std.specs.Prelude.{◌≡◌, true, [], IfOk, IfErr};
ghost use Rattle.node_tree.specs.Tree.{is_child};
ghost use Rattle.table_steps.specs.Views.{IsHandOf};
ghost use Rattle.table_use.specs.Uses.{use_tree, IsNode, IsRoot, IsRootOf, HoldsNode, HasNoted, IsStill, KeepsPlays, OwesKid, KeepsNotes};
ghost use Rattle.table_use.specs.Causes.{GoesOn, WasFree, HasNoBlock, IsNodeCause};

use crate::cargo::Env;
use crate::node::{Fault, Table, Worker, beside, opens};
use life_rules::Name;
use op_slot::{Block, claim_any};

/// Claims a block, and begins its root with this start.
pub fn begins(table: &Table, hand: &mut Worker, env: Env) -> Result<(Block, Name), Fault>
    requires table { IsHandOf table.now hand.old }
    requires tree { table.now.frame.tree ≡ use_tree }
    requires node { env.node ≡ 3 }
    requires step { env.step ≡ table.now.frame.over.value }
    ensures table { IsHandOf table.now hand.new }
    ensures plays { KeepsPlays hand.old.me hand.new.me }
    ensures number { hand.new.me.0.number ≡ hand.old.me.0.number }
    ensures root { IfOk result (λ r. IsRootOf table.now r.0 r.1) }
    ensures holds { IfOk result (λ r. HoldsNode table.now.frame r.1 env hand.new.me) }
    ensures noted { IfOk result (λ r. HasNoted r.1 env hand.new.me) }
    ensures free { IfOk result (λ r. WasFree table.now hand.old.me hand.new.me r.1) }
    ensures fault { IfErr result (HasNoBlock table.now hand.old hand.new) }
{
    match claim_any(table, hand) {
        Some(block) => {
            let root = table.root(block);
            opens(table, hand, root, env);
            Ok((block, root))
        }
        None => Err(Fault::NoBlock),
    }
}

/// Leaves the root until the leaf and the branch have reported, and owes these.
pub(crate) fn awaits_two(
    table: &Table,
    hand: &mut Worker,
    root: Name,
    env: Env,
) -> Result<(), Fault>
    requires table { IsHandOf table.now hand.old }
    requires root { IsRoot table.now root }
    requires idle { hand.old.me.0.scans ≡ [] }
    requires holds { HoldsNode table.now.frame root env hand.old.me }
    ensures table { IsHandOf table.now hand.new }
    ensures leaf { IfOk result (λ _. OwesKid table.now.frame root 0 env hand.new.me) }
    ensures branch { IfOk result (λ _. OwesKid table.now.frame root 2 env hand.new.me) }
    ensures still { IsStill hand.old.me hand.new.me }
    ensures notes { KeepsNotes hand.old.me hand.new.me }
    ensures steps { IfOk result (λ _. GoesOn hand.old.me hand.new.me) }
    ensures fault { IfErr result (IsNodeCause table.now hand.old.me hand.new.me root) }
{
    let leaf = beside(root, 0);
    let branch = beside(root, 2);
    if table.has_begun(hand, leaf) {
        return Err(Fault::Begun);
    }
    if table.has_begun(hand, branch) {
        return Err(Fault::Begun);
    }
    table.await_children(hand, root, &[0, 2]);
    Ok(())
}

/// Leaves the node until this child has reported, and owes it.
pub(crate) fn awaits_one(
    table: &Table,
    hand: &mut Worker,
    x: Name,
    env: Env,
    node: u32,
) -> Result<(), Fault>
    requires table { IsHandOf table.now hand.old }
    requires node { IsNode table.now x }
    requires child { is_child use_tree x.node node ≡ true }
    requires idle { hand.old.me.0.scans ≡ [] }
    requires holds { HoldsNode table.now.frame x env hand.old.me }
    ensures table { IsHandOf table.now hand.new }
    ensures owes { IfOk result (λ _. OwesKid table.now.frame x node env hand.new.me) }
    ensures still { IsStill hand.old.me hand.new.me }
    ensures notes { KeepsNotes hand.old.me hand.new.me }
    ensures steps { IfOk result (λ _. GoesOn hand.old.me hand.new.me) }
    ensures fault { IfErr result (IsNodeCause table.now hand.old.me hand.new.me x) }
{
    let child = beside(x, node);
    if table.has_begun(hand, child) {
        return Err(Fault::Begun);
    }
    table.await_children(hand, x, &[node]);
    Ok(())
}
