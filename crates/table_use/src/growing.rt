//! How all of an operation is started whose leaf fails.
ghost use Rattle.std.specs.Prelude.{◌≡◌, IfOk, IfErr};
ghost use Rattle.table_steps.specs.Views.{IsHandOf};
ghost use Rattle.life_rules.specs.Views.{beside};
ghost use Rattle.table_use.specs.Uses.{use_tree, IsNode, OwesNode, LeafFailed, IsStill, IsIdle, IsRoot};
ghost use Rattle.table_use.specs.Causes.{GoesOn, WasFree, IsStartCause, IsCause};

use crate::cargo::{Env, Item};
use crate::node::{Fault, Table, Worker, beside, ends, hears, opens, parks};
use crate::starting::{awaits_one, awaits_two, begins};
use life_rules::Name;

// Starts the branch, whose callback is registered on the root's source, and the twig, whose
// callback is registered on the branch's.
fn grows(table: &Table, hand: &mut Worker, branch: Name, env: Env) -> Result<(), Fault>
    requires table { IsHandOf table.now hand.old }
    requires node { IsNode table.now branch }
    requires branch { branch.node ≡ 2 }
    requires idle { IsIdle hand.old.me }
    requires owes { OwesNode table.now.frame branch env hand.old.me }
    ensures table { IsHandOf table.now hand.new }
    ensures still { IsStill hand.old.me hand.new.me }
    ensures steps { IfOk result (λ _. GoesOn hand.old.me hand.new.me) }
    ensures fault { IfErr result (IsStartCause table.now hand.old.me hand.new.me branch) }
{
    opens(table, hand, branch, env);
    hears(table, hand, branch)?;
    awaits_one(table, hand, branch, env, 1)?;
    let twig = beside(branch, 1);
    opens(table, hand, twig, Env { node: 1, ..env });
    hears(table, hand, twig)?;
    parks(table, hand, twig);
    Ok(())
}

/// Takes an operation so far that all of it is started and its leaf failed. Nobody is told of that
/// yet. The answer is the root.
pub(crate) fn starts(table: &Table, hand: &mut Worker, env: Env) -> Result<Name, Fault>
    requires table { IsHandOf table.now hand.old }
    requires tree { table.now.frame.tree ≡ use_tree }
    requires node { env.node ≡ 3 }
    requires step { env.step ≡ table.now.frame.over.value }
    requires idle { IsIdle hand.old.me }
    ensures table { IsHandOf table.now hand.new }
    ensures idle { IsIdle hand.new.me }
    ensures root { IfOk result (λ x. IsRoot table.now x) }
    ensures failed { IfOk result (λ x. LeafFailed x hand.new.me) }
    ensures free { IfOk result (λ x. WasFree table.now hand.old.me hand.new.me x) }
    ensures fault { IfErr result (IsCause table.now hand.old hand.new) }
{
    let (_block, root) = begins(table, hand, env)?;
    awaits_two(table, hand, root, env)?;
    let leaf = beside(root, 0);
    opens(table, hand, leaf, Env { node: 0, ..env });
    ends(table, hand, leaf, Item::Failed(Env { node: 0, ..env }))?;
    grows(table, hand, beside(root, 2), Env { node: 2, ..env })?;
    Ok(root)
}
