//! The table of the tests, its hands, and a root whose callback is registered.
ghost use Rattle.std.specs.Prelude.{◌≡◌, ◌≤◌, false, IfOk, All};
ghost use Rattle.life_rules.specs.declared.words.CallbackPhase.TheVariants.{Armed as IsArmed};
ghost use Rattle.table_steps.specs.Views.{AreFreshHands, IsHandOf};
ghost use Rattle.table_use.specs.Uses.{use_tree, IsRoot, IsIdle};
ghost use Rattle.table_use.specs.Hearing.{HoldsRoot};
ghost use Rattle.table_use.specs.Members.{MayAssociate};
ghost use Rattle.table_tests.specs.Ready.{IsUse, IsReady};

use super::Wrong;
use life_rules::Name;
use node_tree::{ScopeKind, Tree, TreeNode};
use std::alloc::Global;
use std::test::Fail;
use stop_calls::Armed;
use table_use::{Env, Table, Worker, begins, listens};

// What all starts of the table say.
pub(super) const STEP: u32 = 7;

fn below(parent: Option<u32>, source: bool) -> TreeNode
    ensures { result ≡ record { parent = parent; source = source; unstoppable = false } }
{
    TreeNode {
        parent,
        source,
        unstoppable: false,
    }
}

// A leaf and a branch with a source below a root with a source, and a twig below the branch.
pub(super) fn use_nodes(alloc: Global) -> Result<Tree, Fail>
    ensures { IfOk result (λ tree. tree ≡ use_tree) }
{
    let leaf = below(Some(3), false);
    let twig = below(Some(2), false);
    let branch = below(Some(3), true);
    let root = below(None, true);
    let nodes = Vec::from_array(alloc, [leaf, twig, branch, root])?;
    Ok(Tree::open(alloc, nodes)?)
}

// A table of so many blocks, whose scope takes at most so many associations, and its hands.
fn opened(alloc: Global, blocks: u32, hands: u32, most: u32) -> Result<(Table, Vec<Worker>), Fail>
    requires blocks { (1 ≤ blocks) × (blocks ≤ 64) }
    requires hands { (1 ≤ hands) × (hands ≤ 8) }
    requires most { (1 ≤ most) × (most ≤ 100) }
    ensures over { IfOk result (λ t. IsUse t.0 blocks) }
    ensures hands { IfOk result (λ t. AreFreshHands t.0 hands t.1.items) }
{
    let tree = use_nodes(alloc)?;
    Ok(Table::open(
        alloc,
        &tree,
        &STEP,
        blocks,
        hands,
        ScopeKind::Counting,
        most,
    )?)
}

// One with one hand.
pub(super) fn alone(alloc: Global, blocks: u32) -> Result<(Table, Worker), Fail>
    requires { (1 ≤ blocks) × (blocks ≤ 64) }
    ensures over { IfOk result (λ t. IsUse t.0 blocks) }
    ensures hand { IfOk result (λ t. IsReady t.0 0 t.1) }
{
    let (table, mut hands) = opened(alloc, blocks, 1, 3)?;
    let hand = hands.swap_remove(0);
    Ok((table, hand))
}

// One with two.
pub(super) fn shared(alloc: Global, blocks: u32) -> Result<(Table, Worker, Worker), Fail>
    requires { (1 ≤ blocks) × (blocks ≤ 64) }
    ensures over { IfOk result (λ t. IsUse t.0 blocks) }
    ensures first { IfOk result (λ t. IsReady t.0 0 t.1) }
    ensures second { IfOk result (λ t. IsReady t.0 1 t.2) }
{
    let (table, mut hands) = opened(alloc, blocks, 2, 3)?;
    let second = hands.swap_remove(1);
    let first = hands.swap_remove(0);
    Ok((table, first, second))
}

// One with three, whose scope takes two associations.
pub(super) fn full_for_two(alloc: Global) -> Result<(Table, Worker, Worker, Worker), Fail>
    ensures first { IfOk result (λ t. IsReady t.0 0 t.1) }
    ensures second { IfOk result (λ t. IsReady t.0 1 t.2) }
    ensures third { IfOk result (λ t. IsReady t.0 2 t.3) }
{
    let (table, mut hands) = opened(alloc, 1, 3, 2)?;
    let third = hands.swap_remove(2);
    let second = hands.swap_remove(1);
    let first = hands.swap_remove(0);
    Ok((table, first, second, third))
}

// One of one block, with so many hands that can associate.
pub(super) fn members(alloc: Global, hands: u32, most: u32) -> Result<(Table, Vec<Worker>), Fail>
    requires hands { (1 ≤ hands) × (hands ≤ 8) }
    requires most { (1 ≤ most) × (most ≤ 100) }
    ensures { IfOk result (λ t. All (MayAssociate t.0) t.1.items) }
{
    opened(alloc, 1, hands, most)
}

// One of these hands. The others are left.
pub(super) fn next_of(table: &Table, hands: &mut Vec<Worker>) -> Result<Worker, Wrong>
    requires { All (MayAssociate table.now) hands.old.items }
    ensures left { All (MayAssociate table.now) hands.new.items }
    ensures ready { IfOk result (λ h. MayAssociate table.now h) }
{
    let _ = table;
    match hands.pop() {
        Some(hand) => Ok(hand),
        None => Err(Wrong("no hand is left")),
    }
}

// Begins a root, and registers its callback.
pub(super) fn armed(table: &Table, hand: &mut Worker) -> Result<(Name, Armed), Wrong>
    requires table { IsHandOf table.now hand.old }
    requires over { IsUse table.now table.now.frame.layout.blocks }
    requires idle { IsIdle hand.old.me }
    ensures table { IsHandOf table.now hand.new }
    ensures idle { IsIdle hand.new.me }
    ensures number { hand.new.me.0.number ≡ hand.old.me.0.number }
    ensures root { IfOk result (λ r. IsRoot table.now r.0) }
    ensures holds { IfOk result (λ r. HoldsRoot table.now.frame r.0 IsArmed hand.new.me) }
{
    let env = Env {
        node: 3,
        number: 0,
        step: STEP,
    };
    match begins(table, hand, env) {
        Ok((_block, root)) => match listens(table, hand, root) {
            Ok(told) => Ok((root, told)),
            Err(_) => Err(Wrong("a callback was registered")),
        },
        Err(_) => Err(Wrong("no block was free")),
    }
}
