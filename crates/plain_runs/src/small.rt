//! Whether a plan is small.
ghost use Rattle.std.specs.Prelude.{◌≡◌, true, false};
ghost use Rattle.exec_value.specs.declared.kinds.Kind.{Kind};
ghost use Rattle.plan_kinds.specs.Small.{IsSmall, IsSmallNode, IsSmallShape};
ghost use Rattle.sig_check.specs.Checked.{AreSignatures};

use exec_value::Kind;
use plan_kinds::KindList;
use plan_rules::Node;
use plan_shape::Plan;
use sig_check::Sigs;

/// Whether the kind is an int.
fn is_int(kind: Kind) -> bool
    ensures yes { result ≡ true → kind ≡ Kind.Int }
    ensures no { kind ≡ Kind.Int → result ≡ true }
{
    match kind {
        Kind::Int => true,
        Kind::Text | Kind::Row | Kind::MaybeInt | Kind::MaybeText => false,
    }
}

/// Whether a value of these kinds is never there, no data, or one int.
fn is_small_value(value: &Option<KindList>) -> bool
    ensures yes { result ≡ true → IsSmallShape value.now }
    ensures no { result ≡ false → IsSmallShape value.now → ⊥ }
{
    match value {
        None => true,
        Some(kinds) => match kinds.as_slice() {
            [] => true,
            [kind] => is_int(*kind),
            _ => false,
        },
    }
}

/// Whether the node is no `bulk`, no part of one, and no `ahead`.
fn is_small_node(node: &Node) -> bool
    ensures yes { result ≡ true → IsSmallNode node.now }
    ensures no { result ≡ false → IsSmallNode node.now → ⊥ }
{
    !matches!(
        node,
        Node::Bulk { .. } | Node::Part { .. } | Node::Ahead { .. }
    )
}

/// Whether a plan of these signatures is small.
pub fn is_small(plan: &Plan, sigs: &Sigs) -> bool
    requires { AreSignatures plan.now sigs.now }
    ensures yes { result ≡ true → IsSmall plan.now }
    ensures no { result ≡ false → ¬ IsSmall plan.now }
{
    if !is_int(plan.settings().input) {
        return false;
    }
    for number in 0..plan.size() {
        if !is_small_node(plan.node(number)) {
            return false;
        }
        if !is_small_value(&sigs.of(number).value) {
            return false;
        }
    }
    true
}
