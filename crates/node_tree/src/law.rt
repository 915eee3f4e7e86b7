//! What the limit is, as a number.
ghost use Rattle.std.specs.Prelude.{◌≡◌};
ghost use Rattle.node_tree.specs.declared.node.TheConstants.{MOST_NODES};

/// The limit of a tree is this number. The call does nothing. Its contract is the law.
pub fn limits_are_told()
    ensures nodes { MOST_NODES ≡ 1_025 }
{}
