//! How owners are told apart.
ghost use Rattle.std.specs.Prelude.{◌≡◌};
ghost use Rattle.life_rules.specs.Views.{same};

use life_rules::Name;

/// Whether both are the same place at the same generation.
pub(crate) fn is_same(one: Name, other: Name) -> bool
    ensures { result ≡ same one other }
{
    one.block == other.block && (one.generation == other.generation && one.node == other.node)
}
