//! What the limits are, as numbers.
ghost use Rattle.std.specs.Prelude.{◌≡◌};
ghost use Rattle.life_rules.specs.LifeSteps.{last_generation};
ghost use Rattle.life_rules.specs.declared.limits.TheConstants.{MOST_BLOCKS, MOST_HANDS};

/// The limits of a table, and the last generation of a block, are these numbers. The call does
/// nothing. Its contract is the law.
pub fn limits_are_told()
    ensures blocks { MOST_BLOCKS ≡ 256 }
    ensures hands { MOST_HANDS ≡ 32 }
    ensures generations { last_generation ≡ 4_294_967_295 }
{}
