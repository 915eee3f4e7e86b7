//! What a view has to have for its steps to be listed.
ghost use Rattle.std.specs.Prelude.{ℕ, List};

/// A view in which a hand's steps are listed.
pub trait Lists {
    ghost use Rattle.listed_words.specs.declared.seen.Seen.{Seen};

    /// The hand's steps, newest first.
    ghost steps: { Self → List Seen };

    /// How many hands were split off it.
    ghost splits: { Self → ℕ };
}
