//! What a step finds where it takes up its node.
ghost use Rattle.std.specs.Prelude.{◌≡◌};
ghost use Rattle.step_parts.specs.Takes.{is_new, parcel_of};

use exec_recv::Parcel;

/// What a step finds of a node that awaits one child at a time.
#[derive(Drop)]
pub enum Found {
    /// The node has begun nothing yet.
    Begun,
    /// Its child has completed with this.
    Back(Parcel),
    /// It rested, with what its child had completed with before, where it keeps that.
    Again(Option<Parcel>),
}

impl Found {
    /// The node has begun nothing yet.
    #[inline(always)]
    pub fn is_new(self) -> bool
        ensures { result ≡ is_new self }
    {
        matches!(self, Found::Begun)
    }

    /// What the child completed with, where it has.
    #[inline(always)]
    pub fn into_parcel(self) -> Option<Parcel>
        ensures { result ≡ parcel_of self }
    {
        match self {
            Found::Begun => None,
            Found::Back(parcel) => Some(parcel),
            Found::Again(kept) => kept,
        }
    }
}
