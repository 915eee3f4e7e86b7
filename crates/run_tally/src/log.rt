//! A list of what was collected, that only contracts read.
ghost use Rattle.std.specs.Prelude.{◌≡◌, List, [], ◌∷◌};
ghost use Rattle.std.specs.Borrow.{ftrue};
ghost use Rattle.std.specs.Coded.{codes};
ghost use Rattle.run_tally.specs.Gathered.{Gathered, gathered};

use std::marker::{Model, PhantomData};

/// How such a list is read off a value.
pub trait Lists {
    ghost use Rattle.std.specs.Prelude.{List};
    ghost use Rattle.run_tally.specs.Gathered.{Gathered};

    ghost entries: { Self → List Gathered };
}

/// The operations that were collected, the last first. It has no bytes and owns nothing, so only a
/// clause ties `entries`.
#[derive(Drop)]
pub struct Log {
    marker: PhantomData<()>,
    pub ghost entries: { List Gathered } by { Prim.hlevel codes },
}

impl Model for Log {
    ghost also_owns = { λ _. ftrue };
}

impl Log {
    /// The list that this value shows.
    pub fn of<X: Lists>(value: &X) -> Log
        ensures { result.entries ≡ X.entries value.now }
    {
        let _ = value;
        Log {
            marker: PhantomData,
        }
    }
}

// It owns nothing.
unsafe impl Send for Log {}
