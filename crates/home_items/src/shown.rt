//! A start that only contracts read.
ghost use Rattle.std.specs.Prelude.{◌≡◌, List};
ghost use Rattle.std.specs.Borrow.{ftrue};
ghost use Rattle.home_items.specs.declared.entry.Entry.{Entry};

use std::marker::{Model, PhantomData};

/// How a start is read off a value.
pub trait Shows {
    ghost use Rattle.std.specs.Prelude.{List};
    ghost use Rattle.home_items.specs.declared.entry.Entry.{Entry};

    ghost start: { Self → List Entry };
}

/// The start that an environment or a parcel shows. It has no bytes and owns nothing, so only a
/// clause ties `start`.
#[derive(Drop)]
pub struct Shown {
    marker: PhantomData<()>,
    pub ghost start: { List Entry },
}

impl Model for Shown {
    ghost also_owns = { λ _. ftrue };
}

impl Shown {
    /// The start that this value shows.
    pub fn of<X: Shows>(value: &X) -> Shown
        ensures { result.start ≡ X.start value.now }
    {
        let _ = value;
        Shown {
            marker: PhantomData,
        }
    }
}

impl Shows for Shown {
    ghost start = { λ shown. shown.start };
}

// It owns nothing.
unsafe impl Send for Shown {}
