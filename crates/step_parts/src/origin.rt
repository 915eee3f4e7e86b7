//! How a hand was when a step began, which only contracts read.
ghost use Rattle.std.specs.Prelude.{◌≡◌};
ghost use Rattle.std.specs.Borrow.{ftrue};
ghost use Rattle.exec_recv.specs.Seats.{HandSeat};

use exec_recv::Item;
use op_slot::Hand;
use std::marker::{Model, PhantomData};

/// How a seat is read off a value.
pub trait Seated {
    ghost use Rattle.exec_recv.specs.Seats.{HandSeat};

    ghost seat: { Self → HandSeat };
}

impl Seated for Hand<Item> {
    ghost seat = { λ hand. hand };
}

/// How the hand was when a step began. It has no bytes and owns nothing.
#[derive(Drop)]
pub struct Origin {
    marker: PhantomData<()>,
    pub ghost seat: { HandSeat },
}

impl Model for Origin {
    ghost also_owns = { λ _. ftrue };
}

impl Origin {
    /// What this value is now.
    pub fn of<X: Seated>(value: &X) -> Origin
        ensures { result.seat ≡ X.seat value.now }
    {
        let _ = value;
        Origin {
            marker: PhantomData,
        }
    }
}
