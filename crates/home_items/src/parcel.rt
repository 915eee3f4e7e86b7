//! What a node delivers to its parent ([exec.recv]).
ghost use Rattle.std.specs.Prelude.{◌≡◌};
ghost use Rattle.home_items.specs.Parcels.{IsDelivery, delivery_of};

use crate::shown::Shown;
use exec_value::Completion;
use std::marker::Model;
use std::mem;

/// A node's completion, and whether the node saw a stop request on its nearest source. It shows the
/// start of the node, for which its completion is allowed.
#[derive(Drop)]
pub struct Parcel {
    pub(crate) completion: Completion,
    pub(crate) saw: bool,
    pub(crate) shown: Shown,
}

impl Model for Parcel {
    ghost use Rattle.home_items.specs.Parcels.{Delivery, IsDelivery, parcel_with};

    ghost Value = { Delivery };

    ghost view = { λ p. parcel_with p.shown.start p.completion p.saw };

    ghost invariant = { λ p. IsDelivery (parcel_with p.shown.start p.completion p.saw) };
}

/// What a parcel says beside its completion.
#[derive(Drop)]
pub struct Label {
    pub(crate) saw: bool,
    pub(crate) shown: Shown,
}

impl Model for Label {
    ghost use Rattle.home_items.specs.Parcels.{Sent};

    ghost Value = { Sent };

    ghost view = { λ l. record { start = l.shown.start; saw = l.saw } };
}

impl Label {
    /// Whether the node saw a stop request.
    #[inline(always)]
    pub fn saw(&self) -> bool
        ensures { result ≡ self.now.saw }
    {
        self.saw
    }

    /// The parcel with that completion, which is moved out.
    pub fn parcel(self, done: &mut Completion) -> Parcel
        requires { IsDelivery (delivery_of self done.old) }
        ensures { result ≡ delivery_of self done.old }
    {
        Parcel {
            completion: mem::replace(done, Completion::Stopped),
            saw: self.saw,
            shown: self.shown,
        }
    }
}

impl Parcel {
    /// The completion.
    pub fn completion(&self) -> &Completion
        ensures { result.now ≡ self.now.completion }
    {
        &self.completion
    }

    /// The completion, taken out.
    #[inline(always)]
    pub fn open(self) -> (Label, Completion)
        ensures { self ≡ delivery_of result.0 result.1 }
    {
        let Parcel {
            completion,
            saw,
            shown,
        } = self;
        (Label { saw, shown }, completion)
    }

    /// What the node completed with.
    #[inline(always)]
    pub fn into_completion(self) -> Completion
        ensures { result ≡ self.completion }
    {
        self.completion
    }

    /// Whether the node saw a request on its nearest source.
    pub fn saw(&self) -> bool
        ensures { result ≡ self.now.saw }
    {
        self.saw
    }

    /// What every parcel keeps: it shows a start, for which its completion may be delivered.
    pub fn known(&self)
        ensures { IsDelivery self.now }
    {
        let _ = &self.shown;
    }
}
