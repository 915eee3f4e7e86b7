//! A node that a step has taken up.
ghost use Rattle.std.specs.Prelude.{◌≡◌};
ghost use Rattle.home_items.specs.Entries.{record_number, asked_of};
ghost use Rattle.home_items.specs.Starts.{IsStart};
ghost use Rattle.step_parts.specs.Stepping.{number_in, asked_in};

use crate::found::Found;
use crate::origin::Origin;
use home_items::{Shown, Shows};
use life_rules::Name;
use std::marker::Model;

/// The number of a record, and whether the scope's request was made before its operation was
/// started. A bool of its own would leave a gap of three bytes, which each move would copy.
#[derive(Clone, Copy, Debug, PartialEq, Eq)]
pub enum Mark {
    /// The request was made before.
    Asked(u32),
    /// It wasn't.
    Calm(u32),
}

impl Mark {
    // The mark of this number.
    #[inline(always)]
    pub(crate) fn for_number(number: u32, asked: bool) -> Mark
        ensures number { number_in result ≡ number }
        ensures asked { asked_in result ≡ asked }
    {
        if asked {
            Mark::Asked(number)
        } else {
            Mark::Calm(number)
        }
    }
}

/// A node that a step has taken up: the hand holds it, and its start lies in its home. It is no
/// `Drop`: a call that ends the step takes it.
pub struct Taken {
    pub(crate) name: Name,
    pub(crate) mark: Mark,
    pub(crate) shown: Shown,
    pub(crate) origin: Origin,
}

impl Model for Taken {
    ghost use Rattle.step_parts.specs.Stepping.{Stepping};

    ghost Value = { Stepping };

    ghost use Rattle.step_parts.specs.Stepping.{IsHead, number_in, asked_in};

    ghost view = { λ t. record { name = t.name; start = t.shown.start; from = t.origin.seat } };

    ghost invariant = { λ t.
        IsHead (number_in t.mark) (asked_in t.mark) t.shown.start };
}

impl Shows for Taken {
    ghost start = { λ t. t.start };
}

impl Taken {
    /// The node's name.
    #[inline(always)]
    pub fn name(&self) -> Name
        ensures { result ≡ self.now.name }
    {
        self.name
    }

    /// The record's number.
    #[inline(always)]
    pub fn number(&self) -> u32
        ensures { result ≡ record_number self.now.start }
    {
        match self.mark {
            Mark::Asked(number) => number,
            Mark::Calm(number) => number,
        }
    }

    /// Whether the scope's request was made before the operation was started.
    #[inline(always)]
    pub fn asked(&self) -> bool
        ensures { result ≡ asked_of self.now.start }
    {
        matches!(self.mark, Mark::Asked(_))
    }

    /// What every node that was taken up keeps: it shows a start.
    pub fn known(&self)
        ensures { IsStart self.now.start }
    {
        let _ = &self.shown;
    }
}

/// A node that was taken up, and what was found of it.
pub struct TakenUp {
    pub taken: Taken,
    pub found: Found,
}
