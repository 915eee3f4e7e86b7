//! What steps the nodes of a plan.
ghost use Rattle.std.specs.Prelude.{◌≡◌};
ghost use Rattle.exec_recv.specs.Over.{IsOver};
ghost use Rattle.exec_recv.specs.Sites.{MayStep, Steps};

use crate::gate::Gate;
use crate::next::Next;
use crate::site::Site;
use home_items::Item;
use life_rules::Name;
use op_slot::{Hand, OpTable};
use plan_shape::Plan;
use std::alloc::Global;
use std::sync::Wait;

/// What steps all nodes of a plan. It is the gate of the sites where it steps them.
pub trait Stepper: Gate {
    ghost use Rattle.plan_shape.specs.Blueprint.{Blueprint};
    ghost use Rattle.exec_recv.specs.Sites.{Does};

    /// The plan whose nodes it steps.
    ghost plan: { Self → Blueprint };

    /// What its steps do.
    ghost does: { Does };

    /// Its plan.
    fn nodes(&self) -> &Plan
        ensures { result.now ≡ plan self.now };

    /// Steps the node, which the hand holds: it delivers a completion, awaits children, or is left
    /// at rest.
    ///
    /// Needs, Afterwards: as `Kind::step`.
    fn step<R: Wait>(site: &Site<R, Self>, hand: &mut Hand<Item>, name: Name) -> Next
        requires may { MayStep site.now name hand.old }
        ensures steps { Steps site.now name result hand.old hand.new }
        ensures does { does site.now name result hand.old hand.new };
}

impl<'a, R, T: Stepper> Site<'a, R, T> {
    /// Where the stepper steps the nodes of its plan, on a table over that.
    #[inline(always)]
    pub fn of(rt: &'a R, alloc: Global, table: &'a OpTable<Item>, stepper: &'a T) -> Site<'a, R, T>
        requires over { IsOver table.now (T.plan stepper.now) }
        ensures { result ≡ table.now }
    {
        Site {
            rt,
            alloc,
            plan: stepper.nodes(),
            table,
            gate: stepper,
        }
    }
}
