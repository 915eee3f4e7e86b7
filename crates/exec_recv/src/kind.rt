//! Kinds of nodes.
ghost use Rattle.exec_recv.specs.Sites.{node_at, MayStep, Steps};

use crate::gate::Gate;
use crate::next::Next;
use crate::site::Site;
use home_items::Item;
use life_rules::Name;
use op_slot::Hand;
use std::sync::Wait;

/// A kind of nodes, and how its nodes are stepped.
pub trait Kind {
    ghost use Rattle.std.specs.Prelude.{Option};
    ghost use Rattle.plan_rules.specs.declared.node.Node.{Node};
    ghost use Rattle.exec_recv.specs.Sites.{Does};

    /// The nodes that are of this kind; none for the receiver node.
    ghost is: { Option Node → Type 0 };

    /// What its steps do.
    ghost does: { Does };

    /// Steps the node, which the hand holds.
    ///
    /// Needs: the hand makes no scan and runs no callback, and since it came to hold the node it
    /// has made no step on it, and has moved nothing of its home and of its children's. Each start
    /// that the hand owes can begin.
    /// Afterwards: Go names the node that the hand holds in place of this one, and may step next;
    /// else it holds none in its place. Each start that the hand owes can begin.
    fn step<R: Wait, G: Gate>(site: &Site<R, G>, hand: &mut Hand<Item>, name: Name) -> Next
        requires kind { is (node_at site.now name) }
        requires may { MayStep site.now name hand.old }
        ensures steps { Steps site.now name result hand.old hand.new }
        ensures does { does site.now name result hand.old hand.new };
}
