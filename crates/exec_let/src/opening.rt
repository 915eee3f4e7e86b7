//! What a let that has begun finds in the homes of its child and its bodies.
ghost use Rattle.std.specs.Prelude.{◌≡◌, true, All};
ghost use Rattle.node_tree.specs.Tree.{is_child};
ghost use Rattle.std.specs.Option.{option_map};
ghost use Rattle.home_items.specs.Parcels.{delivery_of};
ghost use Rattle.step_parts.specs.Takes.{IsOpen, TakesKept};
ghost use Rattle.exec_let.specs.Opens.{MayOpen, Opens, TakesBodies};

use crate::parts::{let_bodies, let_child};
use exec_value::Completion;
use op_slot::Hand;
use plan_rules::{Node, NodeId};
use std::mem;
use step_parts::{Item, Label, Site, Taken, take_child_into, take_kept};

/// What a let has at hand: the labels of parcels, whose completions were moved to their places.
#[derive(Drop)]
pub(crate) struct Opened {
    /// Of the child's parcel, as it lay in the child's home, or as the let kept it.
    pub(crate) child: Option<Label>,
    /// Of the parcel of the body that was begun.
    pub(crate) body: Option<Label>,
}

// Takes what lies in the homes of the bodies: the parcel of one that has completed, or none.
#[inline(always)]
fn take_bodies<R, G>(
    site: &Site<R, G>,
    hand: &mut Hand<Item>,
    taken: &Taken,
    bodies: &[NodeId],
    done: &mut Completion,
) -> Option<Label>
    requires children { All (λ n. is_child site.now.frame.tree taken.now.name.node n ≡ true)
        bodies.now }
    requires lies { IsOpen site.now taken.now hand.old }
    ensures { TakesBodies site.now taken.now bodies.now
        (option_map (λ label. delivery_of label done.new) result) hand.old hand.new }
{
    let mut found = None;
    for body in bodies {
        if let Some(label) = take_child_into(site, hand, taken, *body, done) {
            found = Some(label);
        }
    }
    found
}

// Takes what the let kept of its child.
#[inline(always)]
fn take_kept_into<R, G>(
    site: &Site<R, G>,
    hand: &mut Hand<Item>,
    taken: &Taken,
    done: &mut Completion,
) -> Option<Label>
    requires lies { IsOpen site.now taken.now hand.old }
    ensures { TakesKept site.now taken.now
        (option_map (λ label. delivery_of label done.new) result) hand.old hand.new }
{
    match take_kept(site, hand, taken) {
        Some(parcel) => {
            let (label, kept) = parcel.open();
            drop(mem::replace(done, kept));
            Some(label)
        }
        None => None,
    }
}

/// Takes what the let's child or a body completed with: each moves in place of what is no more
/// wanted.
///
/// Step: those of `take_child_into` for the child and each body, and of `take_kept`.
#[inline(always)]
pub(crate) fn open<R, G>(
    site: &Site<R, G>,
    hand: &mut Hand<Item>,
    taken: &Taken,
    node: &Node,
    child: &mut Completion,
    body: &mut Completion,
) -> Opened
    requires may { MayOpen site.now taken.now node.now hand.old }
    ensures { Opens site.now taken.now node.now
        (option_map (λ label. delivery_of label child.new) result.child)
        (option_map (λ label. delivery_of label body.new) result.body) hand.old hand.new }
{
    let below = take_child_into(site, hand, taken, let_child(node), child);
    let over = take_bodies(site, hand, taken, let_bodies(node), body);
    match below {
        Some(label) => Opened {
            child: Some(label),
            body: over,
        },
        None => Opened {
            child: take_kept_into(site, hand, taken, child),
            body: over,
        },
    }
}
