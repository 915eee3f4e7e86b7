//! How a let begins the body that was picked.
ghost use Rattle.home_items.specs.Parcels.{delivery_of};
ghost use Rattle.exec_recv.specs.Sites.{Steps};
ghost use Rattle.exec_let.specs.Ends.{MayBeginBody};
ghost use Rattle.exec_let.specs.Lets.{BeginsBody};

use crate::channel::take_channel;
use exec_value::Completion;
use life_rules::Name;
use node_tree::Context;
use op_slot::Hand;
use plan_rules::{Node, NodeId};
use step_parts::{Item, Label, Next, Site, Taken, begin, hear, leave_at_rest};

/// Begins the body with the data of the child's completion, and awaits it. A look says whether its
/// start may rest on a request. That the body has begun before doesn't come; then the let goes on
/// later, in the loop.
#[inline(always)]
pub(crate) fn begin_body<R, G>(
    site: &Site<R, G>,
    hand: &mut Hand<Item>,
    taken: Taken,
    node: &Node,
    label: Label,
    done: &mut Completion,
    body: NodeId,
) -> Next
    requires may { MayBeginBody site.now taken node.now (delivery_of label done.old) body hand.old }
    ensures steps { Steps site.now taken.name result taken.from hand.new }
    ensures begins { BeginsBody site.now taken result node.now (delivery_of label done.old) body
        hand.old hand.new }
{
    let _heard = hear(site, hand, &taken);
    let picked = Name {
        node: body,
        ..taken.name()
    };
    if site.table.has_begun(hand, picked) {
        let kept = label.parcel(done);
        return leave_at_rest(site, hand, taken, Some(kept), Context::Loop);
    }
    drop(label);
    let asked = taken.asked();
    match take_channel(site.alloc, node, done) {
        Some(values) => begin(site, hand, taken, body, values, asked),
        None => unreachable!(),
    }
}
