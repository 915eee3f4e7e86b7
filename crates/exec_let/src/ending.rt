//! How a let completes as its body did.
ghost use Rattle.home_items.specs.Parcels.{delivery_of};
ghost use Rattle.exec_recv.specs.Sites.{Steps};
ghost use Rattle.exec_let.specs.Ends.{MayEndAsBody};
ghost use Rattle.exec_let.specs.Lets.{EndsAsBody};

use exec_value::Completion;
use op_slot::Hand;
use std::sync::Wait;
use step_parts::{Gate, Item, Label, Next, Site, Taken, complete, hear};

/// Completes the let as its body did. A look says whether that may rest on a request.
#[inline(always)]
pub(crate) fn end_as_body<R: Wait, G: Gate>(
    site: &Site<R, G>,
    hand: &mut Hand<Item>,
    taken: Taken,
    label: Label,
    done: &mut Completion,
) -> Next
    requires may { MayEndAsBody site.now taken (delivery_of label done.old) hand.old }
    ensures steps { Steps site.now taken.name result taken.from hand.new }
    ensures ends { EndsAsBody site.now taken result (delivery_of label done.old)
        hand.old hand.new }
{
    drop(label);
    let saw = hear(site, hand, &taken);
    complete(site, hand, taken, done, saw)
}
