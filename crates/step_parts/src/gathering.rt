//! How a step gathers what a child completed with, where that lies.
ghost use Rattle.std.specs.Prelude.{◌≡◌, true};
ghost use Rattle.node_tree.specs.Tree.{is_child};
ghost use Rattle.step_parts.specs.Takes.{GathersChild, IsOpen};

use crate::taken::Taken;
use crate::taking::empty;
use exec_recv::{Item, Site};
use home_items::Gathers;
use life_rules::Name;
use op_slot::Hand;
use plan_rules::NodeId;

/// Empties the home of a child of the node, as `take_child` does. What the child completed with is
/// gathered where it lies. False where nothing lay in the home; then nothing is gathered.
#[inline(always)]
pub fn gather_child<R, G, A: Gathers>(
    site: &Site<R, G>,
    hand: &mut Hand<Item>,
    taken: &Taken,
    child: NodeId,
    all: &mut A,
) -> bool
    requires child { is_child site.now.frame.tree taken.now.name.node child ≡ true }
    requires opened { IsOpen site.now taken.now hand.old }
    ensures { GathersChild site.now taken.now A.adds child all.old all.new result
        hand.old hand.new }
{
    let below = Name {
        node: child,
        ..taken.name
    };
    match hand.home_mut(site.table, below) {
        Some(home) => match home {
            Some(item) => {
                item.give_to(site.alloc, all);
                empty(home);
                true
            }
            None => false,
        },
        None => unreachable!(),
    }
}
