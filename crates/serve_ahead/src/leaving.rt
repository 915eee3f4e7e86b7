//! How an `ahead` that is at hand goes on later.
ghost use Rattle.std.specs.Prelude.{None};
ghost use Rattle.std.specs.Thread.{IsSync};
ghost use Rattle.serve_ahead.specs.Takes.{HasAtHand};
ghost use Rattle.serve_ahead.specs.Ends.{PutsBack, BeginsSecond, RestsAfter};

use crate::taking::{AheadAt, Served};
use exec_recv::{Item, Site, Stepper};
use node_walks::{Mail, go_after};
use op_slot::Hand;
use std::sync::Wait;
use step_parts::{Taken, leave_parked, start_again};

/// Parks the `ahead` again, with what the hand has of it.
///
/// Step: those of `leave_parked`, and of `go_after`.
/// Needs: the hand has the `ahead` at hand, and nothing besides.
/// Afterwards: the hand is at rest. All else that its view says is as it was when the hand took up
/// the `ahead`, but for requests that it has seen and the list of its steps.
pub fn put_back<T: Stepper, M: Mail, R: Wait + Sync>(
    site: &Site<R, T>,
    hand: &mut Hand<Item>,
    at: AheadAt,
    served: Served,
    mail: &mut M,
)
    requires sync { IsSync R.row }
    requires has { HasAtHand site.now at served.taken served.second hand.old }
    ensures back { PutsBack site.now served hand.old hand.new }
    ensures mail { M.keeps mail.old mail.new }
    ensures rests { RestsAfter site.now served.taken.from hand.new }
{
    let Served { taken, second } = served;
    let next = leave_parked(site, hand, taken, second);
    go_after(site, hand, at.name, next, mail);
}

/// Starts the second child of the `ahead`, with the arguments of the `ahead`. Where it has begun,
/// which doesn't come, the `ahead` goes on later; where there is no memory for it, the `ahead`
/// completes so.
///
/// Step: those of `start_again`, and of `go_after`.
/// Needs, Afterwards: as `put_back`.
pub fn begin_second<T: Stepper, M: Mail, R: Wait + Sync>(
    site: &Site<R, T>,
    hand: &mut Hand<Item>,
    at: AheadAt,
    taken: Taken,
    mail: &mut M,
)
    requires sync { IsSync R.row }
    requires has { HasAtHand site.now at taken None hand.old }
    ensures begins { BeginsSecond site.now taken at.second hand.old hand.new }
    ensures mail { M.keeps mail.old mail.new }
    ensures rests { RestsAfter site.now taken.from hand.new }
{
    let asked = taken.asked();
    let next = start_again(site, hand, taken, at.second, asked);
    go_after(site, hand, at.name, next, mail);
}
