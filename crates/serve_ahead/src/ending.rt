//! How an `ahead` that is at hand completes without its first child.
ghost use Rattle.std.specs.Prelude.{◌≡◌, false, None, Some, is_some};
ghost use Rattle.std.specs.Thread.{IsSync};
ghost use Rattle.exec_value.specs.declared.outcome.Completion.TheVariants.{NoMemory};
ghost use Rattle.plan_rules.specs.Images.{value_data};
ghost use Rattle.serve_ahead.specs.Takes.{HasAtHand};
ghost use Rattle.serve_ahead.specs.Ends.{Serves, RestsAfter};

use crate::taking::AheadAt;
use exec_recv::{Item, Parcel, Site, Stepper};
use exec_value::Completion;
use node_walks::{Mail, go_after};
use op_slot::Hand;
use std::sync::Wait;
use step_parts::{Taken, complete, want_memory};

/// Whether it completed with a value.
pub fn is_value(parcel: &Parcel) -> bool
    ensures { result ≡ is_some (value_data parcel.now.completion) }
{
    matches!(parcel.completion(), Completion::Value(_))
}

/// Completes the `ahead` as its second child did, which has no value.
///
/// Step: those of `complete`, and of `go_after`.
/// Needs: the hand has the `ahead` at hand, and nothing besides.
/// Afterwards: the hand is at rest. All else that its view says is as it was when the hand took up
/// the `ahead`, but for requests that it has seen and the list of its steps.
pub fn fail_ahead<T: Stepper, M: Mail, R: Wait + Sync>(
    site: &Site<R, T>,
    hand: &mut Hand<Item>,
    at: AheadAt,
    taken: Taken,
    parcel: Parcel,
    mail: &mut M,
)
    requires sync { IsSync R.row }
    requires has { HasAtHand site.now at taken (Some parcel) hand.old }
    requires fails { is_some (value_data parcel.completion) ≡ false }
    ensures serves { Serves site.now taken parcel.completion parcel.saw hand.old hand.new }
    ensures mail { M.keeps mail.old mail.new }
    ensures rests { RestsAfter site.now taken.from hand.new }
{
    let saw = parcel.saw();
    let mut done = parcel.into_completion();
    let next = complete(site, hand, taken, &mut done, saw);
    go_after(site, hand, at.name, next, mail);
}

/// Completes the `ahead` with want of memory.
///
/// Step, Needs, Afterwards: as `fail_ahead`.
pub fn give_up<T: Stepper, M: Mail, R: Wait + Sync>(
    site: &Site<R, T>,
    hand: &mut Hand<Item>,
    at: AheadAt,
    taken: Taken,
    mail: &mut M,
)
    requires sync { IsSync R.row }
    requires has { HasAtHand site.now at taken None hand.old }
    ensures serves { Serves site.now taken NoMemory false hand.old hand.new }
    ensures mail { M.keeps mail.old mail.new }
    ensures rests { RestsAfter site.now taken.from hand.new }
{
    let next = want_memory(site, hand, taken);
    go_after(site, hand, at.name, next, mail);
}
