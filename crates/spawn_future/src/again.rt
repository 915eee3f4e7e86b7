//! How an `ahead` is taken up again, whose first child has an operation of its own.
ghost use Rattle.std.specs.Thread.{IsSync};
ghost use Rattle.serve_ahead.specs.Ends.{RestsAfter};
ghost use Rattle.serve_ahead.specs.Spawned.{IsOperation};
ghost use Rattle.spawn_future.specs.Serves.{MayServeAgain, CompletesOrLater, StartsOrLater};

use exec_recv::{Item, Site, Stepper};
use node_walks::{Ended, Mail};
use op_slot::Hand;
use serve_ahead::{AheadAt, Served, begin_second, join_both, put_back, take_ahead};
use std::sync::Wait;

/// Takes the `ahead` whose first child's operation runs, and starts its second child.
pub(crate) fn begin_again<T: Stepper, M: Mail, R: Wait + Sync>(
    site: &Site<R, T>,
    hand: &mut Hand<Item>,
    at: AheadAt,
    mail: &mut M,
)
    requires sync { IsSync R.row }
    requires may { MayServeAgain site.now at hand.old }
    ensures starts { StartsOrLater site.now at hand.old hand.new }
    ensures rests { RestsAfter site.now hand.old hand.new }
    ensures mail { M.keeps mail.old mail.new }
{
    match take_ahead(site, hand, at) {
        None => {}
        Some(served) => {
            let Served { taken, second } = served;
            match second {
                None => begin_second(site, hand, at, taken, mail),
                Some(parcel) => {
                    let second = Some(parcel);
                    put_back(site, hand, at, Served { taken, second }, mail);
                }
            }
        }
    }
}

/// Takes the `ahead` whose first child's operation was ended, and completes it.
pub(crate) fn join_again<T: Stepper, M: Mail, R: Wait + Sync>(
    site: &Site<R, T>,
    hand: &mut Hand<Item>,
    at: AheadAt,
    ended: Ended,
    mail: &mut M,
)
    requires sync { IsSync R.row }
    requires may { MayServeAgain site.now at hand.old }
    requires ended { IsOperation site.now ended }
    ensures joins { CompletesOrLater site.now at hand.old hand.new ended }
    ensures rests { RestsAfter site.now hand.old hand.new }
    ensures mail { M.keeps mail.old mail.new }
{
    match take_ahead(site, hand, at) {
        None => drop(ended),
        Some(served) => {
            let Served { taken, second } = served;
            match second {
                Some(parcel) => join_both(site, hand, at, taken, parcel, ended, mail),
                None => {
                    drop(ended);
                    let second = None;
                    put_back(site, hand, at, Served { taken, second }, mail);
                }
            }
        }
    }
}
