//! How an `ahead` that is at hand completes with what both its children came to.
ghost use Rattle.std.specs.Prelude.{◌≡◌, true, false, ◌||◌, Some, IfSome};
ghost use Rattle.std.specs.Thread.{IsSync};
ghost use Rattle.plan_rules.specs.declared.node.Node.TheVariants.{Ahead};
ghost use Rattle.plan_rules.specs.Images.{value_data};
ghost use Rattle.plan_rules.specs.Settle.{ahead_of};
ghost use Rattle.home_items.specs.Entries.{plan_of, carried_of, record_number, asked_of, child_of};
ghost use Rattle.home_items.specs.Starts.{IsReceiverStart};
ghost use Rattle.start_laws.specs.Nodes.{IsStartOf};
ghost use Rattle.step_parts.specs.Takes.{IsTaken, Keeps};
ghost use Rattle.serve_ahead.specs.Takes.{HasAtHand};
ghost use Rattle.serve_ahead.specs.Spawned.{HasRoom, IsJoined, IsOperation, IsSpawnedFor};
ghost use Rattle.serve_ahead.specs.Ends.{Joins, RestsAfter};

use crate::ending::give_up;
use crate::taking::AheadAt;
use exec_recv::{Env, Item, Parcel, Site, Stepper};
use exec_value::{Completion, Data};
use node_images::put_behind;
use node_walks::{Collected, Ended, Mail, go_after};
use op_slot::Hand;
use plan_rules::NodeId;
use std::alloc::AllocError;
use std::sync::Wait;
use step_parts::{Taken, complete, hear};

// Whether the operation of this environment runs this child.
fn names_child(other: &Env, first: NodeId) -> bool
    ensures { result ≡ true → child_of other.now ≡ Some first }
{
    match other.child() {
        Some(child) => child == first,
        None => false,
    }
}

// Whether both are of one record, with the same of `asked`.
fn is_of_record(taken: &Taken, other: &Env) -> bool
    ensures number { result ≡ true → record_number other.now ≡ record_number taken.now.start }
    ensures asked { result ≡ true → asked_of other.now ≡ asked_of taken.now.start }
{
    other.number() == taken.number() && other.asked() == taken.asked()
}

// Whether both run with the same data.
fn has_args<R, G>(site: &Site<R, G>, hand: &mut Hand<Item>, taken: &Taken, other: &Env) -> bool
    requires taken { IsTaken site.now taken.now hand.old }
    ensures keeps { Keeps site.now taken.now hand.old hand.new }
    ensures same { result ≡ true → carried_of other.now ≡ carried_of taken.now.start }
{
    match hand.item_mut(site.table, taken.name()) {
        Some(item) => {
            let theirs = other.args();
            let own = item.args();
            theirs == own
        }
        None => unreachable!(),
    }
}

// Whether the first child's operation was started for this record, with these arguments. It was:
// but no clause of the table says that a node's start stays while the node rests.
fn is_first_of<R, G>(
    site: &Site<R, G>,
    hand: &mut Hand<Item>,
    at: AheadAt,
    taken: &Taken,
    other: &Env,
) -> bool
    requires taken { IsTaken site.now taken.now hand.old }
    requires of { IsStartOf taken.now.start (Ahead at.first at.second) }
    requires receiver { IsReceiverStart other.now }
    requires plan { plan_of other.now ≡ plan_of taken.now.start }
    ensures keeps { Keeps site.now taken.now hand.old hand.new }
    ensures same { result ≡ true → IsSpawnedFor taken.now.start at.first other.now }
{
    if !names_child(other, at.first) {
        return false;
    }
    if !is_of_record(taken, other) {
        return false;
    }
    has_args(site, hand, taken, other)
}

// So it was; and what it saw of a request this hand has heard of.
fn may_join<R, G>(
    site: &Site<R, G>,
    hand: &mut Hand<Item>,
    at: AheadAt,
    taken: &Taken,
    other: &Env,
    saw: bool,
    heard: bool,
) -> bool
    requires taken { IsTaken site.now taken.now hand.old }
    requires of { IsStartOf taken.now.start (Ahead at.first at.second) }
    requires receiver { IsReceiverStart other.now }
    requires plan { plan_of other.now ≡ plan_of taken.now.start }
    ensures keeps { Keeps site.now taken.now hand.old hand.new }
    ensures same { result ≡ true → IsSpawnedFor taken.now.start at.first other.now }
    ensures heard { result ≡ true → heard ≡ false → saw ≡ false }
{
    if saw && !heard {
        return false;
    }
    is_first_of(site, hand, at, taken, other)
}

// One of both saw a request.
fn either(one: bool, other: bool) -> bool
    ensures { result ≡ one || other }
{
    one || other
}

// What the first child completed with, with these values behind its own; None where there is no
// memory.
fn with_values(first: Completion, values: Data) -> Option<Completion>
    requires { HasRoom first values }
    ensures { IfSome result (λ done. done ≡ ahead_of first (Completion.Value values)) }
{
    let mut done = first;
    match put_behind(values, &mut done) {
        Ok(()) => Some(done),
        Err(AllocError) => None,
    }
}

/// What an `ahead` completes with.
#[derive(Drop)]
pub(crate) struct Joined {
    pub(crate) done: Completion,
    /// Whether one of both children saw a request.
    pub(crate) saw: bool,
}

// What the `ahead` completes with, by what its second child and its first child's operation came
// to. None where there is no memory for it.
fn put_together(parcel: Parcel, first: Completion, saw: bool) -> Option<Joined>
    requires { IfSome (value_data parcel.completion) (HasRoom first) }
    ensures { IfSome result (IsJoined parcel first saw) }
{
    let own = parcel.saw();
    match parcel.into_completion() {
        Completion::Value(values) => match with_values(first, values) {
            Some(done) => Some(Joined {
                done,
                saw: either(own, saw),
            }),
            None => None,
        },
        failure => Some(Joined {
            done: failure,
            saw: own,
        }),
    }
}

/// Completes the `ahead` by what its second child and its first child's operation came to: with the
/// second's failure, else with the first's, else with the values of both. Where there is no memory
/// for it, with want of memory; and where that operation was started for another record, or saw a
/// request that this hand hasn't heard of, which doesn't come.
///
/// Step: one load of the source that the `ahead` hears, those of `complete`, and of `go_after`.
/// Needs: as `fail_ahead`. The operation was started with a start of the receiver node of the
/// table's plan, and completed with what is allowed for the child that this names.
/// Afterwards: as `fail_ahead`.
pub fn join_both<T: Stepper, M: Mail, R: Wait + Sync>(
    site: &Site<R, T>,
    hand: &mut Hand<Item>,
    at: AheadAt,
    taken: Taken,
    parcel: Parcel,
    ended: Ended,
    mail: &mut M,
)
    requires sync { IsSync R.row }
    requires has { HasAtHand site.now at taken (Some parcel) hand.old }
    requires ended { IsOperation site.now ended }
    ensures joins { Joins site.now taken parcel ended hand.old hand.new }
    ensures mail { M.keeps mail.old mail.new }
    ensures rests { RestsAfter site.now taken.from hand.new }
{
    let heard = hear(site, hand, &taken);
    let Ended { env, collected } = ended;
    let Collected {
        number: _,
        completion,
        saw,
    } = collected;
    if !may_join(site, hand, at, &taken, &env, saw, heard) {
        give_up(site, hand, at, taken, mail);
        return;
    }
    match put_together(parcel, completion, saw) {
        Some(joined) => {
            let Joined { mut done, saw } = joined;
            let next = complete(site, hand, taken, &mut done, saw);
            go_after(site, hand, at.name, next, mail);
        }
        None => give_up(site, hand, at, taken, mail),
    }
}
