//! How a callback is removed ([stopcallback.inplace.cons], the destructor).
ghost use Rattle.std.specs.Prelude.{◌≢◌};
ghost use Rattle.table_steps.specs.Hearings.{UnderScope};
ghost use Rattle.table_steps.specs.Views.{IsHandOf, IsPlaceIn, Stays};
ghost use Rattle.stop_calls.specs.declared.removing.Withdrawn.TheVariants.{Running};
ghost use Rattle.stop_calls.specs.Removals.{MayWithdraw, IsTried, IsSettled};

use life_rules::{CallbackPhase, Name};
use op_slot::{Cargo, Hand, OpTable};
use std::sync::Wait;
use std::thread::yield_now;

/// What a try to remove a callback found.
#[derive(Clone, Copy, Debug, PartialEq, Eq)]
pub enum Withdrawn {
    /// It was armed: it never ran, and never will.
    NeverRan,
    /// It ran to its end.
    Ran,
    /// This hand runs it: it is removed from inside, and the run is over.
    OwnHand,
    /// Another hand runs it: it isn't removed.
    Running,
}

/// What became of a callback that was removed.
#[derive(Clone, Copy, Debug, PartialEq, Eq)]
pub enum Settled {
    /// It never ran, and never will.
    NeverRan,
    /// It ran to its end.
    Ran,
    /// This hand ran it: it was removed from inside.
    OwnHand,
}

/// Removes the node's callback, once. OwnHand exactly where this hand runs it; else by the phase
/// that was read: NeverRan exactly where it was armed, Ran exactly where it ran, and Running
/// exactly where another hand runs it: then nothing changed, and the caller tries again later.
///
/// Step: one exchange of the node's callback word, armed to removed; or, from inside the callback,
/// one swap, running to removed.
/// Needs: the hand holds the node, and has read that its callback was registered. From inside: it
/// makes no scan of the node's own source.
/// Afterwards: but for Running, the callback doesn't run, and never will. Hand 0 doesn't answer
/// Running under the scope, whose callbacks no other hand runs.
pub fn try_withdraw<P: Cargo>(table: &OpTable<P>, hand: &mut Hand<P>, node: Name) -> Withdrawn
    requires table { IsHandOf table.now hand.old }
    requires place { IsPlaceIn table.now node }
    requires needs { MayWithdraw hand.old.me.0 node }
    ensures stays { Stays table.now hand.old hand.new }
    ensures tried { IsTried table.now node hand.old hand.new result }
    ensures scope { UnderScope table.now.frame.tree hand.old.me.0 node (result ≢ Running) }
{
    if table.runs(hand, node) {
        table.withdraw_own_step(hand, node);
        return Withdrawn::OwnHand;
    }
    match table.withdraw_step(hand, node) {
        CallbackPhase::Armed => Withdrawn::NeverRan,
        CallbackPhase::Running => Withdrawn::Running,
        CallbackPhase::Ran => Withdrawn::Ran,
        CallbackPhase::Never | CallbackPhase::Removed => unreachable!(),
    }
}

/// Removes the node's callback. While another hand runs it, this waits for the end of that run
/// ([stopcallback.inplace.cons]); what is promised holds if it returns.
///
/// Step: those of `try_withdraw`, as long as the answer is Running.
/// Needs: as `try_withdraw`.
/// Afterwards: the callback doesn't run, and never will. Under the scope hand 0 has tried once.
#[inline(never)]
pub fn withdraw<P: Cargo, R: Wait>(
    rt: &R,
    table: &OpTable<P>,
    hand: &mut Hand<P>,
    node: Name,
) -> Settled
    requires table { IsHandOf table.now hand.old }
    requires place { IsPlaceIn table.now node }
    requires needs { MayWithdraw hand.old.me.0 node }
    ensures stays { Stays table.now hand.old hand.new }
    ensures settled { IsSettled table.now node hand.old hand.new result }
{
    for _ in rt.forever() {
        match try_withdraw(table, hand, node) {
            Withdrawn::NeverRan => return Settled::NeverRan,
            Withdrawn::Ran => return Settled::Ran,
            Withdrawn::OwnHand => return Settled::OwnHand,
            Withdrawn::Running => yield_now(),
        }
    }
    unreachable!()
}
