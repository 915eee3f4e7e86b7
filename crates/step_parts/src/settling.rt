//! How a node's callback is settled before the node completes ([stopcallback.inplace.cons]).
ghost use Rattle.std.specs.Prelude.{◌≡◌, true, false};
ghost use Rattle.table_steps.specs.Callbacks.{is_registered};
ghost use Rattle.table_steps.specs.Finishes.{is_settled};
ghost use Rattle.table_steps.specs.Views.{knows};
ghost use Rattle.stop_calls.specs.Removals.{MayWithdraw};
ghost use Rattle.step_parts.specs.Settles.{HasSettled};
ghost use Rattle.step_parts.specs.Takes.{IsTaken, Keeps};

use crate::taken::Taken;
use exec_recv::{Gate, Item, Point, Site};
use life_rules::CallbackPhase;
use op_slot::Hand;
use std::sync::Wait;
use stop_calls::withdraw;

// A callback that was read so may run still.
#[inline(always)]
fn must_withdraw(phase: CallbackPhase) -> bool
    ensures yes { result ≡ true → is_registered phase ≡ true }
    ensures no { result ≡ false → is_settled phase ≡ true }
{
    matches!(phase, CallbackPhase::Armed | CallbackPhase::Running)
}

/// Removes the node's callback, where it is armed or runs. While another hand runs it, this waits.
///
/// Step: one load of the callback's word. Where that says armed or running, the gate is passed, and
/// then those of `withdraw`.
/// Afterwards: the callback never was, ran, or was removed, as the hand has read.
#[inline(always)]
pub fn settle<R: Wait, G: Gate>(site: &Site<R, G>, hand: &mut Hand<Item>, taken: &Taken)
    requires taken { IsTaken site.now taken.now hand.old }
    ensures keeps { Keeps site.now taken.now hand.old hand.new }
    ensures settled { HasSettled taken.now.name hand.new.me }
{
    let phase = site.table.phase_of(hand, taken.name);
    if must_withdraw(phase) {
        remove(site, hand, taken);
    }
}

// Removes the callback, which may run still, past the gate.
#[inline(always)]
fn remove<R: Wait, G: Gate>(site: &Site<R, G>, hand: &mut Hand<Item>, taken: &Taken)
    requires taken { IsTaken site.now taken.now hand.old }
    requires may { MayWithdraw (knows hand.old) taken.now.name }
    ensures keeps { Keeps site.now taken.now hand.old hand.new }
    ensures settled { HasSettled taken.now.name hand.new.me }
{
    site.pass(Point::Withdraw(taken.name));
    let _settled = withdraw(site.rt, site.table, hand, taken.name);
}
