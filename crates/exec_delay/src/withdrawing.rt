//! How a `delay` that goes on removes its callback ([stopcallback.inplace.cons]).
ghost use Rattle.std.specs.Prelude.{◌≡◌};
ghost use Rattle.table_steps.specs.Callbacks.{is_registered};
ghost use Rattle.step_parts.specs.Takes.{IsTaken, Keeps};
ghost use Rattle.exec_delay.specs.Withdraws.{did_run, Removes, Withdraws};

use life_rules::CallbackPhase;
use op_slot::Hand;
use std::sync::Wait;
use step_parts::{Gate, Item, Point, Site, Taken};
use stop_calls::{Settled, source_above, withdraw};

// The callback was registered, and wasn't removed.
fn is_registered(phase: CallbackPhase) -> bool
    ensures { result ≡ is_registered phase }
{
    match phase {
        CallbackPhase::Armed | CallbackPhase::Running | CallbackPhase::Ran => true,
        CallbackPhase::Never | CallbackPhase::Removed => false,
    }
}

// The callback ran to its end before it was removed.
fn did_run(settled: Settled) -> bool
    ensures { result ≡ did_run settled }
{
    matches!(settled, Settled::Ran)
}

// Reads the callback's word, and removes the callback where it is registered.
fn withdraw_registered<R: Wait, G: Gate>(
    site: &Site<R, G>,
    hand: &mut Hand<Item>,
    taken: &Taken,
) -> bool
    requires taken { IsTaken site.now taken.now hand.old }
    ensures keeps { Keeps site.now taken.now hand.old hand.new }
    ensures removes { Removes site.now taken.now.name result hand.old hand.new }
{
    let name = taken.name();
    let phase = site.table.phase_of(hand, name);
    if !is_registered(phase) {
        return false;
    }
    site.pass(Point::Withdraw(name));
    let settled = withdraw(site.rt, site.table, hand, name);
    did_run(settled)
}

/// Removes the node's callback, where the node hears a source. True where the callback ran: then a
/// stop was requested there. While another hand runs it, this waits.
///
/// Step: where the node hears a source, one load of the callback's word; and where that says that
/// it is registered, the gate is passed, and then those of `withdraw`.
/// Afterwards: where the callback ran, the request is seen. Where it didn't, it never will.
pub(crate) fn withdraw_callback<R: Wait, G: Gate>(
    site: &Site<R, G>,
    hand: &mut Hand<Item>,
    taken: &Taken,
) -> bool
    requires taken { IsTaken site.now taken.now hand.old }
    ensures keeps { Keeps site.now taken.now hand.old hand.new }
    ensures withdraws { Withdraws site.now taken.now.name result hand.old hand.new }
{
    match source_above(site.table.tree(), taken.name()) {
        Some(_) => withdraw_registered(site, hand, taken),
        None => false,
    }
}
