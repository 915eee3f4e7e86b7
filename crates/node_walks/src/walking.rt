//! How a hand goes on from one node to the next.
ghost use Rattle.std.specs.Prelude.{◌≡◌};
ghost use Rattle.std.specs.Thread.{IsSync};
ghost use Rattle.table_steps.specs.Views.{IsHandOf, Stays, knows};
ghost use Rattle.exec_recv.specs.Asides.{KeepsAside};
ghost use Rattle.exec_recv.specs.Sites.{IsSite};
ghost use Rattle.node_walks.specs.Mails.{HearsAll, HearsEach, ready_after};
ghost use Rattle.node_walks.specs.Resting.{IsAtRest, OwesOnly, CanGoOn, GoesOn};
ghost use Rattle.node_walks.specs.Stepped.{HasStepped, OnlySteps, WasStepped};
ghost use Rattle.node_walks.specs.Walks.{FindsOwed, LeadsTo, WalksOn};

use crate::mail::Mail;
use exec_recv::{Item, Next, Site, Stepper};
use life_rules::Name;
use node_tree::Context;
use op_slot::Hand;
use std::sync::Wait;

// Begins a node whose start the hand owes. None exactly where it owes none.
#[inline(always)]
fn begin_owed<R, T>(site: &Site<R, T>, hand: &mut Hand<Item>) -> Option<Name>
    requires hand { IsHandOf site.now hand.old }
    requires site { IsSite site.now }
    requires owes { OwesOnly site.now hand.old.me }
    ensures stays { Stays site.now hand.old hand.new }
    ensures aside { KeepsAside hand.old.me hand.new.me }
    ensures next { GoesOn site.now result hand.new.me }
    ensures finds { FindsOwed site.now result hand.old.me hand.new.me }
{
    let name = site.table.owed(hand)?;
    site.table.begin(hand, name);
    Some(name)
}

// After a step of the node: the hand may step the node that is answered; with none it is at rest.
#[inline(always)]
fn find_next<T: Stepper, M: Mail, R: Wait + Sync>(
    site: &Site<R, T>,
    hand: &mut Hand<Item>,
    name: Name,
    next: Next,
    mail: &mut M,
) -> Option<Name>
    requires sync { IsSync R.row }
    requires hand { IsHandOf site.now hand.old }
    requires site { IsSite site.now }
    requires after { WasStepped site.now name next hand.old.me }
    ensures stays { Stays site.now hand.old hand.new }
    ensures aside { KeepsAside hand.old.me hand.new.me }
    ensures next { GoesOn site.now result hand.new.me }
    ensures follows { LeadsTo site.now name next result hand.old.me hand.new.me }
    ensures mail { M.keeps mail.old mail.new }
    ensures heard { HearsEach M.hears (ready_after name next) mail.old mail.new }
{
    match next {
        Next::Go(node) => Some(Name { node, ..name }),
        Next::InLoop => {
            mail.ready(site.rt, name, Context::Loop);
            begin_owed(site, hand)
        }
        Next::InPool => {
            mail.ready(site.rt, name, Context::Pool);
            begin_owed(site, hand)
        }
        Next::Rest | Next::Parked => begin_owed(site, hand),
    }
}

/// Goes on after a step of the node that was made elsewhere and left it so: it steps the node that
/// Go names, and where there is none begins one whose start it owes and steps that, until it owes
/// none. What is said of `go_on` is said of this.
///
/// Step: those of the steps, and of the begins.
/// Needs: before that step the hand might step the node, and had nothing besides but starts that it
/// owed, none of a root; and the step ended as a step does.
/// Afterwards: each step since was one of the stepper's, and each node with which the hand went on
/// was named by the last step, or began, where the hand owed its start. The mail heard of each node
/// that one of these steps left ready, that first one included, in their order, and of nothing
/// else. The hand is at rest. All else that its view says is as before, but for requests that it
/// has seen and the list of its steps.
pub fn go_after<T: Stepper, M: Mail, R: Wait + Sync>(
    site: &Site<R, T>,
    hand: &mut Hand<Item>,
    name: Name,
    next: Next,
    mail: &mut M,
)
    requires sync { IsSync R.row }
    requires hand { IsHandOf site.now hand.old }
    requires site { IsSite site.now }
    requires after { WasStepped site.now name next hand.old.me }
    ensures stays { Stays site.now hand.old hand.new }
    ensures walks { HearsAll M.hears mail.old mail.new
        (WalksOn T.does site.now name next hand.old.me hand.new.me) }
    ensures rests { IsAtRest (knows hand.new) }
    ensures aside { KeepsAside hand.old.me hand.new.me }
    ensures mail { M.keeps mail.old mail.new }
{
    let mut last = name;
    let mut ended = next;
    for _ in site.rt.forever() {
        match ended {
            Next::Go(node) => {
                let going = Name { node, ..last };
                ended = T::step(site, hand, going);
                last = going;
            }
            _ => match find_next(site, hand, last, ended, mail) {
                Some(going) => {
                    ended = T::step(site, hand, going);
                    last = going;
                }
                None => return,
            },
        }
    }
    unreachable!()
}

/// Steps the node, and goes on: it steps the node that Go names, and where there is none begins one
/// whose start it owes and steps that, until it owes none. Names of nodes that were left ready go
/// to the mail. What is promised holds if it returns: no contract of a stepper says that the steps
/// of a plan's operations end.
///
/// Step: those of the steps, and of the begins.
/// Needs: the hand may step the node, and has nothing besides but starts that it owes, each of
/// which can begin, and none of a root. Afterwards: the stepper has stepped the node, and each step
/// since was one of the stepper's; each node with which the hand went on was named by the last
/// step, or began, where the hand owed its start. It did nothing else. The mail heard of each node
/// that one of these steps left ready, in their order, and of nothing else. The hand is at rest.
/// All else that its view says is as before, but for requests that it has seen and the list of its
/// steps.
pub fn go_on<T: Stepper, M: Mail, R: Wait + Sync>(
    site: &Site<R, T>,
    hand: &mut Hand<Item>,
    name: Name,
    mail: &mut M,
)
    requires sync { IsSync R.row }
    requires hand { IsHandOf site.now hand.old }
    requires site { IsSite site.now }
    requires can { CanGoOn site.now name hand.old.me }
    ensures stays { Stays site.now hand.old hand.new }
    ensures first { HasStepped T.does site.now name hand.old.me hand.new.me }
    ensures only { HearsAll M.hears mail.old mail.new
        (OnlySteps T.does site.now name hand.old.me hand.new.me) }
    ensures rests { IsAtRest (knows hand.new) }
    ensures aside { KeepsAside hand.old.me hand.new.me }
    ensures mail { M.keeps mail.old mail.new }
{
    let next = T::step(site, hand, name);
    go_after(site, hand, name, next, mail);
}
