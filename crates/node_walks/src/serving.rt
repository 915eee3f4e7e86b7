//! How a node that is ready is taken, and gone on with.
ghost use Rattle.std.specs.Prelude.{◌≡◌, ◌<◌, true, false, IfSome, IfNone};
ghost use Rattle.std.specs.Thread.{IsSync};
ghost use Rattle.table_steps.specs.Views.{IsHandOf, IsPlaceIn, Stays, knows};
ghost use Rattle.table_steps.specs.Takes.{MayServe, resting_in};
ghost use Rattle.exec_recv.specs.Asides.{KeepsAside};
ghost use Rattle.exec_recv.specs.Sites.{IsSite};
ghost use Rattle.node_walks.specs.Mails.{HearsAll};
ghost use Rattle.node_walks.specs.Resting.{IsAtRest};
ghost use Rattle.node_walks.specs.Since.{OnlyLooks};
ghost use Rattle.node_walks.specs.Serving.{OnlyServes, ServesNode, TakesUp, WasMissed, WasUnready};

use crate::mail::Mail;
use crate::walking::go_on;
use exec_recv::{Item, Point, Site, Stepper};
use life_rules::{Name, Resting};
use node_tree::Context;
use op_slot::{Hand, OpTable};
use std::sync::Wait;

// What is ready in the context rests there.
fn resting(on: Context) -> Resting
    ensures { result ≡ resting_in on }
{
    match on {
        Context::Loop => Resting::Loop,
        Context::Pool => Resting::Pool,
    }
}

// Takes the node where it rests there. False only where its word that was read said something else.
fn take_up(table: &OpTable<Item>, hand: &mut Hand<Item>, name: Name, from: Resting) -> bool
    requires hand { IsHandOf table.now hand.old }
    requires place { IsPlaceIn table.now name }
    requires serves { MayServe from (knows hand.old) }
    ensures stays { Stays table.now hand.old hand.new }
    ensures taken { TakesUp table.now name from result hand.old.me hand.new.me }
{
    match from {
        Resting::Loop => table.take(hand, name, Context::Loop),
        Resting::Pool => table.take(hand, name, Context::Pool),
        Resting::Parked => table.take_parked(hand, name),
    }
}

/// Takes the node where it rests there, and goes on with it. False only where its word that was
/// read said something else.
///
/// Step: that of `take`, or of `take_parked`, and where it took the node those of `go_on`.
/// Needs: the hand is at rest. What is parked or ready in the loop only hand 0 takes.
/// Afterwards: the hand is at rest. It did nothing beside that. The mail heard of what `go_on`
/// says, and where no node was taken of nothing. All else that its view says is as before, but for
/// requests that it has seen and the list of its steps.
pub fn serve<T: Stepper, M: Mail, R: Wait + Sync>(
    site: &Site<R, T>,
    hand: &mut Hand<Item>,
    mail: &mut M,
    name: Name,
    from: Resting,
) -> bool
    requires sync { IsSync R.row }
    requires hand { IsHandOf site.now hand.old }
    requires site { IsSite site.now }
    requires place { IsPlaceIn site.now name }
    requires serves { MayServe from (knows hand.old) }
    requires rests { IsAtRest (knows hand.old) }
    ensures stays { Stays site.now hand.old hand.new }
    ensures rests { IsAtRest (knows hand.new) }
    ensures aside { KeepsAside hand.old.me hand.new.me }
    ensures served { result ≡ true →
        ServesNode T.does site.now from name hand.old.me hand.new.me }
    ensures only { result ≡ true → HearsAll M.hears mail.old mail.new
        (OnlyServes T.does site.now from name hand.old.me hand.new.me) }
    ensures missed { result ≡ false → WasMissed site.now hand.old.me hand.new.me from name }
    ensures looks { result ≡ false → OnlyLooks hand.old.me hand.new.me }
    ensures unheard { result ≡ false → mail.new ≡ mail.old }
    ensures mail { M.keeps mail.old mail.new }
{
    site.pass(Point::Take(name));
    if !take_up(site.table, hand, name, from) {
        return false;
    }
    go_on(site, hand, name, mail);
    true
}

/// Takes the node of the block, where it is ready in the context, and goes on with it. None only
/// where its word that was read says that it isn't; and then the call moved no word. The name that
/// is answered is that of this node. One that another hand took between the look and the take is
/// looked at again.
///
/// Step: one load of its word, and where that says that it is ready those of `serve`; so again,
/// where another hand was first.
/// Needs, Afterwards: as `serve`.
pub fn serve_place<T: Stepper, M: Mail, R: Wait + Sync>(
    site: &Site<R, T>,
    hand: &mut Hand<Item>,
    mail: &mut M,
    block: u32,
    node: u32,
    on: Context,
) -> Option<Name>
    requires sync { IsSync R.row }
    requires hand { IsHandOf site.now hand.old }
    requires site { IsSite site.now }
    requires block { block < site.now.frame.layout.blocks }
    requires node { node < site.now.frame.layout.nodes }
    requires serves { MayServe (resting_in on) (knows hand.old) }
    requires rests { IsAtRest (knows hand.old) }
    ensures stays { Stays site.now hand.old hand.new }
    ensures rests { IsAtRest (knows hand.new) }
    ensures aside { KeepsAside hand.old.me hand.new.me }
    ensures served { IfSome result (λ name.
        ServesNode T.does site.now (resting_in on) name hand.old.me hand.new.me) }
    ensures only { IfSome result (λ name. HearsAll M.hears mail.old mail.new
        (OnlyServes T.does site.now (resting_in on) name hand.old.me hand.new.me)) }
    ensures there { IfSome result (λ name. (name.block ≡ block) × (name.node ≡ node)) }
    ensures unready { IfNone result (WasUnready site.now hand.old.me hand.new.me on block node) }
    ensures looks { IfNone result (OnlyLooks hand.old.me hand.new.me) }
    ensures unheard { IfNone result (mail.new ≡ mail.old) }
    ensures mail { M.keeps mail.old mail.new }
{
    let from = resting(on);
    for _ in site.rt.forever() {
        match site.table.ready_at(hand, block, node, on) {
            None => return None,
            Some(name) => {
                if serve(site, hand, mail, name, from) {
                    return Some(name);
                }
            }
        }
    }
    unreachable!()
}
