//! Work on hand 0 beside the workers of a crew.
ghost use Rattle.std.specs.Prelude.{◌≡◌, ◌+◌, ◌<◌, ◌≤◌, All, [], IfNone, IfSome, MatchOption, vec_len, vec_capacity};
ghost use Rattle.std.specs.Thread.{IsSync};
ghost use Rattle.deck_relay.specs.Desks.{KeepsOwn, OnlyPosts};
ghost use Rattle.table_steps.specs.Closings.{claimed_by};
ghost use Rattle.run_workers.specs.Crews.{AreLeft, CanServe, GivesBack, HasServed, IsWith};

use crate::front::Front;
use crate::ground::Ground;
use crate::serving::{Served, serve};
use crate::staff::Staff;
use exec_recv::{Item, Stepper};
use op_slot::{Hand, OpTable};
use std::snapshot::Snapshot;
use std::sync::Wait;
use std::thread;
use std::thread::{Scope, Threads};
use steal_pool::{Desk, Given};

// Takes the last hand, where there is one.
fn take_hand<T: Stepper>(
    table: &OpTable<Item>,
    stepper: &T,
    hands: &mut Vec<Hand<Item>>,
) -> Option<Hand<Item>>
    requires serve { All (CanServe table.now (T.plan stepper.now)) hands.old.items }
    ensures taken { IfSome result (CanServe table.now (T.plan stepper.now)) }
    ensures serve { All (CanServe table.now (T.plan stepper.now)) hands.new.items }
    ensures length { MatchOption result (vec_len hands.new ≡ vec_len hands.old)
        (λ _. vec_len hands.new + 1 ≡ vec_len hands.old) }
    ensures with { IsWith result hands.new.items hands.old.items }
    ensures none { IfNone result (hands.new.items ≡ []) }
    ensures capacity { vec_capacity hands.new ≡ vec_capacity hands.old }
{
    let _ = table;
    let _ = stepper;
    hands.pop()
}

// Takes the last desk, where there is one.
fn take_desk(desks: &mut Vec<Desk>) -> Option<Desk>
    ensures with { IsWith result desks.new.items desks.old.items }
    ensures length { MatchOption result (vec_len desks.new ≡ vec_len desks.old)
        (λ _. vec_len desks.new + 1 ≡ vec_len desks.old) }
    ensures capacity { vec_capacity desks.new ≡ vec_capacity desks.old }
{
    desks.pop()
}

// Puts a desk back as the last, where there is one.
fn put_desk(desks: &mut Vec<Desk>, desk: Option<Desk>)
    requires room { IfSome desk (λ _. vec_len desks.old < vec_capacity desks.old) }
    ensures with { IsWith desk desks.old.items desks.new.items }
    ensures capacity { vec_capacity desks.new ≡ vec_capacity desks.old }
{
    match desk {
        None => {}
        Some(desk) => desks.push_reserved(desk),
    }
}

// Starts a worker for each spare hand, and then works on hand 0. A worker whose thread can't be
// started serves after hand 0 has joined the scope: its last look reads so, and it ends. `helps` is
// true until a thread was started.
fn work_beside<'s, E, W: Front, T: Stepper + Sync, R: Threads + Wait + Sync>(
    scope: &'s Scope<'s, E>,
    ground: Ground<'s, T, R>,
    staff: &mut Staff,
    hand: Hand<Item>,
    own: Option<Desk>,
    front: &mut W,
    helps: bool,
) -> (Hand<Item>, Option<Desk>)
    requires sync { IsSync R.row }
    requires serve { All (CanServe ground.table.now (T.plan ground.stepper.now))
        staff.old.hands.items }
    requires each { vec_len staff.old.backends.backends ≡ vec_len staff.old.hands }
    requires needs { W.needs front.old hand own }
    ensures leaves { W.leaves front.old front.new result.0 }
    ensures served { All (HasServed ground.entry.table.now) staff.new.hands.items }
    ensures claims { claimed_by staff.new.hands.items ≡ claimed_by staff.old.hands.items }
    ensures length { vec_len staff.new.hands ≡ vec_len staff.old.hands }
    ensures room { vec_capacity staff.old.hands ≤ vec_capacity staff.new.hands }
    ensures told { staff.new.backends.told ≡ staff.old.backends.told }
    ensures given { vec_len staff.new.backends.backends ≡ 0 }
    ensures same { AreLeft OnlyPosts staff.old.desks.items staff.new.desks.items }
    ensures shelf { vec_capacity staff.old.desks ≤ vec_capacity staff.new.desks }
    ensures own { KeepsOwn own result.1 }
{
    let Ground {
        rt,
        alloc,
        table,
        stepper,
    } = ground;
    let Some(next) = take_hand(table, stepper, &mut staff.hands) else {
        return front.work(rt, alloc, hand, own, helps);
    };
    let Some(backend) = staff.backends.give() else {
        unreachable!()
    };
    let desk = take_desk(&mut staff.desks);
    let promise = Served {
        table: Snapshot::of(table),
        hand: Snapshot::of(&next),
        desk: Snapshot::of(&desk),
    };
    let started = scope.spawn_with(
        promise,
        move || -> (Hand<Item>, Option<Desk>)
            requires { IsSync R.row × IsSync T.row
                × CanServe table.now (T.plan stepper.now) next }
            ensures { GivesBack table.entry.now next desk result.0 result.1 }
        { serve(rt, alloc, table, stepper, next, backend, desk) },
    );
    let ground = Ground {
        rt,
        alloc,
        table,
        stepper,
    };
    match started {
        Ok(child) => {
            let last = work_beside(scope, ground, staff, hand, own, front, false);
            let (back, same) = child.join(rt);
            staff.hands.push_reserved(back);
            put_desk(&mut staff.desks, same);
            last
        }
        Err(refused) => {
            let last = work_beside(scope, ground, staff, hand, own, front, helps);
            let (served, again) = (refused.value)();
            staff.hands.push_reserved(served);
            put_desk(&mut staff.desks, again);
            last
        }
    }
}

/// Works on hand 0 of the table, beside a worker for each of the other hands, each in a thread of
/// its own, and returns when all of them have ended. A thread that can't be started isn't used. The
/// hands come back: hand 0's, and the others', and all desks, hand 0's own last. The worker of hand
/// w + 1 uses backend w, and desk w where there are as many desks as hands; where there are fewer,
/// so many of the last workers have one. All backends are dropped. A worker with a desk sleeps
/// where it finds nothing: the front wakes all by its own when it has joined the scope.
///
/// Needs: the other hands can serve: the table is over the stepper's plan, whose kinds match. Each
/// has a backend, and no other is left.
/// Afterwards: the front's work was done on hand 0. Each other hand served until it read that the
/// scope is joined, and claimed no block; a backend was given out to it, in the order of the
/// arrangement. Each desk is the same, in its place, and nothing was drained through its post.
/// Hand 0's is the same.
pub fn run_beside<'a, W: Front, T: Stepper + Sync, R: Threads + Wait + Sync>(
    ground: Ground<'a, T, R>,
    mut staff: Staff,
    hand: Hand<Item>,
    own: Option<Desk>,
    mut front: W,
) -> (
    W,
    Hand<Item>,
    Vec<Hand<Item>>,
    Vec<Desk>,
    Option<Desk>,
    Given,
)
    requires sync { IsSync R.row }
    requires serve { All (CanServe ground.table.now (T.plan ground.stepper.now)) staff.hands.items }
    requires each { vec_len staff.backends.backends ≡ vec_len staff.hands }
    requires needs { W.needs front hand own }
    ensures leaves { W.leaves front result.0 result.1 }
    ensures served { All (HasServed ground.entry.table.now) result.2.items }
    ensures claims { claimed_by result.2.items ≡ claimed_by staff.hands.items }
    ensures length { vec_len result.2 ≡ vec_len staff.hands }
    ensures room { vec_capacity staff.hands ≤ vec_capacity result.2 }
    ensures desks { AreLeft OnlyPosts staff.desks.items result.3.items }
    ensures shelf { vec_capacity staff.desks ≤ vec_capacity result.3 }
    ensures own { KeepsOwn own result.4 }
    ensures given { result.5 ≡ staff.backends.told }
{
    thread::scope(
        thread::scope_env(),
        ground.rt,
        move |scope| -> (
            W,
            Hand<Item>,
            Vec<Hand<Item>>,
            Vec<Desk>,
            Option<Desk>,
            Given,
        )
            requires { IsSync R.row × IsSync T.row
                × All (CanServe ground.table.now (T.plan ground.stepper.now)) staff.hands.items
                × (vec_len staff.backends.backends ≡ vec_len staff.hands)
                × W.needs front hand own }
            ensures { W.leaves front result.0 result.1
                × All (HasServed ground.entry.table.now) result.2.items
                × (claimed_by result.2.items ≡ claimed_by staff.hands.items)
                × (vec_len result.2 ≡ vec_len staff.hands)
                × (vec_capacity staff.hands ≤ vec_capacity result.2)
                × AreLeft OnlyPosts staff.desks.items result.3.items
                × (vec_capacity staff.desks ≤ vec_capacity result.3)
                × KeepsOwn own result.4
                × (result.5 ≡ staff.backends.told) }
        {
            let last = work_beside(scope, ground, &mut staff, hand, own, &mut front, true);
            let Staff {
                backends,
                hands,
                desks,
            } = staff;
            (front, last.0, hands, desks, last.1, backends.end())
        },
    )
}
