//! How the parked `ahead` nodes of a table are served.
ghost use Rattle.std.specs.Bool.{OnTrue, OnFalse};
ghost use Rattle.std.specs.Prelude.{◌≡◌, ◌<◌, ◌≤◌, length};
ghost use Rattle.std.specs.Thread.{IsSync};
ghost use Rattle.life_rules.specs.declared.limits.TheConstants.{MOST_BLOCKS};
ghost use Rattle.table_steps.specs.Views.{IsSameHand, Stays};
ghost use Rattle.exec_recv.specs.Sites.{IsSite, plan_at};
ghost use Rattle.spawn_future.specs.Counts.{BeginsAndEnds};
ghost use Rattle.spawn_future.specs.Keeping.{IsKeeping};
ghost use Rattle.spawn_future.specs.Turns.{HasAhead, IsAheadOf, IsUnparked, AreAllUnparked, AreUnparked, AreVisited, IsVisited, IsVisitedInAll, ServesPlace, PassesPlace, Turns, WasVisited};

use crate::futures::Futures;
use exec_recv::{Item, Site, Stepper};
use life_rules::Name;
use node_walks::Mail;
use op_slot::Hand;
use plan_rules::{Node, NodeId};
use plan_shape::Plan;
use serve_ahead::AheadAt;
use std::sync::Wait;

// Where the `ahead` of this name stands, with its children.
fn ahead_at(plan: &Plan, name: Name) -> AheadAt
    requires { HasAhead plan.now name.node }
    ensures { IsAheadOf plan.now name result }
{
    match plan.node(name.node) {
        Node::Ahead { first, second } => AheadAt {
            name,
            first: *first,
            second: *second,
        },
        _ => unreachable!(),
    }
}

impl Futures {
    // Serves the `ahead` of this number in the block, where it is parked. False only where its word
    // that was read didn't say so. One that wasn't taken after the look is looked at again.
    fn serve_place<T: Stepper, M: Mail, R: Wait + Sync>(
        &mut self,
        site: &Site<R, T>,
        hand: &mut Hand<Item>,
        block: u32,
        node: NodeId,
        mail: &mut M,
    ) -> bool
        requires sync { IsSync R.row }
        requires keeping { IsKeeping site.now self.old hand.old }
        requires site { IsSite site.now }
        requires node { HasAhead (plan_at site.now) node }
        requires block { block < site.now.frame.layout.blocks }
        ensures keeping { IsKeeping site.now self.new hand.new }
        ensures stays { Stays site.now hand.old hand.new }
        ensures mail { M.keeps mail.old mail.new }
        ensures leaves { BeginsAndEnds site.now self.old self.new hand.old.me hand.new.me }
        ensures served { OnTrue result
            (ServesPlace site.now (plan_at site.now) self.old self.new hand.old hand.new) }
        ensures passed { OnFalse result
            (PassesPlace site.now block node self.old self.new hand.old.me hand.new.me) }
        ensures visited { WasVisited site.now block node hand.old.me hand.new.me }
    {
        for _ in site.rt.forever() {
            match site.table.parked_at(hand, block, node) {
                None => return false,
                Some(name) => {
                    if self.serve(site, hand, ahead_at(site.plan, name), mail) {
                        return true;
                    }
                }
            }
        }
        unreachable!()
    }

    // Serves the `ahead` of this number in each block where it is parked, and answers in how many.
    fn serve_blocks<T: Stepper, M: Mail, R: Wait + Sync>(
        &mut self,
        site: &Site<R, T>,
        hand: &mut Hand<Item>,
        node: NodeId,
        mail: &mut M,
    ) -> u32
        requires sync { IsSync R.row }
        requires keeping { IsKeeping site.now self.old hand.old }
        requires site { IsSite site.now }
        requires node { HasAhead (plan_at site.now) node }
        ensures keeping { IsKeeping site.now self.new hand.new }
        ensures stays { Stays site.now hand.old hand.new }
        ensures mail { M.keeps mail.old mail.new }
        ensures turns { Turns site.now (plan_at site.now) self.old self.new
            hand.old hand.new result }
        ensures none { result ≡ 0 → AreAllUnparked site.now node hand.old.me hand.new.me }
        ensures visited { IsVisitedInAll site.now node hand.old.me hand.new.me }
        ensures few { result ≤ MOST_BLOCKS }
    {
        let mut taken = 0;
        for block in 0..site.table.blocks() {
            if self.serve_place(site, hand, block, node, mail) {
                taken += 1;
            }
        }
        taken
    }

    // The same of any node: one that is no `ahead` is passed over.
    fn serve_node<T: Stepper, M: Mail, R: Wait + Sync>(
        &mut self,
        site: &Site<R, T>,
        hand: &mut Hand<Item>,
        node: NodeId,
        mail: &mut M,
    ) -> u32
        requires sync { IsSync R.row }
        requires keeping { IsKeeping site.now self.old hand.old }
        requires site { IsSite site.now }
        requires node { node < length (plan_at site.now).nodes }
        ensures keeping { IsKeeping site.now self.new hand.new }
        ensures stays { Stays site.now hand.old hand.new }
        ensures mail { M.keeps mail.old mail.new }
        ensures turns { Turns site.now (plan_at site.now) self.old self.new
            hand.old hand.new result }
        ensures none { result ≡ 0 →
            IsUnparked site.now (plan_at site.now) node hand.old.me hand.new.me }
        ensures visited { IsVisited site.now (plan_at site.now) node hand.old.me hand.new.me }
        ensures few { result ≤ MOST_BLOCKS }
    {
        match site.plan.node(node) {
            Node::Ahead { .. } => self.serve_blocks(site, hand, node, mail),
            _ => 0,
        }
    }

    /// Serves each `ahead` that is parked, and answers how many it took. A new one's first child is
    /// spawned, and then its second started; where the spawn is refused, or there is no memory for
    /// it, the `ahead` is parked again. One whose second child has completed completes: with the
    /// second's failure, and then the first's operation is abandoned; else once that is complete,
    /// by what it came to. Until then it is parked again. Each `ahead`, in each block, was taken
    /// where it was parked, or its word, at a step of this call of its own, didn't say that it is
    /// parked; and where the answer is 0, each word did not.
    ///
    /// Step: for each `ahead` in each block one load of its word; and for each that is parked those
    /// of `take_parked`, `park`, `spawn`, `poll`, and of the steps of its nodes.
    /// Needs: hand 0 keeps these futures, and is at rest.
    /// Afterwards: the same of the hand. For each operation
    /// that was begun there is a future, an association and a claimed block more, and for each that
    /// was ended a future and an association less, and a block given back. Notes of all other roots
    /// are as they were. What an `ahead` completes with is allowed for its start, or want of
    /// memory.
    pub fn turn<T: Stepper, M: Mail, R: Wait + Sync>(
        &mut self,
        site: &Site<R, T>,
        hand: &mut Hand<Item>,
        mail: &mut M,
    ) -> u32
        requires sync { IsSync R.row }
        requires keeping { IsKeeping site.now self.old hand.old }
        requires site { IsSite site.now }
        ensures keeping { IsKeeping site.now self.new hand.new }
        ensures same { IsSameHand hand.old hand.new }
        ensures mail { M.keeps mail.old mail.new }
        ensures turns { Turns site.now (plan_at site.now) self.old self.new
            hand.old hand.new result }
        ensures none { result ≡ 0 →
            AreUnparked site.now (plan_at site.now)
            (length (plan_at site.now).nodes) hand.old.me hand.new.me }
        ensures visited { AreVisited site.now (plan_at site.now)
            (length (plan_at site.now).nodes) hand.old.me hand.new.me }
    {
        let mut taken = 0;
        for node in 0..site.plan.size() {
            taken += self.serve_node(site, hand, node, mail);
        }
        taken
    }
}
