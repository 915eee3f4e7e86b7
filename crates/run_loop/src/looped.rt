//! The loop itself.
ghost use Rattle.std.specs.Prelude.{◌≡◌, IfOk, IfErr};
ghost use Rattle.plan_kinds.specs.Runnable.{IsRunnable};
ghost use Rattle.table_steps.specs.Views.{IsHandOf, knows};
ghost use Rattle.exec_recv.specs.Over.{IsOver};
ghost use Rattle.run_loop.specs.Loops.{IsOpened, deck_of, decked};

use crate::delay_node::DelayNode;
use crate::listing::{delays_of, room_of};
use crate::loop_mail::LoopMail;
use crate::tally::Tally;
use deck_relay::Deck;
use exec_recv::Item;
use life_rules::Name;
use op_slot::{Hand, OpTable};
use plan_shape::Plan;
use std::alloc::Global;
use std::thread::yield_now;
use timer_wheel::Delays;

/// A loop on hand 0 of a table. Its type keeps no fact of the hand: each call that takes the table
/// asks that the loop is ready, and leaves it so.
#[derive(Drop)]
pub struct Loop {
    /// The hand on which it works.
    pub hand: Hand<Item>,
    /// What it was told of since the last poll, and the hand's deck.
    pub(crate) names: LoopMail,
    /// The room of the names that a poll serves.
    pub(crate) served: Vec<Name>,
    /// The block at which the search for a free one begins.
    pub(crate) next: u32,
    pub(crate) helps: bool,
    pub(crate) tally: Tally,
    /// The plan's delays.
    pub(crate) delay_nodes: Vec<DelayNode>,
    /// Those of them that were seen parked.
    pub(crate) delays: Delays,
}

impl Loop {
    /// A loop on the hand. The hand comes back on want of memory alone.
    ///
    /// Needs: the hand is hand 0 of the table, which was opened over the plan, whose kinds match.
    /// Afterwards: the loop knows no names, has no deck, doesn't help the pool, and has collected
    /// nothing. No delay waits, and no turn is over.
    pub fn open(
        alloc: Global,
        plan: &Plan,
        table: &OpTable<Item>,
        hand: Hand<Item>,
    ) -> Result<Loop, Hand<Item>>
        requires hand { IsHandOf table.now hand }
        requires first { (knows hand).number ≡ 0 }
        requires over { IsOver table.now plan.now }
        requires kinds { IsRunnable plan.now }
        ensures opened { IfOk result (IsOpened table.now hand) }
        ensures back { IfErr result (λ back. back ≡ hand) }
    {
        let (blocks, nodes) = (table.blocks(), table.tree().size());
        let Ok(names) = LoopMail::with_room(alloc, blocks, nodes) else {
            return Err(hand);
        };
        let Ok(served) = Vec::with_capacity(alloc, blocks as usize) else {
            return Err(hand);
        };
        let Ok(delay_nodes) = delays_of(alloc, plan) else {
            return Err(hand);
        };
        let Ok(delays) = Delays::open(alloc, room_of(table, &delay_nodes)) else {
            return Err(hand);
        };
        Ok(Loop {
            hand,
            names,
            served,
            next: 0,
            helps: false,
            tally: Tally::new(),
            delay_nodes,
            delays,
        })
    }

    /// The loop with this deck for its hand: what it leaves ready in the pool is pushed there, so
    /// that workers steal it, and where the loop helps the pool, it takes names of it. All else is
    /// as before.
    pub fn with_deck(self, deck: Deck) -> Loop
        ensures { result ≡ decked deck self }
    {
        let mut decked = self;
        decked.names.deck = Some(deck);
        decked
    }

    /// Whether turns from now on take nodes that are ready in the pool, too.
    pub fn help_pool(&mut self, helps: bool)
        ensures { self.new ≡ record self.old { helps = helps } }
    {
        self.helps = helps;
    }

    /// Lets other threads run, where a turn took so many nodes, which were none, and other hands
    /// may serve the pool: what it waits for they do, and where cores are busy they wait for one.
    pub fn give_way(&self, taken: u32) {
        if taken == 0 && (!self.helps || self.names.deck.is_some()) {
            yield_now();
        }
    }

    /// The operations that it collected.
    pub fn tally(&self) -> Tally
        ensures { result ≡ self.now.tally }
    {
        self.tally.copy()
    }

    /// The loop's hand. Its deck is dropped, where it has one.
    pub fn into_hand(self) -> Hand<Item>
        ensures { result ≡ self.hand }
    {
        self.hand
    }

    /// The loop's hand, and its deck, where it has one.
    pub fn into_parts(self) -> (Hand<Item>, Option<Deck>)
        ensures hand { result.0 ≡ self.hand }
        ensures deck { result.1 ≡ deck_of self }
    {
        (self.hand, self.names.into_deck())
    }
}
