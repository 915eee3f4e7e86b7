//! The operations of a plan on hand 0 of a table.
ghost use Rattle.std.specs.Prelude.{◌≡◌, ◌<◌, ◌≤◌, ◌^◌, IfOk, IfErr, None};
ghost use Rattle.plan_kinds.specs.Runnable.{IsRunnable};
ghost use Rattle.table_steps.specs.Views.{knows};
ghost use Rattle.exec_recv.specs.Over.{IsOver};
ghost use Rattle.run_loop.specs.Loops.{deck_of};
ghost use Rattle.record_operations.specs.Opened.{IsUnusedHand, IsOpened};

use crate::later_mail::LaterMail;
use crate::own::{Own, parts_of};
use crate::pausing::Pause;
use crate::tickets::{Operation, discard, free_tickets};
use deck_relay::Deck;
use exec_recv::{Item, Stepper};
use line_rules::has_ahead;
use loop_queue::LoopPost;
use op_slot::OpTable;
use plan_shape::Plan;
use run_loop::{Loop, Tally};
use spawn_future::{Futures, MOST_FUTURES};
use std::alloc::{AllocError, Global};
use std::marker::{Brand, Model, PhantomData};

/// On which table the operations of a run are, what its hand 0 had claimed before, and with which
/// desk. What is generic in the operations knows none of these, so a caller picks this at
/// its call, to know them again at the end.
pub trait OnTable {
    ghost use Rattle.std.specs.Prelude.{ℕ, Option};
    ghost use Rattle.deck_relay.specs.declared.desk.Desk.{Desk};
    ghost use Rattle.plan_shape.specs.Blueprint.{Blueprint};
    ghost use Rattle.table_steps.specs.Views.{Board};

    /// What holds of the table.
    ghost is: { Board Blueprint → Type 0 };

    /// How many blocks hand 0 had claimed.
    ghost claimed: { ℕ };

    /// The desk of hand 0.
    ghost desk: { Option Desk };
}

impl OnTable for Brand {
    ghost use Rattle.std.specs.Prelude.{⊤, None};

    ghost is = { λ _. ⊤ };

    ghost claimed = { 0 };

    ghost desk = { None };
}

/// The operations of a plan's records, each in a block of a table over the plan, with an
/// association of the table's scope. It has no drop: `end` joins the scope, and gives the hand
/// back.
pub struct TableRun<'a, T: Stepper, B: OnTable> {
    pub(crate) table: &'a OpTable<Item>,
    pub(crate) plan: &'a Plan,
    pub(crate) stepper: &'a T,
    pub(crate) looped: Loop,
    /// Through which it drains names that workers posted.
    pub(crate) post: Option<LoopPost>,
    pub(crate) operations: Vec<Option<Operation>>,
    /// The ticket that the next operation takes.
    pub(crate) next: usize,
    pub(crate) requested: bool,
    pub(crate) pause: Pause,
    /// The plan has an `ahead`, whose first child is spawned.
    pub(crate) spawns: bool,
    pub(crate) futures: Futures,
    pub(crate) posted: LaterMail,
    pub(crate) on: PhantomData<B>,
}

impl<'a, T: Stepper, B: OnTable> Model for TableRun<'a, T, B> {
    ghost use Rattle.std.specs.Coded.{codes};
    ghost use Rattle.run_loop.specs.contracts.looped.Loop as loops;
    ghost use Rattle.record_operations.specs.Runs.{Run, run_of};
    ghost use Rattle.record_operations.specs.Sound.{KeepsItsDesk};

    ghost Value = { Run };

    ghost coded = { Prim.hlevel (codes, loops.the_row.coded) };

    ghost view = { λ s.
        run_of s.table.now s.plan.now s.looped s.operations.items s.requested s.futures };

    ghost invariant = { λ s. KeepsItsDesk B.is B.claimed B.desk
        (run_of s.table.now s.plan.now s.looped s.operations.items s.requested s.futures)
        (T.plan s.stepper.now) s.next s.spawns s.post };
}

// The loop with this deck, where there is one.
fn seat(looped: Loop, deck: Option<Deck>) -> Loop
    requires none { deck_of looped ≡ None }
    ensures deck { deck_of result ≡ deck }
    ensures rest { result ≡ record looped { names = result.names } }
{
    match deck {
        None => looped,
        Some(deck) => looped.with_deck(deck),
    }
}

impl<'a, T: Stepper, B: OnTable> TableRun<'a, T, B> {
    /// No operations of the plan, and so many tickets for them; where the plan has an `ahead`, also
    /// the room for as many futures as are kept at most. What hand 0 has comes back where there is
    /// no memory for these.
    ///
    /// Needs: the table was opened over the plan, whose kinds match, and with its kind of scope;
    /// the stepper steps the nodes of this plan. The hand is hand 0 of the table, and was not used.
    /// Afterwards: no operation was started or collected, no stop requested, and no future is kept.
    pub fn open(
        alloc: Global,
        plan: &'a Plan,
        table: &'a OpTable<Item>,
        stepper: &'a T,
        own: Own,
        tickets: usize,
    ) -> Result<TableRun<'a, T, B>, Own>
        requires on { B.is table.now }
        requires claimed { B.claimed ≡ (knows own.hand).claimed }
        requires desk { B.desk ≡ own.desk }
        requires some { 0 < tickets }
        requires few { tickets ≤ 2 ^ 16 }
        requires over { IsOver table.now plan.now }
        requires kinds { IsRunnable plan.now }
        requires stepper { T.plan stepper.now ≡ plan.now }
        requires scope { table.now.frame.kind ≡ plan.now.settings.scope }
        requires hand { IsUnusedHand table.now own.hand }
        ensures opened { IfOk result (IsOpened table.now plan.now tickets) }
        ensures back { IfErr result (λ back. back ≡ own) }
    {
        let operations = match free_tickets(alloc, tickets) {
            Ok(operations) => operations,
            Err(AllocError) => return Err(own),
        };
        let spawns = has_ahead(plan);
        let futures = match Futures::open(alloc, if spawns { MOST_FUTURES } else { 1 }) {
            Ok(futures) => futures,
            Err(AllocError) => {
                discard(operations);
                return Err(own);
            }
        };
        let Own { hand, desk } = own;
        match Loop::open(alloc, plan, table, hand) {
            Ok(looped) => {
                let (deck, post) = parts_of(desk);
                let looped = seat(looped, deck);
                // Polls are the clock of delays, and nobody tells of an `ahead` that is parked.
                let waits = looped.has_delays() || spawns;
                let sleeps = looped.has_deck() && post.is_some() && !waits;
                Ok(TableRun {
                    table,
                    plan,
                    stepper,
                    looped,
                    post,
                    operations,
                    next: 0,
                    requested: false,
                    pause: Pause::new(sleeps),
                    spawns,
                    futures,
                    posted: LaterMail::none(alloc),
                    on: PhantomData,
                })
            }
            Err(back) => {
                discard(operations);
                futures.close();
                Err(Own { hand: back, desk })
            }
        }
    }

    /// The operations that its loop collected.
    pub fn tally(&self) -> Tally
        ensures { result ≡ self.now.looped.tally }
    {
        self.looped.tally()
    }

    /// Whether turns from now on take nodes that are ready in the pool, too. Where no worker serves
    /// the pool they must: nobody else takes these. Beside workers they do so by names of the deck
    /// where nothing is ready in the loop, and it sleeps as before.
    pub fn help_pool(&mut self, helps: bool)
        ensures { self.new ≡
            record self.old { looped = record self.old.looped { helps = helps } } }
    {
        self.looped.help_pool(helps);
    }
}
