//! How a future is spawned.
ghost use Rattle.std.specs.Prelude.{◌≡◌, Some, IfOk, IfErr};
ghost use Rattle.std.specs.Thread.{IsSync};
ghost use Rattle.table_steps.specs.Views.{IsSameHand};
ghost use Rattle.exec_recv.specs.Sites.{IsSite};
ghost use Rattle.home_items.specs.Entries.{child_of};
ghost use Rattle.node_walks.specs.Starts.{CanRun};
ghost use Rattle.spawn_future.specs.Keeping.{IsKeeping};
ghost use Rattle.spawn_future.specs.Slots.{WaitsNowhere};
ghost use Rattle.spawn_future.specs.Spawns.{Spawns, Refuses};

use crate::entering::{Entered, enter};
use crate::future::Future;
use crate::futures::Futures;
use crate::slots::put;
use exec_recv::{Env, Item, Site, Stepper};
use life_rules::{Name, Refused};
use node_walks::Mail;
use op_slot::Hand;
use plan_rules::NodeId;
use std::sync::Wait;

/// Why nothing was spawned, in the order in which the causes count. The environment comes back.
#[derive(Drop)]
pub enum SpawnFault {
    /// As many futures are kept as there are slots.
    Full(Env),
    /// The scope takes no association, for this cause.
    Scope(Env, Refused),
    /// No block of the table was free. The association was left again.
    NoBlock(Env),
}

impl Futures {
    /// Spawns the owner's first child as an operation of its own in the scope (P3149,
    /// `spawn_future`), and goes on with it until the hand is at rest. The environment comes back
    /// where nothing was spawned. Full exactly where each slot has a future; Scope exactly where
    /// `associate` refused in this call; NoBlock only where each block was missed at its own step
    /// of this call.
    ///
    /// Step: those of `associate`, `claim_from`, `put_home` and `begin`, and those of the steps of
    /// its nodes; where no block was free, that of `disassociate`.
    /// Needs: hand 0 keeps these futures, and is at rest. The environment shows a start of the
    /// receiver node of that plan that names the child, with arguments of its kinds. The owner
    /// waits for no future. Afterwards: the same of the hand. The owner waits for the future, whose
    /// operation began with that start. The hand has noted the start, and one association more; it
    /// had noted none of this root before.
    pub fn spawn<T: Stepper, M: Mail, R: Wait + Sync>(
        &mut self,
        site: &Site<R, T>,
        hand: &mut Hand<Item>,
        owner: Name,
        first: NodeId,
        env: Env,
        mail: &mut M,
    ) -> Result<(), SpawnFault>
        requires sync { IsSync R.row }
        requires keeping { IsKeeping site.now self.old hand.old }
        requires site { IsSite site.now }
        requires start { CanRun site.now env }
        requires names { child_of env ≡ Some first }
        requires unowned { WaitsNowhere owner self.old }
        ensures keeping { IsKeeping site.now self.new hand.new }
        ensures same { IsSameHand hand.old hand.new }
        ensures spawned { IfOk result
            (λ _. Spawns site.now owner env self.old self.new hand.old hand.new) }
        ensures slots { IfErr result (λ _. self.new ≡ self.old) }
        ensures mail { M.keeps mail.old mail.new }
        ensures refused { IfErr result (Refuses site.now env self.old hand.old hand.new) }
    {
        let _ = first;
        let slot = match self.free() {
            Some(slot) => slot,
            None => return Err(SpawnFault::Full(env)),
        };
        match enter(site, hand, env, mail) {
            Ok(Entered { block, association }) => {
                let future = Future {
                    owner,
                    block,
                    association,
                    abandoned: false,
                };
                put(&mut self.slots, slot, future);
                self.kept += 1;
                Ok(())
            }
            Err(fault) => Err(fault),
        }
    }
}
