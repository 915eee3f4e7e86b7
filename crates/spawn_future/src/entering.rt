//! How an operation is begun with an association of the scope.
ghost use Rattle.std.specs.Prelude.{IfOk, IfErr};
ghost use Rattle.std.specs.Thread.{IsSync};
ghost use Rattle.table_steps.specs.ScopeEntries.{MayEnter};
ghost use Rattle.table_steps.specs.Views.{IsHandOf, Stays, knows};
ghost use Rattle.exec_recv.specs.Sites.{IsSite};
ghost use Rattle.node_walks.specs.Resting.{IsAtRest};
ghost use Rattle.node_walks.specs.Starts.{CanRun};
ghost use Rattle.spawn_future.specs.Keeping.{Enters};
ghost use Rattle.spawn_future.specs.Spawns.{IsKeptOut, OnlyEnters};

use crate::spawning::SpawnFault;
use count_scope::{Association, associate, disassociate};
use exec_recv::{Env, Item, Site, Stepper};
use node_walks::{Mail, begin_root};
use op_slot::{Block, Hand};
use std::sync::Wait;

/// An operation that was begun.
pub(crate) struct Entered {
    pub(crate) block: Block,
    pub(crate) association: Association,
}

/// Makes an association, and begins an operation with it. The environment comes back where the
/// scope takes no association; and where no block is free: then the association is left again.
pub(crate) fn enter<T: Stepper, M: Mail, R: Wait + Sync>(
    site: &Site<R, T>,
    hand: &mut Hand<Item>,
    env: Env,
    mail: &mut M,
) -> Result<Entered, SpawnFault>
    requires sync { IsSync R.row }
    requires hand { IsHandOf site.now hand.old }
    requires site { IsSite site.now }
    requires rests { IsAtRest (knows hand.old) }
    requires settled { MayEnter (knows hand.old) }
    requires start { CanRun site.now env }
    ensures stays { Stays site.now hand.old hand.new }
    ensures rests { IsAtRest (knows hand.new) }
    ensures entered { IfOk result (λ e. Enters site.now e.block env hand.old.me hand.new.me) }
    ensures only { IfOk result (λ e. OnlyEnters site.now e.block env hand.old hand.new) }
    ensures out { IfErr result (IsKeptOut site.now env hand.old hand.new) }
    ensures mail { M.keeps mail.old mail.new }
{
    let association = match associate(site.table, hand) {
        Ok(association) => association,
        Err(cause) => return Err(SpawnFault::Scope(env, cause)),
    };
    match begin_root(site, hand, 0, env, mail) {
        Ok(block) => Ok(Entered { block, association }),
        Err(back) => {
            disassociate(site.table, hand, association);
            Err(SpawnFault::NoBlock(back))
        }
    }
}
