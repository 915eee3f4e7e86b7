//! How an operation is started.
ghost use Rattle.std.specs.Prelude.{◌≡◌, ◌≤◌, IfOk, IfErr};
ghost use Rattle.std.specs.Thread.{IsSync};
ghost use Rattle.table_steps.specs.Views.{IsHandOf, Stays, knows};
ghost use Rattle.exec_recv.specs.Over.{IsOver};
ghost use Rattle.exec_recv.specs.Sites.{IsSite};
ghost use Rattle.node_walks.specs.Mails.{HearsAll};
ghost use Rattle.node_walks.specs.Resting.{IsAtRest};
ghost use Rattle.node_walks.specs.Starts.{CanRun, IsStartPlaced, MissesEach, BeginsRoot, GoesOnWith, OnlyPlaces};

use crate::mail::Mail;
use crate::walking::go_on;
use exec_recv::{Env, Item, Site, Stepper};
use op_slot::{Block, Hand, OpTable, claim_from, put_home};
use std::sync::Wait;

// Claims a free block, and puts the start into the home of its root. The environment comes back
// where no block was free.
#[inline(always)]
fn place(table: &OpTable<Item>, hand: &mut Hand<Item>, from: u32, env: Env) -> Result<Block, Env>
    requires hand { IsHandOf table.now hand.old }
    requires over { IsOver table.now table.now.frame.over.value }
    requires from { from ≤ table.now.frame.layout.blocks }
    requires rests { IsAtRest (knows hand.old) }
    requires start { CanRun table.now env }
    ensures stays { Stays table.now hand.old hand.new }
    ensures placed { IfOk result (λ b. IsStartPlaced table.now b env hand.old.me hand.new.me) }
    ensures only { IfOk result (λ b. OnlyPlaces table.now from b env hand.old hand.new.me) }
    ensures back { IfErr result (λ back. back ≡ env) }
    ensures none { IfErr result (λ _. MissesEach table.now from hand.old hand.new) }
{
    let Some(block) = claim_from(table, hand, from) else {
        return Err(env);
    };
    put_home(table, hand, table.root(block), Item::starting(env));
    Ok(block)
}

/// Starts an operation in a free block, the first one round from this block on, and goes on with it
/// until the hand is at rest. The environment comes back where no block was free: each was missed
/// at its own step of this call.
///
/// Step: those of `claim_from`, `put_home` and `begin`, and those of the steps of its nodes.
/// Needs: the hand is at rest. The environment shows a start of the receiver node of the site's
/// plan, with arguments of the kinds of the child that it names.
/// Afterwards: the hand is at rest. The block's root began with the start that the environment
/// shows, and the stepper stepped it; the hand did nothing else. The mail heard of what `go_on`
/// says, and where no block was free of nothing. The hand has noted that start, and had noted none
/// of this root before. All else that its view says is as before, but for requests that it has seen
/// and the list of its steps.
#[inline(always)]
pub fn begin_root<T: Stepper, M: Mail, R: Wait + Sync>(
    site: &Site<R, T>,
    hand: &mut Hand<Item>,
    from: u32,
    env: Env,
    mail: &mut M,
) -> Result<Block, Env>
    requires sync { IsSync R.row }
    requires hand { IsHandOf site.now hand.old }
    requires site { IsSite site.now }
    requires from { from ≤ site.now.frame.layout.blocks }
    requires rests { IsAtRest (knows hand.old) }
    requires start { CanRun site.now env }
    ensures stays { Stays site.now hand.old hand.new }
    ensures number { (knows hand.new).number ≡ (knows hand.old).number }
    ensures rests { IsAtRest (knows hand.new) }
    ensures begun { IfOk result (λ b. BeginsRoot site.now b env hand.old.me hand.new.me) }
    ensures first { IfOk result (λ b. HearsAll M.hears mail.old mail.new
        (GoesOnWith T.does site.now from b env hand.old hand.new.me)) }
    ensures back { IfErr result (λ back. back ≡ env) }
    ensures none { IfErr result (λ _. MissesEach site.now from hand.old hand.new) }
    ensures mail { M.keeps mail.old mail.new }
    ensures unheard { IfErr result (λ _. mail.new ≡ mail.old) }
{
    let block = match place(site.table, hand, from, env) {
        Ok(block) => block,
        Err(env) => return Err(env),
    };
    let root = site.table.root(block);
    site.table.begin(hand, root);
    go_on(site, hand, root, mail);
    Ok(block)
}
