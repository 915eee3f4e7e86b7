//! A whole life of an operation, from its claim to its release.
ghost use Rattle.std.specs.Prelude.{◌≡◌, ◌+◌, IfOk, IfErr};
ghost use Rattle.table_steps.specs.Views.{IsHandOf};
ghost use Rattle.op_slot.specs.Tends.{IsCalm};
ghost use Rattle.table_use.specs.Uses.{use_tree, IsRoot, IsRootOf, HoldsNode, HoldsDone, HasNoted, HasEmptied, LeftBlockEmpty, IsNotedNumber, KeepsNotes};
ghost use Rattle.table_use.specs.Causes.{GoesOn};
ghost use Rattle.table_use.specs.Ends.{IsLeft, StopsAt, StopsIn, IsEndCause};

use crate::cargo::{Env, Item, delivered};
use crate::node::{Fault, Table, Worker, beside, ends, is_registered, opens};
use crate::starting::{awaits_one, begins};
use life_rules::Name;
use node_tree::Context;
use op_slot::{Block, Cargo, put_home, release, take_home};
use table_steps::Report;

/// What an operation answered, and for which number.
#[derive(Clone, Copy, Debug, PartialEq, Eq)]
pub struct Answer {
    pub number: u32,
    pub value: u64,
}

// Runs the leaf, for which the root waits, to its end, and reports it.
fn waits(table: &Table, hand: &mut Worker, root: Name, env: Env) -> Result<(), Fault>
    requires table { IsHandOf table.now hand.old }
    requires root { IsRoot table.now root }
    requires calm { IsCalm hand.old.me }
    requires holds { HoldsNode table.now.frame root env hand.old.me }
    requires noted { HasNoted root env hand.old.me }
    ensures table { IsHandOf table.now hand.new }
    ensures calm { IsCalm hand.new.me }
    ensures last { IfOk result (λ _. HoldsDone table.now.frame root env hand.new.me) }
    ensures notes { KeepsNotes hand.old.me hand.new.me }
    ensures steps { GoesOn hand.old.me hand.new.me }
    ensures fault { IfErr result (StopsIn table.now hand.old.me hand.new.me root) }
{
    awaits_one(table, hand, root, env, 0)?;
    let leaf = beside(root, 0);
    let own = Env { node: 0, ..env };
    opens(table, hand, leaf, own);
    let value = env.number as u64 + env.step as u64;
    ends(table, hand, leaf, Item::Done(own, value))?;
    match table.report(hand, leaf) {
        Report::Last => Ok(()),
        Report::Others => Err(Fault::Order),
    }
}

// Leaves the root at rest, with what the leaf delivered in its home. The branch never began: what
// lies in its home is let go.
fn keeps(table: &Table, hand: &mut Worker, root: Name, env: Env)
    requires table { IsHandOf table.now hand.old }
    requires root { IsRoot table.now root }
    requires calm { IsCalm hand.old.me }
    requires last { HoldsDone table.now.frame root env hand.old.me }
    ensures table { IsHandOf table.now hand.new }
    ensures calm { IsCalm hand.new.me }
    ensures notes { KeepsNotes hand.old.me hand.new.me }
    ensures left { IsLeft table.now.frame root hand.new.me }
    ensures steps { GoesOn hand.old.me hand.new.me }
{
    let value = delivered(take_home(table, hand, beside(root, 0)).unwrap());
    let _branch = take_home(table, hand, beside(root, 2));
    let _own = take_home(table, hand, root);
    put_home(table, hand, root, Item::Kept(env, value));
    table.rest(hand, root, Context::Pool);
}

// Takes the root again, empties its home, finishes it and gives the block back. An item that keeps
// no value stays in the home.
fn collects(table: &Table, hand: &mut Worker, block: Block, root: Name) -> Result<Answer, Fault>
    requires table { IsHandOf table.now hand.old }
    requires root { IsRootOf table.now block root }
    requires calm { IsCalm hand.old.me }
    requires left { IsLeft table.now.frame root hand.old.me }
    ensures table { IsHandOf table.now hand.new }
    ensures calm { IfOk result (λ _. IsCalm hand.new.me) }
    ensures answer { IfOk result (λ r. r.value ≡ r.number + table.now.frame.over.value) }
    ensures number { IfOk result (λ r. IsNotedNumber root hand.old.me r.number) }
    ensures emptied { IfOk result
        (λ _. LeftBlockEmpty table.now block hand.new ⟦<Item as Cargo>⟧) }
    ensures notes { IfErr result (λ _. KeepsNotes hand.old.me hand.new.me) }
    ensures steps { IfErr result (λ _. GoesOn hand.old.me hand.new.me) }
    ensures fault { IfErr result (StopsAt table.now hand.old.me hand.new.me root) }
{
    if !table.take(hand, root, Context::Pool) {
        return Err(Fault::Lost);
    }
    let item = take_home(table, hand, root).unwrap();
    let Item::Kept(env, value) = item else {
        put_home(table, hand, root, item);
        return Err(Fault::OtherItem);
    };
    if is_registered(table.phase_of(hand, root)) {
        return Err(Fault::Registered);
    }
    table.finish(hand, root);
    release(table, hand, block);
    Ok(Answer {
        number: env.number,
        value,
    })
}

/// Takes one operation from its claim to its release. It answers for the number that was given,
/// with the value that the start says: the hand noted the root's start when it began it, and when
/// it takes the root again the table says that it is the same. The table keeps no item of it: in
/// the table that the last step left all homes of its block are empty.
///
/// A fault says that no block was free, or else at which node of the operation the hand stopped,
/// and which word told it to.
pub fn completes(table: &Table, hand: &mut Worker, step: u32, number: u32) -> Result<Answer, Fault>
    requires table { IsHandOf table.now hand.old }
    requires tree { table.now.frame.tree ≡ use_tree }
    requires step { step ≡ table.now.frame.over.value }
    requires calm { IsCalm hand.old.me }
    ensures table { IsHandOf table.now hand.new }
    ensures calm { IfOk result (λ _. IsCalm hand.new.me) }
    ensures number { IfOk result (λ r. r.number ≡ number) }
    ensures answer { IfOk result (λ r. r.value ≡ r.number + step) }
    ensures emptied { IfOk result (λ _. HasEmptied table.now hand.new ⟦<Item as Cargo>⟧) }
    ensures fault { IfErr result (IsEndCause table.now number hand.old hand.new) }
{
    let env = Env {
        node: 3,
        number,
        step,
    };
    let (block, root) = begins(table, hand, env)?;
    waits(table, hand, root, env)?;
    keeps(table, hand, root, env);
    let answer = collects(table, hand, block, root)?;
    Ok(answer)
}
