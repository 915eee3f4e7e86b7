//! What a hand does with one node: it opens it, registers its callback, and leaves or ends it.
ghost use Rattle.std.specs.Prelude.{◌≡◌, ◌≢◌, ◌<◌, true, false, [], IfOk, IfErr};
ghost use Rattle.life_rules.specs.Views.{beside};
ghost use Rattle.life_rules.specs.declared.words.CallbackPhase.TheVariants.{Never};
ghost use Rattle.table_steps.specs.Views.{IsHandOf};
ghost use Rattle.table_use.specs.Starts.{env_of, Ends, FitsAt};
ghost use Rattle.table_use.specs.Uses.{IsNode, OwesNode, HoldsNode, HoldsGoing, StillHolds, JustEnded, HasNoted, IsStill, KeepsPlays, KeepsNotes, KeepsBesideLeaf};
ghost use Rattle.table_use.specs.Causes.{GoesOn, IsNodeCause, IsStartCause};

use crate::cargo::{Env, Item};
use life_rules::{CallbackPhase, Name};
use op_slot::{Hand, OpTable, put_home, take_home};
use stop_calls::{Armed, arm};

/// A table of these operations.
pub type Table = OpTable<Item>;

/// A hand that works on it.
pub type Worker = Hand<Item>;

/// Why an operation wasn't taken to its end.
#[derive(Clone, Copy, Debug, PartialEq, Eq)]
pub enum Fault {
    /// No block was free: each was missed at its own step.
    NoBlock,
    /// A child that no await has named has begun, as its control word said.
    Begun,
    /// A callback was registered before, as its word said.
    Registered,
    /// A stop was requested before, as the source's word said.
    Asked,
    /// A scan came to no callback: that of the branch or of the twig was read as not armed.
    Moved,
    /// A scan came to the callback of the leaf, which was read as armed.
    OtherPlace,
    /// A report was the last, and had to be another; or the other way round.
    Order,
    /// Another hand took the root where it rested.
    Lost,
    /// The root that was taken again keeps an item with no value.
    OtherItem,
}

/// Another node of the same block.
pub(crate) fn beside(x: Name, node: u32) -> Name
    ensures { result ≡ beside x node }
{
    Name {
        block: x.block,
        generation: x.generation,
        node,
    }
}

pub(crate) fn is_registered(phase: CallbackPhase) -> bool
    ensures never { result ≡ false → phase ≡ Never }
    ensures once { result ≡ true → phase ≢ Never }
{
    !matches!(phase, CallbackPhase::Never)
}

/// Puts the start of a node that is owed into its home, and begins the node. The hand notes the
/// start of a root.
pub(crate) fn opens(table: &Table, hand: &mut Worker, x: Name, env: Env)
    requires table { IsHandOf table.now hand.old }
    requires node { IsNode table.now x }
    requires owes { OwesNode table.now.frame x env hand.old.me }
    ensures table { IsHandOf table.now hand.new }
    ensures holds { HoldsNode table.now.frame x env hand.new.me }
    ensures still { IsStill hand.old.me hand.new.me }
    ensures beside { KeepsBesideLeaf table.now.frame x hand.old.me hand.new.me }
    ensures number { hand.new.me.0.number ≡ hand.old.me.0.number }
    ensures notes { x.node < 3 → KeepsNotes hand.old.me hand.new.me }
    ensures noted { x.node ≡ 3 → HasNoted x env hand.new.me }
    ensures steps { GoesOn hand.old.me hand.new.me }
{
    put_home(table, hand, x, Item::Going(env));
    table.begin(hand, x);
}

/// Registers the node's callback.
pub(crate) fn hears(table: &Table, hand: &mut Worker, x: Name) -> Result<(), Fault>
    requires table { IsHandOf table.now hand.old }
    requires node { IsNode table.now x }
    requires inner { x.node < 3 }
    requires holds { HoldsGoing table.now.frame x hand.old.me }
    ensures table { IsHandOf table.now hand.new }
    ensures holds { IfOk result (λ _. StillHolds table.now.frame x hand.old.me hand.new.me) }
    ensures still { IsStill hand.old.me hand.new.me }
    ensures steps { IfOk result (λ _. GoesOn hand.old.me hand.new.me) }
    ensures fault { IfErr result (IsStartCause table.now hand.old.me hand.new.me x) }
{
    if is_registered(table.phase_of(hand, x)) {
        return Err(Fault::Registered);
    }
    match arm(table, hand, x) {
        Armed::Quiet => Ok(()),
        Armed::Asked => Err(Fault::Asked),
    }
}

/// Leaves the node until something rouses it.
pub(crate) fn parks(table: &Table, hand: &mut Worker, x: Name)
    requires table { IsHandOf table.now hand.old }
    requires node { IsNode table.now x }
    requires alone { x.node < 2 }
    requires idle { hand.old.me.0.scans ≡ [] }
    requires holds { HoldsGoing table.now.frame x hand.old.me }
    ensures table { IsHandOf table.now hand.new }
    ensures still { IsStill hand.old.me hand.new.me }
    ensures steps { GoesOn hand.old.me hand.new.me }
{
    table.park(hand, x);
}

/// Finishes a node below the root with this completion.
pub(crate) fn ends(table: &Table, hand: &mut Worker, x: Name, item: Item) -> Result<(), Fault>
    requires table { IsHandOf table.now hand.old }
    requires node { IsNode table.now x }
    requires inner { x.node < 3 }
    requires idle { hand.old.me.0.scans ≡ [] }
    requires holds { HoldsNode table.now.frame x (env_of item) hand.old.me }
    requires ends { Ends item }
    requires fits { FitsAt item x.node }
    ensures table { IsHandOf table.now hand.new }
    ensures ended { IfOk result (λ _. JustEnded table.now.frame x item hand.new.me) }
    ensures plays { KeepsPlays hand.old.me hand.new.me }
    ensures notes { KeepsNotes hand.old.me hand.new.me }
    ensures beside { IfOk result (λ _. KeepsBesideLeaf table.now.frame x hand.old.me hand.new.me) }
    ensures steps { IfOk result (λ _. GoesOn hand.old.me hand.new.me) }
    ensures fault { IfErr result (IsNodeCause table.now hand.old.me hand.new.me x) }
{
    let _start = take_home(table, hand, x);
    put_home(table, hand, x, item);
    if is_registered(table.phase_of(hand, x)) {
        return Err(Fault::Registered);
    }
    table.finish(hand, x);
    Ok(())
}
