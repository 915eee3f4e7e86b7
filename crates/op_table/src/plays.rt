//! What each step tells its hand. These types are for the proofs alone.
ghost use Rattle.std.specs.Prelude.{◌≡◌, List, [], ℕ, Option, None};
ghost use Rattle.node_tree.specs.declared.node.TreeNode.{TreeNode};
ghost use Rattle.life_rules.specs.declared.words.ControlWord.TheVariants.{Idle, Busy};
ghost use Rattle.life_rules.specs.declared.event.Name.{Name};
ghost use Rattle.life_rules.specs.declared.event.SourceRef.{SourceRef};
ghost use Rattle.life_rules.specs.declared.event.SourceRef.TheVariants.{Scope};
ghost use Rattle.table_rules.specs.declared.frame.Frame.{Frame};
ghost use Rattle.table_steps.specs.Views.{fresh, split_once, fresh_after};
ghost use Rattle.table_steps.specs.Closings.{gathered, spent};
ghost use Rattle.table_steps.specs.Slots.{Aim};
ghost use Rattle.table_steps.specs.Claims.{looks, claims};
ghost use Rattle.table_steps.specs.Lefts.{FindsControl};
ghost use Rattle.table_steps.specs.Begins.{Renews, BeginsAt};
ghost use Rattle.table_steps.specs.Rests.{RestsAt};
ghost use Rattle.table_steps.specs.Takes.{TakesAt};
ghost use Rattle.table_steps.specs.Finishes.{FinishesAt};
ghost use Rattle.table_steps.specs.Awaits.{AwaitsAt};
ghost use Rattle.table_steps.specs.Readings.{ChildReads, reads_phase};
ghost use Rattle.table_steps.specs.Sights.{LooksAt};
ghost use Rattle.table_steps.specs.Reports.{ReportsAt};
ghost use Rattle.table_steps.specs.Releases.{TellsRelease};
ghost use Rattle.table_steps.specs.Swaps.{TurnsTo};

use atomic_table::{Join, Play, Split};
use std::marker::{Brand, PhantomData};
use table_rules::{Cargo, View};

/// A further hand is split off from hand 0.
pub struct NextHand;

impl<P, E> Split<View<P, E>> for NextHand {
    ghost left = { split_once };

    ghost right = { fresh_after };
}

/// What a hand knows that is joined to another. A call picks it.
pub trait Knower<V> {
    ghost view: { V };
}

impl<P, E> Knower<View<P, E>> for Brand {
    ghost view = { fresh 0 };
}

/// A hand is joined to another, which counts for both from then on.
pub struct Gathers<K> {
    knower: PhantomData<K>,
}

impl<P, E, K: Knower<View<P, E>>> Join<View<P, E>> for Gathers<K> {
    ghost both = { gathered };

    ghost spent = { spent K.view };
}

/// The node that a step is about, in its table. A call picks it.
pub trait Subject {
    ghost aim: { Aim };
}

impl Subject for Brand {
    ghost aim = { record {
      tree = [];
      layout = record { blocks = 0; nodes = 0 };
      name = record { block = 0; generation = 0; node = 0 };
    } };
}

/// A load that is listed, and changes nothing else.
pub struct Looks;

impl<P, E> Play<Option<P>, View<P, E>> for Looks {
    ghost then = { looks };
}

/// The load by which a hand turns to one of its homes.
pub struct Turns<K> {
    subject: PhantomData<K>,
}

impl<P, E, K: Subject> Play<Option<P>, View<P, E>> for Turns<K> {
    ghost then = { λ step m found m'. TurnsTo K.aim step.word found m m' };
}

/// The exchange by which a block is claimed.
pub struct Claims<K> {
    subject: PhantomData<K>,
}

impl<P, E, K: Subject> Play<Option<P>, View<P, E>> for Claims<K> {
    ghost then = { claims K.aim };
}

/// The store by which a source is renewed.
pub struct Renewals<K> {
    subject: PhantomData<K>,
}

impl<P, E, K: Subject> Play<Option<P>, View<P, E>> for Renewals<K> {
    ghost then = { λ step m found m'. Renews K.aim.name step.word found step.first m m' };
}

/// The store by which a node is begun.
pub struct Beginnings<K> {
    subject: PhantomData<K>,
}

impl<P: Cargo, K: Subject> Play<Option<P>, View<P, P::Entry>> for Beginnings<K> {
    ghost then = { λ step m found m'. FindsControl K.aim Idle
        (BeginsAt P.Cargo K.aim) step.word found step.first m m' };
}

/// The store by which a node is left at rest.
pub struct Rests<K> {
    subject: PhantomData<K>,
}

impl<P, E, K: Subject> Play<Option<P>, View<P, E>> for Rests<K> {
    ghost then = { λ step m found m'. FindsControl K.aim (Busy 0)
        (RestsAt K.aim) step.word found step.first m m' };
}

/// What the table was opened over. A call picks it.
pub trait Keyed<O> {
    ghost overs: { List O };
}

impl<O> Keyed<O> for Brand {
    ghost overs = { [] };
}

/// The exchange by which a node that rests is taken.
pub struct Takes<K, J> {
    subject: PhantomData<K>,
    key: PhantomData<J>,
}

impl<P: Cargo, K: Subject, J: Keyed<P::Over>> Play<Option<P>, View<P, P::Entry>> for Takes<K, J> {
    ghost then = { TakesAt P.Cargo K.aim J.overs };
}

/// The store by which a node is finished.
pub struct Finishes<K> {
    subject: PhantomData<K>,
}

impl<P: Cargo, K: Subject> Play<Option<P>, View<P, P::Entry>> for Finishes<K> {
    ghost then = { λ step m found m'. FindsControl K.aim (Busy 0)
        (FinishesAt P.Cargo K.aim) step.word found step.first m m' };
}

/// The children that an await names. A call picks them.
pub trait Naming {
    ghost names: { List ℕ };
}

impl Naming for Brand {
    ghost names = { [] };
}

/// The store by which a node awaits children.
pub struct Awaits<K, J> {
    subject: PhantomData<K>,
    names: PhantomData<J>,
}

impl<P: Cargo, K: Subject, J: Naming> Play<Option<P>, View<P, P::Entry>> for Awaits<K, J> {
    ghost then = { λ step m found m'. FindsControl K.aim (Busy 0)
        (AwaitsAt P.Cargo K.aim J.names) step.word found step.first m m' };
}

/// The load of a child's control word, by the hand that holds its parent.
pub struct ReadsChild<K, J> {
    parent: PhantomData<K>,
    child: PhantomData<J>,
}

impl<P, E, K: Subject, J: Subject> Play<Option<P>, View<P, E>> for ReadsChild<K, J> {
    ghost then = { λ step m found m'. ChildReads K.aim.name J.aim.name step.word found m m' };
}

/// The load of a node's callback word, by the hand that holds it.
pub struct ReadsPhase<K> {
    subject: PhantomData<K>,
}

impl<P, E, K: Subject> Play<Option<P>, View<P, E>> for ReadsPhase<K> {
    ghost then = { λ step m found m'. m' ≡ reads_phase K.aim.name step.word found m };
}

/// The tree of the table, the source that a look is at, and the place after whose arming it is. A
/// call picks them.
pub trait Regard {
    ghost tree: { List TreeNode };

    ghost source: { SourceRef };

    ghost after: { Option Name };
}

impl Regard for Brand {
    ghost tree = { [] };

    ghost source = { Scope };

    ghost after = { None };
}

/// The load by which a hand looks at a stop source.
pub struct Sights<K> {
    regard: PhantomData<K>,
}

impl<P, E, K: Regard> Play<Option<P>, View<P, E>> for Sights<K> {
    ghost then = { λ step m found m'. LooksAt K.tree K.source K.after step.word found m m' };
}

/// The subtraction by which a child is reported to its parent.
pub struct Reports<K, J, L> {
    parent: PhantomData<K>,
    child: PhantomData<J>,
    key: PhantomData<L>,
}

impl<P: Cargo, K: Subject, J: Subject, L: Keyed<P::Over>> Play<Option<P>, View<P, P::Entry>>
    for Reports<K, J, L> {
    ghost then = { ReportsAt P.Cargo K.aim J.aim.name L.overs };
}

/// In which table a step is made, and by the hand of which number. A call picks them.
pub trait Site<O> {
    ghost frames: { List (Frame O) };

    ghost hand: { ℕ };
}

impl<O> Site<O> for Brand {
    ghost frames = { [] };

    ghost hand = { 0 };
}

/// The store by which a block is given back.
pub struct Releases<K, J> {
    subject: PhantomData<K>,
    site: PhantomData<J>,
}

impl<P: Cargo, K: Subject, J: Site<P::Over>> Play<Option<P>, View<P, P::Entry>> for Releases<K, J> {
    ghost then = { λ step m found m'. TellsRelease P.Cargo J.frames J.hand K.aim
        step.word found step.first m m' };
}
