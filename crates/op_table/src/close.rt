//! How a table is closed, and what it leaves.
ghost use Rattle.std.specs.Prelude.{◌≡◌, ◌<◌, ◌≤◌, ◌+◌, []};
ghost use Rattle.std.specs.Mem.Slots.{slots_items, slots_len, IsFull};
ghost use Rattle.node_tree.specs.declared.node.TheConstants.{MOST_NODES};
ghost use Rattle.life_rules.specs.declared.limits.TheConstants.{MOST_BLOCKS};
ghost use Rattle.life_rules.specs.Words.{is_free};
ghost use Rattle.common_lemmas.specs.Sums.{one};
ghost use Rattle.table_words.specs.Layouts.{words_in};
ghost use Rattle.table_rules.specs.ShownWords.{is_retired};
ghost use Rattle.table_steps.specs.Views.{knows};
ghost use Rattle.table_steps.specs.Closings.{TellsOf, AreAllBack, IsClosing, IsCountedBy, IsGathering, IsScopeLeft, gathered, steps_of};

use crate::plays::{Gathers, Knower};
use crate::table::{Hand, OpTable, SeatOf};
use atomic_table::Closed;
use life_rules::{BlockState, ScopeState, scope_state};
use std::alloc::Global;
use std::marker::{Brand, Model};
use std::snapshot::Snapshot;
use table_rules::{Cargo, View};
use table_steps::Remains;
use table_words::{Layout, SCOPE, read_block, read_scope};

/// How a table was closed: which table it was, with what each of its hands came back, and what its
/// words told. Only `close_table` makes one.
#[derive(Drop)]
pub struct Closing<P: Cargo> {
    table: Snapshot<OpTable<P>>,
    hands: Snapshot<Vec<Hand<P>>>,
    remains: Remains,
}

impl<P: Cargo> Model for Closing<P> {
    ghost use Rattle.table_steps.specs.Closings.{ClosedTable, IsClosedSo};

    ghost Value = { ClosedTable P P.Entry P.Over };

    ghost view = { λ c.
        record { board = c.table.value; hands = c.hands.value.items; remains = c.remains } };

    ghost invariant = { λ c. IsClosedSo P.Cargo
        (record { board = c.table.value; hands = c.hands.value.items; remains = c.remains }) };
}

impl<P: Cargo> Closing<P> {
    /// In which state the scope was left.
    pub fn scope(&self) -> ScopeState
        ensures { result ≡ self.now.remains.scope }
    {
        self.remains.scope
    }

    /// How many blocks were free.
    pub fn free(&self) -> u32
        ensures { result ≡ self.now.remains.free }
    {
        self.remains.free
    }

    /// How many blocks were retired.
    pub fn retired(&self) -> u32
        ensures { result ≡ self.now.remains.retired }
    {
        self.remains.retired
    }
}

// What remains with one block more, which is in this state.
fn with_block(remains: Remains, state: BlockState) -> Remains
    requires { (remains.free < MOST_BLOCKS) × (remains.retired < MOST_BLOCKS) }
    ensures scope { result.scope ≡ remains.scope }
    ensures free { result.free ≡ remains.free + one (is_free state) }
    ensures retired { result.retired ≡ remains.retired + one (is_retired state) }
{
    match state {
        BlockState::Free => Remains {
            free: remains.free + 1,
            ..remains
        },
        BlockState::Open => remains,
        BlockState::Retired => Remains {
            retired: remains.retired + 1,
            ..remains
        },
    }
}

// What the words of a table that no hand steps on any more tell.
fn remains_of<S>(closed: &Closed<S, Global>, layout: Layout) -> Remains
    requires words { IsFull closed.now.words × (slots_len closed.now.words ≡ words_in layout) }
    requires layout { (layout.blocks ≤ MOST_BLOCKS) × (layout.nodes ≤ MOST_NODES) }
    ensures { TellsOf layout (slots_items closed.now.words) layout.blocks result }
{
    let scope = closed.word(SCOPE);
    let mut remains = Remains {
        scope: scope_state(read_scope(scope)),
        free: 0,
        retired: 0,
    };
    for block in 0..layout.blocks {
        let index = layout.block(block);
        let word = closed.word(index);
        remains = with_block(remains, read_block(word).state);
    }
    remains
}

// Drops the items that lie in the homes, and gives the memory back.
fn discard<P: Drop>(mut closed: Closed<Option<P>, Global>)
    requires { IsFull closed.slots }
{
    let mut slot = 0;
    while slot < closed.slot_count() {
        drop(closed.take(slot));
        slot += 1;
    }
    closed.free();
}

impl<P: Cargo> OpTable<P> {
    /// Closes the table, and tells what it leaves: the scope's state, and exactly how many blocks
    /// are free and how many were retired. A block of neither is open still, as where its operation
    /// was left at rest. Items that lie in homes are dropped.
    ///
    /// Step: for each hand but one a load of the first word, by which it is joined to that one.
    /// Needs: all hands came back. None holds a node or a finished root, owes a start or a report,
    /// runs a callback, makes a scan or has an association.
    /// Afterwards: as many blocks are open still as the hands claimed and didn't give back. So
    /// where they gave back as many as they claimed, all blocks are free or retired. The words are
    /// as the hands' steps left them. So the scope is joined where one of them joined it, and
    /// unused where none of them used it, and else it is in a state in which it may not end
    /// (P3149, [exec.scope]).
    pub fn close_table(self, hands: Vec<Hand<P>>) -> Closing<P>
        requires hands { AreAllBack self hands.items }
        ensures board { result.board ≡ self }
        ensures hands { result.hands ≡ hands.items }
        ensures closed { IsClosing P.Cargo self.frame hands.items result.remains }
        ensures scope { IsScopeLeft (steps_of hands.items) result.remains.scope }
        ensures within { result.remains.free + result.remains.retired
            ≤ self.frame.layout.blocks }
        ensures counted { IsCountedBy self hands.items result.remains }
    {
        let was = Snapshot::of(&self);
        let back = Snapshot::of(&hands);
        let all = self.gather(hands);
        let OpTable { table, frame } = self;
        let closed = table.close_with(all);
        let remains = remains_of(&closed, frame.layout);
        discard(closed);
        Closing {
            table: was,
            hands: back,
            remains,
        }
    }

    // Joins all hands to one.
    fn gather(&self, mut hands: Vec<Hand<P>>) -> SeatOf<P>
        requires hands { AreAllBack self.now hands.items }
        ensures { IsGathering self.now hands.items [] result }
    {
        let _some = self.frame.hands;
        let Some(first) = hands.pop() else {
            unreachable!()
        };
        let mut all = first.into_seat();
        while let Some(next) = hands.pop() {
            let seat = next.into_seat();
            self.join::<Brand>(&mut all, seat);
        }
        all
    }

    // The first hand counts for the other too.
    fn join<K: Knower<View<P, <P as Cargo>::Entry>>>(&self, all: &mut SeatOf<P>, next: SeatOf<P>)
        requires table { all.old.table_id ≡ self.now.table_id }
        requires next { next.table_id ≡ self.now.table_id }
        requires itself { 1 ≤ (knows all.old).hands }
        requires slots { next.me.1 ≡ [] }
        requires knower { K.view ≡ knows next }
        ensures table { all.new.table_id ≡ all.old.table_id }
        ensures counts { knows all.new ≡ gathered (knows all.old) (knows next) }
    {
        self.table.join::<Gathers<K>>(all, next);
    }
}
