//! How a table is opened, and with what it was.
ghost use Rattle.std.specs.Prelude.{◌≡◌, ◌+◌, ◌<◌, ◌≤◌, [], ◌∷◌, ◌++◌, length, IfOk, OnOk};
ghost use Rattle.node_tree.specs.Tree.{IsTree};
ghost use Rattle.life_rules.specs.declared.limits.TheConstants.{MOST_BLOCKS, MOST_HANDS};
ghost use Rattle.table_rules.specs.declared.frame.TheConstants.{MOST_ASSOCIATIONS};
ghost use Rattle.table_rules.specs.Running.{IsFrame};
ghost use Rattle.table_words.specs.Layouts.{places_in, words_in};
ghost use Rattle.table_steps.specs.Views.{AreFreshHands, OpensWith};
ghost use Rattle.table_steps.specs.Views.{fresh, fresh_after, knows, split_once};
ghost use Rattle.table_steps.specs.Openings.{StaysAsOpened};
ghost use Rattle.table_steps.specs.Remembers.{OwesAndRunsNone};
ghost use Rattle.table_steps.specs.Shapes.{frame_of};

use crate::plays::NextHand;
use crate::table::{Hand, OpTable, Ruled, SeatOf};
use listed_words::StepTable;
use name_set::NameSet;
use node_tree::{ScopeKind, Tree};
use std::alloc::{AllocError, Global};
use std::snapshot::Snapshot;
use table_rules::{Cargo, Frame, View};
use table_steps::Shape;
use table_words::Layout;

// The words and homes of a table, under its rule.
type StepsOf<P> = StepTable<
    Option<P>,
    View<P, <P as Cargo>::Entry>,
    Frame<<P as Cargo>::Over>,
    Ruled<P>,
>;

// The frame but for what the table is opened over.
fn shape_of<O>(frame: Frame<O>) -> Shape
    ensures { frame_of result frame ≡ frame }
{
    let Frame {
        tree,
        layout,
        hands,
        kind,
        most,
        over,
    } = frame;
    drop(over);
    Shape {
        tree,
        layout,
        hands,
        kind,
        most,
    }
}

impl<P: Cargo> OpTable<P> {
    /// A table with all blocks free at generation 0, empty homes and an unused scope, and its hands
    /// in the order of their numbers. It fails only for want of memory.
    ///
    /// Afterwards: the hands have made no step, and the table is so as long as they make none.
    pub fn open(
        alloc: Global,
        tree: &Tree,
        over: &P::Over,
        blocks: u32,
        hands: u32,
        kind: ScopeKind,
        most: u32,
    ) -> Result<(OpTable<P>, Vec<Hand<P>>), AllocError>
        requires blocks { (1 ≤ blocks) × (blocks ≤ MOST_BLOCKS) }
        requires hands { (1 ≤ hands) × (hands ≤ MOST_HANDS) }
        requires most { (1 ≤ most) × (most ≤ MOST_ASSOCIATIONS) }
        ensures opened { IfOk result (OpensWith tree.now over.now blocks hands kind most) }
        ensures hands { IfOk result (λ t. AreFreshHands t.0 hands t.1.items) }
        ensures vacant { IfOk result (λ t. StaysAsOpened P.Cargo t.0.frame t.1.items) }
    {
        let frame = Frame {
            tree: tree.clone()?,
            layout: Layout {
                blocks,
                nodes: tree.size(),
            },
            hands,
            kind,
            most,
            over: Snapshot::of(over),
        };
        let (table, first) = Self::of_frame(alloc, frame)?;
        match table.all_hands(alloc, first) {
            Ok(all) => Ok((table, all)),
            Err(error) => {
                drop(table);
                Err(error)
            }
        }
    }

    // The table with this frame, and the seat of its first hand.
    fn of_frame(alloc: Global, frame: Frame<P::Over>) -> Result<(OpTable<P>, SeatOf<P>), AllocError>
        requires frame { IsFrame frame }
        requires tree { IsTree frame.tree }
        requires hands { 1 ≤ frame.hands }
        requires most { frame.most ≤ MOST_ASSOCIATIONS }
        ensures frame { IfOk result (λ t. t.0.frame ≡ frame) }
        ensures first { IfOk result (λ t. AreFreshHands t.0 1 (t.1 ∷ [])) }
    {
        match Self::vacant(alloc, &frame) {
            Ok((table, first)) => {
                let table = OpTable {
                    table,
                    frame: shape_of(frame),
                };
                Ok((table, first))
            }
            Err(error) => {
                drop(frame);
                Err(error)
            }
        }
    }

    // The words and homes of a table with this frame, and the seat of its first hand.
    fn vacant(alloc: Global, frame: &Frame<P::Over>) -> Result<(StepsOf<P>, SeatOf<P>), AllocError>
        requires frame { IsFrame frame.now }
        requires tree { IsTree frame.now.tree }
        requires hands { 1 ≤ frame.now.hands }
        ensures key { IfOk result (λ t. t.0.key ≡ frame.now) }
        ensures words { IfOk result (λ t. t.0.table_id.words ≡ words_in frame.now.layout) }
        ensures slots { IfOk result (λ t. t.0.table_id.slots ≡ places_in frame.now.layout) }
        ensures table { IfOk result (λ t. t.1.table_id ≡ t.0.table_id) }
        ensures me { IfOk result (λ t. t.1.me ≡ (fresh 0, [])) }
    {
        let layout = frame.layout;
        let words = vec![in alloc; 0u64; layout.words()]?;
        StepTable::vacant(alloc, &words, layout.places(), frame)
    }

    // All hands of the table, from the seat of its first.
    fn all_hands(&self, alloc: Global, first: SeatOf<P>) -> Result<Vec<Hand<P>>, AllocError>
        requires nodes { 1 ≤ self.now.frame.layout.nodes }
        requires hands { 1 ≤ self.now.frame.hands }
        requires first { AreFreshHands self.now 1 (first ∷ []) }
        ensures { IfOk result (λ all. AreFreshHands self.now self.now.frame.hands all.items) }
    {
        let mut all = Vec::with_capacity(alloc, self.frame.hands as usize)?;
        self.add_hand(alloc, &mut all, first)?;
        for _number in 1..self.frame.hands {
            let next = self.split_off(&mut all[0]);
            self.add_hand(alloc, &mut all, next)?;
        }
        Ok(all)
    }

    // The seat of the next hand, split off the first.
    fn split_off(&self, first: &mut Hand<P>) -> SeatOf<P>
        requires table { first.old.table_id ≡ self.now.table_id }
        requires first { (knows first.old).number ≡ 0 }
        requires more { (knows first.old).splits + 1 < self.now.frame.hands }
        ensures table { first.new.table_id ≡ first.old.table_id }
        ensures left { first.new.me ≡ (split_once (knows first.old), first.old.me.1) }
        ensures same_table { result.table_id ≡ first.old.table_id }
        ensures right { result.me ≡ (fresh_after (knows first.old), []) }
    {
        self.table.split::<NextHand>(&mut first.seat)
    }

    // The hand on this seat comes behind the others.
    fn add_hand(
        &self,
        alloc: Global,
        all: &mut Vec<Hand<P>>,
        seat: SeatOf<P>,
    ) -> Result<(), AllocError>
        requires nodes { 1 ≤ self.now.frame.layout.nodes }
        requires seat { OwesAndRunsNone self.now seat }
        ensures { OnOk result (all.new.items ≡ all.old.items ++ seat ∷ []) }
    {
        let hand = self.hand_on(alloc, seat)?;
        all.push(hand)?;
        Ok(())
    }

    // The hand on this seat, which owes and runs nothing yet. It has all the room that it needs.
    fn hand_on(&self, alloc: Global, seat: SeatOf<P>) -> Result<Hand<P>, AllocError>
        requires nodes { 1 ≤ self.now.frame.layout.nodes }
        requires seat { OwesAndRunsNone self.now seat }
        ensures { IfOk result (λ hand. hand ≡ seat) }
    {
        let owed = NameSet::empty(alloc, self.frame.layout)?;
        let runs = NameSet::empty(alloc, self.frame.layout)?;
        Ok(Hand { seat, owed, runs })
    }

    /// The number of blocks.
    pub fn blocks(&self) -> u32
        ensures blocks { result ≡ self.now.frame.layout.blocks }
        ensures most { result ≤ MOST_BLOCKS }
    {
        self.frame.layout.blocks
    }

    /// The tree of each operation's nodes. A block has a place for each.
    pub fn tree(&self) -> &Tree
        ensures tree { result.now ≡ self.now.frame.tree }
        ensures is_tree { IsTree self.now.frame.tree }
        ensures nodes { self.now.frame.layout.nodes ≡ length self.now.frame.tree }
    {
        let _nodes = self.frame.tree.size();
        &self.frame.tree
    }

    /// Whether the scope has a stop source.
    pub fn kind(&self) -> ScopeKind
        ensures { result ≡ self.now.frame.kind }
    {
        self.frame.kind
    }

    /// The most associations that the scope takes.
    pub fn most(&self) -> u32
        ensures { result ≡ self.now.frame.most }
    {
        self.frame.most
    }
}
