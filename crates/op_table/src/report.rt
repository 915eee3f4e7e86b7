//! How a child is reported to its parent.
ghost use Rattle.std.specs.Prelude.{◌≡◌, ◌≢◌, ◌∷◌, []};
ghost use Rattle.life_rules.specs.Words.{pending};
ghost use Rattle.table_words.specs.Controls.{control_read};
ghost use Rattle.table_steps.specs.Views.{IsHandOf, IsPlaceIn, aim_at, Stays, knows};
ghost use Rattle.table_steps.specs.Readings.{above_it};
ghost use Rattle.table_steps.specs.declared.report.Report.TheVariants.{Last, Others};
ghost use Rattle.table_steps.specs.Reports.{CanReport, IsReportedAs};

use crate::plays::{Keyed, Reports, Subject};
use crate::table::{Hand, OpTable, SeatOf};
use life_rules::{ControlWord, Name};
use std::marker::Brand;
use table_rules::Cargo;
use table_steps::Report;
use table_words::{read_control, words_are_exact};

fn pending(control: ControlWord) -> u32
    ensures { result ≡ pending control }
{
    match control {
        ControlWord::Busy(pending) => pending,
        ControlWord::Idle
        | ControlWord::ReadyLoop
        | ControlWord::ReadyPool
        | ControlWord::Parked
        | ControlWord::Done => 0,
    }
}

// What the word says that a report read.
fn report_of(word: u64) -> Report
    ensures last { result ≡ Last → pending (control_read word) ≡ 1 }
    ensures others { result ≡ Others → pending (control_read word) ≢ 1 }
{
    if pending(read_control(word)) == 1 {
        Report::Last
    } else {
        Report::Others
    }
}

impl<P: Cargo> OpTable<P> {
    /// The node's parent; of the root the root.
    pub fn parent_of(&self, child: Name) -> Name
        requires place { IsPlaceIn self.now child }
        ensures name { result ≡ above_it self.now.frame.tree child }
        ensures place { IsPlaceIn self.now result }
    {
        let _nodes = self.frame.tree.size();
        match self.frame.tree.node(child.node).parent {
            Some(parent) => Name {
                block: child.block,
                generation: child.generation,
                node: parent,
            },
            None => child,
        }
    }

    /// Reports the node, which is done, to its parent. Last exactly where the word that was read
    /// had one pending.
    ///
    /// Step: one subtraction from the parent's control word, one pending less. A store would lose
    /// the report of another hand between load and store.
    /// Needs: the hand owes the report, and makes no scan of the parent's source.
    /// Afterwards: the hand owes the report no more. After the last it holds the parent with the
    /// start with which it began, and has the item of its home, and the homes of its children, of
    /// which as many are full as the last await named. That of the node keeps the item with which
    /// it finished.
    pub fn report(&self, hand: &mut Hand<P>, name: Name) -> Report
        requires table { IsHandOf self.now hand.old }
        requires place { IsPlaceIn self.now name }
        requires needs { CanReport self.now.frame.tree (knows hand.old) name }
        ensures stays { Stays self.now hand.old hand.new }
        ensures reported { IsReportedAs P.Cargo self.now.frame name result hand.old.me hand.new.me }
    {
        let parent = self.parent_of(name);
        self.report_to::<Brand, Brand, Brand>(&mut hand.seat, name, parent)
    }

    /// The same, where the node's parent is at hand: it isn't looked up again.
    #[inline(always)]
    pub fn report_below(&self, hand: &mut Hand<P>, name: Name, parent: Name) -> Report
        requires table { IsHandOf self.now hand.old }
        requires place { IsPlaceIn self.now name }
        requires above { parent ≡ above_it self.now.frame.tree name }
        requires within { IsPlaceIn self.now parent }
        requires needs { CanReport self.now.frame.tree (knows hand.old) name }
        ensures stays { Stays self.now hand.old hand.new }
        ensures reported { IsReportedAs P.Cargo self.now.frame name result hand.old.me hand.new.me }
    {
        self.report_to::<Brand, Brand, Brand>(&mut hand.seat, name, parent)
    }

    fn report_to<K: Subject, J: Subject, L: Keyed<P::Over>>(
        &self,
        seat: &mut SeatOf<P>,
        name: Name,
        parent: Name,
    ) -> Report
        requires table { IsHandOf self.now seat.old }
        requires place { IsPlaceIn self.now name }
        requires above { parent ≡ above_it self.now.frame.tree name }
        requires within { IsPlaceIn self.now parent }
        requires needs { CanReport self.now.frame.tree (knows seat.old) name }
        requires parent { K.aim ≡ aim_at self.now (above_it self.now.frame.tree name) }
        requires child { J.aim ≡ aim_at self.now name }
        requires key { L.overs ≡ self.now.frame.over.value ∷ [] }
        ensures stays { Stays self.now seat.old seat.new }
        ensures reported { IsReportedAs P.Cargo self.now.frame name result seat.old.me seat.new.me }
    {
        words_are_exact();
        // (the contract alone speaks of it)
        let _child = name;
        let index = self.frame.layout.control(parent.block, parent.node);
        let word = self.table.fetch_sub::<Reports<K, J, L>>(seat, index, 1);
        report_of(word)
    }
}
