//! The steps of an operation's life: each writes one word and the hand's cells.
ghost use Rattle.std.specs.Prelude.{◌≡◌, ◌<◌, ◌-◌, ℕ, true, if◌then◌else◌, map, IfSome};
ghost use Rattle.life_rules.specs.LifeSteps.{may_claim, after_claim, may_begin, after_begin, may_await, after_await, may_rest, after_rest, may_take, after_take, may_finish, after_finish, may_report, after_report, may_release, after_release, next_word};
ghost use Rattle.life_rules.specs.States.{size, name_at, control_at};
ghost use Rattle.node_tree.specs.Tree.{is_root};
ghost use Rattle.life_rules.specs.Words.{resting_at, pending, one_less};
ghost use Rattle.exec_life.specs.declared.view.Role.TheVariants.{HoldsFinished, OwesReport};
ghost use Rattle.exec_life.specs.Parts.{lists_of, shown, IsReady, Means};

use crate::parts::Parts;
use crate::view::{Role, forget_each};
use life_rules::{BlockState, BlockWord, ControlWord, Place, Resting};

// The word of a node that rests there.
fn resting_at(to: Resting) -> ControlWord
    ensures { result ≡ resting_at to }
{
    match to {
        Resting::Loop => ControlWord::ReadyLoop,
        Resting::Pool => ControlWord::ReadyPool,
        Resting::Parked => ControlWord::Parked,
    }
}

// How many children are still to report.
fn pending(word: ControlWord) -> u32
    ensures { result ≡ pending word }
{
    match word {
        ControlWord::Busy(children) => children,
        _ => 0,
    }
}

// The word after one child's report.
fn one_less(word: ControlWord) -> ControlWord
    ensures { result ≡ one_less word }
{
    match word {
        ControlWord::Busy(children) => ControlWord::Busy(children.saturating_sub(1)),
        other => other,
    }
}

// A block's word after its release.
fn next_word(word: BlockWord) -> BlockWord
    ensures { result ≡ next_word word }
{
    if word.generation == u32::MAX {
        BlockWord {
            generation: word.generation,
            state: BlockState::Retired,
        }
    } else {
        BlockWord {
            generation: word.generation + 1,
            state: BlockState::Free,
        }
    }
}

impl Parts {
    // What the hand has of a node that is done: its report, or the finished root.
    fn ending_role(&self, node: u32) -> Role
        requires { node < size (shown self.now) }
        ensures { let tree = (shown self.now).tree in
            result ≡ (if is_root tree node then HoldsFinished else OwesReport) }
    {
        let size = self.tree.size();
        if node + 1 == size {
            Role::HoldsFinished
        } else {
            Role::OwesReport
        }
    }

    /// The hand begins the node, and holds it.
    pub fn begin(&mut self, hand: u32, place: Place)
        requires ready { IsReady self.old hand }
        requires needs { may_begin (shown self.old) hand place ≡ true }
        ensures { Means (lists_of self.new) (after_begin (shown self.old) hand place) }
    {
        self.words.set_control(place, ControlWord::Busy(0));
        self.views[hand as usize].set_role(place, Role::Holds);
    }

    /// The node rests, and no hand holds it.
    pub fn rest(&mut self, hand: u32, place: Place, to: Resting)
        requires ready { IsReady self.old hand }
        requires needs { may_rest (shown self.old) hand place ≡ true }
        ensures { Means (lists_of self.new) (after_rest (shown self.old) hand place to) }
    {
        self.words.set_control(place, resting_at(to));
        self.views[hand as usize].set_role(place, Role::Nothing);
    }

    /// The hand takes the node, and holds it.
    pub fn take(&mut self, hand: u32, place: Place)
        requires ready { IsReady self.old hand }
        requires needs { may_take (shown self.old) hand place ≡ true }
        ensures { Means (lists_of self.new) (after_take (shown self.old) hand place) }
    {
        self.words.set_control(place, ControlWord::Busy(0));
        self.views[hand as usize].set_role(place, Role::Holds);
    }

    /// The node is done: the hand owes its report, or holds the finished root.
    pub fn finish(&mut self, hand: u32, place: Place)
        requires ready { IsReady self.old hand }
        requires needs { may_finish (shown self.old) hand place ≡ true }
        ensures { Means (lists_of self.new) (after_finish (shown self.old) hand place) }
    {
        let role = self.ending_role(place.node);
        self.words.set_control(place, ControlWord::Done);
        self.views[hand as usize].set_role(place, role);
    }

    /// The free block is open, at the same generation, and the hand owes the root's start.
    pub fn claim(&mut self, hand: u32, block: u32)
        requires ready { IsReady self.old hand }
        requires needs { may_claim (shown self.old) hand block ≡ true }
        ensures { Means (lists_of self.new) (after_claim (shown self.old) hand block) }
    {
        let word = self.words.block(block);
        let root = Place {
            block,
            node: self.tree.size() - 1,
        };
        self.words.set_block(
            block,
            BlockWord {
                generation: word.generation,
                state: BlockState::Open,
            },
        );
        self.views[hand as usize].set_role(root, Role::OwesStart);
    }

    /// One child less is pending at the parent, which the hand holds after the last.
    pub fn report(&mut self, hand: u32, place: Place)
        requires ready { IsReady self.old hand }
        requires needs { may_report (shown self.old) hand place ≡ true }
        ensures { Means (lists_of self.new) (after_report (shown self.old) hand place) }
    {
        let Some(node) = self.parent(place.node) else {
            return;
        };
        let parent = Place {
            block: place.block,
            node,
        };
        let word = self.control(parent);
        self.words.set_control(parent, one_less(word));
        let view = &mut self.views[hand as usize];
        view.set_role(place, Role::Nothing);
        if pending(word) == 1 {
            view.set_role(parent, Role::Holds);
        }
    }

    /// The node waits for its children, whose starts the hand owes.
    pub fn await_children(&mut self, hand: u32, place: Place, children: &[u32])
        requires ready { IsReady self.old hand }
        requires needs { may_await (shown self.old) hand place children.now ≡ true }
        ensures { Means (lists_of self.new) (after_await (shown self.old) hand place children.now) }
    {
        let view = &mut self.views[hand as usize];
        view.set_role(place, Role::Nothing);
        view.owe_starts(place.block, children);
        let pending = ControlWord::Busy(children.len() as u32);
        self.words.set_control(place, pending);
    }

    /// The block is given back: free at the next generation, or retired after the last.
    pub fn release(&mut self, hand: u32, block: u32)
        requires ready { IsReady self.old hand }
        requires needs { may_release (shown self.old) hand block ≡ true }
        ensures { Means (lists_of self.new) (after_release (shown self.old) hand block) }
    {
        let word = self.words.block(block);
        self.words.set_block(block, next_word(word));
        self.words.clear_places(block);
        forget_each(&mut self.views, block);
    }
}
