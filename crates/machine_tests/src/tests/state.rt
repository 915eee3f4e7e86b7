//! A few steps, and what is read of the state after them. Runs with steps of all kinds are data for
//! the program (tests/cases/machine.json).

use exec_life::{State, opening};
use life_rules::{BlockState, BlockWord, CallbackPhase, ControlWord, Event, Place};
use node_tree::{ScopeKind, Tree, TreeNode};
use std::alloc::Global;
use std::test::Fail;

fn at(block: u32, node: u32) -> Place {
    Place { block, node }
}

fn step(state: &mut State, hand: u32, event: Event) -> bool {
    hand < state.hands() && state.step(hand, event)
}

// Two blocks and two hands; a root with one child, and a scope that takes one association.
fn pairs(alloc: Global) -> Result<State, Fail> {
    let root = TreeNode {
        parent: None,
        source: false,
        unstoppable: false,
    };
    let child = TreeNode {
        parent: Some(1),
        ..root
    };
    let tree = Tree::open(alloc, vec![in alloc; child, root]?)?;
    Ok(opening(alloc, &tree, 2, 2, ScopeKind::Counting, 1)?)
}

fn control(state: &State, place: Place) -> Option<ControlWord> {
    if state.has_place(place) {
        Some(state.words().control(place))
    } else {
        None
    }
}

fn callback(state: &State, place: Place) -> Option<CallbackPhase> {
    if state.has_place(place) {
        Some(state.words().callback(place))
    } else {
        None
    }
}

fn block(state: &State, block: u32) -> Option<BlockWord> {
    if block < state.blocks() {
        Some(state.words().block(block))
    } else {
        None
    }
}

fn holds(state: &State, hand: u32, place: Place) -> bool {
    hand < state.hands() && state.has_place(place) && state.view(hand).holds(place)
}

#[test]
fn a_hand_has_what_its_steps_gave_it(rt: HostRuntime) -> Result<(), Fail> {
    let mut state = pairs(rt.alloc())?;
    let place = at(1, 1);
    assert!(rt;
        !step(&mut state, 1, Event::Begin { place }),
        "nothing is claimed"
    );
    assert!(rt; step(&mut state, 1, Event::Claim { block: 1 }));
    assert!(rt; step(&mut state, 1, Event::Begin { place }));
    assert!(rt;
        !step(&mut state, 0, Event::Finish { place }),
        "hand 1 holds it"
    );
    assert!(rt; holds(&state, 1, place) && !holds(&state, 0, place));
    assert_eq!(rt; control(&state, place), Some(ControlWord::Busy(0)));
    assert_eq!(rt; callback(&state, place), Some(CallbackPhase::Never));
    let open = BlockWord {
        generation: 0,
        state: BlockState::Open,
    };
    assert_eq!(rt; block(&state, 1), Some(open));
    Ok(())
}
