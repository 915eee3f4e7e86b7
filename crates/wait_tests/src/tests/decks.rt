//! Decks: what one pushes another steals, and what goes through the queue that they share.

use crate::tests::name;
use deck_relay::{Deck, Name, Relay};
use std::sync::Wait;
use std::test::Fail;
use std::thread;

// Whether the names of the nodes below this number are pushed there.
fn pushes<R: Wait>(rt: &R, deck: &mut Deck, nodes: u32) -> bool {
    for node in 0..nodes {
        if deck.push(rt, name(node)).is_err() {
            return false;
        }
    }
    true
}

// Whether the name of this node is put into the queue that the decks share.
fn offers<R: Wait>(rt: &R, deck: &mut Deck, node: u32) -> bool {
    deck.offer(rt, name(node)).is_ok()
}

// What the deck takes.
fn next<R: Wait>(rt: &R, deck: &mut Deck) -> Option<Name> {
    deck.take(rt)
}

// Whether the deck takes the names of the nodes below this number, in their order.
fn takes<R: Wait>(rt: &R, deck: &mut Deck, nodes: u32) -> bool {
    for node in 0..nodes {
        if next(rt, deck) != Some(name(node)) {
            return false;
        }
    }
    true
}

#[test]
fn a_third_deck_takes_each_name_once(rt: HostRuntime) -> Result<(), Fail> {
    let mut decks = Relay::open(rt.alloc(), 2)?;
    let mut third = decks.pop().expect(&rt, "three decks");
    let mut second = decks.pop().expect(&rt, "three decks");
    let mut first = decks.pop().expect(&rt, "three decks");
    assert!(rt; pushes(&rt, &mut first, 100));
    assert!(rt; offers(&rt, &mut second, 100));
    // the shared queue first, and then the deque of the first deck, in its order
    assert!(rt; next(&rt, &mut third) == Some(name(100)));
    assert!(rt; takes(&rt, &mut third, 100));
    assert!(rt; next(&rt, &mut third) == None);
    assert!(rt; next(&rt, &mut first) == None);
    assert!(rt; next(&rt, &mut second) == None);
    Ok(())
}

#[test]
fn names_that_a_steal_moves_are_stolen_again(rt: HostRuntime) -> Result<(), Fail> {
    let mut decks = Relay::open(rt.alloc(), 2)?;
    let mut third = decks.pop().expect(&rt, "three decks");
    let mut second = decks.pop().expect(&rt, "three decks");
    let mut first = decks.pop().expect(&rt, "three decks");
    assert!(rt; pushes(&rt, &mut first, 20));
    // seven names move with the first, and the second deck finds the next one, with which five move
    assert!(rt; next(&rt, &mut third) == Some(name(0)));
    assert!(rt; next(&rt, &mut second) == Some(name(8)));
    // a deck comes to the names that moved before it steals again
    assert!(rt; next(&rt, &mut third) == Some(name(1)));
    assert!(rt; next(&rt, &mut second) == Some(name(9)));
    // the first deck takes those that are left in its own, and then steals what moved
    for left in 14..20 {
        assert!(rt; next(&rt, &mut first) == Some(name(left)));
    }
    assert!(rt; next(&rt, &mut first) == Some(name(10)));
    Ok(())
}

// Whether the deck at the second place takes what the one at the first pushes, and then nothing.
fn steals<R: Wait>(rt: &R, decks: &mut [Deck], from: u32, to: u32) -> bool {
    let Some(owner) = decks.get_mut(from as usize) else {
        return false;
    };
    if owner.push(rt, name(from)).is_err() {
        return false;
    }
    let Some(thief) = decks.get_mut(to as usize) else {
        return false;
    };
    next(rt, thief) == Some(name(from)) && next(rt, thief) == None
}

#[test]
fn each_deck_steals_from_each_other(rt: HostRuntime) -> Result<(), Fail> {
    let mut decks = Relay::open(rt.alloc(), 3)?;
    for from in 0..4 {
        for to in 0..4 {
            assert!(rt; steals(&rt, decks.as_mut_slice(), from, to));
        }
    }
    Ok(())
}

#[test]
fn a_deck_moves_to_a_thread(rt: HostRuntime) -> Result<(), Fail> {
    let mut decks = Relay::open(rt.alloc(), 1)?;
    let mut last = decks.pop().expect(&rt, "two decks");
    let mut first = decks.pop().expect(&rt, "two decks");
    let worker = thread::spawn(&rt, move || pushes(&rt, &mut first, 1))?;
    assert!(rt; worker.join(&rt));
    // the first deck is gone, but not what it pushed
    assert!(rt; takes(&rt, &mut last, 1));
    assert!(rt; next(&rt, &mut last) == None);
    Ok(())
}

#[test]
fn a_relay_that_nobody_used_closes_with_no_name(rt: HostRuntime) -> Result<(), Fail> {
    let decks = Relay::open(rt.alloc(), 16)?;
    assert!(rt; Relay::close(&rt, decks) == 0);
    Ok(())
}
