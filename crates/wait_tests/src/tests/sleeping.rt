//! Hands that sleep: who is woken, and who is counted as searching.

use deck_relay::{Deck, Relay};
use std::alloc::Global;
use std::test::Fail;

// The decks of two workers, and that of hand 0, whose place is the last.
fn three(alloc: Global) -> Result<Option<(Deck, Deck, Deck)>, Fail> {
    let mut decks = Relay::open(alloc, 2)?;
    let (Some(last), Some(second), Some(first)) = (decks.pop(), decks.pop(), decks.pop()) else {
        return Ok(None);
    };
    Ok(Some((first, second, last)))
}

#[test]
fn two_hands_search_at_a_time(rt: HostRuntime) -> Result<(), Fail> {
    let (first, second, _last) = three(rt.alloc())?.expect(&rt, "three decks");
    assert!(rt; first.sleeper().try_search());
    assert!(rt; second.sleeper().try_search());
    assert!(rt; !second.sleeper().try_search());
    second.sleeper().leave_search();
    // nobody is woken while one searches
    second.sleeper().lie_down();
    assert!(rt; !first.sleeper().wake_one());
    assert!(rt; second.sleeper().get_up());
    assert!(rt; second.sleeper().try_search());
    assert!(rt; !second.sleeper().try_search());
    first.sleeper().leave_search();
    assert!(rt; second.sleeper().try_search());
    Ok(())
}

#[test]
fn a_hand_that_is_woken_searches(rt: HostRuntime) -> Result<(), Fail> {
    let (first, second, _last) = three(rt.alloc())?.expect(&rt, "three decks");
    assert!(rt; !first.sleeper().wake_one());
    second.sleeper().lie_down();
    assert!(rt; first.sleeper().wake_one());
    // one more may search beside it
    assert!(rt; first.sleeper().try_search());
    assert!(rt; !first.sleeper().try_search());
    first.sleeper().leave_search();
    // its token is there, and another took its bit
    second.sleeper().park(&rt);
    assert!(rt; !second.sleeper().get_up());
    second.sleeper().leave_search();
    second.sleeper().lie_down();
    assert!(rt; !first.sleeper().wake(0));
    assert!(rt; first.sleeper().wake(1));
    assert!(rt; !first.sleeper().wake(1));
    Ok(())
}

#[test]
fn the_last_hand_is_woken_for_itself_alone(rt: HostRuntime) -> Result<(), Fail> {
    let (first, _second, last) = three(rt.alloc())?.expect(&rt, "three decks");
    last.sleeper().lie_down();
    assert!(rt; !first.sleeper().wake_one());
    assert!(rt; first.sleeper().wake_last());
    assert!(rt; !first.sleeper().wake_last());
    last.sleeper().park(&rt);
    // it isn't counted as searching, so two others may
    assert!(rt; first.sleeper().try_search());
    assert!(rt; first.sleeper().try_search());
    Ok(())
}

#[test]
fn each_hand_gets_a_token(rt: HostRuntime) -> Result<(), Fail> {
    let (first, second, last) = three(rt.alloc())?.expect(&rt, "three decks");
    second.wake_all();
    first.sleeper().park(&rt);
    second.sleeper().park(&rt);
    last.sleeper().park(&rt);
    Ok(())
}
