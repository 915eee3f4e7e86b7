//! Vigils: a hand looks, lies down, looks at all, and sleeps.

use deck_relay::{Deck, Relay};
use sleepers::Vigil;
use std::alloc::Global;
use std::sync::Wait;
use std::test::Fail;

// The deck of the one worker, and that of hand 0.
fn two(alloc: Global) -> Result<Option<(Deck, Deck)>, Fail> {
    let mut decks = Relay::open(alloc, 1)?;
    let (Some(last), Some(first)) = (decks.pop(), decks.pop()) else {
        return Ok(None);
    };
    Ok(Some((first, last)))
}

// So often a test looks at most.
const MOST_LOOKS: u32 = 10_000;

// Looks in vain until the hand lies. How many looks by names it made before.
fn looks<R: Wait>(rt: &R, vigil: &mut Vigil, deck: &Deck) -> u32 {
    for made in 0..MOST_LOOKS {
        if vigil.begin(rt, deck.sleeper()) {
            return made;
        }
        vigil.missed(deck.sleeper());
    }
    MOST_LOOKS
}

#[test]
fn a_hand_sleeps_after_it_has_looked_at_all(rt: HostRuntime) -> Result<(), Fail> {
    let (first, last) = two(rt.alloc())?.expect(&rt, "two decks");
    let mut vigil = Vigil::new();
    looks(&rt, &mut vigil, &first);
    assert!(rt; vigil.is_lying());
    // who pushes a name wakes it, so it comes back from its sleep, and looks by names
    assert!(rt; last.sleeper().wake_one());
    vigil.missed(first.sleeper());
    assert!(rt; !vigil.is_lying());
    assert!(rt; !vigil.begin(&rt, first.sleeper()));
    // it is counted as searching, until it finds something: so one more may search beside it
    assert!(rt; first.sleeper().try_search());
    assert!(rt; !first.sleeper().try_search());
    assert!(rt; vigil.found(first.sleeper()));
    assert!(rt; first.sleeper().try_search());
    Ok(())
}

#[test]
fn a_hand_that_finds_something_has_no_bit(rt: HostRuntime) -> Result<(), Fail> {
    let (first, last) = two(rt.alloc())?.expect(&rt, "two decks");
    let mut vigil = Vigil::new();
    looks(&rt, &mut vigil, &first);
    assert!(rt; !vigil.found(first.sleeper()));
    assert!(rt; !last.sleeper().wake_one());
    Ok(())
}

#[test]
fn looks_in_vain_get_fewer(rt: HostRuntime) -> Result<(), Fail> {
    let (first, _last) = two(rt.alloc())?.expect(&rt, "two decks");
    let mut vigil = Vigil::new();
    let most = looks(&rt, &mut vigil, &first);
    for _ in 0..8 {
        vigil.found(first.sleeper());
        looks(&rt, &mut vigil, &first);
    }
    vigil.found(first.sleeper());
    assert!(rt; looks(&rt, &mut vigil, &first) < 6);
    // and now and then it tries the greatest number again
    let mut tried = false;
    for _ in 0..80 {
        vigil.found(first.sleeper());
        tried = looks(&rt, &mut vigil, &first) == most || tried;
    }
    assert!(rt; tried);
    Ok(())
}

#[test]
fn the_last_hand_is_not_counted(rt: HostRuntime) -> Result<(), Fail> {
    let (first, last) = two(rt.alloc())?.expect(&rt, "two decks");
    let mut vigil = Vigil::new();
    vigil.missed(last.sleeper());
    assert!(rt; first.sleeper().try_search());
    assert!(rt; first.sleeper().try_search());
    // it ends its own search, and none of the two that are counted
    vigil.found(last.sleeper());
    assert!(rt; !first.sleeper().try_search());
    first.sleeper().leave_search();
    first.sleeper().leave_search();
    looks(&rt, &mut vigil, &last);
    assert!(rt; first.sleeper().wake_last());
    Ok(())
}
