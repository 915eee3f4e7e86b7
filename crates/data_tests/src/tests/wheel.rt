//! Worked examples of a wheel.
ghost use Rattle.std.specs.Prelude.{◌<◌, ◌≤◌};

use std::alloc::{AllocError, Global};
use std::process::Abort;
use std::test::Fail;
use timer_wheel::{Command, LAST_TURN, MOST_PLACES, MOST_TURNS, Reply, Wheel, run};

/// Adds a pair; stops the test where there can't be such a pair.
fn add(rt: &impl Abort, wheel: &mut Wheel, place: u32, turns: u32) -> bool {
    assert!(rt; place < wheel.places() && turns <= MOST_TURNS);
    wheel.add(place, turns)
}

/// Goes on to this turn, and asks for no place on the way.
fn go_on_to(rt: &impl Abort, wheel: &mut Wheel, turn: u64) {
    for _ in wheel.turn()..turn {
        assert!(rt; wheel.turn() < LAST_TURN);
        wheel.advance();
    }
}

#[test]
fn the_limits_of_a_wheel_are_these_numbers(rt: HostRuntime) {
    assert_eq!(rt; LAST_TURN, 4_611_686_018_427_387_904);
    assert_eq!(rt; (MOST_PLACES, MOST_TURNS), (262_400, 1_000_000));
}

#[test]
fn a_place_is_given_at_its_turn_and_not_before(rt: HostRuntime) -> Result<(), Fail> {
    let mut wheel = Wheel::open(rt.alloc(), 10)?;
    for (place, turns) in [(3, 5), (4, 5), (9, 200), (1, 0)] {
        assert!(rt; add(&rt, &mut wheel, place, turns));
    }
    assert!(rt; wheel.due() == Some(1));
    assert!(rt; wheel.due() == None);
    assert!(rt; wheel.remove(4));
    assert!(rt; !wheel.remove(4));
    for (turn, place) in [(4, None), (5, Some(3)), (199, None), (200, Some(9))] {
        go_on_to(&rt, &mut wheel, turn);
        assert!(rt; wheel.due() == place);
        assert!(rt; wheel.due() == None);
    }
    Ok(())
}

#[test]
fn a_second_pair_of_a_place_is_refused(rt: HostRuntime) -> Result<(), Fail> {
    let mut wheel = Wheel::open(rt.alloc(), 2)?;
    assert!(rt; add(&rt, &mut wheel, 1, 3));
    assert!(rt; !add(&rt, &mut wheel, 1, 0));
    assert!(rt; wheel.due() == None);
    assert!(rt; !wheel.remove(2));
    go_on_to(&rt, &mut wheel, 3);
    assert!(rt; wheel.turn() == 3);
    assert!(rt; wheel.due() == Some(1));
    assert!(rt; add(&rt, &mut wheel, 1, 0));
    Ok(())
}

/// The turn at which a place is given next, after so many turns at the most.
fn next_turn(rt: &impl Abort, wheel: &mut Wheel, most: u32) -> Option<u64> {
    for _ in 0..=most {
        if wheel.due().is_some() {
            return Some(wheel.turn());
        }
        assert!(rt; wheel.turn() < LAST_TURN);
        wheel.advance();
    }
    None
}

#[test]
fn a_delay_of_any_length_comes_at_exactly_its_turn(rt: HostRuntime) -> Result<(), Fail> {
    for start in [0u64, 16_300] {
        for turns in [127u32, 128, 16_383, 16_384, 1_000_000] {
            let mut wheel = Wheel::open(rt.alloc(), 1)?;
            go_on_to(&rt, &mut wheel, start);
            assert!(rt; add(&rt, &mut wheel, 0, turns));
            let turn = next_turn(&rt, &mut wheel, turns);
            assert!(rt; turn == Some(start + u64::from(turns)));
        }
    }
    Ok(())
}

#[test]
fn a_list_of_calls_has_its_replies(rt: HostRuntime) -> Result<(), Fail> {
    let mut wheel = Wheel::open(rt.alloc(), 2)?;
    let commands = [
        Command::Add { place: 0, turns: 1 },
        Command::Due,
        Command::Advance,
        Command::Due,
        Command::Remove { place: 0 },
    ];
    let expected = [
        Reply::Added(true),
        Reply::Taken(None),
        Reply::Advanced,
        Reply::Taken(Some(0)),
        Reply::Removed(false),
    ];
    let replies = run(rt.alloc(), &mut wheel, &commands)?;
    assert!(rt; replies.as_slice() == expected.as_slice());
    Ok(())
}

/// Numbers that look random, from a linear congruence.
#[derive(Drop)]
struct Dice {
    seed: u64,
}

impl Dice {
    fn roll(&mut self, sides: u32) -> u32
        requires { 0 < sides }
        ensures { result < sides }
    {
        self.seed = self
            .seed
            .wrapping_mul(6_364_136_223_846_793_005)
            .wrapping_add(1_442_695_040_888_963_407);
        ((self.seed >> 33) % u64::from(sides)) as u32
    }

    fn delay(&mut self) -> u32 {
        match self.roll(4) {
            0 => self.roll(3),
            1 => 126 + self.roll(5),
            2 => self.roll(1_000),
            _ => self.roll(20_000),
        }
    }
}

/// The places that the plain list gives at this turn, which it then has no more.
fn plain_due(
    alloc: Global,
    plain: &mut Vec<Option<u64>>,
    turn: u64,
) -> Result<Vec<usize>, AllocError> {
    let mut places = Vec::new(alloc);
    for (place, due) in plain.iter_mut().enumerate() {
        if matches!(due, Some(at) if *at <= turn) {
            *due = None;
            places.push(place)?;
        }
    }
    Ok(places)
}

/// The places that the wheel gives at this turn.
fn wheel_due(alloc: Global, wheel: &mut Wheel) -> Result<Vec<usize>, AllocError> {
    let mut places = Vec::new(alloc);
    for _ in 0..=wheel.places() {
        let Some(place) = wheel.due() else {
            break;
        };
        places.push(place as usize)?;
    }
    places.sort()?;
    Ok(places)
}

/// One call of a kind that the dice choose, of the wheel and of the plain list.
fn call_both(
    rt: &impl Abort,
    alloc: Global,
    dice: &mut Dice,
    wheel: &mut Wheel,
    plain: &mut Vec<Option<u64>>,
) -> Result<(), AllocError> {
    let place = dice.roll(300);
    assert!(rt; (place as usize) < plain.len());
    match dice.roll(6) {
        0 => {
            let turns = dice.delay();
            let is_free = plain[place as usize].is_none();
            if is_free {
                plain[place as usize] = Some(wheel.turn() + u64::from(turns));
            }
            assert!(rt; add(rt, wheel, place, turns) == is_free);
        }
        1 => {
            let is_there = plain[place as usize].take().is_some();
            assert!(rt; wheel.remove(place) == is_there);
        }
        2 => {
            let expected = plain_due(alloc, plain, wheel.turn())?;
            assert!(rt; wheel_due(alloc, wheel)? == expected);
        }
        _ => {
            let next = wheel.turn() + 1;
            go_on_to(rt, wheel, next);
        }
    }
    Ok(())
}

#[test]
fn ten_thousand_calls_are_those_of_a_plain_list(rt: HostRuntime) -> Result<(), Fail> {
    let alloc = rt.alloc();
    let mut dice = Dice { seed: 48 };
    let mut wheel = Wheel::open(alloc, 300)?;
    let mut plain: Vec<Option<u64>> = vec![in alloc; None; 300]?;
    go_on_to(&rt, &mut wheel, 14_000);
    for _ in 0..10_000 {
        call_both(&rt, alloc, &mut dice, &mut wheel, &mut plain)?;
    }
    Ok(())
}
