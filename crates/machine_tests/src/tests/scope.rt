//! How the word of a scope reads.

use life_rules::{Refused, ScopeState, ScopeWord, refusal, scope_state};
use std::test::Fail;

fn word(used: bool, closed: bool, joining: bool, joined: bool, count: u32) -> ScopeWord {
    ScopeWord {
        used,
        closed,
        joining,
        joined,
        count,
    }
}

#[test]
fn a_scope_reads_in_seven_ways(rt: HostRuntime) -> Result<(), Fail> {
    for (scope, says) in [
        (word(false, false, false, false, 0), ScopeState::Unused),
        (
            word(false, true, false, false, 0),
            ScopeState::UnusedAndClosed,
        ),
        (word(false, false, false, false, 1), ScopeState::Open),
        (word(true, true, false, false, 0), ScopeState::Closed),
        (
            word(true, false, true, false, 2),
            ScopeState::OpenAndJoining,
        ),
        (
            word(false, true, true, false, 0),
            ScopeState::ClosedAndJoining,
        ),
        (word(true, true, true, true, 0), ScopeState::Joined),
    ] {
        assert_eq!(rt; scope_state(scope), says);
    }
    Ok(())
}

#[test]
fn a_scope_turns_away_for_the_first_of_its_reasons(rt: HostRuntime) -> Result<(), Fail> {
    for (scope, why) in [
        (word(true, true, true, true, 2), Some(Refused::Joined)),
        (word(true, true, false, false, 2), Some(Refused::Closed)),
        (word(true, false, false, false, 2), Some(Refused::AtMost(2))),
        (word(true, false, true, false, 1), None),
    ] {
        assert_eq!(rt; refusal(scope, 2), why);
    }
    Ok(())
}
