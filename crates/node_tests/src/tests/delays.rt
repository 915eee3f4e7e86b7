//! In which turn of the loop a delay completes, and what comes before.
use super::cases::{all_complete, all_take_turns};

/// Delays of so many turns.
const OF_0: &str = r#"{"do":"delay","turns":0}"#;

const OF_1: &str = r#"{"do":"delay","turns":1}"#;

const OF_3: &str = r#"{"do":"delay","turns":3}"#;

const OF_40: &str = r#"{"do":"delay","turns":40}"#;

#[test]
fn a_delay_is_due_so_many_turns_after_it_was_first_seen(rt: HostRuntime) {
    let alloc = rt.alloc();
    let line = "1 value\n";
    let lines = [(OF_0, line), (OF_1, line), (OF_3, line), (OF_40, line)];
    all_complete(&rt, alloc, false, &lines);
    // it is seen in the first turn
    let turns = [(OF_0, 1), (OF_1, 2), (OF_3, 4), (OF_40, 41)];
    all_take_turns(&rt, alloc, false, &turns);
}

#[test]
fn a_delay_is_stopped_at_once_where_that_is_asked_before_the_start(rt: HostRuntime) {
    let alloc = rt.alloc();
    let line = "1 stopped\n";
    let lines = [(OF_0, line), (OF_1, line), (OF_3, line), (OF_40, line)];
    all_complete(&rt, alloc, true, &lines);
    let turns = [(OF_0, 0), (OF_1, 0), (OF_3, 0), (OF_40, 0)];
    all_take_turns(&rt, alloc, true, &turns);
}

/// A delay beside a child that fails behind a hop: the delay has many turns, or it hears of no
/// request, or it has many and what is stopped is a value above it.
const PARKED: &str = r#"{"do":"when_all","children":[{"do":"delay","turns":50},
        {"do":"starts_on","on":"loop","child":{"do":"just_error","error":"late"}}]}"#;

const SHELTERED: &str = r#"{"do":"when_all","children":[
        {"do":"unstoppable","child":{"do":"delay","turns":3}},
        {"do":"starts_on","on":"loop","child":{"do":"just_error","error":"late"}}]}"#;

const TAKEN_UP: &str = r#"{"do":"when_all","children":[
        {"do":"upon_stopped","child":{"do":"delay","turns":50},
            "job":{"job":"give","values":[]}},
        {"do":"starts_on","on":"loop","child":{"do":"just_error","error":"late"}}]}"#;

#[test]
fn a_stop_request_reaches_a_delay_that_is_parked(rt: HostRuntime) {
    let alloc = rt.alloc();
    let line = "1 error late\n";
    let lines = [(PARKED, line), (SHELTERED, line), (TAKEN_UP, line)];
    all_complete(&rt, alloc, false, &lines);
    // the first turn takes the hop, behind which the other child fails; the second takes the delay,
    // which its callback roused; but one that hears no request has its turns
    let turns = [(PARKED, 2), (SHELTERED, 4), (TAKEN_UP, 2)];
    all_take_turns(&rt, alloc, false, &turns);
}

#[test]
fn a_delay_that_was_stopped_completes_stopped(rt: HostRuntime) {
    let root = r#"{"do":"when_all","children":[
                {"do":"stopped_as_error","child":{"do":"delay","turns":50},"error":"roused"},
                {"do":"starts_on","on":"loop","child":{"do":"just_stopped"}}]}"#;
    all_complete(&rt, rt.alloc(), false, &[(root, "1 error roused\n")]);
}
