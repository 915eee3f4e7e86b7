//! What operations complete with, by the kinds of their nodes.

ghost use Rattle.std.specs.Thread.{IsSync};

use super::MOST_TURNS;
use super::cases::{all_complete, all_take_turns};
use std::alloc::Global;
use std::process::Abort;
use std::sync::Wait;

// Asserts the same of each root, and that its operation is stopped where that is asked before the
// start.
fn all_complete_or_stop<R: Wait + Abort + Sync>(rt: &R, alloc: Global, cases: &[(&str, &str)])
    requires sync { IsSync R.row }
{
    all_complete(rt, alloc, false, cases);
    for case in cases {
        all_complete(rt, alloc, true, &[(case.0, "1 stopped\n")]);
    }
}

#[test]
fn factories_complete_by_themselves(rt: HostRuntime) {
    all_complete(
        &rt,
        rt.alloc(),
        false,
        &[
            (r#"{"do":"input"}"#, "1 value 5\n"),
            (
                r#"{"do":"just","values":[7,"a",[2,3]]}"#,
                "1 value 7 \"a\" [2,3]\n",
            ),
            (r#"{"do":"just_error","error":"late"}"#, "1 error late\n"),
            (r#"{"do":"just_stopped"}"#, "1 stopped\n"),
            (r#"{"do":"read_env","query":"record"}"#, "1 value 1\n"),
            (r#"{"do":"read_env","query":"stop"}"#, "1 value 0\n"),
        ],
    );
}

#[test]
fn read_env_tells_of_a_request_before_the_start(rt: HostRuntime) {
    let root = r#"{"do":"read_env","query":"stop"}"#;
    all_complete(&rt, rt.alloc(), true, &[(root, "1 value 1\n")]);
}

#[test]
fn adaptors_take_what_is_on_their_channel(rt: HostRuntime) {
    all_complete(
        &rt,
        rt.alloc(),
        false,
        &[
            (
                r#"{"do":"then","child":{"do":"input"},"job":{"job":"add","n":1}}"#,
                "1 value 6\n",
            ),
            (
                r#"{"do":"upon_error","child":{"do":"just_error","error":"late"},
                "job":{"job":"length"}}"#,
                "1 value 4\n",
            ),
            (
                r#"{"do":"upon_stopped","child":{"do":"just_stopped"},
                "job":{"job":"give","values":[0]}}"#,
                "1 value 0\n",
            ),
            (
                r#"{"do":"stopped_as_optional","of":"int","child":{"do":"just_stopped"}}"#,
                "1 value none\n",
            ),
            (
                r#"{"do":"stopped_as_optional","of":"int","child":{"do":"input"}}"#,
                "1 value some 5\n",
            ),
            (
                r#"{"do":"stopped_as_error","child":{"do":"just_stopped"},"error":"early"}"#,
                "1 error early\n",
            ),
        ],
    );
}

#[test]
fn adaptors_let_the_others_pass(rt: HostRuntime) {
    all_complete(
        &rt,
        rt.alloc(),
        false,
        &[
            (
                r#"{"do":"then","child":{"do":"just_stopped"},"job":{"job":"give","values":[1]}}"#,
                "1 stopped\n",
            ),
            (
                r#"{"do":"upon_error","child":{"do":"input"},"job":{"job":"length"}}"#,
                "1 value 5\n",
            ),
            (
                r#"{"do":"upon_stopped","child":{"do":"just_error","error":"late"},
                "job":{"job":"give","values":[0]}}"#,
                "1 error late\n",
            ),
            (
                r#"{"do":"stopped_as_error","child":{"do":"input"},"error":"early"}"#,
                "1 value 5\n",
            ),
        ],
    );
}

#[test]
fn a_long_name_of_an_error_goes_up_through_a_chain(rt: HostRuntime) {
    let alloc = rt.alloc();
    let root = r#"{"do":"then","child":{"do":"then","child":{"do":"input"},
                "job":{"job":"fail",
                    "error":"a-name-of-sixty-four-letters-that-stands-in-memory-of-its-own-00"}},
            "job":{"job":"add","n":1}}"#;
    let line = "1 error a-name-of-sixty-four-letters-that-stands-in-memory-of-its-own-00\n";
    all_take_turns(&rt, alloc, false, &[(root, 0)]);
    all_complete(&rt, alloc, false, &[(root, line)]);
}

/// A hop by itself, one before its child and one behind it.
const SCHEDULE: &str = r#"{"do":"schedule","on":"pool"}"#;

const BEFORE: &str = r#"{"do":"starts_on","on":"loop","child":{"do":"input"}}"#;

const BEHIND: &str =
    r#"{"do":"continues_on","on":"pool","child":{"do":"just_error","error":"late"}}"#;

#[test]
fn hops_are_taken_in_turns(rt: HostRuntime) {
    let alloc = rt.alloc();
    all_complete_or_stop(
        &rt,
        alloc,
        &[
            (SCHEDULE, "1 value\n"),
            (BEFORE, "1 value 5\n"),
            (BEHIND, "1 error late\n"),
        ],
    );
    // before a turn the root isn't ready
    all_take_turns(
        &rt,
        alloc,
        false,
        &[
            (SCHEDULE, 1),
            (BEFORE, 1),
            (BEHIND, 1),
            (r#"{"do":"input"}"#, 0),
        ],
    );
}

#[test]
fn an_unstoppable_shelters_its_child(rt: HostRuntime) {
    let root = r#"{"do":"unstoppable","child":{"do":"schedule","on":"loop"}}"#;
    all_complete(&rt, rt.alloc(), true, &[(root, "1 value\n")]);
}

#[test]
fn lets_run_the_body_that_is_picked(rt: HostRuntime) {
    all_complete(
        &rt,
        rt.alloc(),
        false,
        &[
            (
                r#"{"do":"let_value","child":{"do":"input"},"pick":{"job":"sub","n":4},
                "bodies":[{"do":"just","values":[10]},{"do":"input"}]}"#,
                "1 value 5\n",
            ),
            (
                r#"{"do":"let_error","child":{"do":"just_error","error":"late"},
                "pick":{"job":"give","values":[-1]},"bodies":[{"do":"input"}]}"#,
                "1 value \"late\"\n",
            ),
            (
                r#"{"do":"let_stopped","child":{"do":"just_stopped"},
                "pick":{"job":"give","values":[9]},
                "bodies":[{"do":"just","values":[1]},{"do":"just","values":[2]}]}"#,
                "1 value 2\n",
            ),
        ],
    );
}

#[test]
fn all_of_a_when_all_are_awaited(rt: HostRuntime) {
    all_complete_or_stop(
        &rt,
        rt.alloc(),
        &[
            (
                r#"{"do":"when_all","children":[
                    {"do":"starts_on","on":"pool","child":{"do":"input"}},
                    {"do":"just","values":["x"]}]}"#,
                "1 value 5 \"x\"\n",
            ),
            (
                r#"{"do":"when_all","children":[{"do":"just_stopped"},
                    {"do":"just_error","error":"b"}]}"#,
                "1 error b\n",
            ),
            (
                r#"{"do":"when_all","children":[{"do":"schedule","on":"loop"},
                    {"do":"just_error","error":"b"}]}"#,
                "1 error b\n",
            ),
        ],
    );
}

#[test]
fn an_ahead_waits_until_it_is_served(rt: HostRuntime) {
    let alloc = rt.alloc();
    let root = r#"{"do":"ahead","first":{"do":"input"},"second":{"do":"just","values":[1]}}"#;
    all_take_turns(&rt, alloc, false, &[(root, MOST_TURNS)]);
    let late =
        r#"{"do":"then","child":{"do":"ahead","first":{"do":"input"},"second":{"do":"input"}},
            "job":{"job":"sum"}}"#;
    all_take_turns(&rt, alloc, true, &[(late, MOST_TURNS)]);
}
