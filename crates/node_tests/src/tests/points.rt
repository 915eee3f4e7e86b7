//! Which points of the gate an operation passes, and how often each.
ghost use Rattle.std.specs.Thread.{IsSync};

use super::completes_past;
use exec_recv::{Gate, Point};
use std::alloc::Global;
use std::cell::Cell;
use std::process::Abort;
use std::sync::Wait;

/// A gate that counts what passes it: a decimal digit for each kind of point.
#[derive(Drop)]
struct Digits {
    passed: Cell<u32>,
}

impl Gate for Digits {
    fn pass(&self, point: Point) {
        let one = match point {
            Point::Job { number: _, node: _ } => 100_000,
            Point::Run(_) => 10_000,
            Point::Withdraw(_) => 1_000,
            Point::Report(_) => 100,
            Point::Release(_) => 10,
            Point::Take(_) => 1,
        };
        self.passed.set(self.passed.get().saturating_add(one));
    }
}

// How many points of each kind the operation of the plan with this root passes, where it completes
// with this line.
fn points_of<R: Wait + Sync>(rt: &R, alloc: Global, root: &str, line: &str) -> Option<u32>
    requires sync { IsSync R.row }
{
    let gate = Digits {
        passed: Cell::new(0),
    };
    if !completes_past(rt, alloc, &gate, root, false, line) {
        return None;
    }
    Some(gate.passed.get())
}

// Asserts of each root that the operation of its plan completes with its line, and passes so many
// points of each kind.
fn all_pass<R: Wait + Abort + Sync>(rt: &R, alloc: Global, cases: &[(&str, &str, u32)])
    requires sync { IsSync R.row }
{
    for case in cases {
        let points = points_of(rt, alloc, case.0, case.1);
        assert!(rt; points == Some(case.2), "{}", case.0);
    }
}

#[test]
fn each_report_and_the_release_pass_the_gate(rt: HostRuntime) {
    all_pass(
        &rt,
        rt.alloc(),
        &[
            (r#"{"do":"input"}"#, "1 value 5\n", 110),
            (
                r#"{"do":"unstoppable","child":{"do":"just_stopped"}}"#,
                "1 stopped\n",
                210,
            ),
            (
                r#"{"do":"then","child":{"do":"just_error","error":"late"},
                "job":{"job":"give","values":[1]}}"#,
                "1 error late\n",
                210,
            ),
        ],
    );
}

#[test]
fn each_job_passes_the_gate(rt: HostRuntime) {
    all_pass(
        &rt,
        rt.alloc(),
        &[
            (
                r#"{"do":"then","child":{"do":"input"},"job":{"job":"add","n":1}}"#,
                "1 value 6\n",
                100_210,
            ),
            (
                r#"{"do":"upon_error","child":{"do":"just_error","error":"late"},
                "job":{"job":"length"}}"#,
                "1 value 4\n",
                100_210,
            ),
            (
                r#"{"do":"upon_stopped","child":{"do":"just_stopped"},
                "job":{"job":"give","values":[0]}}"#,
                "1 value 0\n",
                100_210,
            ),
        ],
    );
}

#[test]
fn each_pick_passes_the_gate(rt: HostRuntime) {
    all_pass(
        &rt,
        rt.alloc(),
        &[
            (
                r#"{"do":"let_value","child":{"do":"input"},"pick":{"job":"sub","n":4},
                "bodies":[{"do":"just","values":[10]},{"do":"input"}]}"#,
                "1 value 5\n",
                100_310,
            ),
            (
                r#"{"do":"let_error","child":{"do":"just_error","error":"late"},
                "pick":{"job":"length"},"bodies":[{"do":"input"}]}"#,
                "1 value \"late\"\n",
                100_310,
            ),
            (
                r#"{"do":"let_stopped","child":{"do":"just_stopped"},
                "pick":{"job":"give","values":[9]},"bodies":[{"do":"just","values":[2]}]}"#,
                "1 value 2\n",
                100_310,
            ),
        ],
    );
}

#[test]
fn each_take_in_the_loop_passes_the_gate(rt: HostRuntime) {
    all_pass(
        &rt,
        rt.alloc(),
        &[
            (r#"{"do":"schedule","on":"loop"}"#, "1 value\n", 111),
            (
                r#"{"do":"continues_on","on":"loop",
                "child":{"do":"starts_on","on":"loop","child":{"do":"input"}}}"#,
                "1 value 5\n",
                312,
            ),
        ],
    );
}

#[test]
fn a_callback_is_removed_past_the_gate(rt: HostRuntime) {
    all_pass(
        &rt,
        rt.alloc(),
        &[
            // a delay removes its callback when it is due, and a `when_all` when it completes
            (r#"{"do":"delay","turns":0}"#, "1 value\n", 1_111),
            (
                r#"{"do":"when_all","children":[{"do":"input"},{"do":"just","values":[1]}]}"#,
                "1 value 5 1\n",
                1_310,
            ),
            // below an unstoppable there is none
            (
                r#"{"do":"unstoppable","child":{"do":"delay","turns":0}}"#,
                "1 value\n",
                211,
            ),
            (
                r#"{"do":"unstoppable","child":
                {"do":"when_all","children":[{"do":"input"},{"do":"just","values":[1]}]}}"#,
                "1 value 5 1\n",
                410,
            ),
        ],
    );
}

#[test]
fn each_callback_runs_past_the_gate(rt: HostRuntime) {
    all_pass(
        &rt,
        rt.alloc(),
        &[
            (
                r#"{"do":"when_all","children":[{"do":"delay","turns":50},
                {"do":"just_error","error":"late"}]}"#,
                "1 error late\n",
                12_311,
            ),
            // that of the inner `when_all`, and then that of the delay below it
            (
                r#"{"do":"when_all","children":[
                {"do":"when_all","children":[{"do":"delay","turns":50},{"do":"input"}]},
                {"do":"just_error","error":"late"}]}"#,
                "1 error late\n",
                22_511,
            ),
        ],
    );
}
