//! Assertions of lists of cases: each a root, and what the operation of its plan comes to.
ghost use Rattle.std.specs.Thread.{IsSync};

use super::{completes_past, turns_at};
use exec_recv::OpenGate;
use std::alloc::Global;
use std::process::Abort;
use std::sync::Wait;

// Asserts of each root that the operation of its plan completes with its line, past an open gate.
pub(super) fn all_complete<R: Wait + Abort + Sync>(
    rt: &R,
    alloc: Global,
    asked: bool,
    cases: &[(&str, &str)],
)
    requires sync { IsSync R.row }
{
    for case in cases {
        let holds = completes_past(rt, alloc, &OpenGate, case.0, asked, case.1);
        assert!(rt; holds, "{}", case.0);
    }
}

// Asserts of each root that the operation of its plan can be collected after so many turns, and
// after none before.
pub(super) fn all_take_turns<R: Wait + Abort + Sync>(
    rt: &R,
    alloc: Global,
    asked: bool,
    cases: &[(&str, u32)],
)
    requires sync { IsSync R.row }
{
    for case in cases {
        let turns = turns_at(rt, alloc, case.0, asked);
        assert!(rt; turns == Some(case.1), "{}", case.0);
    }
}
