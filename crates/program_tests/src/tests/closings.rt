//! The tally of a run tells how its table was closed: its scope joined, and each block free.
ghost use Rattle.std.specs.Thread.{IsSync};

use super::backends::Called;
use super::engine::{ADD_ONE, AHEAD, ALL, Given, TRACE, called_with};
use life_rules::ScopeState;
use std::alloc::Global;
use std::sync::Wait;
use std::thread::Threads;

/// Whether a table was closed with its scope joined, so many blocks free, and none retired; or
/// where none of them is told, no table was closed.
fn is_closed(called: Option<Called>, blocks: Option<u32>) -> bool {
    let Some(called) = called else {
        return false;
    };
    match (called.tally.closed, blocks) {
        (Some(closed), Some(blocks)) => {
            closed.scope == ScopeState::Joined && closed.free == blocks && closed.retired == 0
        }
        (None, None) => true,
        _ => false,
    }
}

/// Whether each of these runs, with this input, closes its table so.
fn all_close<'x, R: Threads + Wait + Sync>(
    rt: &R,
    alloc: Global,
    input: &'x [u8],
    rows: &'x [(&'x [&'x str], &'x str, Option<u32>)],
) -> bool
    requires { IsSync R.row }
{
    for row in rows {
        let given = Given {
            text: row.1,
            input,
            ..ALL
        };
        if !is_closed(called_with(rt, alloc, row.0, given), row.2) {
            return false;
        }
    }
    true
}

const RUNS: &[(&[&str], &str, Option<u32>)] = &[
    (&["run", "plan.json"], ADD_ONE, Some(64)),
    (
        &["run", "plan.json", "--window=1", "--workers=0"],
        ADD_ONE,
        Some(1),
    ),
    (
        &["run", "plan.json", "--window=256", "--summary"],
        ADD_ONE,
        Some(256),
    ),
    (&["run", "plan.json", "--window=4"], AHEAD, Some(68)),
    (&["run", "plan.json", "--window=256"], AHEAD, Some(256)),
    (&["gen", "plan.json", "7", "--window=2"], ADD_ONE, Some(2)),
    (&["gen", "plan.json", "7", "--window=3"], AHEAD, Some(67)),
];

#[test]
fn a_run_closes_its_table(rt: HostRuntime) {
    assert!(rt; all_close(&rt, rt.alloc(), b"5\nabc\n-1\n", RUNS));
}

/// Whether a run closes its table of two blocks where these reads and writes fail.
fn closes_failing<'x, R: Threads + Wait + Sync>(
    rt: &R,
    alloc: Global,
    reads: &'x [u64],
    writes: &'x [u64],
) -> bool
    requires { IsSync R.row }
{
    let given = Given {
        input: b"5\n-1\n",
        reads,
        writes,
        ..ALL
    };
    let words = &["run", "plan.json", "--window=2"];
    is_closed(called_with(rt, alloc, words, given), Some(2))
}

#[test]
fn a_run_whose_streams_fail_closes_its_table(rt: HostRuntime) {
    // The second read fails, or one of the two writes, or the hand-on behind them.
    let read = closes_failing(&rt, rt.alloc(), &[2], &[]);
    let first = closes_failing(&rt, rt.alloc(), &[], &[1]);
    let second = closes_failing(&rt, rt.alloc(), &[], &[2]);
    let third = closes_failing(&rt, rt.alloc(), &[], &[3]);
    assert!(rt; read && first && second && third);
}

const NO_RUNS: &[(&[&str], &str, Option<u32>)] = &[
    (&["start", "plan.json"], ADD_ONE, None),
    (&["run", "plan.json"], "{", None),
    (&["gen", "plan.json", "7"], "{", None),
    (&["run", "other.json"], ADD_ONE, None),
    (&["check", "plan.json"], TRACE, None),
    (&["replay", "plan.json"], TRACE, None),
];

#[test]
fn what_comes_to_no_run_closes_no_table(rt: HostRuntime) {
    assert!(rt; all_close(&rt, rt.alloc(), b"", NO_RUNS));
}
