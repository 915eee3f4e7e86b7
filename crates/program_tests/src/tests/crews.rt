//! Workers, backends and the tally of a call of `run`.
ghost use Rattle.std.specs.Thread.{IsSync};

use super::backends::Called;
use super::engine::{ADD_ONE, ALL, Given, called_with};
use exec_engine::Status;
use exec_words::MOST_WORKERS;
use std::alloc::Global;
use std::sync::Wait;
use std::thread::Threads;

/// A plan that adds one to each record, on the pool.
const ON_POOL: &str = r#"{"version":1,"input":"int",
        "root":{"do":"starts_on","on":"pool",
            "child":{"do":"then","child":{"do":"input"},"job":{"job":"add","n":1}}}}"#;

/// A plan whose body goes on with what came from the pool.
const PICKED: &str = r#"{"version":1,"input":"int",
        "root":{"do":"let_value","child":{"do":"starts_on","on":"pool","child":{"do":"input"}},
            "pick":{"job":"give","values":[0]},"bodies":[{"do":"input"}]}}"#;

/// A plan with a hop, and with parts on the pool.
const PLAN_G: &str = r#"{"version":1,"input":"int",
        "root":{"do":"continues_on","on":"loop",
            "child":{"do":"then","job":{"job":"sum"},
                "child":{"do":"when_all","children":[
                        {"do":"starts_on","on":"pool",
                            "child":{"do":"then","child":{"do":"input"},
                                "job":{"job":"mul","n":2}}},
                        {"do":"let_value","child":{"do":"input"},"pick":{"job":"pass"},
                            "bodies":[{"do":"just","values":[9]},
                                {"do":"then","job":{"job":"sum"},
                                    "child":{"do":"bulk",
                                        "child":{"do":"just","values":[[1,2,3]]},
                                        "job":{"job":"index"}}}]}]}}}}"#;

/// A call with these words over two values, an error and a bad record.
fn called<R: Threads + Wait + Sync>(
    rt: &R,
    alloc: Global,
    words: &[&str],
    text: &str,
) -> Option<Called>
    requires { IsSync R.row }
{
    let given = Given {
        text,
        input: b"5\n9223372036854775807\nabc\n-1\n",
        ..ALL
    };
    called_with(rt, alloc, words, given)
}

/// Whether a call tallied so many values and errors, none that was stopped and no want of memory,
/// and all backends that there may be were handed in and dropped.
fn has(called: Called, values: u64, errors: u64) -> bool {
    let tally = called.tally;
    tally.values == values
        && tally.errors == errors
        && tally.stopped == 0
        && tally.no_memory == 0
        && called.given == MOST_WORKERS as usize
        && called.left == 0
}

/// Whether a call ends with this status, and has these numbers.
fn ends<R: Threads + Wait + Sync>(
    rt: &R,
    alloc: Global,
    words: &[&str],
    text: &str,
    status: Status,
    numbers: (u64, u64),
) -> bool
    requires { IsSync R.row }
{
    match called(rt, alloc, words, text) {
        Some(called) => called.status == status && has(called, numbers.0, numbers.1),
        None => false,
    }
}

#[test]
fn a_run_drops_its_backends_and_tallies_its_lines(rt: HostRuntime) {
    let alloc = rt.alloc();
    let words = &["run", "plan.json"];
    let here = ends(&rt, alloc, words, ADD_ONE, Status::NotAllValues, (2, 1));
    let pool = ends(&rt, alloc, words, ON_POOL, Status::NotAllValues, (2, 1));
    assert!(rt; here && pool);
}

/// Whether this command over a text that is neither plan nor trace ends so, with no run.
fn ends_at_once<R: Threads + Wait + Sync>(
    rt: &R,
    alloc: Global,
    command: &str,
    status: Status,
) -> bool
    requires { IsSync R.row }
{
    ends(rt, alloc, &[command, "plan.json"], "{", status, (0, 0))
}

#[test]
fn what_comes_to_no_run_drops_them_and_tallies_nothing(rt: HostRuntime) {
    let start = ends_at_once(&rt, rt.alloc(), "start", Status::Usage);
    let check = ends_at_once(&rt, rt.alloc(), "check", Status::PlanRefused);
    let run = ends_at_once(&rt, rt.alloc(), "run", Status::PlanRefused);
    assert!(rt; start && check && run);
}

#[test]
fn generated_records_are_tallied(rt: HostRuntime) {
    let words = &["gen", "plan.json", "7"];
    assert!(rt; ends(&rt, rt.alloc(), words, ADD_ONE, Status::AllValues, (7, 0)));
}

/// Whether so many workers are arranged Fifo and Lifo by these words.
fn are_in_order<R: Threads + Wait + Sync>(
    rt: &R,
    alloc: Global,
    workers: &str,
    order: &str,
    arranged: (u64, u64),
) -> bool
    requires { IsSync R.row }
{
    match called(rt, alloc, &["run", "plan.json", workers, order], ON_POOL) {
        Some(called) => {
            called.fifo == arranged.0 && called.lifo == arranged.1 && has(called, 2, 1)
        }
        None => false,
    }
}

#[test]
fn each_worker_is_in_the_order_of_the_words(rt: HostRuntime) {
    let alloc = rt.alloc();
    let none = are_in_order(&rt, alloc, "--workers=0", "--order=fifo", (0, 0));
    let one = are_in_order(&rt, alloc, "--workers=1", "--order=lifo", (0, 1));
    let three = are_in_order(&rt, alloc, "--workers=3", "--order=fifo", (3, 0));
    let most = are_in_order(&rt, alloc, "--workers=16", "--order=lifo", (0, 16));
    assert!(rt; none && one && three && most);
}

/// Whether a run of this plan over so many records, by four workers, is in the order fifo, and
/// submits a name to a backend.
fn submits_of<R: Threads + Wait + Sync>(
    rt: &R,
    alloc: Global,
    plan: &str,
    records: &str,
) -> Option<bool>
    requires { IsSync R.row }
{
    match called(rt, alloc, &["gen", "plan.json", records], plan) {
        Some(called) if called.fifo == 4 && called.lifo == 0 => Some(called.submitted != 0),
        _ => None,
    }
}

const COUNTS: &[&str] = &["100", "1000", "10000", "100000"];

/// Whether a run of this plan submits a name to a backend. Hand 0 helps the workers, so that a
/// short run may end before they come to a name: then a longer one is made.
fn submits<R: Threads + Wait + Sync>(rt: &R, alloc: Global, plan: &str) -> bool
    requires { IsSync R.row }
{
    for records in COUNTS {
        match submits_of(rt, alloc, plan, *records) {
            Some(true) => return true,
            Some(false) => {}
            None => return false,
        }
    }
    false
}

/// Whether each of fifty runs does.
fn all_submit<R: Threads + Wait + Sync>(rt: &R, alloc: Global, plan: &str) -> bool
    requires { IsSync R.row }
{
    for _run in 0..50u32 {
        if !submits(rt, alloc, plan) {
            return false;
        }
    }
    true
}

#[test]
fn each_run_with_work_on_the_pool_submits_names_to_its_backends(rt: HostRuntime) {
    let picked = all_submit(&rt, rt.alloc(), PICKED);
    let parts = all_submit(&rt, rt.alloc(), PLAN_G);
    assert!(rt; picked && parts);
}
