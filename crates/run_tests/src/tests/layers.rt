//! The same records over a table and by plain evaluation.
ghost use Rattle.std.specs.Prelude.{◌<◌, ◌≤◌, vec_len};
ghost use Rattle.std.specs.Thread.{IsSync};
ghost use Rattle.life_rules.specs.declared.limits.TheConstants.{MOST_BLOCKS};
ghost use Rattle.plan_kinds.specs.Reached.{KindsMatch};
ghost use Rattle.run_workers.specs.Crews.{IsCrew};
ghost use Rattle.line_rules.specs.PlanTerms.{MayRun};

use super::layer_cases::CASES;
use super::{ADDING, blocks_of, is_left, nobody, plan_of, runs, sink};
use exec_io::{MemSink, MemSource};
use exec_recv::OpenGate;
use line_rules::at_once;
use plain_runs::PlainRuns;
use plan_shape::Plan;
use record_loop::{Form, run_records};
use run_workers::Crew;
use std::alloc::Global;
use std::process::Abort;
use std::sync::Wait;
use std::thread::Threads;
use whole_run::Setup;

/// Adds the line of this number. Whether there was memory for it.
fn add_line(alloc: Global, text: &mut Vec<u8>, number: u32) -> bool {
    match format!(in alloc; "{number}\n") {
        Ok(line) => {
            let added = text.extend_from_slice(line.as_bytes()).is_ok();
            drop(line);
            added
        }
        Err(_) => false,
    }
}

/// A source of the records 0, 1, .. up to so many, and then of one that is bad.
fn records(alloc: Global, count: u32) -> Option<MemSource> {
    let mut text = Vec::new(alloc);
    for number in 0..count {
        if !add_line(alloc, &mut text, number) {
            drop(text);
            return None;
        }
    }
    if text.extend_from_slice(b"x\n").is_err() {
        drop(text);
        return None;
    }
    Some(MemSource::new(text, Vec::new(alloc)))
}

/// Whether plain evaluation runs these records.
fn runs_plainly<R: Wait + Sync>(
    rt: &R,
    alloc: Global,
    plan: &Plan,
    window: usize,
    source: &mut MemSource,
    out: &mut MemSink,
) -> bool
    requires sync { IsSync R.row }
    requires some { 0 < window }
    requires few { window ≤ MOST_BLOCKS }
    requires kinds { KindsMatch plan.now.nodes plan.now.settings.input }
    requires may_run { MayRun plan.now.settings }
{
    match PlainRuns::open(alloc, plan, window) {
        Ok(mut runs) => {
            let settings = *plan.settings();
            let form = Form::Lines;
            let ran = run_records(
                rt, alloc, settings, window, form, &mut runs, source, out,
            ).is_ok();
            drop(runs);
            ran
        }
        Err(_) => false,
    }
}

/// What plain evaluation writes of so many records.
fn plainly<R: Wait + Sync>(
    rt: &R,
    alloc: Global,
    plan: &Plan,
    window: usize,
    count: u32,
) -> Option<MemSink>
    requires sync { IsSync R.row }
    requires some { 0 < window }
    requires few { window ≤ MOST_BLOCKS }
    requires kinds { KindsMatch plan.now.nodes plan.now.settings.input }
    requires may_run { MayRun plan.now.settings }
{
    let mut source = records(alloc, count)?;
    let mut out = sink(alloc);
    let ran = runs_plainly(rt, alloc, plan, window, &mut source, &mut out);
    drop(source);
    if ran {
        Some(out)
    } else {
        drop(out);
        None
    }
}

/// What a run over a table writes of so many records, with this crew, where it leaves the table
/// with its scope joined and all blocks free.
fn over_table<R: Threads + Wait + Sync>(
    rt: &R,
    alloc: Global,
    plan: &Plan,
    count: u32,
    setup: Setup,
) -> Option<MemSink>
    requires sync { IsSync R.row }
    requires some { 0 < setup.window }
    requires few { setup.window ≤ MOST_BLOCKS }
    requires kinds { KindsMatch plan.now.nodes plan.now.settings.input }
    requires may_run { MayRun plan.now.settings }
    requires crew { IsCrew setup.crew.workers (vec_len setup.crew.backends) }
{
    let blocks = blocks_of(plan, setup.window);
    let Some(mut source) = records(alloc, count) else {
        drop(setup);
        return None;
    };
    let mut out = sink(alloc);
    let left = runs(rt, alloc, plan, setup, &OpenGate, &mut source, &mut out);
    drop(source);
    if is_left(left, blocks) {
        Some(out)
    } else {
        drop(out);
        None
    }
}

/// Whether both wrote, and the same.
fn are_same(one: Option<MemSink>, other: Option<MemSink>) -> bool {
    match one {
        Some(one) => match other {
            Some(other) => {
                let same = one.bytes() == other.bytes();
                drop(one);
                drop(other);
                same
            }
            None => {
                drop(one);
                false
            }
        },
        None => {
            drop(other);
            false
        }
    }
}

/// Whether this plan runs so many records to the same lines over a table, with this crew, as by
/// plain evaluation, and leaves the table with its scope joined and all blocks free.
fn agree_over<R: Threads + Wait + Sync>(
    rt: &R,
    alloc: Global,
    plan: &Plan,
    window: u32,
    count: u32,
    crew: Crew,
) -> bool
    requires sync { IsSync R.row }
    requires kinds { KindsMatch plan.now.nodes plan.now.settings.input }
    requires may_run { MayRun plan.now.settings }
    requires crew { IsCrew crew.workers (vec_len crew.backends) }
{
    let size = at_once(plan, window as usize);
    if size == 0 || size > 256 {
        drop(crew);
        return false;
    }
    let setup = Setup {
        window: size,
        form: Form::Lines,
        crew,
    };
    let tabled = over_table(rt, alloc, plan, count, setup);
    let plain = plainly(rt, alloc, plan, size, count);
    are_same(tabled, plain)
}

/// The same of the plan with these settings and this root.
pub(super) fn agree_with<R: Threads + Wait + Sync>(
    rt: &R,
    alloc: Global,
    case: (&str, &str),
    window: u32,
    count: u32,
    crew: Crew,
) -> bool
    requires sync { IsSync R.row }
    requires crew { IsCrew crew.workers (vec_len crew.backends) }
{
    match plan_of(alloc, case.0, case.1) {
        Some(plan) => {
            let agree = agree_over(rt, alloc, &plan, window, count, crew);
            drop(plan);
            agree
        }
        None => {
            drop(crew);
            false
        }
    }
}

/// Asserts the same of each case and each window, with no workers.
fn all_agree<R: Threads + Wait + Abort + Sync>(
    rt: &R,
    alloc: Global,
    cases: &[(&str, &str)],
    windows: &[u32],
    count: u32,
)
    requires sync { IsSync R.row }
{
    for case in cases {
        for window in windows {
            let agree = agree_with(rt, alloc, *case, *window, count, nobody(alloc));
            assert!(rt; agree, "{}", case.1);
        }
    }
}

#[test]
fn both_give_the_same_lines(rt: HostRuntime) {
    all_agree(&rt, rt.alloc(), &CASES, &[1, 3, 64], 9);
}

#[test]
fn one_block_is_given_again_a_thousand_times(rt: HostRuntime) {
    all_agree(&rt, rt.alloc(), &[("", ADDING)], &[1], 1000);
}
