//! Trials beside workers: a plan, a crew and a gate, and the lines that they may write.
ghost use Rattle.std.specs.Prelude.{◌<◌, ◌≤◌, vec_len, IfSome};
ghost use Rattle.std.specs.Thread.{IsSync};
ghost use Rattle.life_rules.specs.declared.limits.TheConstants.{MOST_BLOCKS, MOST_HANDS};
ghost use Rattle.line_rules.specs.PlanTerms.{MayRun};
ghost use Rattle.plan_kinds.specs.Reached.{KindsMatch};
ghost use Rattle.record_lines.specs.declared.limits.TheConstants.{MOST_RECORDS};
ghost use Rattle.run_workers.specs.Crews.{IsCrew};

use super::unlawful::{Unlawful, Way};
use super::{blocks_of, is_left, plan_of, runs, sink};
use exec_recv::{Gate, OpenGate};
use exec_value::Kind;
use line_rules::at_once;
use plan_shape::Plan;
use record_loop::{Form, Generated};
use run_workers::{Backend, Crew, Order};
use std::alloc::{AllocError, Global};
use std::process::Abort;
use std::sync::atomic::{AtomicU64, Ordering};
use std::sync::{Arc, Wait};
use std::thread::{Threads, yield_now};
use whole_run::Setup;

/// How many runs each test makes of what a race decides.
pub(super) const RUNS: u32 = 50;

/// So often a hand looks, at a gate that holds it, before it goes on all the same.
pub(super) const MOST_LOOKS: u32 = 1_000_000;

/// How many workers a crew has, and whether hand 0 helps them; in which order each goes on with
/// names, and in which way its backend isn't lawful.
#[derive(Clone, Copy)]
pub(super) struct Team {
    pub workers: u32,
    pub helps: bool,
    pub order: Order,
    pub way: Way,
}

/// Adds a backend that isn't lawful in this way.
fn add_backend(
    alloc: Global,
    way: Way,
    submitted: &Arc<AtomicU64, Global>,
    backends: &mut Vec<Box<dyn Backend + Send>>,
) -> Result<(), AllocError> {
    let counted = Arc::try_clone(submitted)?;
    let unlawful = Unlawful::new(alloc, way, counted)?;
    let backend = Box::new(alloc, unlawful)?;
    backends.push(backend)?;
    Ok(())
}

/// So many of them.
fn backends_of(
    alloc: Global,
    workers: u32,
    way: Way,
    submitted: &Arc<AtomicU64, Global>,
) -> Option<Vec<Box<dyn Backend + Send>>> {
    let mut backends: Vec<Box<dyn Backend + Send>> = Vec::new(alloc);
    for _worker in 0..workers {
        if add_backend(alloc, way, submitted, &mut backends).is_err() {
            drop(backends);
            return None;
        }
    }
    Some(backends)
}

/// This team, whose backends count the names that they are submitted.
pub(super) fn watched(alloc: Global, team: Team, submitted: &Arc<AtomicU64, Global>) -> Option<Crew>
    requires { team.workers < MOST_HANDS }
    ensures { IfSome result (λ crew. IsCrew crew.workers (vec_len crew.backends)) }
{
    let backends = backends_of(alloc, team.workers, team.way, submitted)?;
    if backends.len() < team.workers as usize {
        drop(backends);
        return None;
    }
    Some(Crew {
        workers: team.workers,
        helps: team.helps,
        order: team.order,
        backends,
    })
}

/// This team.
pub(super) fn crew_of(alloc: Global, team: Team) -> Option<Crew>
    requires { team.workers < MOST_HANDS }
    ensures { IfSome result (λ crew. IsCrew crew.workers (vec_len crew.backends)) }
{
    match Arc::new(alloc, AtomicU64::new(0)) {
        Ok(submitted) => {
            let crew = watched(alloc, team, &submitted);
            drop(submitted);
            crew
        }
        Err(_) => None,
    }
}

/// A plan over generated records.
#[derive(Clone, Copy)]
pub(super) struct Trial<'a> {
    /// Further settings of the plan, each with a comma behind it.
    pub settings: &'a str,
    pub root: &'a str,
    pub window: u32,
    pub count: u32,
}

/// Whether a run of this plan writes one of these lines, and leaves its table with its scope joined
/// and all blocks free.
fn writes_over<G: Gate + Sync, R: Threads + Wait + Sync>(
    rt: &R,
    alloc: Global,
    plan: &Plan,
    setup: Setup,
    gate: &G,
    records: &mut Generated,
    lines: &[&str],
) -> bool
    requires sync { IsSync R.row }
    requires some { 0 < setup.window }
    requires few { setup.window ≤ MOST_BLOCKS }
    requires kinds { KindsMatch plan.now.nodes plan.now.settings.input }
    requires may_run { MayRun plan.now.settings }
    requires crew { IsCrew setup.crew.workers (vec_len setup.crew.backends) }
{
    let blocks = blocks_of(plan, setup.window);
    let mut out = sink(alloc);
    let left = runs(rt, alloc, plan, setup, gate, records, &mut out);
    let written = lines.iter().any(|line| out.bytes() == line.as_bytes());
    drop(out);
    written && is_left(left, blocks)
}

/// The same of a plan over these generated records, with this crew.
fn generates<G: Gate + Sync, R: Threads + Wait + Sync>(
    rt: &R,
    alloc: Global,
    plan: &Plan,
    trial: Trial<'_>,
    crew: Crew,
    gate: &G,
    lines: &[&str],
) -> bool
    requires sync { IsSync R.row }
    requires few { trial.count ≤ MOST_RECORDS }
    requires kinds { KindsMatch plan.now.nodes plan.now.settings.input }
    requires may_run { MayRun plan.now.settings }
    requires crew { IsCrew crew.workers (vec_len crew.backends) }
{
    let window = at_once(plan, trial.window as usize);
    if window == 0 || window > 256 {
        drop(crew);
        return false;
    }
    match Generated::new(alloc, Kind::Int, trial.count) {
        Ok(mut records) => {
            let setup = Setup {
                window,
                form: Form::Summary,
                crew,
            };
            let written = writes_over(rt, alloc, plan, setup, gate, &mut records, lines);
            drop(records);
            written
        }
        Err(_) => {
            drop(crew);
            false
        }
    }
}

/// The same of the plan that the trial names.
pub(super) fn writes_with<G: Gate + Sync, R: Threads + Wait + Sync>(
    rt: &R,
    alloc: Global,
    trial: Trial<'_>,
    crew: Crew,
    gate: &G,
    lines: &[&str],
) -> bool
    requires sync { IsSync R.row }
    requires few { trial.count ≤ MOST_RECORDS }
    requires crew { IsCrew crew.workers (vec_len crew.backends) }
{
    match plan_of(alloc, trial.settings, trial.root) {
        Some(plan) => {
            let written = generates(rt, alloc, &plan, trial, crew, gate, lines);
            drop(plan);
            written
        }
        None => {
            drop(crew);
            false
        }
    }
}

/// The same with this team.
pub(super) fn writes<G: Gate + Sync, R: Threads + Wait + Sync>(
    rt: &R,
    alloc: Global,
    trial: Trial<'_>,
    team: Team,
    gate: &G,
    lines: &[&str],
) -> bool
    requires sync { IsSync R.row }
    requires few { trial.count ≤ MOST_RECORDS }
    requires workers { team.workers < MOST_HANDS }
{
    match crew_of(alloc, team) {
        Some(crew) => writes_with(rt, alloc, trial, crew, gate, lines),
        None => false,
    }
}

/// Looks until the number isn't 0. Whether it came to that.
pub(super) fn comes(number: &AtomicU64, most: u32) -> bool {
    for _look in 0..most {
        if number.load(Ordering::SeqCst) != 0 {
            return true;
        }
        yield_now();
    }
    false
}

/// Two workers, and one by itself.
pub(super) const TWO: Team = Team {
    workers: 2,
    helps: false,
    order: Order::Fifo,
    way: Way::None,
};

pub(super) const ONE: Team = Team { workers: 1, ..TWO };

/// Four workers with backends that aren't lawful in this way.
pub(super) fn four(way: Way) -> Team
    ensures { result.workers < MOST_HANDS }
{
    Team {
        workers: 4,
        helps: false,
        order: Order::Fifo,
        way,
    }
}

/// Asserts of each way that the trial writes this line.
pub(super) fn all_write<R: Threads + Wait + Abort + Sync>(
    rt: &R,
    alloc: Global,
    trial: Trial<'_>,
    ways: &[Way],
    line: &str,
)
    requires sync { IsSync R.row }
    requires few { trial.count ≤ MOST_RECORDS }
{
    for way in ways {
        assert!(rt; writes(rt, alloc, trial, four(*way), &OpenGate, &[line]));
    }
}
