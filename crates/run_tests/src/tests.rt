//! The tests, and what they share.
//!
//! A function of the tests answers `false` or nothing on want of memory too, and a test asserts
//! what its functions answer. What is alive at an exit is dropped there kind by kind, which a proof
//! of the function pays for: so what is opened in one function is used in another.
ghost use Rattle.std.specs.Prelude.{◌≡◌, ◌<◌, ◌≤◌, true, IfSome, vec_len};
ghost use Rattle.std.specs.Thread.{IsSync};
ghost use Rattle.life_rules.specs.declared.limits.TheConstants.{MOST_BLOCKS};
ghost use Rattle.line_rules.specs.PlanTerms.{MayRun};
ghost use Rattle.plan_kinds.specs.Reached.{KindsMatch};
ghost use Rattle.run_workers.specs.Crews.{IsCrew};

mod aheads;
mod bodies;
mod closings;
mod crews;
mod delays;
mod jobs;
mod layer_cases;
mod layers;
mod orders;
mod races;
mod reports;
mod rows;
mod unlawful;

use exec_io::{MemSink, MemSource};
use exec_recv::Gate;
use life_rules::ScopeState;
use line_rules::{at_once, may_run};
use plan_reader::read_plan;
use plan_shape::Plan;
use record_lines::End;
use record_loop::{Form, RecordSource};
use run_workers::{Crew, Order};
use sig_check::check;
use std::alloc::Global;
use std::sync::Wait;
use std::thread::Threads;
use whole_run::{Account, Setup, run_lines};

/// One more than the record.
const ADDING: &str = r#"{"do":"then","child":{"do":"input"},"job":{"job":"add","n":1}}"#;

/// The plan of these bytes.
fn read(alloc: Global, bytes: &[u8]) -> Option<Plan> {
    match read_plan(alloc, bytes) {
        Ok(plan) => Some(plan),
        Err(fault) => {
            drop(fault);
            None
        }
    }
}

/// Whether the kinds of its nodes match.
fn has_kinds(alloc: Global, plan: &Plan) -> bool
    ensures { result ≡ true → KindsMatch plan.now.nodes plan.now.settings.input }
{
    match check(alloc, plan) {
        Ok(sigs) => {
            drop(sigs);
            true
        }
        Err(fault) => {
            drop(fault);
            false
        }
    }
}

/// The plan with this root, for records of numbers, with these further settings.
fn plan_of(alloc: Global, settings: &str, root: &str) -> Option<Plan>
    ensures kinds { IfSome result (λ plan. KindsMatch plan.nodes plan.settings.input) }
    ensures may_run { IfSome result (λ plan. MayRun plan.settings) }
{
    plan_over(alloc, "int", settings, root)
}

/// The same for records of this kind. None where it may not run, too.
fn plan_over(alloc: Global, input: &str, settings: &str, root: &str) -> Option<Plan>
    ensures kinds { IfSome result (λ plan. KindsMatch plan.nodes plan.settings.input) }
    ensures may_run { IfSome result (λ plan. MayRun plan.settings) }
{
    let plan = read_over(alloc, input, settings, root)?;
    if !may_run(plan.settings()) || !has_kinds(alloc, &plan) {
        drop(plan);
        return None;
    }
    Some(plan)
}

/// The same as it is read.
fn read_over(alloc: Global, input: &str, settings: &str, root: &str) -> Option<Plan> {
    match format!(in alloc; r#"{{"version":2,"input":"{input}",{settings}"root":{root}}}"#) {
        Ok(text) => {
            let plan = read(alloc, text.as_bytes());
            drop(text);
            plan
        }
        Err(_) => None,
    }
}

/// What a run left.
#[derive(Clone, Copy)]
struct Left {
    end: End,
    is_lost: bool,
    values: u64,
    errors: u64,
    /// Its table was closed with its scope joined and no block retired, and so many blocks free.
    is_closed: bool,
    free: u32,
}

/// There was no run.
const NOTHING: Left = Left {
    end: End::Fault,
    is_lost: true,
    values: 0,
    errors: 0,
    is_closed: false,
    free: 0,
};

/// What the account says of it.
fn left_of(account: &Account) -> Left {
    let closing = &account.closing;
    Left {
        end: account.ending.end(),
        is_lost: account.ending.is_lost(),
        values: account.tally.values(),
        errors: account.tally.errors(),
        is_closed: closing.scope() == ScopeState::Joined && closing.retired() == 0,
        free: closing.free(),
    }
}

/// Whether its table was closed with its scope joined and so many blocks free.
fn is_left(left: Left, blocks: usize) -> bool {
    left.is_closed && left.free as usize == blocks
}

/// How many blocks the table of a run of the plan has, with so many records at once.
fn blocks_of(plan: &Plan, records: usize) -> usize {
    let spare = 256 - at_once(plan, 256).min(256);
    records.saturating_add(spare).min(256)
}

/// No workers.
fn nobody(alloc: Global) -> Crew
    ensures { IsCrew result.workers (vec_len result.backends) }
{
    Crew {
        workers: 0,
        helps: false,
        order: Order::Fifo,
        backends: Vec::new(alloc),
    }
}

/// A source of these bytes, whose reads of these numbers fail.
fn source(alloc: Global, bytes: &[u8], fails: &[u64]) -> Option<MemSource> {
    let Ok(bytes) = bytes.to_vec(alloc) else {
        return None;
    };
    match fails.to_vec(alloc) {
        Ok(fails) => Some(MemSource::new(bytes, fails)),
        Err(_) => {
            drop(bytes);
            None
        }
    }
}

/// An out that takes all.
fn sink(alloc: Global) -> MemSink {
    MemSink::new(alloc, 4096, Vec::new(alloc))
}

/// Runs the plan, and says what the run left.
fn runs<G: Gate + Sync, R: Threads + Wait + Sync, S: RecordSource>(
    rt: &R,
    alloc: Global,
    plan: &Plan,
    setup: Setup,
    gate: &G,
    records: &mut S,
    out: &mut MemSink,
) -> Left
    requires sync { IsSync R.row }
    requires some { 0 < setup.window }
    requires few { setup.window ≤ MOST_BLOCKS }
    requires kinds { KindsMatch plan.now.nodes plan.now.settings.input }
    requires may_run { MayRun plan.now.settings }
    requires crew { IsCrew setup.crew.workers (vec_len setup.crew.backends) }
{
    match run_lines(rt, alloc, plan, setup, gate, records, out) {
        Ok(account) => {
            let left = left_of(&account);
            drop(account);
            left
        }
        Err(_) => NOTHING,
    }
}

/// Records that are run without workers, so many at once, and the lines of their outcomes.
#[derive(Clone, Copy)]
struct Lines<'a> {
    input: &'a str,
    root: &'a str,
    bytes: &'a [u8],
    window: usize,
    lines: &'a [u8],
}

/// Whether this plan gives these lines past the gate, and leaves its table with its scope joined
/// and all blocks free.
fn gives_over<G: Gate + Sync, R: Threads + Wait + Sync>(
    rt: &R,
    alloc: Global,
    plan: &Plan,
    case: Lines<'_>,
    gate: &G,
) -> bool
    requires sync { IsSync R.row }
    requires some { 0 < case.window }
    requires few { case.window ≤ MOST_BLOCKS }
    requires kinds { KindsMatch plan.now.nodes plan.now.settings.input }
    requires may_run { MayRun plan.now.settings }
{
    let Some(mut records) = source(alloc, case.bytes, &[]) else {
        return false;
    };
    let mut out = sink(alloc);
    let setup = Setup {
        window: case.window,
        form: Form::Lines,
        crew: nobody(alloc),
    };
    let left = runs(rt, alloc, plan, setup, gate, &mut records, &mut out);
    drop(records);
    let written = out.bytes() == case.lines;
    drop(out);
    written && is_left(left, case.window)
}

/// The same of the plan that the case names.
fn gives<G: Gate + Sync, R: Threads + Wait + Sync>(
    rt: &R,
    alloc: Global,
    case: Lines<'_>,
    gate: &G,
) -> bool
    requires sync { IsSync R.row }
    requires some { 0 < case.window }
    requires few { case.window ≤ MOST_BLOCKS }
{
    let Some(plan) = plan_over(alloc, case.input, "", case.root) else {
        return false;
    };
    let given = gives_over(rt, alloc, &plan, case, gate);
    drop(plan);
    given
}
