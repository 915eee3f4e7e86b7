//! The tests, by what they use, and how they open a table, start an operation and wait for it.
//!
//! A function of the tests answers `false` or nothing on want of memory too, and a test asserts
//! what its functions answer. What is alive at an exit is dropped there kind by kind, which a proof
//! of the function pays for. So one function opens a loop and its table, and another uses them.
ghost use Rattle.std.specs.Prelude.{◌≡◌, IfSome};
ghost use Rattle.std.specs.Thread.{IsSync};
ghost use Rattle.plan_kinds.specs.Runnable.{IsRunnable};
ghost use Rattle.exec_recv.specs.Over.{IsOver};
ghost use Rattle.exec_recv.specs.Sites.{IsSite};
ghost use Rattle.node_walks.specs.Completes.{IsListed};
ghost use Rattle.run_loop.specs.Loops.{IsReady};
ghost use Rattle.node_walks.specs.Starts.{CanRun};
ghost use Rattle.node_tests.specs.Ready.{IsFirst};

mod bulks;
mod cases;
mod decks;
mod delays;
mod kinds;
mod names;
mod points;
mod requests;
mod told;
mod waits;

use exec_io::MemSink;
use exec_recv::{Gate, OpenGate};
use exec_value::{Completion, Data, Datum, Outcome};
use node_stepper::NodeSteps;
use node_tree::ScopeKind;
use op_table::{Hand, OpTable};
use outcome_lines::put_line;
use plan_reader::read_plan;
use plan_shape::Plan;
use run_loop::{Block, Env, Item, Loop, Site, Stepper, Waited};
use std::alloc::Global;
use std::sync::Wait;

// A test turns so often at most.
const MOST_TURNS: u32 = 64;

// The plan of these bytes.
fn read(alloc: Global, bytes: &[u8]) -> Option<Plan>
    ensures { IfSome result (λ plan. IsRunnable plan) }
{
    match read_plan(alloc, bytes) {
        Ok(plan) => {
            // Asked for what it says of every plan.
            let _ = plan.size();
            Some(plan)
        }
        Err(_) => None,
    }
}

// A table of one block over the plan, and its one hand.
fn opened(alloc: Global, plan: &Plan) -> Option<(OpTable<Item>, Hand<Item>)>
    ensures over { IfSome result (λ t. IsOver t.0 plan.now) }
    ensures hand { IfSome result (λ t. IsFirst t.0 t.1) }
{
    let tree = plan.tree();
    match OpTable::open(alloc, tree, plan, 1, 1, ScopeKind::Simple, 1) {
        Ok((table, mut hands)) => {
            // Asked for what they say of every tree and of every plan.
            let over = table.tree();
            let nodes = over.size();
            let size = plan.size();
            let _ = (nodes, size);
            let hand = hands.swap_remove(0);
            drop(hands);
            Some((table, hand))
        }
        Err(fault) => {
            drop(fault);
            None
        }
    }
}

// A table of one block over the plan, and a loop on its one hand, which helps the pool or doesn't.
fn looping(alloc: Global, plan: &Plan, helps: bool) -> Option<(OpTable<Item>, Loop)>
    requires kinds { IsRunnable plan.now }
    ensures over { IfSome result (λ t. IsOver t.0 plan.now) }
    ensures ready { IfSome result (λ t. IsReady t.0 t.1) }
{
    let Some((table, hand)) = opened(alloc, plan) else {
        return None;
    };
    match Loop::open(alloc, plan, &table, hand) {
        Ok(mut looped) => {
            looped.help_pool(helps);
            Some((table, looped))
        }
        Err(hand) => {
            drop(hand);
            drop(table);
            None
        }
    }
}

// The start of the plan's operation for the record `5`, of number 1.
fn started<R, T>(site: &Site<R, T>, asked: bool) -> Option<Env>
    requires site { IsSite site.now }
    ensures { IfSome result (λ env. CanRun site.now env) }
{
    let datum = Datum::Int(5);
    if !datum.is_of(site.plan.settings().input) {
        return None;
    }
    Some(Env::of_record(site.plan, Data::one(site.alloc, datum), 1, asked))
}

// Starts that operation. The block in which it runs.
fn starts<T: Stepper, R: Wait + Sync>(
    site: &Site<R, T>,
    looped: &mut Loop,
    asked: bool,
) -> Option<Block>
    requires sync { IsSync R.row }
    requires ready { IsReady site.now looped.old }
    requires site { IsSite site.now }
    ensures ready { IsReady site.now looped.new }
    ensures listed { IfSome result (λ block. IsListed site.now block looped.new.hand.me) }
{
    let Some(env) = started(site, asked) else {
        return None;
    };
    match looped.start(site, env) {
        Ok(block) => Some(block),
        Err(env) => {
            drop(env);
            None
        }
    }
}

// How many turns the loop takes until the operation in this block can be collected, or the most.
fn turns_until<T: Stepper, R: Wait + Sync>(
    site: &Site<R, T>,
    looped: &mut Loop,
    block: Block,
) -> u32
    requires sync { IsSync R.row }
    requires ready { IsReady site.now looped.old }
    requires site { IsSite site.now }
    requires listed { IsListed site.now block looped.old.hand.me }
{
    for turns in 0..MOST_TURNS {
        if let Some(found) = looped.collect(site.table, block, site.gate) {
            drop(found);
            return turns;
        }
        let _taken = looped.turn(site);
    }
    MOST_TURNS
}

// Starts that operation, and counts the turns until it can be collected.
fn turns_of<T: Stepper, R: Wait + Sync>(
    site: &Site<R, T>,
    looped: &mut Loop,
    asked: bool,
) -> Option<u32>
    requires sync { IsSync R.row }
    requires ready { IsReady site.now looped.old }
    requires site { IsSite site.now }
{
    match starts(site, looped, asked) {
        Some(block) => Some(turns_until(site, looped, block)),
        None => None,
    }
}

// Starts it, and takes turns until it can be collected.
fn completion_of<T: Stepper, R: Wait + Sync>(
    site: &Site<R, T>,
    looped: &mut Loop,
    asked: bool,
) -> Option<Completion>
    requires sync { IsSync R.row }
    requires ready { IsReady site.now looped.old }
    requires site { IsSite site.now }
{
    let Some(env) = started(site, asked) else {
        return None;
    };
    match looped.sync_wait(site, env) {
        Waited::Completed(found) => Some(found.completion),
        Waited::NoBlock(env) => {
            drop(env);
            None
        }
    }
}

// How many turns the plan's operation takes, in the pool too, in a loop that is opened for it.
fn turned<R: Wait + Sync>(rt: &R, alloc: Global, plan: &Plan, asked: bool) -> Option<u32>
    requires sync { IsSync R.row }
    requires kinds { IsRunnable plan.now }
{
    let Some((table, mut looped)) = looping(alloc, plan, true) else {
        return None;
    };
    let stepper = NodeSteps::of(plan, &OpenGate);
    let site = Site::of(rt, alloc, &table, &stepper);
    let turns = turns_of(&site, &mut looped, asked);
    drop(looped);
    drop(table);
    turns
}

// What it completes with there, past this gate.
fn waited<G: Gate, R: Wait + Sync>(
    rt: &R,
    alloc: Global,
    plan: &Plan,
    gate: &G,
    asked: bool,
) -> Option<Completion>
    requires sync { IsSync R.row }
    requires kinds { IsRunnable plan.now }
{
    let Some((table, mut looped)) = looping(alloc, plan, true) else {
        return None;
    };
    let stepper = NodeSteps::of(plan, gate);
    let site = Site::of(rt, alloc, &table, &stepper);
    let done = completion_of(&site, &mut looped, asked);
    drop(looped);
    drop(table);
    done
}

// The plan with this root.
fn plan_of(alloc: Global, root: &str) -> Option<Plan>
    ensures { IfSome result (λ plan. IsRunnable plan) }
{
    match format!(in alloc; "{{\"version\":2,\"input\":\"int\",\"root\":{root}}}") {
        Ok(text) => {
            let plan = read(alloc, text.as_bytes());
            drop(text);
            plan
        }
        Err(_) => None,
    }
}

// Whether this line is written of an operation that completed so.
fn is_line(alloc: Global, done: Completion, line: &str) -> bool {
    let outcome = Outcome::Done(done);
    let mut told = MemSink::new(alloc, 4096, Vec::new(alloc));
    let put = put_line(1, &outcome, &mut told).is_ok();
    drop(outcome);
    let same = told.bytes() == line.as_bytes();
    drop(told);
    put && same
}

// Whether the operation of the plan with this root completes with this line, past this
// gate.
fn completes_past<G: Gate, R: Wait + Sync>(
    rt: &R,
    alloc: Global,
    gate: &G,
    root: &str,
    asked: bool,
    line: &str,
) -> bool
    requires sync { IsSync R.row }
{
    let Some(plan) = plan_of(alloc, root) else {
        return false;
    };
    let done = waited(rt, alloc, &plan, gate, asked);
    drop(plan);
    match done {
        Some(done) => is_line(alloc, done, line),
        None => false,
    }
}

// How many turns the operation of the plan with this root takes until it can be collected.
fn turns_at<R: Wait + Sync>(rt: &R, alloc: Global, root: &str, asked: bool) -> Option<u32>
    requires sync { IsSync R.row }
{
    let Some(plan) = plan_of(alloc, root) else {
        return None;
    };
    let turns = turned(rt, alloc, &plan, asked);
    drop(plan);
    turns
}
