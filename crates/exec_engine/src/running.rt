//! A run that words ask for: its plan, its records, and what is told of it.
ghost use Rattle.std.specs.Prelude.{◌≡◌, Some, IfOk, vec_len};
ghost use Rattle.std.specs.Thread.{IsSync};
ghost use Rattle.exec_words.specs.declared.number.TheConstants.{MOST_WORKERS};
ghost use Rattle.line_rules.specs.PlanTerms.{MayRun};
ghost use Rattle.plan_kinds.specs.Reached.{KindsMatch};
ghost use Rattle.whole_run.specs.Endings.{streams};
ghost use Rattle.exec_engine.specs.Closes.{AnswersRun};
ghost use Rattle.exec_engine.specs.Ends.{RunEnds};
ghost use Rattle.exec_engine.specs.Surroundings.{told_by};
ghost use Rattle.exec_engine.specs.Tallies.{AreInOrder, IsNew};
ghost use Rattle.exec_engine.specs.Tasks.{IsBounded};

use crate::crewing::workers_for;
use crate::opening::open_plan;
use crate::refusal::give_up;
use crate::system::System;
use crate::tally::Tally;
use crate::task::{Origin, Task};
use exec_io::{Shelf, Sink};
use exec_recv::Gate;
use exec_status::{Status, conclude};
use line_rules::at_once;
use plan_shape::Plan;
use pool_backends::Backend;
use record_loop::{Form, Generated, RecordSource};
use run_workers::Crew;
use std::alloc::{AllocError, Global};
use std::sync::Wait;
use std::thread::Threads;
use whole_run::{Account, Setup, run_lines};

/// Opens the plan of a task, works on all its records, and gives the status that this ends with.
/// Generated records are a source like any other, and then `records` isn't read. The tally, which
/// is new, is set to that of the run, where there was a plan, and memory to begin with.
pub fn run_task<
    R: Threads + Wait + Sync,
    F: Shelf,
    S: RecordSource,
    K: Sink,
    N: Sink,
    G: Gate + Sync,
>(
    rt: &R,
    alloc: Global,
    task: Task<'_>,
    system: &mut System<F, S, K, N>,
    backends: Vec<Box<dyn Backend + Send>>,
    gate: &G,
    tally: &mut Tally,
) -> Status
    requires sync { IsSync R.row }
    requires bounds { IsBounded task }
    requires pool { vec_len backends ≡ MOST_WORKERS }
    requires new { IsNew tally.old }
    ensures { RunEnds task.entry
        (told_by F.told S.told S.reads K.told N.told system.old)
        (told_by F.told S.told S.reads K.told N.told system.new) tally.new result }
{
    match open_plan(alloc, task.plan, &mut system.shelf) {
        Ok(plan) => {
            let answer = run_plan(rt, alloc, &plan, task, backends, gate, system);
            conclude(tally.take(answer), &mut system.notes)
        }
        Err(fault) => {
            drop(backends);
            give_up(fault, &mut system.notes)
        }
    }
}

// Works on all records of a task by its plan. The shelf and the notes stay as they are.
fn run_plan<R: Threads + Wait + Sync, F, S: RecordSource, K: Sink, N, G: Gate + Sync>(
    rt: &R,
    alloc: Global,
    plan: &Plan,
    task: Task<'_>,
    backends: Vec<Box<dyn Backend + Send>>,
    gate: &G,
    system: &mut System<F, S, K, N>,
) -> Result<Account, AllocError>
    requires sync { IsSync R.row }
    requires bounds { IsBounded task }
    requires pool { vec_len backends ≡ MOST_WORKERS }
    requires kinds { KindsMatch plan.now.nodes plan.now.settings.input }
    requires may_run { MayRun plan.now.settings }
    ensures shelf { system.new.shelf ≡ system.old.shelf }
    ensures notes { system.new.notes ≡ system.old.notes }
    ensures ordered { IfOk result (λ a. AreInOrder task.entry (Some a.closing) a.given) }
    ensures runs { AnswersRun plan.now task.entry
        (streams (S.told system.old.records) (S.reads system.old.records) (K.told system.old.out))
        (streams (S.told system.new.records) (S.reads system.new.records) (K.told system.new.out))
        result }
{
    let window = at_once(plan, task.window as usize);
    let crew = Crew {
        workers: workers_for(plan, task.workers),
        helps: true,
        order: task.order,
        backends,
    };
    let System { records, out, .. } = system;
    match task.origin {
        Origin::Source(form) => {
            let setup = Setup { window, form, crew };
            run_lines(rt, alloc, plan, setup, gate, records, out)
        }
        Origin::Generated(count) => match Generated::new(alloc, plan.settings().input, count) {
            Ok(mut lines) => {
                let form = Form::Summary;
                let setup = Setup { window, form, crew };
                run_lines(rt, alloc, plan, setup, gate, &mut lines, out)
            }
            Err(error) => {
                drop(crew);
                Err(error)
            }
        },
    }
}
