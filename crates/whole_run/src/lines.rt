//! A run over the records of a source.
ghost use Rattle.std.specs.Prelude.{◌<◌, ◌≤◌, IfOk, OnErr, vec_len};
ghost use Rattle.std.specs.Thread.{IsSync};
ghost use Rattle.life_rules.specs.declared.limits.TheConstants.{MOST_BLOCKS};
ghost use Rattle.plan_kinds.specs.Reached.{KindsMatch};
ghost use Rattle.whole_run.specs.Accounts.{EndsRun, IsClosedFor, AreGiven};
ghost use Rattle.whole_run.specs.Desks.{AreClosedFor};
ghost use Rattle.whole_run.specs.Endings.{IsUnbegun, streams};
ghost use Rattle.run_workers.specs.Crews.{IsCrew};
ghost use Rattle.line_rules.specs.PlanTerms.{MayRun};

use crate::account::Account;
use crate::beside::run_on_table;
use crate::desks::close_desks;
use crate::front::LinesFront;
use crate::opened::{Opened, open_run};
use crate::setup::Setup;
use crate::working::{Came, Tabled};
use exec_io::Sink;
use exec_recv::Gate;
use node_stepper::NodeSteps;
use plan_shape::Plan;
use record_loop::RecordSource;
use std::alloc::{AllocError, Global};
use std::marker::{Brand, PhantomData};
use std::sync::Wait;
use std::thread::Threads;

/// Runs the records of a source by a plan, at most a window of them at once, and writes their
/// outcomes. Each record is an operation on a running table. A plan with an `ahead` wants a window
/// of at most 192, as `at_once` of line_rules gives it: with more, records may have taken all
/// blocks, and then wait for ever for one in which to spawn.
///
/// Afterwards: what `run_records` promises. Each line is told by the operation that was collected
/// for its record from the table that the account tells of, which was closed with its scope joined
/// and each block given back. The desks of the hands were closed. Of the crew's backends one was
/// given out to each worker, arranged in the crew's order. Where there is no memory to begin with,
/// nothing was read and nothing written.
pub fn run_lines<'a, G: Gate + Sync, R: Threads + Wait + Sync, S: RecordSource, K: Sink>(
    rt: &R,
    alloc: Global,
    plan: &'a Plan,
    setup: Setup,
    gate: &'a G,
    records: &'a mut S,
    out: &'a mut K,
) -> Result<Account, AllocError>
    requires sync { IsSync R.row }
    requires some { 0 < setup.window }
    requires few { setup.window ≤ MOST_BLOCKS }
    requires kinds { KindsMatch plan.now.nodes plan.now.settings.input }
    requires may_run { MayRun plan.now.settings }
    requires crew { IsCrew setup.crew.workers (vec_len setup.crew.backends) }
    ensures ends { IfOk result (EndsRun plan.now setup.window setup.form
        (streams (S.told records.old) (S.reads records.old) (K.told out.old))
        (streams (S.told records.new) (S.reads records.new) (K.told out.new))) }
    ensures closed { IfOk result (λ a.
        IsClosedFor plan.now setup.window a.tally a.closing) }
    ensures desked { IfOk result (λ a. AreClosedFor setup.crew.workers a.desks) }
    ensures given { IfOk result (λ a.
        AreGiven setup.crew.order (vec_len setup.crew.backends) setup.crew.workers a.given) }
    ensures unbegun { OnErr result (IsUnbegun
        (streams (S.told records.old) (S.reads records.old) (K.told out.old))
        (streams (S.told records.new) (S.reads records.new) (K.told out.new))) }
{
    let Setup { window, form, crew } = setup;
    let steps = NodeSteps::of(plan, gate);
    let opened = open_run(alloc, plan, window, crew.workers)?;
    let Opened {
        table,
        mut hands,
        mut desks,
        room,
    } = opened;
    let mut came = Came::none();
    let front = LinesFront {
        records,
        out,
        came: &mut came,
        on: Tabled {
            plan,
            stepper: &steps,
            table: &table,
            window,
            form,
            helps: crew.helps,
        },
        brand: PhantomData,
    };
    let mut given = None;
    let left = run_on_table::<Brand, NodeSteps<'_, G>, R, S, K>(
        rt, alloc, crew, &mut hands, &mut desks, &mut given, front,
    );
    left.clear();
    let desks = close_desks(rt, room, desks);
    let closing = table.close_table(hands);
    let Came { answer, tally } = came;
    Ok(Account {
        ending: answer?,
        tally,
        closing,
        desks,
        given,
    })
}
