//! A run over the records of a source.
ghost use Rattle.std.specs.Prelude.{◌≡◌, ◌≢◌, ◌≤◌, ◌<◌, IfOk, OnErr, OnOk, ℕ, List, length};
ghost use Rattle.std.specs.Thread.{IsSync};
ghost use Rattle.record_loop.specs.CaughtUp.{HasCaughtUp};
ghost use Rattle.record_loop.specs.Ran.{Ran};
ghost use Rattle.record_loop.specs.ReadStarts.{ReadsOnly};
ghost use Rattle.record_loop.specs.Standing.{opened_by};
ghost use Rattle.record_loop.specs.Tallies.{TalliesWith};
ghost use Rattle.record_loop.specs.Works.{IsIdle};
ghost use Rattle.exec_io.specs.Untouched.{IsUntouched};
ghost use Rattle.record_loop.specs.Beginnings.{IsReady};
ghost use Rattle.record_lines.specs.declared.ending.End.{End};
ghost use Rattle.line_rules.specs.PlanTerms.{MayRun};

use crate::ending::Ending;
use crate::in_flight::InFlight;
use crate::operations::Operations;
use crate::printer::Form;
use crate::record_source::RecordSource;
use crate::session::Session;
use exec_io::Sink;
use plan_rules::Settings;
use std::alloc::{AllocError, Global};
use std::sync::Wait;

/// The most bytes that are read at once.
const PIECE: usize = 65_536;

/// A session that has taken no bytes, and room for a piece: all the memory that the loop takes.
fn open(
    alloc: Global,
    window: usize,
    settings: Settings,
    form: Form,
) -> Result<(Session, Vec<u8>), AllocError>
    requires some { 0 < window }
    ensures session { IfOk result (λ made. IsReady window settings form made.0) }
    ensures buffer { IfOk result (λ made. 0 < length made.1.items) }
{
    let flight = InFlight::open(alloc, window, settings, form)?;
    let buffer = vec![in alloc; 0u8; PIECE]?;
    Ok((Session::open(alloc, flight)?, buffer))
}

/// Runs the records of a source, at most a window of them at once, and writes their outcomes.
///
/// The records are read to their end, a fault or a limit. Before each read all records that were
/// read are written, and handed on. After a lost write nothing more is read or begun. Where there
/// is no memory to begin with, nothing is read, nothing is written and no operation is begun.
pub fn run_records<R: Wait + Sync, O: Operations, S: RecordSource, K: Sink>(
    rt: &R,
    alloc: Global,
    settings: Settings,
    window: usize,
    form: Form,
    operations: &mut O,
    records: &mut S,
    out: &mut K,
) -> Result<Ending, AllocError>
    requires sync { IsSync R.row }
    requires some { 0 < window }
    requires settings_are { settings ≡ (O.state operations.old).plan.settings }
    requires idle { IsIdle (O.state operations.old) }
    requires may_run { MayRun settings }
    ensures untouched { OnErr result (IsUntouched
        (S.told records.old) (S.told records.new) (K.told out.old) (K.told out.new)) }
    ensures unread { OnErr result (S.reads records.new ≡ S.reads records.old) }
    ensures same { OnErr result (O.state operations.new ≡ O.state operations.old) }
    ensures later { (S.told records.old).faults ≤ (S.told records.new).faults }
    ensures still { IfOk result (λ ending. ending.end ≢ End.Fault →
        (S.told records.new).faults ≡ (S.told records.old).faults) }
    ensures ran { IfOk result (Ran O.WantsMemory
        (opened_by (O.state operations.old) window form (K.told out.old))
        (S.told records.old) (S.told records.new)
        (O.state operations.new).collected (K.told out.new)) }
    ensures told { IfOk result (λ ending.
        TalliesWith (O.state operations.new).collected ending.summary) }

    // Each operation that was begun was collected.
    ensures ended { IfOk result (λ _. (O.state operations.new).running ≡ 0) }
    ensures plan { (O.state operations.new).plan ≡ (O.state operations.old).plan }

    // When a read began, all records whose line feed was read were written and handed on, and no
    // write was lost.
    ensures reads { OnOk result (ReadsOnly (HasCaughtUp
        (opened_by (O.state operations.old) window form (K.told out.old))
        (S.told records.old).left) (S.reads records.old) (S.reads records.new)) }
{
    let (session, mut buffer) = open(alloc, window, settings, form)?;
    Ok(session.run(rt, alloc, &mut buffer, operations, records, out))
}
