//! A run on hand 0 beside the workers of a crew.
ghost use Rattle.std.specs.Prelude.{◌≡◌, ◌+◌, vec_len};
ghost use Rattle.std.specs.Thread.{IsSync};
ghost use Rattle.table_steps.specs.Closings.{claimed_by};
ghost use Rattle.table_steps.specs.Views.{AreFreshHands};
ghost use Rattle.whole_run.specs.Fronts.{CameOut, opening_by, streams_of};
ghost use Rattle.whole_run.specs.Opened.{AreBack, CanRunOn};
ghost use Rattle.whole_run.specs.Owns.{IsMarkedBy, last_desk};
ghost use Rattle.run_workers.specs.Crews.{IsCrew};
ghost use Rattle.whole_run.specs.Accounts.{AreGiven};
ghost use Rattle.whole_run.specs.Desks.{ComeBack};

use crate::desks::put_own;
use crate::front::LinesFront;
use exec_io::Sink;
use exec_recv::{Item, Stepper};
use op_table::Hand;
use record_loop::RecordSource;
use record_operations::OnTable;
use run_workers::{Arrangement, Crew, Desk, Given, Ground, Staff, run_beside};
use std::alloc::Global;
use std::mem;
use std::sync::Wait;
use std::thread::Threads;

/// Runs a source's records on hand 0 of a table, the first of the hands, beside the workers of a
/// crew on the others. Hand 0 has the last desk, and the others have one each, where there are any.
/// All hands come back, hand 0's last, and all desks, each in its place, and it tells which
/// backends were given out. `B` tells which table it is, and which desk hand 0 has.
pub(crate) fn run_on_table<
    'a,
    'b,
    B: OnTable,
    T: Stepper + Sync,
    R: Threads + Wait + Sync,
    S: RecordSource,
    K: Sink,
>(
    rt: &R,
    alloc: Global,
    crew: Crew,
    hands: &mut Vec<Hand<Item>>,
    desks: &mut Vec<Desk>,
    given: &mut Option<Given>,
    front: LinesFront<'a, 'b, B, T, S, K>,
) -> LinesFront<'a, 'b, B, T, S, K>
    requires sync { IsSync R.row }
    requires crew { IsCrew crew.workers (vec_len crew.backends) }
    requires runs { CanRunOn front.on.table.now front.on.plan.now front.on.window
        (T.plan front.on.stepper.now) }
    requires count { front.on.table.now.frame.hands ≡ crew.workers + 1 }
    requires hands { AreFreshHands front.on.table.now (crew.workers + 1) hands.old.items }
    requires marked { IsMarkedBy B.is B.claimed B.desk front.on.table.now
        (last_desk desks.old.items) }
    ensures source { result.records.ghost_name ≡ front.entry.records.ghost_name }
    ensures sink { result.out.ghost_name ≡ front.entry.out.ghost_name }
    ensures came { result.came.ghost_name ≡ front.entry.came.ghost_name }
    ensures out { CameOut (opening_by K.told front.entry)
        (streams_of S.told S.reads K.told front.entry)
        (streams_of S.told S.reads K.told result)
        result.came.now (claimed_by hands.new.items) }
    ensures back { AreBack front.entry.on.table.now hands.new.items }
    ensures desks { ComeBack desks.old.items desks.new.items }
    ensures given { AreGiven crew.order (vec_len crew.backends) crew.workers given.new }
{
    let mut others = mem::replace(hands, Vec::new(alloc));
    let mut theirs = mem::replace(desks, Vec::new(alloc));
    let hand = others.remove(0);
    let own = theirs.pop();
    let Crew {
        workers: _,
        helps: _,
        order,
        backends,
    } = crew;
    let backends = Arrangement::of(backends, others.len(), order);
    let ground = Ground {
        rt,
        alloc,
        table: front.on.table,
        stepper: front.on.stepper,
    };
    let staff = Staff {
        backends,
        hands: others,
        desks: theirs,
    };
    let (left, last, mut all, mut kept, own, told) = run_beside(ground, staff, hand, own, front);
    all.push_reserved(last);
    put_own(&mut kept, own);
    *hands = all;
    *desks = kept;
    *given = Some(told);
    left
}
