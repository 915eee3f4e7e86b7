//! How one worker serves on a hand.
ghost use Rattle.std.specs.Thread.{IsSync};
ghost use Rattle.run_workers.specs.Crews.{CanServe, GivesBack};

use exec_recv::{Item, Site, Stepper};
use op_slot::{Hand, OpTable};
use std::alloc::Global;
use std::snapshot::Snapshot;
use std::sync::Wait;
use std::thread::Promise;
use steal_pool::{Arranged, Desk, Worker};

/// The promise of a worker of this table, on this hand and at this desk: the hand has served and
/// has claimed no block, and the desk comes back, with nothing drained through its post.
#[derive(Drop)]
pub(crate) struct Served {
    pub(crate) table: Snapshot<OpTable<Item>>,
    pub(crate) hand: Snapshot<Hand<Item>>,
    pub(crate) desk: Snapshot<Option<Desk>>,
}

impl Promise<(Hand<Item>, Option<Desk>)> for Served {
    ghost use Rattle.run_workers.specs.Crews.{GivesBack};

    ghost kept_by = { λ p r. GivesBack p.table.value p.hand.value p.desk.value r.0 r.1 };
}

/// Serves the pool on a spare hand, with this backend, and this desk where there is one, until the
/// scope is joined. The backend is dropped in the worker's thread.
pub(crate) fn serve<T: Stepper, R: Wait + Sync>(
    rt: &R,
    alloc: Global,
    table: &OpTable<Item>,
    stepper: &T,
    hand: Hand<Item>,
    backend: Arranged,
    desk: Option<Desk>,
) -> (Hand<Item>, Option<Desk>)
    requires sync { IsSync R.row }
    requires serve { CanServe table.now (T.plan stepper.now) hand }
    ensures { GivesBack table.now hand desk result.0 result.1 }
{
    let site = Site::of(rt, alloc, table, stepper);
    let mut worker = Worker::new(hand, backend, desk);
    worker.serve(&site);
    worker.into_parts()
}
