//! A table that is opened for a run.
ghost use Rattle.std.specs.Prelude.{◌≡◌, ◌<◌, ◌≤◌, IfOk};
ghost use Rattle.life_rules.specs.declared.limits.TheConstants.{MOST_BLOCKS, MOST_HANDS};
ghost use Rattle.whole_run.specs.Opened.{IsOpenedFor, blocks_for};

use crate::desks::{DeskRoom, open_desks};
use exec_recv::Item;
use life_rules::MOST_BLOCKS;
use line_rules::at_once;
use op_table::{Hand, OpTable};
use plan_shape::Plan;
use run_workers::Desk;
use std::alloc::{AllocError, Global};

/// A table over a plan, its hands, one for each worker and one more, and the desks of the workers,
/// and last that of hand 0, with the room to close them. There are none without workers, and none
/// for more workers than a relay has decks for. It has no drop: a run closes the desks.
pub struct Opened {
    pub(crate) table: OpTable<Item>,
    pub(crate) hands: Vec<Hand<Item>>,
    pub(crate) desks: Vec<Desk>,
    pub(crate) room: Option<DeskRoom>,
}

// How many blocks the table of a run has: one for each record that is worked on at once, and for a
// plan with an `ahead` more, for the operations that it spawns: as many as the greatest window of
// such a plan leaves.
fn blocks_for(plan: &Plan, window: usize) -> usize
    requires few { window ≤ MOST_BLOCKS }
    ensures value { result ≡ blocks_for plan.now window }
    ensures more { window ≤ result }
    ensures few { result ≤ MOST_BLOCKS }
{
    let most = MOST_BLOCKS as usize;
    let spare = most - at_once(plan, most);
    (window + spare).min(most)
}

/// Opens a table over the plan for a run with this window, and a hand for each of so many workers
/// and one more. It fails only for want of memory, and nothing is read or written.
///
/// Afterwards: no operation was begun on the table. It has a block for each record of the window,
/// and for a plan with an `ahead` 64 more, or as many as a table has room for. Its scope is of the
/// kind that the plan says, and takes as many associations as there are blocks.
pub(crate) fn open_run(
    alloc: Global,
    plan: &Plan,
    window: usize,
    workers: u32,
) -> Result<Opened, AllocError>
    requires some { 0 < window }
    requires few { window ≤ MOST_BLOCKS }
    requires workers { workers < MOST_HANDS }
    ensures { IfOk result (IsOpenedFor plan.now window workers) }
{
    let most = blocks_for(plan, window) as u32;
    let kind = plan.settings().scope;
    let count = workers + 1;
    let (table, hands) = OpTable::open(alloc, plan.tree(), plan, most, count, kind, most)?;
    let (desks, room) = open_desks(alloc, workers)?;
    // Asked for what they say of every tree and of every plan.
    let _ = table.tree().size();
    let _ = plan.size();
    Ok(Opened {
        table,
        hands,
        desks,
        room,
    })
}
