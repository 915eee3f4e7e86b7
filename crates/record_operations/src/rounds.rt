//! One round of the loop, with the names that workers posted.
ghost use Rattle.std.specs.Thread.{IsSync};
ghost use Rattle.deck_relay.specs.SameDecks.{KeepsDeck};
ghost use Rattle.plan_kinds.specs.Runnable.{IsRunnable};
ghost use Rattle.exec_recv.specs.Asides.{KeepsAside};
ghost use Rattle.exec_recv.specs.Over.{IsOver};
ghost use Rattle.run_loop.specs.Delayed.{TakesSoMany};
ghost use Rattle.run_loop.specs.Loops.{IsReady, KeepsCounts, deck_of};
ghost use Rattle.run_loop.specs.Turns.{MeetsAll, MeetsEach};
ghost use Rattle.record_operations.specs.Owns.{KeepsBoth, KeepsPost};
ghost use Rattle.record_operations.specs.Drained.{LearnsMore, TakesLearned};

use exec_recv::{Item, Site, Stepper};
use loop_queue::LoopPost;
use op_slot::OpTable;
use run_loop::Loop;
use std::alloc::Global;
use std::sync::Wait;

// Tells the loop of the names that workers posted.
fn drain<R: Wait>(rt: &R, looped: &mut Loop, post: &mut Option<LoopPost>)
    ensures learns { LearnsMore looped.old looped.new }
    ensures post { KeepsPost post.old post.new }
{
    match post {
        None => {}
        Some(post) => {
            // names for which there is no memory are lost, and a turn finds their nodes
            let _drained = looped.drain(rt, post);
        }
    }
}

/// Takes the nodes of the names that the loop was told of, and where it is to look at each node it
/// does so where it took none.
pub(crate) fn take_all<T: Stepper, R: Wait + Sync>(
    rt: &R,
    alloc: Global,
    table: &OpTable<Item>,
    stepper: &T,
    looped: &mut Loop,
    looks: bool,
) -> u32
    requires sync { IsSync R.row }
    requires ready { IsReady table.now looped.old }
    requires over { IsOver table.now (T.plan stepper.now) }
    requires kinds { IsRunnable (T.plan stepper.now) }
    ensures ready { IsReady table.now looped.new }
    ensures counts { KeepsCounts looped.old looped.new }
    ensures aside { KeepsAside looped.old.hand.me looped.new.hand.me }
    ensures served { TakesSoMany T.does table.now result looped.old looped.new }
    ensures met { MeetsAll T.does table.now looped.old looped.new }
    ensures deck { KeepsDeck (deck_of looped.old) (deck_of looped.new) }
{
    let site = Site::of(rt, alloc, table, stepper);
    if looks {
        looped.turn(&site)
    } else {
        looped.poll(&site)
    }
}

/// Tells the loop of the names that workers posted, and takes the nodes of all names that it was
/// told of; and where it is to look at each node it does so where it took none. The answer is how
/// many it took.
pub(crate) fn go_once<T: Stepper, R: Wait + Sync>(
    rt: &R,
    alloc: Global,
    table: &OpTable<Item>,
    stepper: &T,
    looped: &mut Loop,
    post: &mut Option<LoopPost>,
    looks: bool,
) -> u32
    requires sync { IsSync R.row }
    requires ready { IsReady table.now looped.old }
    requires over { IsOver table.now (T.plan stepper.now) }
    requires kinds { IsRunnable (T.plan stepper.now) }
    ensures ready { IsReady table.now looped.new }
    ensures counts { KeepsCounts looped.old looped.new }
    ensures aside { KeepsAside looped.old.hand.me looped.new.hand.me }
    ensures served { TakesLearned T.does table.now result looped.old looped.new }
    ensures met { MeetsEach T.does table.now looped.old looped.new }
    ensures both { KeepsBoth (deck_of looped.old) post.old (deck_of looped.new) post.new }
{
    drain(rt, looped, post);
    take_all(rt, alloc, table, stepper, looped, looks)
}
