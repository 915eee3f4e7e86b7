//! How a queue is opened.
ghost use Rattle.std.specs.Prelude.{◌≤◌, IfOk};
ghost use Rattle.std.specs.Arc.{arc_value};
ghost use Rattle.crossbeam_queue.specs.Passes.{view, IsPassOf};
ghost use Rattle.loop_queue.specs.Posts.{AreOpened, IsNewPost, IsBare};

use crate::entry::Entry;
use crate::post::LoopPost;
use crate::queue::{Known, Line, LoopQueue, MOST_POSTS, Numbered, ROOM};
use crossbeam_queue::Pass;
use std::alloc::{AllocError, Global};
use std::sync::Arc;

// A post over a pass that posted and drained nothing.
fn seat(
    queue: &Arc<LoopQueue>,
    pass: Pass<Entry, Known>,
    number: u32,
) -> Result<LoopPost, AllocError>
    requires seated { IsPassOf (arc_value queue.now).line pass }
    requires bare { IsBare number (view pass) }
    ensures { IfOk result (IsNewPost (arc_value queue.now) pass number) }
{
    Ok(LoopPost {
        queue: Arc::try_clone(queue)?,
        pass,
        number,
        count: 0,
    })
}

impl LoopQueue {
    /// A queue with room for `ROOM` entries, and its posts, each at its number. It fails only for
    /// want of memory.
    pub fn open(alloc: Global, posts: u32) -> Result<(Arc<LoopQueue>, Vec<LoopPost>), AllocError>
        requires some { 1 ≤ posts }
        requires most { posts ≤ MOST_POSTS }
        ensures { IfOk result (λ opened. AreOpened posts (arc_value opened.0) opened.1.items) }
    {
        let (line, mut rest) = Line::ruled(alloc, ROOM)?;
        let queue = Arc::new(alloc, LoopQueue { line })?;
        let mut all = Vec::with_capacity(alloc, posts as usize)?;
        for number in 0..posts - 1 {
            let pass = queue.line.another::<Numbered>(&mut rest);
            all.push(seat(&queue, pass, number)?)?;
        }
        all.push(seat(&queue, rest, posts - 1)?)?;
        Ok((queue, all))
    }
}
