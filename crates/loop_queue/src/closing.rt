//! How a queue is closed.
ghost use Rattle.std.specs.Prelude.{◌≡◌};
ghost use Rattle.std.specs.Arc.{arc_value};
ghost use Rattle.loop_queue.specs.Posts.{CameBack};
ghost use Rattle.loop_queue.specs.Law.{ComeAndGoInOrder};

use crate::post::LoopPost;
use crate::queue::{Gathered, LoopQueue, Whole};
use std::sync::{Arc, Wait};

impl LoopQueue {
    /// Closes the queue, to which all its posts came back, and counts the entries that are left.
    pub fn close<R: Wait>(rt: &R, queue: Arc<LoopQueue>, posts: Vec<LoopPost>) -> u32
        requires all { CameBack (arc_value queue) posts.items }
        ensures law { ComeAndGoInOrder result posts.items }
    {
        let mut posts = posts;
        let Some(last) = posts.pop() else {
            unreachable!()
        };
        let mut whole = last.into_pass();
        while let Some(post) = posts.pop() {
            queue.line.absorb::<Gathered>(&mut whole, post.into_pass());
        }
        queue.line.len_as::<Whole, R>(rt, &mut whole) as u32
    }
}
