//! The calls of a post.
ghost use Rattle.std.specs.Prelude.{◌≡◌, IfOk, IfErr, IfSome, IfNone};
ghost use Rattle.loop_queue.specs.Posts.{IsSamePost};
ghost use Rattle.loop_queue.specs.Moves.{Posts, HandsBack, Takes, FindsNone, Drains};

use crate::entry::{Drained, Entry};
use crate::post::LoopPost;
use crate::queue::{Known, Posted, ROOM, Taken};
use crossbeam_queue::Pass;
use life_rules::Name;
use std::sync::Wait;

impl LoopPost {
    /// Its number among the posts of its queue.
    pub fn number(&self) -> u32
        ensures { result ≡ self.now.number }
    {
        self.number
    }

    /// Posts a name. It comes back only where the queue was full at a step of this call, or where
    /// the post posted all that it can count.
    pub fn post<R: Wait>(&mut self, rt: &R, name: Name) -> Result<(), Name>
        ensures same { IsSamePost self.old self.new }
        ensures posted { IfOk result (λ _. Posts name self.old self.new) }
        ensures back { IfErr result (HandsBack name self.old self.new) }
    {
        if self.count == u64::MAX {
            return Err(name);
        }
        let entry = Entry {
            post: self.number,
            count: self.count,
            name,
        };
        let queue = &self.queue.line;
        match queue.push_as::<Posted, R>(rt, &mut self.pass, entry) {
            Ok(()) => {
                self.count += 1;
                Ok(())
            }
            Err(back) => Err(back.name),
        }
    }

    /// Drains the first entry through this post, and gives its name. None only where the queue was
    /// read as empty at a step of this call.
    pub fn take<R: Wait>(&mut self, rt: &R) -> Option<Name>
        ensures same { IsSamePost self.old self.new }
        ensures taken { IfSome result (λ name. Takes name self.old self.new) }
        ensures none { IfNone result (FindsNone self.old self.new) }
    {
        let queue = &self.queue.line;
        match queue.pop_as::<Taken, R>(rt, &mut self.pass) {
            Some(entry) => Some(entry.name),
            None => None,
        }
    }

    /// Moves names from the queue to the back of a list, until the queue was read as empty, as many
    /// were moved as it has room for, or there is no memory for more. It asks for memory before it
    /// takes a name, so no name is lost.
    pub fn drain<R: Wait>(&mut self, rt: &R, names: &mut Vec<Name>) -> Drained
        ensures same { IsSamePost self.old self.new }
        ensures drained { Drains result names.old.items names.new self.old self.new }
    {
        for moved in 0..ROOM as u32 {
            if names.reserve(1).is_err() {
                return Drained::NoMemory(moved);
            }
            let Some(name) = self.take(rt) else {
                return Drained::Emptied(moved);
            };
            names.push_reserved(name);
        }
        Drained::Most
    }

    // What the post knows: the post ends.
    pub(crate) fn into_pass(self) -> Pass<Entry, Known>
        ensures { result ≡ self.pass }
    {
        let LoopPost {
            queue,
            pass,
            number: _,
            count: _,
        } = self;
        drop(queue);
        pass
    }
}
