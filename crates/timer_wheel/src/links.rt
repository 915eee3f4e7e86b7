//! Links between nodes, which are numbers.
ghost use Rattle.std.specs.Prelude.{◌≡◌, ◌<◌, length, slice_set, IfOk};
ghost use Rattle.std.specs.List.{range_with_len};

use std::alloc::{AllocError, Global};

/// The node after each node, and the one before it.
#[derive(Debug, Drop)]
pub struct Links {
    pub next: Vec<u32>,
    pub prev: Vec<u32>,
}

impl Links {
    /// Links of this many nodes, each of which follows itself.
    pub fn open(alloc: Global, nodes: u32) -> Result<Links, AllocError>
        ensures next { IfOk result (λ links. links.next.items ≡ range_with_len 0 nodes) }
        ensures prev { IfOk result (λ links. links.prev.items ≡ range_with_len 0 nodes) }
    {
        let next = numbers(alloc, nodes)?;
        let prev = numbers(alloc, nodes)?;
        Ok(Links { next, prev })
    }

    /// Makes the second node follow the first.
    pub fn join(&mut self, first: u32, second: u32)
        requires first { first < length self.old.next.items }
        requires second { second < length self.old.prev.items }
        ensures next { self.new.next.items ≡ slice_set self.old.next.items first second }
        ensures prev { self.new.prev.items ≡ slice_set self.old.prev.items second first }
    {
        self.next[first as usize] = second;
        self.prev[second as usize] = first;
    }
}

// So many numbers, from 0 on.
fn numbers(alloc: Global, count: u32) -> Result<Vec<u32>, AllocError>
    ensures { IfOk result (λ numbers. numbers.items ≡ range_with_len 0 count) }
{
    (0..count).collect(alloc)
}
