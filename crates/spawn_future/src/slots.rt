//! The slots in which futures are kept.
ghost use Rattle.std.specs.Prelude.{◌≡◌, ℕ, ◌<◌, Some, None, IfOk, IfSome, IfNone, IsSome, length, replicate, slice_index_or, slice_set};
ghost use Rattle.spawn_future.specs.Slots.{waited_block, abandoned_block, AllTaken, IsFree, IsFoundAt, IsMarkedAt, WaitsNowhere};

use crate::future::Future;
use life_rules::Name;
use op_slot::Block;
use std::alloc::{AllocError, Global};

/// A slot, and the block of its future.
#[derive(Clone, Copy, Debug)]
pub(crate) struct Found {
    pub(crate) slot: usize,
    pub(crate) block: Block,
}

/// So many free slots.
pub(crate) fn free_slots(alloc: Global, most: usize) -> Result<Vec<Option<Future>>, AllocError>
    ensures { IfOk result (λ free. free.items ≡ replicate most None) }
{
    let mut free = Vec::with_capacity(alloc, most)?;
    'fill: while free.len() < most {
        free.push_reserved(None);
    }
    Ok(free)
}

/// A free slot. None only where each is taken.
pub(crate) fn free_slot(slots: &[Option<Future>]) -> Option<usize>
    ensures free { IfSome result (IsFree slots.now) }
    ensures none { IfNone result (AllTaken slots.now) }
{
    for slot in 0..slots.len() {
        if slots[slot].is_none() {
            return Some(slot);
        }
    }
    None
}

// The block of a slot's future, where the owner waits for it.
fn waited_in(slot: &Option<Future>, owner: Name) -> Option<Block>
    ensures { result ≡ waited_block owner slot.now }
{
    match slot {
        Some(future) => {
            if future.is_waited(owner) {
                Some(future.block)
            } else {
                None
            }
        }
        None => None,
    }
}

/// The slot of the future that the owner waits for. None exactly where it waits for none.
pub(crate) fn find(slots: &[Option<Future>], owner: Name) -> Option<Found>
    ensures found { IfSome result (IsFoundAt owner slots.now) }
    ensures none { IfNone result (WaitsNowhere owner slots.now) }
{
    for slot in 0..slots.len() {
        if let Some(block) = waited_in(&slots[slot], owner) {
            return Some(Found { slot, block });
        }
    }
    None
}

/// The block of a slot's future, where that is abandoned.
pub(crate) fn abandoned_in(slots: &[Option<Future>], slot: usize) -> Option<Block>
    requires { slot < length slots.now }
    ensures { result ≡ abandoned_block (slice_index_or slots.now slot None) }
{
    match &slots[slot] {
        Some(future) => {
            if future.abandoned {
                Some(future.block)
            } else {
                None
            }
        }
        None => None,
    }
}

/// Puts a future into a free slot.
pub(crate) fn put(slots: &mut Vec<Option<Future>>, slot: usize, future: Future)
    requires within { slot < length slots.old.items }
    requires free { slice_index_or slots.old.items slot None ≡ None }
    ensures { slots.new.items ≡ slice_set slots.old.items slot (Some future) }
{
    match slots[slot].replace(future) {
        None => {}
        Some(_) => unreachable!(),
    }
}

/// Takes the future of a slot, which is free then.
pub(crate) fn take(slots: &mut Vec<Option<Future>>, slot: usize) -> Future
    requires within { slot < length slots.old.items }
    requires taken { IsSome (slice_index_or slots.old.items slot None) }
    ensures items { slots.new.items ≡ slice_set slots.old.items slot None }
    ensures future { slice_index_or slots.old.items slot None ≡ Some result }
{
    match slots[slot].take() {
        Some(future) => future,
        None => unreachable!(),
    }
}

/// Marks the future of a slot as abandoned.
pub(crate) fn mark(slots: &mut Vec<Option<Future>>, slot: usize)
    requires within { slot < length slots.old.items }
    requires taken { IsSome (slice_index_or slots.old.items slot None) }
    ensures { IsMarkedAt slots.old.items slots.new.items slot }
{
    let future = take(slots, slot);
    put(slots, slot, future.into_abandoned());
}

/// Gives back the memory of slots that are all free.
pub(crate) fn discard(slots: Vec<Option<Future>>)
    requires { (t : ℕ) → slice_index_or slots.items t None ≡ None }
{
    let mut left = slots;
    'empty: while let Some(last) = left.pop() {
        match last {
            None => {}
            Some(_) => unreachable!(),
        }
    }
    left.destroy_empty();
}
