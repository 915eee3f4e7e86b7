//! The operations of a run, each under its ticket.
ghost use Rattle.std.specs.Option.{option_map};
ghost use Rattle.std.specs.Prelude.{◌≡◌, ℕ, ◌<◌, Some, None, IfOk, IsSome, is_none, length, replicate, slice_index_or, slice_set, vec_len};

use count_scope::Association;
use op_slot::Block;
use std::alloc::{AllocError, Global};

/// An operation that was started and isn't collected: its block, and its association with the
/// scope. It has no drop: the association is given back.
pub struct Operation {
    pub(crate) block: Block,
    pub(crate) association: Association,
}

impl Operation {
    /// Its association.
    pub(crate) fn into_association(self) -> Association
        ensures { result ≡ self.association }
    {
        let Operation {
            block: _,
            association,
        } = self;
        association
    }
}

/// So many free tickets.
pub(crate) fn free_tickets(
    alloc: Global,
    tickets: usize,
) -> Result<Vec<Option<Operation>>, AllocError>
    ensures { IfOk result (λ free. free.items ≡ replicate tickets None) }
{
    let mut free = Vec::with_capacity(alloc, tickets)?;
    'fill: while free.len() < tickets {
        free.push_reserved(None);
    }
    Ok(free)
}

/// Whether a ticket is free.
pub(crate) fn is_free(operations: &[Option<Operation>], ticket: usize) -> bool
    requires { ticket < length operations.now }
    ensures { result ≡ is_none (slice_index_or operations.now ticket None) }
{
    operations[ticket].is_none()
}

/// The block of a ticket's operation.
pub(crate) fn block_of(operations: &[Option<Operation>], ticket: usize) -> Option<Block>
    requires { ticket < length operations.now }
    ensures { result ≡ option_map (λ o. o.block) (slice_index_or operations.now ticket None) }
{
    match &operations[ticket] {
        Some(operation) => Some(operation.block),
        None => None,
    }
}

/// Puts an operation under a free ticket.
pub(crate) fn put(operations: &mut Vec<Option<Operation>>, ticket: usize, operation: Operation)
    requires within { ticket < vec_len operations.old }
    requires free { slice_index_or operations.old.items ticket None ≡ None }
    ensures { operations.new.items ≡ slice_set operations.old.items ticket (Some operation) }
{
    match operations[ticket].replace(operation) {
        None => {}
        Some(_) => unreachable!(),
    }
}

/// Takes the operation of a ticket, which is free then.
pub(crate) fn take(operations: &mut Vec<Option<Operation>>, ticket: usize) -> Operation
    requires within { ticket < vec_len operations.old }
    requires taken { IsSome (slice_index_or operations.old.items ticket None) }
    ensures items { operations.new.items ≡ slice_set operations.old.items ticket None }
    ensures operation { slice_index_or operations.old.items ticket None ≡ Some result }
{
    match operations[ticket].take() {
        Some(operation) => operation,
        None => unreachable!(),
    }
}

/// Gives back the memory of tickets that are all free.
pub(crate) fn discard(operations: Vec<Option<Operation>>)
    requires { (t : ℕ) → slice_index_or operations.items t None ≡ None }
{
    let mut left = operations;
    'empty: while let Some(last) = left.pop() {
        match last {
            None => {}
            Some(_) => unreachable!(),
        }
    }
    left.destroy_empty();
}
